//! What a schema says: types with their attributes and relationships, the values of attributes, and the places in an
//! order. All are plain data, whose fields contracts and definitions name.
#![tactic(auto)]

mod faults;
mod kinds;
mod lookups;
mod schema;
mod targets;
mod values;

pub use faults::{SchemaFault, Why};
pub use kinds::{ATTRIBUTE_LIMIT, Attribute, KIND_LIMIT, Kind, RELATIONSHIP_LIMIT, Relationship};
pub use schema::Schema;
pub use targets::Target;
pub use values::{AttrValue, Form, Place, TEXT_LIMIT, copy_values, same_value, same_values};
