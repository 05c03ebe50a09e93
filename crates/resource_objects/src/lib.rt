//! Rows as they stand in documents: resource objects and linkages, and the paths in their links (JSON:API 1.1,
//! "Resource Objects"). What each means is defined in specs/ of store_model.
#![tactic(auto)]

mod attributes;
mod fields;
mod linkages;
mod members;
mod paths;
mod relationships;
mod resources;

pub use linkages::linkage_value;
pub use paths::{collection_path, related_path, relationship_path, resource_path};
pub use resources::resource_value;
