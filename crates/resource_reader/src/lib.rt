//! Documents of requests: resource objects and linkages, read to operations, or the first refusal (JSON:API 1.1, "Document
//! Structure" and "Creating, Updating and Deleting Resources").
#![tactic(auto)]

mod creates;
mod fields;
mod identifiers;
mod linkages;
mod parts;
mod reads;
mod refusals;
mod spots;
mod updates;
mod values;

pub use reads::{read_create, read_members, read_update};
