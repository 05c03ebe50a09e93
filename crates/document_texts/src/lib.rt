//! The texts of documents, put together in a draft (JSON:API 1.1, "Document Structure"). Each is the compact text of a value that
//! specs/ of store_model define; no value is made.
#![tactic(auto)]

mod attributes;
mod documents;
mod fields;
mod identifiers;
mod linkages;
mod names;
mod pages;
mod pieces;
mod relationships;
mod resources;
mod values;

pub use documents::{add_linkage_document, add_null_document, add_row_document};
pub use linkages::add_linkage;
pub use pages::{add_page_links, add_result_item};
pub use resources::{add_resource, add_resource_item, add_resources};
