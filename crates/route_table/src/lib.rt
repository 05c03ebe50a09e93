//! What a path names, and what each target answers: the routes of a schema. The definitions are those of request_model
//! (JSON:API 1.1, "Fetching Data" and "Creating, Updating and Deleting Resources").
#![tactic(auto)]

mod methods;
mod pieces;
mod routes;

pub use methods::{allow_of, allows, need_of};
pub use routes::find_target;
