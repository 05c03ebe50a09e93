//! Queries of requests: the parameters of each target, judged from left to right, read to a fit query or the first
//! refusal (JSON:API 1.1, "Query Parameters"; Cursor Pagination profile, "Query Parameters"). What each means is defined
//! in request_model.
#![tactic(auto)]

mod fieldsets;
mod includes;
mod names;
mod pairs;
mod parameters;
mod parts;
mod queries;
mod refusals;
mod sizes;
mod sorts;
mod targets;

pub use queries::read_query;
