//! The reply to a fetch: its document, with the resources beside the primary ones and the links of a page (JSON:API 1.1,
//! "Fetching Data" and "Compound Documents"; Cursor Pagination profile). The rows are read first, and then written as a text.
#![tactic(auto)]

mod alone;
mod fetches;
mod gathering;
mod linked;
mod links;
mod pairs;
mod paths;
mod places;
mod replies;
mod texts;

pub use fetches::fetch_reply;
