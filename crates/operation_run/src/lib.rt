//! A list of operations over a recorder (JSON:API 1.1, "Creating, Updating and Deleting Resources"; Atomic Operations extension,
//! "Processing"): each is done in the world that the earlier ones leave, and the first that is refused undoes them all.
#![tactic(auto)]

mod bodies;
mod lists;
mod plain;
mod pointers;
mod replies;
mod results;
mod runs;

pub use runs::run_list;
