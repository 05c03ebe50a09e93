//! What runs the tasks of a schema: fetches by `fetch_reply`, and changes by `run_list`. Their answers, effects and reach are the definitions of
//! store_model.
#![tactic(auto)]

mod subjects;

pub use subjects::JsonSubject;
