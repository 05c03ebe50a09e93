//! The definitions of HTTP/1.x requests and of what a session answers, for any plan and any store, and
//! laws on them (RFC 9110 and RFC 9112).
//!
//! The definitions stand in `specs/`. Each function does nothing: its contract is a law, and who calls it knows it.
#![tactic(auto)]

mod laws;

pub use laws::{
    bodies_are_one, entries_are_tasks, exchanges_are_requests, heads_are_decided, heads_are_one,
    hopeless_by_rule, memory_runs_out, messages_are_one, no_message_begins, read_stays,
    requests_are_one, rests_are_one, runs_stay, served_is_one,
};
