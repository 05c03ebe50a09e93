//! Tests of the readers, where memory is ample, of the calls that no request reaches yet: a planner that owns its schema, bodies
//! of lists of operations, links, and queries. What requests reach is tested byte for byte by the cases of the crate conformance.
#![tactic(auto)]

#[cfg(test)]
mod bodies;
#[cfg(test)]
mod cursors;
#[cfg(test)]
mod links;
#[cfg(test)]
mod planners;
#[cfg(test)]
mod queries;
