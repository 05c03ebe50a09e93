//! Tests of row_change over a map in memory, where memory is ample, of what no request to `pipe` reaches or reaches only at length: ids up to
//! the last, local ids that are bound, and counts of members. What is refused and what is changed is said by the contract of `change`;
//! its refusals byte for byte stand among the cases of `conformance`.
#![tactic(auto)]

#[cfg(test)]
mod blogs;
#[cfg(test)]
mod ids;
#[cfg(test)]
mod operations;
