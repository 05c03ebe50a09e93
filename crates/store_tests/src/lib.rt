//! Tests of the store, where memory is ample: views and recorders, pages, the log of commits.
//! They stand in one crate on top, so that none of those crates is proved twice.
#![tactic(auto)]

#[cfg(test)]
mod log;
#[cfg(test)]
mod pages;
#[cfg(test)]
mod views;
