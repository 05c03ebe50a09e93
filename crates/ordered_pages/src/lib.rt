//! Pages of cells in the order of their keys, shared between snapshots and copied where they are written.
//!
//! Cells stand in leaves of 1 to 128 cells, leaves in branches of 1 to 128 leaves, branches in boughs of 1 to 128 branches,
//! and boughs in one root list. The root, each bough, each branch, each leaf and each cell is behind a shared pointer. A write
//! set makes new nodes beside the old ones, which stay as they are for whoever has a snapshot. A node that several keys of one
//! write set touch is copied once.
#![tactic(auto)]

mod changes;
mod crossing;
mod few;
mod nodes;
mod pages;
mod shared;
mod stops;

pub use pages::{Pages, Ready};
