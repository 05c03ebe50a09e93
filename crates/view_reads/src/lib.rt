//! Reading a map of cells under one's own writes, with a record of what was read.
//!
//! A [`View`] is a finite map of cells: pages in memory, or a store under construction. A [`Recorder`] stands over one.
//! It answers by the view as it would be with the recorder's own writes, notes each key and each part of a span that an
//! answer rests on, and keeps the writes in order. The contract of each call speaks of the view by its map alone.
#![tactic(auto)]

mod cell_map;
mod joining;
mod merging;
mod recorder;
mod spans;
mod views;
mod writes;

pub use cell_map::CellMap;
pub use recorder::Recorder;
pub use spans::{in_span, is_passed};
pub use views::View;
