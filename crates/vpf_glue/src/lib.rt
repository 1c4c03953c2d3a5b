//! The tiles of a coverage joined into one untiled coverage: the files of the glued coverage, its plan and its table of tiles (MIL-STD-2407,
//! 5.2.3, tiled coverages and cross-tile topology).
#![tactic(auto)]

mod edges;
mod entities;
mod faces;
pub mod glued_reading;
pub mod glued_tables;
mod gluing;
mod nodes;
mod plan;
mod rings;
mod sources;

pub use gluing::glue;
