//! Tiled coverages as they are made: which primitives of an untiled coverage are present in which tile of a plan, their numbers there, and
//! the tiled library (MIL-STD-2407, 5.2.3, tiled coverages and cross-tile topology); the plan itself (`plan`), and whether a coverage may
//! be cut (`tileable`).
#![tactic(auto)]

pub mod laws;
pub mod plan;
pub mod tileable;
