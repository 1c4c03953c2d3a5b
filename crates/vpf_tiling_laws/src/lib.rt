//! The laws of the tiled library of a coverage and of the coverage that a tiled library is glued to, over what rows say (MIL-STD-2407, 5.2.3,
//! tiled coverages and cross-tile topology).
#![tactic(auto)]

pub mod gluing;
pub mod tiled;
