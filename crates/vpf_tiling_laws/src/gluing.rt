//! Gluing: the untiled coverage that a tiled library is glued to (MIL-STD-2407, 5.2.3, tiled coverages and cross-tile topology), and what is so
//! of it.

pub mod laws;
