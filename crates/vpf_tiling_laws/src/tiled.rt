//! Tiled coverages: the tiled library of an untiled coverage and a plan of tiles for its faces (MIL-STD-2407, 5.2.3, tiled coverages and
//! cross-tile topology), and what is so of it.

pub mod laws;
