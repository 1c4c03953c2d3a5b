//! The files of the tiled library of the grid are few and small enough to be read (MIL-STD-2407, 5.2.3, tiled coverages).

pub mod laws;
