//! The laws of the grid of n by n cells as a library that is read to be cut into tiles (MIL-STD-2407, 5.2.3, tiled coverages).

pub mod laws;
