//! The laws of a tiled library that is made with the features of its coverage: it holds both, and nothing else (MIL-STD-2407, 5.2.3, tiled coverages and
//! feature classes).

pub mod laws;
