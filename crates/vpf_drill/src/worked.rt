//! The laws of a small coverage with a feature table and its thematic index, as a library that is read to be cut into tiles (MIL-STD-2407, 5.2.3, feature
//! classes and tiled coverages).

pub mod laws;
