//! What the tables of tiles say, as they are made of an untiled coverage: the tiled library of the coverage and its plan (MIL-STD-2407, 5.2.2,
//! primitives, and 5.2.3, tiled coverages).

pub mod laws;
