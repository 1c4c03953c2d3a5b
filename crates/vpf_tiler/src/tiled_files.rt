//! The files of a tiled library, read again: they are the coverage that was cut into tiles, and no two have one name (MIL-STD-2407, 5.2.3, tiled coverages).

pub mod laws;
