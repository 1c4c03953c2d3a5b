//! The files of the tiled library of a coverage that is cut into tiles: the tables of its tiles, each written under its name, or the first that
//! would pass a bound (MIL-STD-2407, 5.2.3, tiled coverages).

mod making;

pub use making::Making;
