//! What `tile` makes is the coverage: `check` accepts it, and `trace` lists the cycles of the coverage (MIL-STD-2407, 5.2.3, tiled coverages and
//! cross-tile topology).

pub mod tilings;
