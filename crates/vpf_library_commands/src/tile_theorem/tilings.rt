//! Tiled libraries that are made of an untiled coverage: what `check` and `trace` find in the files that `tile` makes (MIL-STD-2407, 5.2.3, tiled
//! coverages and cross-tile topology).

pub mod laws;
