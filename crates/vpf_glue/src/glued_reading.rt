//! What the tables of the glued coverage say, as they are written from the tables of tiles (MIL-STD-2407, 5.2.2, primitives, and 5.2.3, tiled
//! coverages).

pub mod laws;
