//! Columns, ids, references and marks of the tables of a tile: the first finding on them (MIL-STD-2407, 5.2.2, primitives, and 5.2.3, tiled
//! coverages). Columns are compared with those of the first tile that has the table.
#![tactic(auto)]

mod around;
mod carried;
mod checking;
mod columns;
mod edges;
pub mod laws;
mod lines;
mod passing;
mod tables;

pub use around::Around;
pub use checking::check_tables;
