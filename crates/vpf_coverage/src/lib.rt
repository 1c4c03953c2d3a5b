//! A coverage, seen in its files: the primitives of its tiles, whose columns, ids and references are right (MIL-STD-2407, 5.2.2, primitives,
//! and 5.2.3, tiled coverages). `opening` finds its tables in what was loaded.
#![tactic(auto)]

mod columns;
mod coverage;
pub mod opening;
mod tiles;

pub use coverage::{Coverage, open_coverage, open_tables};
