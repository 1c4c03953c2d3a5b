//! Examples for trials of the other crates: worked tables with what the program says of them, and a coverage of any size, the
//! grid of n by n cells, as the files of a library.
#![tactic(auto)]

pub mod cells;
pub mod grid_coverage;
mod headers;
pub mod laws;
mod library;
mod numbers;
mod tables;
mod vectors;

pub use headers::plan_header;
pub use library::grid;
pub use vectors::{VECTORS, Vector};
