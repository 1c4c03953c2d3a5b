//! Cells of every kind, read exactly and borrowed from the file (MIL-STD-2407, 5.4, allowable field types).
#![tactic(auto)]

mod cells;
mod comparing;
mod coords;
mod fitting;
pub mod laws;
mod turning;
mod widths;
mod writing;

pub use cells::{Cell, cell_at};
pub use comparing::same;
pub use coords::{Coords, WordWidth};
pub use fitting::fits;
pub use turning::{WordSize, word_size};
pub use vpf_triplet as triplet;
pub use widths::cell_width;
pub use writing::{put_cell, spelled_len};
