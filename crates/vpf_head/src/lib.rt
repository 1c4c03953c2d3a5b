//! The header of a Vector Product Format table: its columns and how they are read (MIL-STD-2407, 5.4, table header).
#![tactic(auto)]

mod columns;
mod fields;
mod headers;
mod holding;
mod items;
pub mod laws;
mod making;
mod names;
mod reading;
mod writing;

pub use columns::{Column, Key};
pub use headers::Header;
