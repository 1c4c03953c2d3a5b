//! The tables of a coverage, opened from its files (MIL-STD-2407, 5.2.2, primitives, and 5.2.3, tiled coverages).

mod folders;
mod opening;
mod tables;

pub(crate) use opening::open_files;
pub use opening::{OpenCoverage, Paths, open_tileref, views_at};
pub(crate) use tables::Unopened;
