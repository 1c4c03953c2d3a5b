//! Names of files: those that words and headers give, and those of indexes (MIL-STD-2407, 5.2, names of files).

mod folders;
mod indexes;
mod items;
mod naming;

pub use folders::last_part;
pub use indexes::{ends_in_x, index_name};
pub use items::{file_beside, trimmed};
pub use naming::{coverage_name, file_name};
