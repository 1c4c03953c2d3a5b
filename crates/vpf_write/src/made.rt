//! The files of tables that are written: a table's own and that of its index, and the one that passes a limit (MIL-STD-2407, 5.2.1, tables).

mod files;

pub use files::{files_of, part_name};
