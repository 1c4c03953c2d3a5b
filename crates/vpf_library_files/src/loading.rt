//! The files of a coverage of a library, read once and kept (MIL-STD-2407, 5.2.2, primitives, and 5.2.3, tiled coverages).

pub mod laws;
mod loading;

pub use loading::{
    LoadStop, LoadedTables, kept, load_coverage, load_coverage_tables, load_folder, load_tileref,
    optional_file, required_table, table_beside, within,
};
