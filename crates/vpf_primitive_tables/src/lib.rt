//! Tables of primitives of the form of others (`table_forms`): those of a tile (`tile_tables`), what is written of them
//! (`tile_writing`), and what is read of them again (`tile_reading`).
#![tactic(auto)]

pub mod table_forms;
pub mod tile_reading;
pub mod tile_tables;
pub mod tile_writing;

pub use vpf_cut_rings as cut_rings;
