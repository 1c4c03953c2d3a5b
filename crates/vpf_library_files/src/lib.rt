//! The files of a library: its table of tiles (`tileref`), and the files of a coverage as they are loaded (`loading`)
//! (MIL-STD-2407, 5.2.3, tile reference coverage).
#![tactic(auto)]

pub mod loading;
pub mod table_files;
pub mod tileref;
