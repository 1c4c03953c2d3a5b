//! Tables of a Vector Product Format library as they are written: from lists of cells, from their views in either byte order,
//! from rows made one by one (`made`), and from another table with some cells changed (`revise`).
#![tactic(auto)]

mod cell_list;
mod draft;
mod in_place;
pub mod laws;
pub mod made;
pub mod revise;
mod rewriting;
mod table_writer;
mod turning;
mod writing;

pub use cell_list::CellList;
pub use in_place::Turning;
pub use rewriting::write_in;
pub use table_writer::TableWriter;
pub use writing::{WriteError, Written, write};
