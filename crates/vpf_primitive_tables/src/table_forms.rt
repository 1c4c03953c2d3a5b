//! Tables of primitives that are written like others: the same headers with other kinds for ids and references, and rows of such tables with
//! new ids and references (MIL-STD-2407, 5.2.2, primitives), as where a coverage is cut into tiles, or tiles are joined into one.

mod edges;
pub mod laws;
mod pairs;
mod places;
mod rings;
mod rows;

pub use edges::{EdgeCells, EdgeForm};
pub use pairs::PairForm;
pub use places::{new_kind, place_in};
pub use rings::{RingForm, RingTable};
pub use rows::{new_number, number_cell, row_of};
