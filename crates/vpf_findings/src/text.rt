//! How bytes, names and cells of a table are printed.

mod bytes;
mod cells;

pub use bytes::{Printed, put_printed, put_quoted};
pub use cells::{CellText, put_cell};
