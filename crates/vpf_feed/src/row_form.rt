//! What rows are read by, apart from the header that it stands in.

mod form;
pub mod laws;
mod looking;
mod whole;
mod widths;

pub use form::{Field, RowForm};
pub use looking::{Look, bytes_are_bytes, look_at};
pub use whole::whole_row;
