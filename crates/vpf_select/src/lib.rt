//! Selection of the rows of a table whose cell in one column has a value, by the plain scan or by a thematic index.
#![tactic(auto)]

mod digits;
pub mod laws;
mod passing;
mod rows;
mod scanning;
mod selecting;
mod value;
mod words;

pub use passing::select_in_one_pass;
pub use rows::{cell_in, select_rows, value_in};
pub use scanning::{Test, scan};
pub use selecting::{SelectError, select};
pub use value::{Value, ValueError};
pub use words::value_of;
