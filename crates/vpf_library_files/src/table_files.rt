//! Tables that are written under their names, one behind another: their files, or the first limit that one passes (MIL-STD-2407, 5.4, VPF table
//! encoding).

mod adding;
mod errors;

pub use adding::add_table;
pub use errors::AddError;
