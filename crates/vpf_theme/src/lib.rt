//! Thematic indexes: for each value of a column the rows that have it, as a list or as a bitmap (after MIL-STD-2407,
//! 5.4, indexes: thematic index encoding).
#![tactic(auto)]

mod agreeing;
mod checking;
mod comparing;
mod entries;
mod fitting;
mod hits;
pub mod laws;
mod layout;
mod marking;
mod repeating;
mod reporting;
mod searching;
mod view;

pub use agreeing::agrees;
pub use comparing::compare;
pub use fitting::fits_table;
pub use hits::Hits;
pub use layout::{Form, Layout, RowSize};
pub use view::ThemeView;
pub use vpf_findings::FindError as ThemeError;
