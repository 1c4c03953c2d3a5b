//! Tables that come in pieces: whether they are tables, and where not, while no more than a header is held.
#![tactic(auto)]

mod feed;
mod heading;
pub mod row_form;
mod stage;
pub mod staying;
mod summary;
mod taking;
mod walking;

pub use feed::{TableFeed, accepts};
pub use summary::Summary;
