//! What stays of reading when bytes follow.

pub mod laws;
