//! The law that features agree exactly where nothing is found on them, and nothing else (MIL-STD-2407, 5.2.3, feature classes).

pub mod laws;
