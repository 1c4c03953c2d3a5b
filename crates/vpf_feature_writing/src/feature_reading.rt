//! The laws that features which are written are read again, agree, and have no name of a table that wasn't there, and nothing else (MIL-STD-2407,
//! 5.2.3, feature classes).

pub mod laws;
