//! Cases as data: the notation in which a file tells words of the program, the files that they are asked over, and what comes of them.
#![tactic(auto)]

mod case;
mod cells;
mod fault;
mod files;
mod forms;
mod lines;
mod reading;
mod tables;
mod words;

pub use case::{Case, Run};
pub use fault::{Fault, Why};
pub use files::Files;
pub use reading::{read_cases, read_tags};
