//! The program from its words to its exit status: the commands by their verbs, what a run comes to over any tree and any sink, and the run over
//! the files of the computer.
#![tactic(auto)]

mod command;
mod help;
mod laws;
mod running;
mod starting;
mod status;

pub use running::run;
pub use starting::{start, words};
pub use status::Status;
