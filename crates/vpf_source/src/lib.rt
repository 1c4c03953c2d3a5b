//! Trees of files and sinks of bytes, whole files over them, what the files of a library are called (`names`), and a counter of
//! steps.
#![tactic(auto)]

mod adapters;
mod calls;
mod error;
mod file;
mod loading;
mod making;
mod memory_sink;
mod memory_tree;
pub mod names;
mod sink;
mod steps;
mod sure_tree;
mod tree;
mod trouble;

pub use adapters::{FolderTree, StdSink};
pub use error::{DeviceError, Failed, LoadError};
pub use file::{Bytes, File, Name};
pub use loading::load;
pub use making::make_all;
pub use memory_sink::MemSink;
pub use memory_tree::MemTree;
pub use sink::{Sink, put_all};
pub use steps::Steps;
pub use sure_tree::SureTree;
pub use tree::Tree;
pub use trouble::Trouble;
