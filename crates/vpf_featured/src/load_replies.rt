//! The replies to what stops the loading of files, and the names of files by their places.

mod naming;
mod stopping;

pub use naming::named;
pub use stopping::stopped;
