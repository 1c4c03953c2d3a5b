//! What the system said of the last call that failed.

use std::{fmt, io};

/// A call on a file of the computer that failed, as it is told to a person: the name of the file, unless there was no memory to keep it, and the
/// system's word on it.
#[derive(Drop)]
pub struct Trouble {
    name: Option<String>,
    error: io::Error,
}

impl Trouble {
    /// The trouble with the file of this name.
    pub(crate) fn new(name: Option<String>, error: io::Error) -> Self {
        Trouble { name, error }
    }
}

impl fmt::Display for Trouble {
    fn fmt<W: fmt::Write>(&self, f: &mut fmt::Formatter<W>) -> fmt::Result {
        let error = self.error;
        match &self.name {
            Some(name) => write!(f, "{name}: {error}"),
            None => write!(f, "{error}"),
        }
    }
}
