//! Why no boundary cycles are listed.

use thiserror::Error;
use vpf_findings::{FindError, Finding};

/// Why the boundary cycles of an edge table are not listed.
#[derive(Clone, Copy, Debug, Error)]
pub enum EdgeError<'a> {
    /// The rows vary in length, so the table is not read as edges.
    #[error("rows vary in length")]
    Varies,
    /// The first place where the table disagrees.
    #[error("the edges disagree")]
    Finding(Finding<'a>),
    /// There was too little memory.
    #[error("out of memory")]
    NoMemory,
}

impl<'a> From<FindError<'a>> for EdgeError<'a> {
    ghost use Rattle.vpf_wing.specs.Inner.Errors.{IsFound};

    ghost from_gives = { IsFound };

    fn from(error: FindError<'a>) -> Self {
        match error {
            FindError::Finding(finding) => EdgeError::Finding(finding),
            FindError::NoMemory => EdgeError::NoMemory,
        }
    }
}
