//! Why a check that may find something, or want memory, did not pass.

use crate::finding::Finding;
use std::alloc::{AllocError, AllocFailed};
use thiserror::Error;

/// Why a check did not pass.
#[derive(Clone, Copy, Debug, Error)]
pub enum FindError<'a> {
    /// The first place that disagrees.
    #[error("the library disagrees")]
    Finding(Finding<'a>),
    /// There was too little memory.
    #[error("out of memory")]
    NoMemory,
}

impl From<AllocError> for FindError<'_> {
    ghost use Rattle.std.specs.Prelude.{◌≡◌};
    ghost use Rattle.vpf_findings.specs.declared.errors.FindError.TheVariants as errors;

    ghost from_gives = { λ _ e. e ≡ errors.NoMemory };

    fn from(_: AllocError) -> Self {
        FindError::NoMemory
    }
}

impl<T: Drop> From<AllocFailed<T>> for FindError<'_> {
    ghost use Rattle.std.specs.Prelude.{◌≡◌};
    ghost use Rattle.vpf_findings.specs.declared.errors.FindError.TheVariants as errors;

    ghost from_gives = { λ _ e. e ≡ errors.NoMemory };

    fn from(_: AllocFailed<T>) -> Self {
        FindError::NoMemory
    }
}

impl<'a> From<Finding<'a>> for FindError<'a> {
    ghost use Rattle.std.specs.Prelude.{◌≡◌};
    ghost use Rattle.vpf_findings.specs.declared.errors.FindError.TheVariants as errors;

    ghost from_gives = { λ f e. e ≡ errors.Finding f };

    fn from(finding: Finding<'a>) -> Self {
        FindError::Finding(finding)
    }
}
