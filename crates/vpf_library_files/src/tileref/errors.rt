//! Why the table of tiles isn't taken.

use std::alloc::{AllocError, AllocFailed};
use thiserror::Error;
use vpf_findings::{FindError, Finding};
use vpf_table::Limit;

/// Why the table of tiles isn't taken.
#[derive(Clone, Copy, Debug, Error)]
pub enum TilerefError<'a> {
    /// A bound is passed.
    #[error("a bound is passed")]
    Limit(Limit),
    /// The first place that disagrees.
    #[error("the table of tiles disagrees")]
    Finding(Finding<'a>),
    /// There was too little memory.
    #[error("out of memory")]
    NoMemory,
}

impl From<Limit> for TilerefError<'_> {
    ghost use Rattle.std.specs.Prelude.{◌≡◌};
    ghost use Rattle.vpf_library_files.specs.declared.tileref.errors.TilerefError.TheVariants as errors;

    ghost from_gives = { λ limit e. e ≡ errors.Limit limit };

    fn from(limit: Limit) -> Self {
        TilerefError::Limit(limit)
    }
}

impl<'a> From<Finding<'a>> for TilerefError<'a> {
    ghost use Rattle.std.specs.Prelude.{◌≡◌};
    ghost use Rattle.vpf_library_files.specs.declared.tileref.errors.TilerefError.TheVariants as errors;

    ghost from_gives = { λ f e. e ≡ errors.Finding f };

    fn from(finding: Finding<'a>) -> Self {
        TilerefError::Finding(finding)
    }
}

impl<'a> From<FindError<'a>> for TilerefError<'a> {
    ghost use Rattle.std.specs.Prelude.{◌≡◌};
    ghost use Rattle.vpf_library_files.specs.Inner.Tileref.Errors.{of_find};

    ghost from_gives = { λ found e. e ≡ of_find found };

    fn from(found: FindError<'a>) -> Self {
        match found {
            FindError::Finding(finding) => TilerefError::Finding(finding),
            FindError::NoMemory => TilerefError::NoMemory,
        }
    }
}

impl From<AllocError> for TilerefError<'_> {
    ghost use Rattle.std.specs.Prelude.{◌≡◌};
    ghost use Rattle.vpf_library_files.specs.declared.tileref.errors.TilerefError.TheVariants as errors;

    ghost from_gives = { λ _ e. e ≡ errors.NoMemory };

    fn from(_: AllocError) -> Self {
        TilerefError::NoMemory
    }
}
