//! Why no thematic index is built.

use std::alloc::{AllocError, AllocFailed};
use thiserror::Error;

/// Why no thematic index of a column is built.
#[derive(Clone, Copy, Debug, PartialEq, Eq, Error)]
pub enum BuildError {
    /// The kind can't be indexed, or each row says how many values its cell holds.
    #[error("the column can't be indexed")]
    Kind,
    /// The index would have so many bytes, more than the 67,108,864 of a file.
    #[error("the index would have {size} bytes")]
    Limit { size: u64 },
    /// There was too little memory.
    #[error("out of memory")]
    NoMemory,
}

impl From<AllocError> for BuildError {
    ghost use Rattle.std.specs.Prelude.{◌≡◌};
    ghost use Rattle.vpf_theme_build.specs.declared.errors.BuildError.TheVariants as errors;

    ghost from_gives = { λ _ e. e ≡ errors.NoMemory };

    fn from(_: AllocError) -> Self {
        BuildError::NoMemory
    }
}

impl<T: Drop> From<AllocFailed<T>> for BuildError {
    ghost use Rattle.std.specs.Prelude.{◌≡◌};
    ghost use Rattle.vpf_theme_build.specs.declared.errors.BuildError.TheVariants as errors;

    ghost from_gives = { λ _ e. e ≡ errors.NoMemory };

    fn from(_: AllocFailed<T>) -> Self {
        BuildError::NoMemory
    }
}
