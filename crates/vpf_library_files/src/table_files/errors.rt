//! Why tables aren't written as files.

use std::alloc::{AllocError, AllocFailed};
use vpf_source::Name;
use vpf_table::Limit;

/// Why tables aren't written as files.
#[derive(Debug, Drop)]
pub enum AddError {
    /// The file of this name would pass a bound.
    Limit(Name, Limit),
    /// There was too little memory.
    NoMemory,
}

impl From<AllocError> for AddError {
    ghost use Rattle.std.specs.Prelude.{◌≡◌};
    ghost use Rattle.vpf_library_files.specs.declared.table_files.errors.AddError.TheVariants as errors;

    ghost from_gives = { λ _ e. e ≡ errors.NoMemory };

    fn from(_: AllocError) -> Self {
        AddError::NoMemory
    }
}

impl<T: Drop> From<AllocFailed<T>> for AddError {
    ghost use Rattle.std.specs.Prelude.{◌≡◌};
    ghost use Rattle.vpf_library_files.specs.declared.table_files.errors.AddError.TheVariants as errors;

    ghost from_gives = { λ _ e. e ≡ errors.NoMemory };

    fn from(_: AllocFailed<T>) -> Self {
        AddError::NoMemory
    }
}
