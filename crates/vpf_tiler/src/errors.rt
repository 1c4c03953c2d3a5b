//! Why a coverage isn't tiled.

use std::alloc::{AllocError, AllocFailed};
use vpf_library_files::table_files::AddError;
use vpf_source::Name;
use vpf_table::Limit;
use vpf_tiling::tileable::Refusal;

/// Why a coverage isn't tiled.
#[derive(Debug, Drop)]
pub enum TileError {
    /// There is a cause against tiling it.
    Refused(Refusal),
    /// This row of the schema table joins features to primitives by these' numbers, which aren't those of their copies in tiles.
    KeyInTable {
        /// The row, counted from 1.
        row: u32,
    },
    /// The file of this name would pass a bound.
    Limit(Name, Limit),
    /// There was too little memory.
    NoMemory,
}

impl From<AllocError> for TileError {
    ghost use Rattle.std.specs.Prelude.{◌≡◌};
    ghost use Rattle.vpf_tiler.specs.declared.errors.TileError.TheVariants as errors;

    ghost from_gives = { λ _ e. e ≡ errors.NoMemory };

    fn from(_: AllocError) -> Self {
        TileError::NoMemory
    }
}

impl<T: Drop> From<AllocFailed<T>> for TileError {
    ghost use Rattle.std.specs.Prelude.{◌≡◌};
    ghost use Rattle.vpf_tiler.specs.declared.errors.TileError.TheVariants as errors;

    ghost from_gives = { λ _ e. e ≡ errors.NoMemory };

    fn from(_: AllocFailed<T>) -> Self {
        TileError::NoMemory
    }
}

impl From<Refusal> for TileError {
    ghost use Rattle.std.specs.Prelude.{◌≡◌};
    ghost use Rattle.vpf_tiler.specs.declared.errors.TileError.TheVariants as errors;

    ghost from_gives = { λ refusal e. e ≡ errors.Refused refusal };

    fn from(refusal: Refusal) -> Self {
        TileError::Refused(refusal)
    }
}

impl From<AddError> for TileError {
    ghost use Rattle.std.specs.Prelude.{◌≡◌};
    ghost use Rattle.vpf_tiler.specs.Making.{tile_error};

    ghost from_gives = { λ error e. e ≡ tile_error error };

    fn from(error: AddError) -> Self {
        match error {
            AddError::Limit(name, limit) => TileError::Limit(name, limit),
            AddError::NoMemory => TileError::NoMemory,
        }
    }
}
