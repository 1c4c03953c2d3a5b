//! Why no features are told of.

use std::alloc::AllocError;
use vpf_findings::Finding;
use vpf_select::Value;
use vpf_source::Name;
use vpf_triplet::Kind;
use vpf_value::Cell;

/// Why there are no features of a class that have a value.
#[derive(Debug, Drop)]
pub enum FeatureError<'a> {
    /// No row of the schema table has the class.
    NoClass,
    /// No row of the class joins a feature table to primitives, or the feature table of the first that does isn't there.
    NoTable,
    /// The column of this name isn't there: the one that was asked for, or a key by which the tables are joined.
    NoColumn(Vec<u8>),
    /// The thematic index in the file of this name isn't one of the column.
    Unfit(&'a Name, Finding<'a>),
    /// The word says no value of the column.
    BadValue,
    /// A thematic index lists a row whose cell isn't the value.
    Wrong {
        /// The name of the index's file in the folder of the coverage.
        file: &'a Name,
        /// The kind of the column.
        kind: Kind,
        /// The number of the row, from 1.
        row: u32,
        /// Its cell.
        cell: Cell<'a>,
        /// The value that was asked for.
        value: Value,
    },
    /// There was too little memory.
    NoMemory,
}

impl<'a> From<AllocError> for FeatureError<'a> {
    ghost use Rattle.std.specs.Prelude.{◌≡◌};
    ghost use Rattle.vpf_feature_commands.specs.declared.classes.errors.FeatureError.TheVariants as errors;

    ghost from_gives = { λ _ error. error ≡ errors.NoMemory };

    fn from(_: AllocError) -> Self {
        FeatureError::NoMemory
    }
}
