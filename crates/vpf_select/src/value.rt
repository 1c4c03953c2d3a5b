//! Values that own their bytes, and why a word has none.

use std::alloc::AllocError;
use std::marker::Model;
use thiserror::Error;
use vpf_value::Cell;

/// Why a word has no value in a column.
#[derive(Clone, Copy, Debug, PartialEq, Eq, Error)]
pub enum ValueError {
    /// The word isn't one of the column's kind.
    #[error("bad value")]
    Bad,
    /// There was too little memory.
    #[error("out of memory")]
    NoMemory,
}

impl From<AllocError> for ValueError {
    ghost use Rattle.std.specs.Prelude.{◌≡◌};
    ghost use Rattle.vpf_select.specs.declared.value.ValueError.TheVariants as errors;

    ghost from_gives = { λ _ e. e ≡ errors.NoMemory };

    fn from(_: AllocError) -> Self {
        ValueError::NoMemory
    }
}

/// The bytes or the number of a value.
#[derive(Debug, Drop)]
pub(crate) enum Owned {
    Text(Vec<u8>),
    Word4(u32),
    Word8(u64),
    Number(i32),
    Date(Vec<u8>),
}

/// A value of a column that was read from a word. Contracts see it as what a cell with that value says.
#[derive(Debug, Drop)]
pub struct Value {
    owned: Owned,
}

impl Model for Value {
    ghost use Rattle.vpf_select.specs.Inner.Values.{CellValue};

    ghost Value = { CellValue };

    ghost use Rattle.vpf_select.specs.Inner.Values.{value_view};

    ghost view = { value_view };
}

impl Value {
    ghost use Rattle.std.specs.Prelude.{◌≡◌};
    ghost use Rattle.vpf_value.specs.Values.{view};
    ghost use Rattle.vpf_select.specs.Inner.Values.{said};

    /// The value that is kept so.
    pub(crate) fn new(owned: Owned) -> Value
        ensures { result ≡ said owned }
    {
        Value { owned }
    }

    /// The value as a cell, which borrows its bytes.
    pub fn cell(&self) -> Cell<'_>
        ensures { view result ≡ self.now }
    {
        match &self.owned {
            Owned::Text(text) => Cell::Text(text),
            Owned::Word4(word) => Cell::Word4(*word),
            Owned::Word8(word) => Cell::Word8(*word),
            Owned::Number(number) => Cell::Long(*number),
            Owned::Date(text) => Cell::Date(text),
        }
    }
}
