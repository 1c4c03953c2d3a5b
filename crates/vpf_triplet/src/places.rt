//! Where a file is refused, and why.

ghost use Rattle.std.specs.Prelude.{◌≡◌};
ghost use Rattle.vpf_triplet.specs.Places.{fault, index_fault, theme_fault};
ghost use Rattle.vpf_triplet.specs.declared.places.PlaceError.TheVariants as errors;

use std::alloc::{AllocError, AllocFailed};
use std::fmt;
use thiserror::Error;

/// Which of the files that make up a table a place lies in.
#[derive(Clone, Copy, Debug, PartialEq, Eq)]
pub enum Part {
    /// The table's own file.
    Table,
    /// Its variable-length index.
    Index,
    /// A thematic index.
    Theme,
}

/// Why a file is refused. The four limits carry the number that passed them.
#[derive(Clone, Copy, Debug, PartialEq, Eq)]
pub enum Code {
    /// The file ends inside its length number.
    NumberCut,
    /// The length number passes 65,536 bytes.
    LimitHeader(u64),
    /// The file ends inside its header text.
    HeaderCut,
    /// A further column, the 257th, begins.
    LimitColumns(u64),
    /// The header text ends inside an item.
    ItemEnd,
    /// An item is ended by another byte than the form has there.
    ItemSeparator,
    /// A name passes 255 bytes.
    LimitName(u64),
    /// An item holds a control byte.
    ItemByte,
    /// A column has no name.
    NameEmpty,
    /// An earlier column has the name.
    NameRepeat,
    /// No kind has this letter.
    Kind,
    /// The count isn't one that the kind allows.
    Count,
    /// The key isn't one capital letter.
    Key,
    /// No column holds data.
    NoData,
    /// More than blanks follow the columns.
    AfterHeader,
    /// A further row, the 16,777,216th, begins.
    LimitRows(u64),
    /// The file ends inside a cell.
    CellCut,
    /// The bytes spell no triplet id.
    Triplet,
    /// A variable-length index ends inside its head or an entry.
    IndexCut,
    /// Bytes follow the last entry of a variable-length index.
    IndexExtra,
    /// A variable-length index has another number of entries than the table has rows.
    IndexCount,
    /// An entry of a variable-length index isn't the offset and the length of its row.
    IndexRow,
    /// A thematic index ends inside its head or an entry.
    ThemeCut,
    /// A thematic index is neither a list nor a bitmap.
    ThemeForm,
    /// The kind can't be indexed.
    ThemeKind,
    /// The count of a thematic index isn't one that its kind allows.
    ThemeCount,
    /// The row numbers of a thematic index have neither 2 nor 4 bytes.
    ThemeRowtype,
    /// The first field of a thematic index isn't the size of its head and directory.
    ThemeSize,
    /// The values of a directory that is marked sorted don't rise.
    ThemeSort,
    /// The data of an entry don't lie behind the directory, or a bitmap has another length than the rows need.
    ThemeSpan,
    /// A row number is 0 or passes the number of rows.
    ThemeRow,
    /// A bit of a bitmap past the rows is set.
    ThemePad,
}

impl fmt::Display for Code {
    ghost use Rattle.std.specs.Prelude.{Some};
    ghost use Rattle.vpf_triplet.specs.Codes.{code_text};

    ghost output = { λ code. Some (code_text code) };

    fn fmt<W: fmt::Write>(&self, f: &mut fmt::Formatter<W>) -> fmt::Result {
        f.write_str(match self {
            Code::NumberCut => "number-cut",
            Code::LimitHeader(_) => "limit-header",
            Code::HeaderCut => "header-cut",
            Code::LimitColumns(_) => "limit-columns",
            Code::ItemEnd => "item-end",
            Code::ItemSeparator => "item-separator",
            Code::LimitName(_) => "limit-name",
            Code::ItemByte => "item-byte",
            Code::NameEmpty => "name-empty",
            Code::NameRepeat => "name-repeat",
            Code::Kind => "kind",
            Code::Count => "count",
            Code::Key => "key",
            Code::NoData => "no-data",
            Code::AfterHeader => "after-header",
            Code::LimitRows(_) => "limit-rows",
            Code::CellCut => "cell-cut",
            Code::Triplet => "triplet",
            Code::IndexCut => "index-cut",
            Code::IndexExtra => "index-extra",
            Code::IndexCount => "index-count",
            Code::IndexRow => "index-row",
            Code::ThemeCut => "theme-cut",
            Code::ThemeForm => "theme-form",
            Code::ThemeKind => "theme-kind",
            Code::ThemeCount => "theme-count",
            Code::ThemeRowtype => "theme-rowtype",
            Code::ThemeSize => "theme-size",
            Code::ThemeSort => "theme-sort",
            Code::ThemeSpan => "theme-span",
            Code::ThemeRow => "theme-row",
            Code::ThemePad => "theme-pad",
        })
    }
}

/// The first fault of a file: the part that it is in, its offset in bytes from 0, and why it is one.
#[derive(Clone, Copy, Debug, PartialEq, Eq)]
pub struct Place {
    pub part: Part,
    pub at: u64,
    pub code: Code,
}

impl Place {
    /// A fault of the table's own file, `at` bytes from its start.
    pub fn in_table(at: usize, code: Code) -> Place
        ensures { result ≡ fault at code }
    {
        Place {
            part: Part::Table,
            at: at as u64,
            code,
        }
    }

    /// A fault of a variable-length index, `at` bytes from its start.
    pub fn in_index(at: usize, code: Code) -> Place
        ensures { result ≡ index_fault at code }
    {
        Place {
            part: Part::Index,
            at: at as u64,
            code,
        }
    }

    /// A fault of a thematic index, `at` bytes from its start.
    pub fn in_theme(at: usize, code: Code) -> Place
        ensures { result ≡ theme_fault at code }
    {
        Place {
            part: Part::Theme,
            at: at as u64,
            code,
        }
    }
}

impl fmt::Display for Place {
    ghost use Rattle.std.specs.Prelude.{Some};
    ghost use Rattle.vpf_triplet.specs.Places.{place_text};

    ghost output = { λ place. Some (place_text place) };

    fn fmt<W: fmt::Write>(&self, f: &mut fmt::Formatter<W>) -> fmt::Result {
        let Place { at, code, .. } = *self;
        write!(f, "{code} at {at}")
    }
}

/// Why a call that takes memory didn't read a file.
#[derive(Clone, Copy, Debug, PartialEq, Eq, Error)]
pub enum PlaceError {
    /// The file is refused here.
    #[error("refused: {0}")]
    Place(Place),
    /// Memory ran out.
    #[error("out of memory")]
    NoMemory,
}

impl From<Place> for PlaceError {
    ghost from_gives = { λ place error. error ≡ errors.Place place };

    fn from(place: Place) -> Self {
        PlaceError::Place(place)
    }
}

impl From<AllocError> for PlaceError {
    ghost from_gives = { λ _ error. error ≡ errors.NoMemory };

    fn from(_: AllocError) -> Self {
        PlaceError::NoMemory
    }
}

impl<T: Drop> From<AllocFailed<T>> for PlaceError {
    ghost from_gives = { λ _ error. error ≡ errors.NoMemory };

    fn from(_: AllocFailed<T>) -> Self {
        PlaceError::NoMemory
    }
}
