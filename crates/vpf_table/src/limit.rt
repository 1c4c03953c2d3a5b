//! Bounds.

use std::fmt;
use vpf_triplet::Code;

/// Which bound is passed.
#[derive(Clone, Copy, Debug, PartialEq, Eq)]
pub enum Bound {
    /// The bytes of a file.
    File,
    /// The bytes of all files of a run.
    Loaded,
    /// The bytes of a header text.
    Header,
    /// The columns of a table.
    Columns,
    /// The bytes of a name.
    Name,
    /// The rows of a table.
    Rows,
    /// The rows of the table of tiles.
    Tiles,
}

impl fmt::Display for Bound {
    ghost use Rattle.std.specs.Prelude.{Some};
    ghost use Rattle.vpf_table.specs.Limits.{bound_text};

    ghost output = { λ bound. Some (bound_text bound) };

    fn fmt<W: fmt::Write>(&self, f: &mut fmt::Formatter<W>) -> fmt::Result {
        f.write_str(match self {
            Bound::File => "file",
            Bound::Loaded => "loaded",
            Bound::Header => "header",
            Bound::Columns => "columns",
            Bound::Name => "name",
            Bound::Rows => "rows",
            Bound::Tiles => "tiles",
        })
    }
}

/// A bound that is passed, and the number that passed it.
#[derive(Clone, Copy, Debug, PartialEq, Eq)]
pub struct Limit {
    /// The bound.
    pub what: Bound,
    /// The number.
    pub found: u64,
}

impl Limit {
    ghost use Rattle.std.specs.Prelude.{◌≡◌};
    ghost use Rattle.vpf_table.specs.Limits.{limit_of};

    /// The limit that a code tells, where it tells one.
    pub fn of_code(code: Code) -> Option<Limit>
        ensures { result ≡ limit_of code }
    {
        match code {
            Code::LimitHeader(found) => Some(Limit {
                what: Bound::Header,
                found,
            }),
            Code::LimitColumns(found) => Some(Limit {
                what: Bound::Columns,
                found,
            }),
            Code::LimitName(found) => Some(Limit {
                what: Bound::Name,
                found,
            }),
            Code::LimitRows(found) => Some(Limit {
                what: Bound::Rows,
                found,
            }),
            _ => None,
        }
    }
}

impl fmt::Display for Limit {
    ghost use Rattle.std.specs.Prelude.{Some};
    ghost use Rattle.vpf_table.specs.Limits.{passed_text};

    ghost output = { λ limit. Some (passed_text limit) };

    fn fmt<W: fmt::Write>(&self, f: &mut fmt::Formatter<W>) -> fmt::Result {
        let Limit { what, found } = *self;
        write!(f, "{what} {found}")
    }
}
