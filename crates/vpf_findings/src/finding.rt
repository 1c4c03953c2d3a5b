//! What disagrees in the tables of a library.

use vpf_darts::TileDart;
use vpf_value::Cell;
use vpf_value::triplet::{Count, Kind};

/// Which table a finding is in.
#[derive(Clone, Copy, Debug, PartialEq, Eq)]
pub enum TableName {
    /// The tile reference area table, `tileref.aft`.
    Tileref,
    /// The edge primitives, `edg`.
    Edg,
    /// The face primitives, `fac`.
    Fac,
    /// The rings, `rng`.
    Rng,
    /// The connected nodes, `cnd`.
    Cnd,
    /// The entity nodes, `end`.
    End,
    /// The tiles of the faces of a coverage that isn't tiled yet, `plan`.
    Plan,
    /// The feature class schema table, `fcs`.
    Fcs,
    /// A feature table.
    Feature,
    /// A thematic index.
    Theme,
    /// Any other table.
    Alone,
}

/// A word for what is seen or wanted in a place.
#[derive(Clone, Copy, Debug, PartialEq, Eq)]
pub enum SeenWord {
    /// Nothing is there.
    Absent,
    /// A column of numbers.
    Number,
    /// A column of references to primitives.
    Reference,
    /// A column of marks.
    Mark,
    /// A column of text.
    Text,
    /// A path of a tile.
    Path,
    /// A reference within the tile.
    Plain,
    /// A reference to another tile.
    Tile,
    /// A face of the tile.
    Inside,
    /// Another face.
    Other,
    /// A dart of the edge.
    Dart,
    /// An edge at the node.
    Node,
    /// A dart of the same sign.
    Sign,
}

/// What is seen or wanted in a place.
#[derive(Clone, Copy, Debug)]
pub enum Seen<'a> {
    /// A number.
    Number(i64),
    /// A cell of a column of this kind, as it stands in its table.
    Cell(Kind, Cell<'a>),
    /// What a column holds.
    Kind(Kind, Count),
    /// The numbers from one to another.
    Range(u32, u32),
    /// A dart, in tile 0 where the coverage is untiled.
    Dart(TileDart),
    /// A word for what is there, or ought to be.
    Word(SeenWord),
}

/// The name of a column, as its header has it, or the name of its role where it is absent.
#[derive(Clone, Copy, Debug)]
pub struct ColumnAt<'a> {
    name: &'a [u8],
}

impl<'a> ColumnAt<'a> {
    ghost use Rattle.std.specs.Prelude.{◌≡◌};
    ghost use Rattle.vpf_findings.specs.Findings.{column_name};

    /// The column of this name.
    pub fn new(name: &'a [u8]) -> ColumnAt<'a>
        ensures { column_name result ≡ name.now }
    {
        ColumnAt { name }
    }

    /// The bytes of the name.
    pub fn as_slice(&self) -> &'a [u8]
        ensures { result.now ≡ column_name self.now }
    {
        self.name
    }
}

/// The first place where a library disagrees, and what was found and wanted there.
#[derive(Clone, Copy, Debug)]
pub struct Finding<'a> {
    /// The number of the rule, from 1.
    pub rule: u8,
    /// The tile, 0 where the coverage is untiled.
    pub tile: u32,
    /// The table.
    pub table: TableName,
    /// The position of the table's file in the list of files that were read, from 0.
    pub file: u32,
    /// The row, from 1, or 0 for the table as a whole.
    pub row: u32,
    /// The column.
    pub column: ColumnAt<'a>,
    /// What stands there.
    pub found: Seen<'a>,
    /// What ought to stand there.
    pub wanted: Seen<'a>,
}
