//! A row, seen in its file.

ghost use Rattle.std.specs.Prelude.{◌≡◌, ◌≤◌, ◌<◌, ◌+◌, Some, IsOk, length, slice_get};
ghost use Rattle.vpf_findings.specs.Values.{view};
ghost use Rattle.vpf_table.specs.Reading.{row_at};
ghost use Rattle.vpf_table.specs.Inner.RowWalks.{IsLeft};
ghost use Rattle.vpf_table.specs.Walking.{row_of};

use crate::placed_header::PlacedHeader;
use crate::walking::{sure_cell, sure_past};
use std::marker::Model;
use vpf_findings::value::Cell;
use vpf_findings::value::laws::fixed_cells;

/// A row of a table, whose cells stay in the file. Contracts see it as the list of its values.
#[derive(Drop)]
pub struct RowView<'t, 'a> {
    header: &'t PlacedHeader<'a>,
    bytes: &'a [u8],
    at: usize,
}

impl<'t, 'a> Model for RowView<'t, 'a> {
    ghost use Rattle.vpf_table.specs.Grid.{Row};

    ghost Value = { Row };

    ghost use Rattle.vpf_table.specs.Inner.RowViews.{row_cells, IsRowRead};

    ghost view = { row_cells };

    ghost invariant = { IsRowRead };
}

/// The cell in column `c` of the row that begins at `begin`, and the offset past it, where that of an earlier column, or of the same one,
/// begins at `at`.
fn cell_behind<'a>(
    header: &PlacedHeader<'_>,
    bytes: &'a [u8],
    begin: usize,
    column: usize,
    at: usize,
    c: usize,
) -> (Cell<'a>, usize)
    requires inside { at ≤ length bytes.now }
    requires row { IsOk (row_at header.now.order header.now.columns bytes.now begin) }
    requires left { IsLeft header.now.order header.now.columns bytes.now (row_at header.now.order header.now.columns bytes.now begin) column at }
    requires behind { column ≤ c }
    requires within { c < length (row_of (row_at header.now.order header.now.columns bytes.now begin)) }
    ensures cell { slice_get (row_of (row_at header.now.order header.now.columns bytes.now begin)) c ≡ Some (view result.0) }
    ensures left { IsLeft header.now.order header.now.columns bytes.now (row_at header.now.order header.now.columns bytes.now begin) (c + 1) result.1 }
    ensures inside { result.1 ≤ length bytes.now }
{
    let order = header.order();
    let mut here = at;
    for i in column..c {
        here = sure_past(order, header.at(i), bytes, here);
    }
    sure_cell(order, header.at(c), bytes, here)
}

/// A column no later than `c`, and where its cell begins in the row that begins at `begin`: no cell is looked at.
fn placed_cell(header: &PlacedHeader<'_>, bytes: &[u8], begin: usize, c: usize) -> (usize, usize)
    requires inside { begin ≤ length bytes.now }
    requires row { IsOk (row_at header.now.order header.now.columns bytes.now begin) }
    ensures behind { result.0 ≤ c }
    ensures left { IsLeft header.now.order header.now.columns bytes.now (row_at header.now.order header.now.columns bytes.now begin) result.0 result.1 }
    ensures inside { result.1 ≤ length bytes.now }
{
    fixed_cells();
    let _end = bytes.len();
    let (column, width) = header.placed(c);
    (column, begin + width)
}

impl<'t, 'a> RowView<'t, 'a> {
    ghost use Rattle.std.specs.Prelude.{◌≡◌, ◌<◌, ◌≤◌, IsOk, Some, length, slice_get};
    ghost use Rattle.vpf_table.specs.Reading.{row_at};
    ghost use Rattle.vpf_table.specs.Walking.{row_of};
    ghost use Rattle.vpf_findings.specs.Values.{view};

    /// The row that is known to begin at `at`.
    pub(crate) fn new(header: &'t PlacedHeader<'a>, bytes: &'a [u8], at: usize) -> RowView<'t, 'a>
        requires inside { at ≤ length bytes.now }
        requires read { IsOk (row_at header.now.order header.now.columns bytes.now at) }
        ensures row { result ≡ row_of (row_at header.now.order header.now.columns bytes.now at) }
        ensures width { length result ≡ length header.now.columns }
    {
        RowView { header, bytes, at }
    }

    /// The cell in column `c`, counted from 0. It is found at once where no column before it varies. Else the cells from the
    /// first that does are passed by their widths, and looked at only where their column has none.
    pub fn cell(&self, c: usize) -> Cell<'a>
        requires { c < length self.now }
        ensures { slice_get self.now c ≡ Some (view result) }
    {
        let (column, at) = placed_cell(self.header, self.bytes, self.at, c);
        cell_behind(self.header, self.bytes, self.at, column, at, c).0
    }

    /// The same row, to be asked for one cell after another.
    pub fn walk(&self) -> RowWalk<'t, 'a>
        ensures { result ≡ self.now }
    {
        RowWalk {
            header: self.header,
            bytes: self.bytes,
            begin: self.at,
            column: 0,
            at: self.at,
        }
    }

    /// The cells in the order of their columns, each decoded once.
    pub fn cells(&self) -> Cells<'t, 'a>
        ensures { result ≡ self.now }
    {
        Cells {
            header: self.header,
            bytes: self.bytes,
            at: self.at,
            column: 0,
        }
    }
}

/// A row whose cells are asked for one after another: one that stands behind the last is found from there on, and one before it from the
/// first. Contracts see it as the list of the row's values.
#[derive(Drop)]
pub struct RowWalk<'t, 'a> {
    header: &'t PlacedHeader<'a>,
    bytes: &'a [u8],
    begin: usize,
    column: usize,
    at: usize,
}

impl<'t, 'a> Model for RowWalk<'t, 'a> {
    ghost use Rattle.vpf_table.specs.Grid.{Row};

    ghost Value = { Row };

    ghost use Rattle.vpf_table.specs.Inner.RowWalks.{cells_walked, IsWalked};

    ghost view = { cells_walked };

    ghost invariant = { IsWalked };
}

impl<'t, 'a> RowWalk<'t, 'a> {
    ghost use Rattle.std.specs.Prelude.{◌≡◌, ◌<◌, Some, length, slice_get};
    ghost use Rattle.vpf_findings.specs.Values.{view};

    /// The cell in column `c`, counted from 0.
    pub fn cell(&mut self, c: usize) -> Cell<'a>
        requires { c < length self.old }
        ensures value { slice_get self.old c ≡ Some (view result) }
        ensures same { self.new ≡ self.old }
    {
        let (placed, there) = placed_cell(self.header, self.bytes, self.begin, c);
        let (column, at) = if c < self.column {
            (placed, there)
        } else if self.column < placed {
            (placed, there)
        } else {
            (self.column, self.at)
        };
        let (cell, past) = cell_behind(self.header, self.bytes, self.begin, column, at, c);
        let _columns = self.header.len();
        self.column = c + 1;
        self.at = past;
        cell
    }
}

/// The cells of a row that are left. Contracts see it as the list of their values.
#[derive(Drop)]
pub struct Cells<'t, 'a> {
    header: &'t PlacedHeader<'a>,
    bytes: &'a [u8],
    at: usize,
    column: usize,
}

impl<'t, 'a> Model for Cells<'t, 'a> {
    ghost use Rattle.vpf_table.specs.Grid.{Row};

    ghost Value = { Row };

    ghost use Rattle.vpf_table.specs.Inner.CellsLeft.{cells_left, AreCellsRead};

    ghost view = { cells_left };

    ghost invariant = { AreCellsRead };
}

impl<'t, 'a> Iterator for Cells<'t, 'a> {
    ghost use Rattle.std.specs.Iterator.{YieldsFirstBy, item_count};
    ghost use Rattle.vpf_findings.specs.Values.{view};

    type Item = Cell<'a>;

    ghost next_gives = { YieldsFirstBy view (λ s. s) };

    ghost remaining = { item_count (λ s. s) };

    fn next(&mut self) -> Option<Cell<'a>> {
        if self.column >= self.header.len() {
            return None;
        }
        let column = self.header.at(self.column);
        let (cell, past) = sure_cell(self.header.order(), column, self.bytes, self.at);
        self.at = past;
        self.column += 1;
        Some(cell)
    }
}
