//! Cells to be written.

use std::alloc::{AllocError, Global};
use std::marker::Model;
use vpf_value::Cell;

/// A list of cells, from which `write` makes the rows of a table. Contracts see it as the list of their values.
#[derive(Drop)]
pub struct CellList<'a> {
    cells: Vec<Cell<'a>>,
}

impl<'a> Model for CellList<'a> {
    ghost use Rattle.vpf_table.specs.Grid.{Row};

    ghost Value = { Row };

    ghost use Rattle.vpf_write.specs.Inner.CellLists.{listed_values};

    ghost view = { listed_values };
}

impl<'a> CellList<'a> {
    ghost use Rattle.std.specs.Prelude.{◌≡◌, ◌≤◌, ◌++◌, ◌∷◌, ◌==◌, [], OnOk, OnErr, length, map, slice_range};
    ghost use Rattle.vpf_value.specs.Values.{view};

    /// An empty list, which takes its memory from `alloc`.
    pub fn new(alloc: Global) -> CellList<'a>
        ensures { result ≡ [] }
    {
        CellList {
            cells: Vec::new(alloc),
        }
    }

    /// Appends the cell. After an error the list is unchanged.
    pub fn push(&mut self, cell: Cell<'a>) -> Result<(), AllocError>
        ensures ok { OnOk result (self.new ≡ self.old ++ view cell.entry ∷ []) }
        ensures err { OnErr result (self.new ≡ self.old) }
    {
        self.cells.push(cell)?;
        Ok(())
    }

    /// The number of cells.
    pub fn len(&self) -> usize
        ensures { result ≡ length self.now }
    {
        self.cells.len()
    }

    /// Whether there are no cells.
    pub fn is_empty(&self) -> bool
        ensures { result ≡ (length self.now == 0) }
    {
        self.cells.is_empty()
    }

    /// The cells from position `from` up to `past`, counted from 0.
    pub(crate) fn between(&self, from: usize, past: usize) -> &[Cell<'a>]
        requires begun { from ≤ past }
        requires within { past ≤ length self.now }
        ensures { map view result.now ≡ slice_range self.now from past }
    {
        &self.cells[from..past]
    }
}
