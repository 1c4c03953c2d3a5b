//! Writing a table from the rows of others.

use crate::revise::changes::NewCell;
use crate::revise::filling::{fill, revise};
use crate::{TableWriter, WriteError, Written};
use std::alloc::{AllocError, Global};
use std::marker::Model;
use vpf_head::Header;
use vpf_table::RowView;
use vpf_value::Cell;

/// A table that is being written from the rows of others, with new cells in some columns (MIL-STD-2407, 5.4, VPF table encoding).
/// All rows go through one list of cells, so none takes memory but for its bytes. Contracts see it as they see a `TableWriter`.
#[derive(Drop)]
pub struct RevisedTable<'h, 'b, 'a> {
    writer: TableWriter<'h, 'b>,
    cells: Vec<Cell<'a>>,
}

impl<'h, 'b, 'a> Model for RevisedTable<'h, 'b, 'a> {
    ghost use Rattle.std.specs.Prelude.{◌≡◌, length, vec_len};
    ghost use Rattle.vpf_write.specs.Inner.Tallies.{Tally};

    ghost Value = { Tally };

    ghost view = { λ t. t.writer };

    ghost invariant = { λ t. vec_len t.cells ≡ length t.writer.head.columns };
}

impl<'h, 'b, 'a> RevisedTable<'h, 'b, 'a> {
    ghost use Rattle.std.specs.Prelude.{◌≡◌, ◌++◌, ◌∷◌, [], All, IfOk, List, IsErr, OnErr, OnOk, Err, map, true, false};
    ghost use Rattle.vpf_table.specs.Grid.{Row};
    ghost use Rattle.vpf_write.specs.declared.writing.WriteError.TheVariants.{NoMemory};
    ghost use Rattle.vpf_write.specs.Inner.Tallies.{Holds, grid_with};
    ghost use Rattle.vpf_write.specs.Writing.{Writes};
    ghost use Rattle.vpf_write.specs.Revise.Revising.{FitsElsewhere, FitsIn, new_value, revised};

    /// A table of this header, without rows so far. Takes memory for the header's text and for a row of cells.
    pub fn new(
        alloc: Global,
        header: &'h Header<'b>,
    ) -> Result<RevisedTable<'h, 'b, 'a>, AllocError>
        ensures head { IfOk result (λ table. table.head ≡ header.now) }
        ensures holds { IfOk result (λ table. Holds table []) }
        ensures sound { IfOk result (λ table. table.failed ≡ false) }
    {
        let cells = vec![in alloc; Cell::Null; header.len()]?;
        let writer = TableWriter::new(alloc, header)?;
        Ok(RevisedTable { writer, cells })
    }

    /// Appends this row with the new cells in their columns; of several for one column the first counts. Fails only where memory
    /// runs out, and then each later call does, and `finish`.
    pub fn put(&mut self, row: &RowView<'_, 'a>, changes: &[NewCell<'a>]) -> Result<(), AllocError>
        // Each new cell fits its column.
        requires changes { All (FitsIn self.old.head.columns) (map new_value changes.now) }
        // Each other cell fits its own.
        requires others { FitsElsewhere (map new_value changes.now) self.old.head.columns row.now }
        ensures head { self.new.head ≡ self.old.head }
        ensures ok { OnOk result ((rows : List Row) → Holds self.old rows → Holds self.new (rows ++ revised (map new_value changes.now) row.now ∷ [])) }
        ensures sound { OnOk result (self.new.failed ≡ false) }
        ensures err { OnErr result (self.new.failed ≡ true) }
        ensures failed { self.old.failed ≡ true → IsErr result }
    {
        let cells = self.cells.as_mut_slice();
        fill(cells, row.cells());
        revise(cells, changes);
        self.writer.put_row(cells)?;
        Ok(())
    }

    /// The table, and its index where rows may vary; or the first limit that they pass, as `TableWriter` tells it.
    pub fn finish(self) -> Result<Written, WriteError>
        ensures written { (rows : List Row) → Holds self.entry rows → Writes (grid_with self.entry rows) result }
        ensures failed { self.entry.failed ≡ true → result ≡ Err NoMemory }
    {
        self.writer.finish()
    }
}
