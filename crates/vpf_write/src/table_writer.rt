//! A table that is written row by row.

use crate::draft::Draft;
use crate::writing::{WriteError, Written, cells_len, limit_of};
use std::alloc::{AllocError, Global};
use std::marker::Model;
use vpf_head::Header;
use vpf_value::Cell;

/// A table that is being written, row by row. Where a row passes a limit, it and all behind it are counted and not kept: no
/// more memory is taken than a file may have bytes. Contracts see it as its header, what is counted and what is kept.
#[derive(Drop)]
pub struct TableWriter<'h, 'b> {
    alloc: Global,
    header: &'h Header<'b>,
    text: u64,
    varies: bool,
    draft: Draft,
    rows: u64,
    len: u64,
    failed: bool,
}

impl<'h, 'b> Model for TableWriter<'h, 'b> {
    ghost use Rattle.vpf_write.specs.Inner.Tallies.{Tally};

    ghost Value = { Tally };

    ghost use Rattle.vpf_write.specs.Inner.TableWriters.{tally_of, IsTallied};

    ghost view = { tally_of };

    ghost invariant = { IsTallied };
}

impl<'h, 'b> TableWriter<'h, 'b> {
    ghost use Rattle.std.specs.Prelude.{◌≡◌, ◌++◌, ◌∷◌, [], IfOk, List, IsErr, OnErr, OnOk, Err, map, true, false};
    ghost use Rattle.vpf_value.specs.Values.{view};
    ghost use Rattle.vpf_table.specs.Canonical.{FitsRow};
    ghost use Rattle.vpf_table.specs.Grid.{Row};
    ghost use Rattle.vpf_write.specs.declared.writing.WriteError.TheVariants.{NoMemory};
    ghost use Rattle.vpf_write.specs.Inner.Tallies.{Holds, grid_with};
    ghost use Rattle.vpf_write.specs.Writing.{Writes};

    /// A table of this header, without rows so far.
    pub fn new(alloc: Global, header: &'h Header<'b>) -> Result<TableWriter<'h, 'b>, AllocError>
        ensures head { IfOk result (λ writer. writer.head ≡ header.now) }
        ensures holds { IfOk result (λ writer. Holds writer []) }
        ensures sound { IfOk result (λ writer. writer.failed ≡ false) }
    {
        let draft = Draft::begin(alloc, header)?;
        Ok(TableWriter {
            alloc,
            header,
            text: header.text_len(),
            varies: header.varies(),
            draft,
            rows: 0,
            len: 0,
            failed: false,
        })
    }

    /// Appends a row of these cells. After an error the table fails: so does each later call, and `finish`.
    pub fn put_row(&mut self, cells: &[Cell<'_>]) -> Result<(), AllocError>
        requires { FitsRow self.old.head.columns (map view cells.now) }
        ensures head { self.new.head ≡ self.old.head }
        ensures ok { OnOk result ((rows : List Row) → Holds self.old rows → Holds self.new (rows ++ map view cells.now ∷ [])) }
        ensures sound { OnOk result (self.new.failed ≡ false) }
        ensures err { OnErr result (self.new.failed ≡ true) }
        ensures failed { self.old.failed ≡ true → IsErr result }
    {
        if self.failed {
            return Err(AllocError);
        }
        let len = self.len.saturating_add(cells_len(self.header, cells));
        let rows = self.rows.saturating_add(1);
        let past = limit_of(self.text, rows, len, self.varies).is_some();
        // Where memory runs out within the row, this stays.
        self.failed = true;
        self.draft.put_row_unless(past, self.header, cells)?;
        self.failed = false;
        self.rows = rows;
        self.len = len;
        Ok(())
    }

    /// The table, and its index where rows may vary; or the first limit that they pass, as `write` tells it.
    pub fn finish(self) -> Result<Written, WriteError>
        ensures written { (rows : List Row) → Holds self.entry rows → Writes (grid_with self.entry rows) result }
        ensures failed { self.entry.failed ≡ true → result ≡ Err NoMemory }
    {
        if self.failed {
            return Err(WriteError::NoMemory);
        }
        if let Some((part, limit)) = limit_of(self.text, self.rows, self.len, self.varies) {
            return Err(WriteError::Limit(part, limit));
        }
        Ok(self.draft.finish(self.alloc, self.header)?)
    }
}
