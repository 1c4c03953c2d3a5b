//! A table that is being written.

ghost use Rattle.std.specs.Prelude.{◌≡◌, ◌≤◌, ◌<◌, ◌+◌, ◌-◌, ◌^◌, ◌∷◌, [], ◌++◌, OnOk, IfOk, Some, None, false, length, map, vec_len, if◌then◌else◌};
ghost use Rattle.vpf_base.specs.Limits.{longest_text, most_bytes};
ghost use Rattle.vpf_value.specs.Values.{view};
ghost use Rattle.vpf_head.specs.Canonical.{canonical_text};
ghost use Rattle.vpf_varindex.specs.RowIndex.{row_index};
ghost use Rattle.vpf_table.specs.Canonical.{FitsRow, row_text};
ghost use Rattle.vpf_write.specs.Inner.Drafts.{progress, begun, with_row, with_bytes};
ghost use Rattle.vpf_write.specs.Inner.Turning.{fields_width, turned_rows};

use crate::turning::{Field, put_turned};
use crate::writing::{MOST_TEXT, Written};
use std::alloc::{AllocError, Global};
use vpf_head::Header;
use vpf_source::Bytes;
use vpf_value::{Cell, put_cell};
use vpf_varindex::index_of;

/// A table that is being written: its bytes so far, and where its rows lie in them, which is kept where they vary.
#[derive(Drop)]
pub struct Draft {
    table: Vec<u8>,
    spans: Vec<(u32, u32)>,
    varies: bool,
}

/// Appends a row of these cells.
fn put_cells(header: &Header<'_>, cells: &[Cell<'_>], out: &mut Vec<u8>) -> Result<(), AllocError>
    requires { FitsRow header.now.columns (map view cells.now) }
    ensures { OnOk result (out.new.items ≡ out.old.items ++ row_text header.now.order header.now.columns (map view cells.now)) }
{
    let order = header.order();
    for c in 0..header.len() {
        let column = header.at(c);
        put_cell(order, column.kind, column.count, &cells[c], out)?;
    }
    Ok(())
}

impl Draft {
    /// A table without rows, with room for rows of so many bytes.
    pub fn new(alloc: Global, header: &Header<'_>, rows_len: usize) -> Result<Draft, AllocError>
        requires { length (canonical_text header.now) ≤ longest_text }
        ensures { IfOk result (λ draft. progress draft ≡ begun header.now) }
    {
        let header_len = 4 + header.text_len() as usize;
        let mut table = Vec::with_capacity(alloc, rows_len.saturating_add(header_len))?;
        header.write(&mut table)?;
        Ok(Draft {
            table,
            spans: Vec::new(alloc),
            varies: header.varies(),
        })
    }

    /// A table without rows. A header that is too long to be read again is left out.
    pub fn begin(alloc: Global, header: &Header<'_>) -> Result<Draft, AllocError>
        ensures { length (canonical_text header.now) ≤ longest_text → IfOk result (λ draft. progress draft ≡ begun header.now) }
    {
        if header.text_len() > MOST_TEXT {
            return Ok(Draft {
                table: Vec::new(alloc),
                spans: Vec::new(alloc),
                varies: false,
            });
        }
        Draft::new(alloc, header, 0)
    }

    /// The row that begins at `from` is whole.
    fn end_row(&mut self, from: usize) -> Result<(), AllocError>
        requires begun { from ≤ vec_len self.old.table }
        requires small { vec_len self.old.table < 2 ^ 32 }
        ensures table { self.new.table ≡ self.old.table }
        ensures varies { self.new.varies ≡ self.old.varies }
        ensures spans { OnOk result (self.new.spans.items
            ≡ (if self.old.varies then self.old.spans.items ++ (from, vec_len self.old.table - from) ∷ [] else self.old.spans.items)) }
    {
        if self.varies {
            let length = self.table.len() - from;
            self.spans.push((from as u32, length as u32))?;
        }
        Ok(())
    }

    /// Appends a row of these cells.
    pub fn put_row(&mut self, header: &Header<'_>, cells: &[Cell<'_>]) -> Result<(), AllocError>
        requires fits { FitsRow header.now.columns (map view cells.now) }
        requires small { length (progress self.old).table + length (row_text header.now.order header.now.columns (map view cells.now)) ≤ most_bytes }
        ensures { OnOk result (progress self.new ≡ with_row header.now.order header.now.columns (progress self.old) (map view cells.now)) }
    {
        let from = self.table.len();
        put_cells(header, cells, &mut self.table)?;
        self.end_row(from)
    }

    /// Appends a row of these cells, unless it passes a limit.
    pub fn put_row_unless(
        &mut self,
        past: bool,
        header: &Header<'_>,
        cells: &[Cell<'_>],
    ) -> Result<(), AllocError>
        requires fits { FitsRow header.now.columns (map view cells.now) }
        requires small { past ≡ false → length (progress self.old).table + length (row_text header.now.order header.now.columns
            (map view cells.now)) ≤ most_bytes }
        ensures { past ≡ false → OnOk result (progress self.new ≡ with_row header.now.order header.now.columns (progress self.old) (map view cells.now)) }
    {
        if past {
            return Ok(());
        }
        self.put_row(header, cells)
    }

    /// Appends rows of one width that are spelled so.
    pub fn put_rows(&mut self, rows: &[u8]) -> Result<(), AllocError>
        ensures { OnOk result (progress self.new ≡ with_bytes (progress self.old) rows.now) }
    {
        self.table.extend_from_slice(rows)
    }

    /// Appends rows of these fields, with their words turned round.
    pub fn put_turned_rows(
        &mut self,
        fields: &[Field],
        width: usize,
        rows: &[u8],
    ) -> Result<(), AllocError>
        requires some { 0 < width }
        requires whole { fields_width fields.now ≡ width }
        ensures { OnOk result (progress self.new ≡ with_bytes (progress self.old) (turned_rows fields.now width rows.now)) }
    {
        put_turned(fields, width, rows, &mut self.table)
    }

    /// The table as it is, and its index where rows vary.
    pub fn finish(self, alloc: Global, header: &Header<'_>) -> Result<Written, AllocError>
        requires short { length (canonical_text header.now) ≤ longest_text }
        requires few { length (progress self).spans < 2 ^ 32 }
        ensures table { IfOk result (λ made. made.table ≡ (progress self).table) }
        ensures index { IfOk result (λ made. made.index
            ≡ (if (progress self).varies then Some (row_index header.now.order (length (canonical_text header.now)) (progress self).spans) else None)) }
    {
        if !self.varies {
            return Ok(Written {
                table: Bytes::new(self.table),
                index: None,
            });
        }
        let text = header.text_len() as u32;
        let index = index_of(alloc, header.order(), text, &self.spans)?;
        Ok(Written {
            table: Bytes::new(self.table),
            index: Some(Bytes::new(index)),
        })
    }
}
