//! Writing a table anew from its view, without a list of its cells.

ghost use Rattle.std.specs.Prelude.{◌≡◌, ◌≤◌, ◌+◌, ◌-◌, ◌^◌, ◌<◌, All, false, min, IfOk, OnOk, Some, length, map};
ghost use Rattle.vpf_base.specs.Limits.{most_bytes};
ghost use Rattle.vpf_value.specs.Values.{view};
ghost use Rattle.vpf_head.specs.Canonical.{canonical_header};
ghost use Rattle.vpf_head.specs.Head.{varies_in};
ghost use Rattle.vpf_table.specs.Inner.Widths.{width_of};
ghost use Rattle.vpf_table.specs.Canonical.{FitsRow, in_order, row_text, rows_text};
ghost use Rattle.vpf_write.specs.Inner.Drafts.{progress, with_rows};
ghost use Rattle.vpf_write.specs.Writing.{Estimates, Writes};

use crate::draft::Draft;
use crate::turning::fields_of;
use crate::writing::{MOST_BYTES, WriteError, Written, cells_len, first_limit};
use std::alloc::{AllocError, Global};
use vpf_head::Header;
use vpf_table::{Cells, FixedRows, TableView};
use vpf_triplet::Order;
use vpf_value::Cell;
use vpf_value::laws::{fitting_is_written, turned_is_other_order};

/// Puts the cells of a row in place of those that the list has.
fn refill<'a>(list: &mut Vec<Cell<'a>>, cells: Cells<'_, 'a>) -> Result<(), AllocError>
    ensures { OnOk result (map view list.new.items ≡ cells.entry) }
{
    list.clear();
    for cell in cells {
        list.push(cell)?;
    }
    Ok(())
}

/// How many bytes the rows have under this header, or the last number of 64 bits where they are more.
fn rows_len(alloc: Global, header: &Header<'_>, table: &TableView<'_>) -> Result<u64, AllocError>
    requires { header.now.columns ≡ table.now.head.columns }
    ensures { IfOk result (λ len. len ≡ min (length (rows_text header.now.order header.now.columns table.now.rows)) (2 ^ 64 - 1)) }
{
    let mut cells = Vec::new(alloc);
    let mut sum: u64 = 0;
    for row in table.rows() {
        refill(&mut cells, row.cells())?;
        sum = sum.saturating_add(cells_len(header, &cells));
    }
    Ok(sum)
}

/// How many bytes the rows have under this header, for limits: they are counted only where they may pass one.
fn len_for_limits(
    alloc: Global,
    header: &Header<'_>,
    table: &TableView<'_>,
) -> Result<u64, AllocError>
    requires { header.now.columns ≡ table.now.head.columns }
    ensures { IfOk result (Estimates (length (canonical_header header.now)) (length (rows_text header.now.order header.now.columns table.now.rows))) }
{
    let most = table.most_len() as u64;
    if most.saturating_add(4).saturating_add(header.text_len()) <= MOST_BYTES {
        return Ok(most);
    }
    rows_len(alloc, header, table)
}

/// Appends rows of one width, with their words turned round where the header has another order than the table.
fn put_fixed_rows(
    alloc: Global,
    draft: &mut Draft,
    header: &Header<'_>,
    table: &TableView<'_>,
    rows: FixedRows<'_>,
) -> Result<(), AllocError>
    requires columns { header.now.columns ≡ table.now.head.columns }
    requires alike { (progress draft.old).varies ≡ false }
    requires some { 0 < rows.width }
    requires width { width_of table.now.head.columns ≡ Some rows.width }
    requires bytes { rows.bytes.now ≡ rows_text table.now.head.order table.now.head.columns table.now.rows }
    requires fits { All (FitsRow table.now.head.columns) table.now.rows }
    ensures { OnOk result (progress draft.new ≡ with_rows header.now.order header.now.columns (progress draft.old) table.now.rows) }
{
    fitting_is_written();
    turned_is_other_order();
    if header.order() == table.header().order() {
        return draft.put_rows(rows.bytes);
    }
    let fields = fields_of(alloc, header)?;
    draft.put_turned_rows(&fields, rows.width, rows.bytes)
}

/// Appends the rows cell by cell.
fn put_decoded_rows(
    alloc: Global,
    draft: &mut Draft,
    header: &Header<'_>,
    table: &TableView<'_>,
) -> Result<(), AllocError>
    requires columns { header.now.columns ≡ table.now.head.columns }
    requires small { length (progress draft.old).table + length (rows_text header.now.order header.now.columns table.now.rows) ≤ most_bytes }
    ensures { OnOk result (progress draft.new ≡ with_rows header.now.order header.now.columns (progress draft.old) table.now.rows) }
{
    let mut cells = Vec::new(alloc);
    for row in table.rows() {
        refill(&mut cells, row.cells())?;
        draft.put_row(header, &cells)?;
    }
    Ok(())
}

/// Appends the rows.
fn put_rows(
    alloc: Global,
    draft: &mut Draft,
    header: &Header<'_>,
    table: &TableView<'_>,
) -> Result<(), AllocError>
    requires columns { header.now.columns ≡ table.now.head.columns }
    requires varies { (progress draft.old).varies ≡ varies_in header.now.columns }
    requires small { length (progress draft.old).table + length (rows_text header.now.order header.now.columns table.now.rows) ≤ most_bytes }
    ensures { OnOk result (progress draft.new ≡ with_rows header.now.order header.now.columns (progress draft.old) table.now.rows) }
{
    match table.fixed_rows() {
        Some(rows) => put_fixed_rows(alloc, draft, header, table, rows),
        None => put_decoded_rows(alloc, draft, header, table),
    }
}

/// The table under this header, which is its own in some order: see `write_in`.
fn write_under(
    alloc: Global,
    header: &Header<'_>,
    table: &TableView<'_>,
) -> Result<Written, WriteError>
    requires { header.now ≡ (in_order header.now.order table.now).head }
    ensures { Writes (in_order header.now.order table.now) result }
{
    let rows = table.len() as usize;
    let len = len_for_limits(alloc, header, table)?;
    if let Some((part, limit)) = first_limit(header, rows, len) {
        return Err(WriteError::Limit(part, limit));
    }
    let mut draft = Draft::new(alloc, header, len as usize)?;
    put_rows(alloc, &mut draft, header, table)?;
    Ok(draft.finish(alloc, header)?)
}

/// The table with its numbers in this order, as `write` writes it: the canonical bytes and, where rows may vary, the index,
/// or the first limit that they would pass. Rows of one width go over as bytes, and others cell by cell.
pub fn write_in(alloc: Global, table: &TableView<'_>, order: Order) -> Result<Written, WriteError>
    ensures { Writes (in_order order table.now) result }
{
    let header = table.header().with_order(order)?;
    write_under(alloc, &header, table)
}
