//! Walking over cells and rows.

ghost use Rattle.std.specs.Prelude.{◌≡◌, ◌≤◌, ◌<◌, ◌^◌, ℕ, IsOk, Ok, Some, IfOk, IfSome, length};
ghost use Rattle.vpf_findings.specs.Values.{view};
ghost use Rattle.vpf_head.specs.Inner.Views.{col};
ghost use Rattle.vpf_table.specs.Reading.{cell_in, row_at};
ghost use Rattle.vpf_table.specs.Walking.{end_of, past_of};
ghost use Rattle.vpf_table.specs.Inner.Widths.{width_of};

use crate::placed_header::PlacedHeader;
use vpf_findings::value::laws::fixed_cells;
use vpf_findings::value::{Cell, cell_at, cell_width};
use vpf_head::Column;
use vpf_triplet::{Order, Place};

fn skip_cell(order: Order, column: &Column<'_>, bytes: &[u8], at: usize) -> Result<usize, Place>
    requires { at ≤ length bytes.now }
    ensures exact { result ≡ end_of (cell_in order (col column.now) bytes.now at) }
    ensures inside { IfOk result (λ past. past ≤ length bytes.now) }
{
    let (_, past) = cell_at(order, column.kind, column.count, bytes, at)?;
    Ok(past)
}

/// Where the row that begins at `at` ends, or its first cell that isn't spelled.
pub fn skip_row(header: &PlacedHeader<'_>, bytes: &[u8], at: usize) -> Result<usize, Place>
    requires { at ≤ length bytes.now }
    ensures exact { result ≡ end_of (row_at header.now.order header.now.columns bytes.now at) }
    ensures inside { IfOk result (λ past. past ≤ length bytes.now) }
{
    let order = header.order();
    let mut here = at;
    for i in 0..header.len() {
        let past = skip_cell(order, header.at(i), bytes, here)?;
        here = past;
    }
    Ok(here)
}

/// The cell that is known to begin at `at`, and the offset past it.
pub fn sure_cell<'a>(
    order: Order,
    column: &Column<'_>,
    bytes: &'a [u8],
    at: usize,
) -> (Cell<'a>, usize)
    requires inside { at ≤ length bytes.now }
    requires read { IsOk (cell_in order (col column.now) bytes.now at) }
    ensures exact { cell_in order (col column.now) bytes.now at ≡ Ok (view result.0, result.1) }
    ensures inside { result.1 ≤ length bytes.now }
{
    match cell_at(order, column.kind, column.count, bytes, at) {
        Ok(found) => found,
        Err(_) => unreachable!(),
    }
}

/// Where the cell that is known to begin at `at` ends: by its width where its column has one.
pub fn sure_past(order: Order, column: &Column<'_>, bytes: &[u8], at: usize) -> usize
    requires inside { at ≤ length bytes.now }
    requires read { IsOk (cell_in order (col column.now) bytes.now at) }
    ensures exact { end_of (cell_in order (col column.now) bytes.now at) ≡ Ok result }
    ensures inside { result ≤ length bytes.now }
{
    fixed_cells();
    let _end = bytes.len();
    match cell_width(column.kind, column.count) {
        Some(width) => at + width,
        None => sure_cell(order, column, bytes, at).1,
    }
}

/// The end of the row that is known to begin at `at`.
pub fn sure_end(header: &PlacedHeader<'_>, bytes: &[u8], at: usize) -> usize
    requires inside { at ≤ length bytes.now }
    requires read { IsOk (row_at header.now.order header.now.columns bytes.now at) }
    ensures value { result ≡ past_of (row_at header.now.order header.now.columns bytes.now at) }
    ensures after { at ≤ result }
    ensures inside { result ≤ length bytes.now }
{
    let order = header.order();
    let mut here = at;
    for i in 0..header.len() {
        here = sure_past(order, header.at(i), bytes, here);
    }
    here
}

/// The end of the row that is known to begin at `at`, by the width of the rows where they have one.
pub fn next_row(header: &PlacedHeader<'_>, bytes: &[u8], at: usize, width: Option<usize>) -> usize
    requires inside { at ≤ length bytes.now }
    requires read { IsOk (row_at header.now.order header.now.columns bytes.now at) }
    requires fixed { IfSome width (λ w. width_of header.now.columns ≡ Some w) }
    ensures value { result ≡ past_of (row_at header.now.order header.now.columns bytes.now at) }
    ensures after { at ≤ result }
    ensures inside { result ≤ length bytes.now }
{
    fixed_cells();
    let _end = bytes.len();
    match width {
        Some(width) => at + width,
        None => sure_end(header, bytes, at),
    }
}

/// How many bytes each row has, where that is the same for all and fits a number.
pub fn row_width(header: &PlacedHeader<'_>) -> Option<usize>
    ensures found { IfSome result (λ w. width_of header.now.columns ≡ Some w) }
    ensures known { (w : ℕ) → width_of header.now.columns ≡ Some w → w < 2 ^ 64 → result ≡ Some w }
{
    let mut sum: usize = 0;
    for i in 0..header.len() {
        let column = header.at(i);
        let width = cell_width(column.kind, column.count)?;
        sum = sum.checked_add(width)?;
    }
    Some(sum)
}
