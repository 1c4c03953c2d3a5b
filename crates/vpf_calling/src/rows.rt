//! The rows of a table that have a value.

ghost use Rattle.std.specs.Prelude.{◌≡◌, ◌<◌, IfOk, length};
ghost use Rattle.std.specs.Option.{option_map};
ghost use Rattle.vpf_table.specs.Reading.{table_of};
ghost use Rattle.vpf_calling.specs.Inner.Having.{having_in, having_at, rows_having};

use std::alloc::{AllocError, Global};
use vpf_select::{SelectError, Test, select_rows, value_in};
use vpf_table::TableView;
use vpf_triplet::PlaceError;

/// The rows that have the value in the column at this position, from 0.
fn rows_at(
    alloc: Global,
    table: &TableView<'_>,
    column: usize,
    word: &[u8],
) -> Result<Option<Vec<u32>>, AllocError>
    requires { column < length table.now.head.columns }
    ensures { IfOk result (λ rows. option_map (λ v. v.items) rows ≡ having_at table.now column word.now) }
{
    let Some(value) = value_in(alloc, table, column, word)? else {
        return Ok(None);
    };
    let value = value.cell();
    match select_rows(alloc, table, None, &Test { column, value }) {
        Ok(rows) => Ok(Some(rows)),
        // Without an index nothing disagrees.
        Err(SelectError::Disagrees { .. }) => Ok(None),
        Err(SelectError::NoMemory) => Err(AllocError),
    }
}

/// The numbers of the rows, from 1, whose cell in a column is what a word says. Nothing where the bytes are no table, the table has no such column,
/// or the word is
/// no value of it.
pub fn rows_having(
    alloc: Global,
    bytes: &[u8],
    column: &[u8],
    word: &[u8],
) -> Result<Option<Vec<u32>>, AllocError>
    ensures { IfOk result (λ rows. option_map (λ v. v.items) rows ≡ rows_having column.now word.now (table_of bytes.now)) }
{
    let table = match TableView::open(alloc, bytes, None) {
        Ok(table) => table,
        Err(PlaceError::Place(_)) => return Ok(None),
        Err(PlaceError::NoMemory) => return Err(AllocError),
    };
    match table.header().column(column) {
        Some(c) => rows_at(alloc, &table, c, word),
        None => Ok(None),
    }
}
