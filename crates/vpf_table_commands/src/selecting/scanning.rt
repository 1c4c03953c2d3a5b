//! The rows that have a value, by a look at every row.

ghost use Rattle.std.specs.Prelude.{◌≡◌, ◌<◌, ◌++◌, IfOk, OnOk, Some, length, slice_get, string_bytes};
ghost use Rattle.std.specs.List.{flat_map};
ghost use Rattle.vpf_head.specs.Head.{Col};
ghost use Rattle.vpf_replies.specs.Answer.{done};
ghost use Rattle.vpf_table_commands.specs.Rows.{found_line, found_text, scan_answer};

use crate::selecting::RowsRequest;
use std::alloc::{AllocError, Global};
use vpf_replies::{Refusal, Reply, Verdict, refuse};
use vpf_select::{Test, select_rows, value_in};
use vpf_table::TableView;

/// A line for each row.
fn put_found(text: &mut String, rows: &[u32]) -> Result<(), AllocError>
    ensures { OnOk result (string_bytes text.new ≡ string_bytes text.old ++ flat_map found_line rows.now) }
{
    for row in rows {
        write!(text, "{row}\n")?;
    }
    Ok(())
}

/// The reply of rows: a line for each, and how many there are.
pub(crate) fn found(alloc: Global, rows: &[u32]) -> Result<Reply, AllocError>
    ensures { IfOk result (λ reply. reply ≡ done (found_text rows.now)) }
{
    let mut text = String::new(alloc);
    put_found(&mut text, rows)?;
    let count = rows.len();
    write!(text, "found {count}\n")?;
    Ok(Reply::new(alloc, Verdict::Done, text))
}

/// The reply by a plain scan of the column at this position, from 0.
pub fn rows_by_scan(
    alloc: Global,
    request: &RowsRequest,
    table: &TableView<'_>,
    c: usize,
) -> Result<Reply, AllocError>
    requires { c < length table.now.head.columns }
    ensures { (column : Col) → slice_get table.now.head.columns c ≡ Some column → IfOk result (λ reply. reply ≡ scan_answer request.now table.now c column) }
{
    let Some(value) = value_in(alloc, table, c, request.value.as_str().as_bytes())? else {
        return refuse(alloc, Refusal::BadValue(request.column.as_str().as_bytes()));
    };
    let test = Test {
        column: c,
        value: value.cell(),
    };
    match select_rows(alloc, table, None, &test) {
        Ok(rows) => found(alloc, &rows),
        // A scan refuses no row, so memory ran out.
        Err(_) => Err(AllocError),
    }
}
