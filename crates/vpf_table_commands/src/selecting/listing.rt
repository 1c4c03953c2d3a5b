//! The rows that have a value, by a thematic index.

ghost use Rattle.std.specs.Prelude.{◌≡◌, ◌≤◌, ◌<◌, ℕ, List, Result, IfOk, Some, length, slice_get};
ghost use Rattle.vpf_base.specs.Results.{Told};
ghost use Rattle.vpf_value.specs.Values.{view};
ghost use Rattle.vpf_head.specs.Head.{Col};
ghost use Rattle.vpf_theme.specs.Findings.{cell_of, cells_of};
ghost use Rattle.vpf_select.specs.Selecting.{IsOwn, IsRefused, RefusesRow, row_refused, Selects};
ghost use Rattle.vpf_replies.specs.Answer.{refused};
ghost use Rattle.vpf_replies.specs.Selecting.{wrong_row_text};
ghost use Rattle.vpf_table_commands.specs.Rows.{fitting_answer, listed_answer, on_selected, theme_answer};

use crate::selecting::RowsRequest;
use crate::selecting::scanning::found;
use std::alloc::{AllocError, Global};
use vpf_replies::{Refusal, Reply, disagreement, fault, refuse, wrong_row};
use vpf_select::{SelectError, Test, cell_in, select_rows, value_in};
use vpf_source::Name;
use vpf_table::TableView;
use vpf_theme::{ThemeView, fits_table};

/// The reply where an index lists a row whose cell isn't the value.
fn unlike(
    alloc: Global,
    name: &str,
    table: &TableView<'_>,
    test: &Test<'_>,
    row: u32,
) -> Result<Reply, AllocError>
    requires column { test.now.column < length table.now.head.columns }
    requires first { 1 ≤ row }
    requires last { row ≤ length table.now.rows }
    ensures { (column : Col) → slice_get table.now.head.columns test.now.column ≡ Some column
        → IfOk result (λ reply. reply ≡ refused (wrong_row_text name.now column.kind row (cell_of (cells_of table.now test.now.column) row)
        (view test.now.value))) }
{
    let kind = table.header().at(test.column).kind;
    let cell = cell_in(table, test.column, row);
    wrong_row(alloc, name, kind, row, &cell, &test.value)
}

/// The reply where a selection by an index comes to nothing.
fn unselected(
    alloc: Global,
    name: &str,
    table: &TableView<'_>,
    test: &Test<'_>,
    error: SelectError,
) -> Result<Reply, AllocError>
    requires column { test.now.column < length table.now.head.columns }
    requires row { IsRefused (length table.now.rows) error }
    ensures { (column : Col) (found : Result (List ℕ) ℕ) → slice_get table.now.head.columns test.now.column ≡ Some column → Told (row_refused error) found
        → IfOk result (λ reply. reply ≡ on_selected name.now column.kind (cells_of table.now test.now.column) (view test.now.value) found) }
{
    match error {
        SelectError::Disagrees { row } => unlike(alloc, name, table, test, row),
        SelectError::NoMemory => Err(AllocError),
    }
}

/// The reply of what an index selects.
fn selected(
    alloc: Global,
    name: &str,
    table: &TableView<'_>,
    test: &Test<'_>,
    rows: Result<Vec<u32>, SelectError>,
) -> Result<Reply, AllocError>
    requires column { test.now.column < length table.now.head.columns }
    requires refused { RefusesRow (length table.now.rows) rows }
    ensures { (column : Col) (found : Result (List ℕ) ℕ) → slice_get table.now.head.columns test.now.column ≡ Some column → Selects (λ v. v.items) rows found
        → IfOk result (λ reply. reply ≡ on_selected name.now column.kind (cells_of table.now test.now.column) (view test.now.value) found) }
{
    match rows {
        Ok(rows) => found(alloc, &rows),
        Err(error) => unselected(alloc, name, table, test, error),
    }
}

/// The reply by an index that is of the column.
fn listed(
    alloc: Global,
    request: &RowsRequest,
    table: &TableView<'_>,
    c: usize,
    name: &Name,
    theme: &ThemeView<'_>,
) -> Result<Reply, AllocError>
    requires column { c < length table.now.head.columns }
    requires own { IsOwn (Some theme.now) table.now c }
    ensures { (column : Col) → slice_get table.now.head.columns c ≡ Some column
        → IfOk result (λ reply. reply ≡ listed_answer request.now table.now c column name.now theme.now) }
{
    let Some(value) = value_in(alloc, table, c, request.value.as_str().as_bytes())? else {
        return refuse(alloc, Refusal::BadValue(request.column.as_str().as_bytes()));
    };
    let test = Test {
        column: c,
        value: value.cell(),
    };
    let rows = select_rows(alloc, table, Some(theme), &test);
    selected(alloc, name.as_str(), table, &test, rows)
}

/// The reply by an index, unless it isn't one of the column.
fn fitting(
    alloc: Global,
    request: &RowsRequest,
    table: &TableView<'_>,
    c: usize,
    name: &Name,
    theme: &ThemeView<'_>,
) -> Result<Reply, AllocError>
    requires { c < length table.now.head.columns }
    ensures { (column : Col) → slice_get table.now.head.columns c ≡ Some column
        → IfOk result (λ reply. reply ≡ fitting_answer request.now table.now c column name.now theme.now) }
{
    if let Some(finding) = fits_table(theme, table, c) {
        return disagreement(alloc, name.as_str(), &finding);
    }
    listed(alloc, request, table, c, name, theme)
}

/// The reply by the thematic index in the bytes of a file, for the column at this position, from 0.
pub fn rows_by_index(
    alloc: Global,
    request: &RowsRequest,
    table: &TableView<'_>,
    c: usize,
    name: &Name,
    bytes: &[u8],
) -> Result<Reply, AllocError>
    requires { c < length table.now.head.columns }
    ensures { (column : Col) → slice_get table.now.head.columns c ≡ Some column
        → IfOk result (λ reply. reply ≡ theme_answer request.now table.now c column name.now bytes.now) }
{
    match ThemeView::open(bytes, table.header().order()) {
        Ok(theme) => fitting(alloc, request, table, c, name, &theme),
        Err(place) => fault(alloc, name.as_str(), place),
    }
}
