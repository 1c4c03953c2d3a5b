//! Selection over a table that is open, for callers that count no looks.

ghost use Rattle.std.specs.Prelude.{◌≡◌, ◌<◌, ◌≤◌, IfOk, IfSome, Some, length, slice_get};
ghost use Rattle.std.specs.Option.{option_copied};
ghost use Rattle.vpf_value.specs.Values.{view};
ghost use Rattle.vpf_head.specs.Head.{Col};
ghost use Rattle.vpf_theme.specs.Findings.{cell_of, cells_of};
ghost use Rattle.vpf_theme.specs.Entries.{AreRows};
ghost use Rattle.vpf_select.specs.Selecting.{FitsColumn, IsOwn, RefusesRow, Selects, selected};
ghost use Rattle.vpf_select.specs.Words.{value_in};

use crate::passing::select_in_one_pass;
use crate::scanning::Test;
use crate::selecting::{SelectError, select};
use crate::value::{Value, ValueError};
use crate::words::value_of;
use std::alloc::{AllocError, Global};
use std::marker::Brand;
use std::sync::ledger::{Blank, Ledger};
use vpf_source::Steps;
use vpf_table::TableView;
use vpf_theme::ThemeView;
use vpf_value::Cell;

/// The value that the word has in the column at this position, from 0, or nothing where it has none there.
pub fn value_in(
    alloc: Global,
    table: &TableView<'_>,
    c: usize,
    word: &[u8],
) -> Result<Option<Value>, AllocError>
    requires { c < length table.now.head.columns }
    ensures value { (column : Col) → slice_get table.now.head.columns c ≡ Some column
        → IfOk result (λ value. value ≡ value_in column.kind column.count word.now) }
    ensures fits { IfOk result (λ value. IfSome value (FitsColumn table.now c)) }
{
    let header = table.header();
    // What is true of each header.
    let _columns = header.len();
    let column = header.at(c);
    match value_of(alloc, column.kind, column.count, word) {
        Ok(value) => Ok(Some(value)),
        Err(ValueError::Bad) => Ok(None),
        Err(ValueError::NoMemory) => Err(AllocError),
    }
}

/// What is selected, with counters of the rows that are looked at and of the entries that are compared.
fn select_counted<L: Ledger, M: Ledger>(
    looks: Blank,
    compared: Blank,
    alloc: Global,
    table: &TableView<'_>,
    theme: Option<&ThemeView<'_>>,
    test: &Test<'_>,
) -> Result<Vec<u32>, SelectError>
    requires looks_name { looks.name ≡ L.name }
    requires looks_parts { looks.parts ≡ L.parts }
    requires looks_some { 0 < L.parts }
    requires compared_name { compared.name ≡ M.name }
    requires compared_parts { compared.parts ≡ M.parts }
    requires compared_some { 0 < M.parts }
    requires column { test.now.column < length table.now.head.columns }
    requires own { IsOwn (option_copied theme) table.now test.now.column }
    requires fits { FitsColumn table.now test.now.column (view test.now.value) }
    ensures value { Selects (λ v. v.items) result (selected (option_copied theme.entry) (view test.now.value) (cells_of table.now test.now.column)) }
    ensures refused { RefusesRow (length table.now.rows) result }
    ensures rows { IfOk result (λ rows. AreRows (length table.now.rows) rows.items) }
{
    let mut steps = Steps::<L>::new(looks);
    let mut entries = Steps::<M>::new(compared);
    match theme {
        Some(theme) if !table.finds_rows_directly() => {
            select_in_one_pass(alloc, table, theme, test, &mut entries, &mut steps)
        }
        _ => select(alloc, table, theme, test, &mut entries, &mut steps),
    }
}

/// The numbers of the rows that meet the test: those that the index lists, where there is one, each tested in the table, and else
/// those of the scan. Where rows are found only by a walk they are passed once, however many the index lists.
pub fn select_rows(
    alloc: Global,
    table: &TableView<'_>,
    theme: Option<&ThemeView<'_>>,
    test: &Test<'_>,
) -> Result<Vec<u32>, SelectError>
    requires column { test.now.column < length table.now.head.columns }
    requires own { IsOwn (option_copied theme) table.now test.now.column }
    requires fits { FitsColumn table.now test.now.column (view test.now.value) }
    ensures value { Selects (λ v. v.items) result (selected (option_copied theme.entry) (view test.now.value) (cells_of table.now test.now.column)) }
    // A row that is refused is a row of the table.
    ensures refused { RefusesRow (length table.now.rows) result }
    ensures rows { IfOk result (λ rows. AreRows (length table.now.rows) rows.items) }
{
    let looks = Blank::new(1);
    let compared = Blank::new(1);
    select_counted::<Brand, Brand>(looks, compared, alloc, table, theme, test)
}

/// The cell of a row, with a counter of the rows that are looked at.
fn cell_counted<'a, L: Ledger>(
    blank: Blank,
    table: &TableView<'a>,
    column: usize,
    row: u32,
) -> Cell<'a>
    requires name { blank.name ≡ L.name }
    requires parts { blank.parts ≡ L.parts }
    requires some { 0 < L.parts }
    requires column { column < length table.now.head.columns }
    requires first { 1 ≤ row }
    requires last { row ≤ length table.now.rows }
    ensures { view result ≡ cell_of (cells_of table.now column) row }
{
    let mut steps = Steps::<L>::new(blank);
    table.row(row, &mut steps).cell(column)
}

/// The cell of a row, counted from 1, in the column at this position, from 0.
pub fn cell_in<'a>(table: &TableView<'a>, column: usize, row: u32) -> Cell<'a>
    requires column { column < length table.now.head.columns }
    requires first { 1 ≤ row }
    requires last { row ≤ length table.now.rows }
    ensures { view result ≡ cell_of (cells_of table.now column) row }
{
    cell_counted::<Brand>(Blank::new(1), table, column, row)
}
