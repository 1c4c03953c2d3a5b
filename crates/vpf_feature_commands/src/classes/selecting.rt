//! The rows of a feature table that have a value.

ghost use Rattle.std.specs.Prelude.{◌≡◌, ◌≤◌, ◌<◌, IfOk, None, Some, length, option_map, slice_get};
ghost use Rattle.vpf_base.specs.Results.{Meets};
ghost use Rattle.vpf_value.specs.Values.{view};
ghost use Rattle.vpf_head.specs.Head.{Col};
ghost use Rattle.vpf_theme.specs.Findings.{cell_of, cells_of};
ghost use Rattle.vpf_theme.specs.Entries.{AreRows};
ghost use Rattle.vpf_select.specs.Selecting.{FitsColumn, IsOwn};
ghost use Rattle.vpf_features.specs.Inner.Views.{index_seen, table_seen};
ghost use Rattle.vpf_feature_commands.specs.declared.classes.errors.FeatureError.TheVariants as errors;
ghost use Rattle.vpf_feature_commands.specs.Classes.Asking.{index_of_column, rows_asked, rows_of_word, rows_of_value};
ghost use Rattle.vpf_feature_commands.specs.Classes.Lacks.{IndexWrong, lack_seen};

use crate::classes::errors::FeatureError;
use std::alloc::Global;
use vpf_features::{FeatureView, IndexView};
use vpf_select::{SelectError, Test, Value, cell_in, select_rows, value_in};
use vpf_table::TableView;
use vpf_theme::fits_table;

/// The thematic index of the column at a position, from 0, where one is there.
fn index_of<'v, 'a>(view: &'v FeatureView<'a>, c: usize) -> Option<&'v IndexView<'a>>
    ensures { option_map (λ index. index_seen index.now) result ≡ index_of_column (table_seen view.now) c }
{
    view.indexes.get(c)?.as_ref()
}

/// The error where an index lists a row, counted from 1, whose cell isn't the value.
fn wrong<'a>(
    table: &TableView<'a>,
    c: usize,
    index: &IndexView<'a>,
    row: u32,
    value: Value,
) -> FeatureError<'a>
    requires column { c < length table.now.head.columns }
    requires first { 1 ≤ row }
    requires last { row ≤ length table.now.rows }
    ensures { (column : Col) → slice_get table.now.head.columns c ≡ Some column
        → lack_seen result ≡ Some (IndexWrong index.now.file.now column.kind row (cell_of (cells_of table.now c) row) value) }
{
    FeatureError::Wrong {
        file: index.file,
        kind: table.header().at(c).kind,
        row,
        cell: cell_in(table, c, row),
        value,
    }
}

/// The rows that an index lists for a value, or the first of them whose cell isn't the value.
fn listed<'a>(
    alloc: Global,
    table: &TableView<'a>,
    c: usize,
    index: &IndexView<'a>,
    value: Value,
) -> Result<Vec<u32>, FeatureError<'a>>
    requires column { c < length table.now.head.columns }
    requires own { IsOwn (Some index.now.theme) table.now c }
    requires fits { FitsColumn table.now c value }
    ensures value { (column : Col) → slice_get table.now.head.columns c ≡ Some column
        → Meets (λ rows. rows.items) lack_seen result (rows_of_value (Some (index_seen index.now)) column.kind (cells_of table.now c) value) }
    ensures rows { IfOk result (λ rows. AreRows (length table.now.rows) rows.items) }
{
    let test = Test {
        column: c,
        value: value.cell(),
    };
    match select_rows(alloc, table, Some(&index.theme), &test) {
        Ok(rows) => Ok(rows),
        Err(SelectError::Disagrees { row }) => Err(wrong(table, c, index, row, value)),
        Err(SelectError::NoMemory) => Err(FeatureError::NoMemory),
    }
}

/// The rows that have the value of a word, by an index, unless it isn't one of the column.
fn rows_by_index<'a>(
    alloc: Global,
    table: &TableView<'a>,
    c: usize,
    index: &IndexView<'a>,
    word: &[u8],
) -> Result<Vec<u32>, FeatureError<'a>>
    requires { c < length table.now.head.columns }
    ensures value { (column : Col) → slice_get table.now.head.columns c ≡ Some column
        → Meets (λ rows. rows.items) lack_seen result (rows_of_word (Some (index_seen index.now)) table.now c column word.now) }
    ensures rows { IfOk result (λ rows. AreRows (length table.now.rows) rows.items) }
{
    if let Some(finding) = fits_table(&index.theme, table, c) {
        return Err(FeatureError::Unfit(index.file, finding));
    }
    match value_in(alloc, table, c, word)? {
        Some(value) => listed(alloc, table, c, index, value),
        None => Err(FeatureError::BadValue),
    }
}

/// The rows that have a value, by a look at every row.
fn scanned<'a>(
    alloc: Global,
    table: &TableView<'a>,
    c: usize,
    value: &Value,
) -> Result<Vec<u32>, FeatureError<'a>>
    requires column { c < length table.now.head.columns }
    requires fits { FitsColumn table.now c value.now }
    ensures value { (column : Col) → Meets (λ rows. rows.items) lack_seen result (rows_of_value None column.kind (cells_of table.now c) value.now) }
    ensures rows { IfOk result (λ rows. AreRows (length table.now.rows) rows.items) }
{
    let test = Test {
        column: c,
        value: value.cell(),
    };
    match select_rows(alloc, table, None, &test) {
        Ok(rows) => Ok(rows),
        Err(SelectError::Disagrees { .. }) => unreachable!(),
        Err(SelectError::NoMemory) => Err(FeatureError::NoMemory),
    }
}

/// The rows that have the value of a word, by a look at every row.
fn rows_by_scan<'a>(
    alloc: Global,
    table: &TableView<'a>,
    c: usize,
    word: &[u8],
) -> Result<Vec<u32>, FeatureError<'a>>
    requires { c < length table.now.head.columns }
    ensures value { (column : Col) → slice_get table.now.head.columns c ≡ Some column
        → Meets (λ rows. rows.items) lack_seen result (rows_of_word None table.now c column word.now) }
    ensures rows { IfOk result (λ rows. AreRows (length table.now.rows) rows.items) }
{
    match value_in(alloc, table, c, word)? {
        Some(value) => scanned(alloc, table, c, &value),
        None => Err(FeatureError::BadValue),
    }
}

/// The rows of a feature table that have the value of a word in the column at a position, from 0: by the thematic index of the column where there is one,
/// and else by a look at every row.
pub(crate) fn rows_asked<'a>(
    alloc: Global,
    view: &FeatureView<'a>,
    c: usize,
    word: &[u8],
) -> Result<Vec<u32>, FeatureError<'a>>
    requires { c < length view.now.table.head.columns }
    ensures value { (column : Col) → slice_get view.now.table.head.columns c ≡ Some column
        → Meets (λ rows. rows.items) lack_seen result (rows_asked (table_seen view.now) c column word.now) }
    ensures rows { IfOk result (λ rows. AreRows (length view.now.table.rows) rows.items) }
{
    match index_of(view, c) {
        Some(index) => rows_by_index(alloc, &view.table, c, index, word),
        None => rows_by_scan(alloc, &view.table, c, word),
    }
}
