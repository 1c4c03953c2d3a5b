//! Whether a thematic index agrees with a column.

ghost use Rattle.std.specs.Prelude.{◌≡◌, ◌≤◌, ◌<◌, ◌+◌, ◌^◌, length, map, IfOk, IfSome, OnOk};
ghost use Rattle.vpf_value.specs.Values.{view};
ghost use Rattle.vpf_head.specs.Inner.Views.{col};
ghost use Rattle.vpf_findings.specs.Firsts.{Finds, Tells};
ghost use Rattle.vpf_theme.specs.Findings.{cells_of, entries_finding, fall_line, first_finding, lines_at, of_column, other_line, repeated_line};
ghost use Rattle.vpf_theme.specs.Agreeing.{AgreesAt};
ghost use Rattle.vpf_theme.specs.Inner.Repeating.{TellsRepeat};
ghost use Rattle.vpf_theme.specs.Entries.{AreRows};

use crate::fitting::fits_table;
use crate::hits::Hits;
use crate::laws::agreement_is_no_finding;
use crate::marking::check_missing;
use crate::repeating::{Repeat, first_repeat};
use crate::reporting::finding;
use crate::view::ThemeView;
use std::alloc::{AllocError, Global};
use vpf_findings::FindError;
use vpf_head::Column;
use vpf_table::{Finding, Seen, TableView};
use vpf_value::{Cell, same};

/// The cells of a column, row by row.
fn column_cells<'a>(
    alloc: Global,
    table: &TableView<'a>,
    column: usize,
) -> Result<Vec<Cell<'a>>, AllocError>
    requires { column < length table.now.head.columns }
    ensures { IfOk result (λ cells. map view cells.items ≡ cells_of table.now column) }
{
    let mut cells = Vec::with_capacity(alloc, table.len() as usize)?;
    for row in table.rows() {
        cells.push(row.cell(column))?;
    }
    Ok(cells)
}

/// No entry before entry `i` has its value.
fn check_repeated<'a>(
    theme: &ThemeView<'a>,
    column: &Column<'a>,
    repeat: Option<Repeat>,
    i: u32,
) -> Result<(), Finding<'a>>
    requires within { i < length theme.now.entries }
    requires repeat { TellsRepeat theme.now.entries repeat }
    requires ahead { IfSome repeat (λ r. i ≤ r.at) }
    ensures first { Finds result (repeated_line theme.now (col column.now) i) }
    ensures ahead { OnOk result (IfSome repeat (λ r. i + 1 ≤ r.at)) }
{
    let _entries = theme.entries();
    match repeat {
        Some(repeat) if repeat.at == i => {
            let cell = Seen::Cell(column.kind, theme.value(i));
            let earlier = Seen::Number(i64::from(repeat.earlier) + 1);
            Err(finding(i + 1, column.name, cell, earlier))
        }
        _ => Ok(()),
    }
}

/// Each row of entry `i` has its value.
fn check_cells<'a>(
    column: &Column<'a>,
    cells: &[Cell<'a>],
    i: u32,
    value: Cell<'a>,
    hits: Hits<'_>,
) -> Result<(), Finding<'a>>
    requires few { i + 1 < 2 ^ 32 }
    requires rows { AreRows (length cells.now) hits.left }
    ensures { Finds result (other_line (col column.now) (map view cells.now) i (record { value = view value.entry; rows = hits.entry.left })) }
{
    for row in hits {
        let cell = cells[row as usize - 1];
        if !same(&cell, &value) {
            let kind = column.kind;
            return Err(finding(
                i + 1,
                column.name,
                Seen::Cell(kind, value),
                Seen::Cell(kind, cell),
            ));
        }
    }
    Ok(())
}

/// The rows of entry `i` rise.
fn check_rise<'a>(
    column: &Column<'a>,
    i: u32,
    value: Cell<'a>,
    hits: Hits<'_>,
) -> Result<(), Finding<'a>>
    requires { i + 1 < 2 ^ 32 }
    ensures { Finds result (fall_line (col column.now) i (record { value = view value.entry; rows = hits.entry.left })) }
{
    let mut before = 0;
    for row in hits {
        if row <= before {
            let found = Seen::Number(i64::from(row));
            return Err(finding(i + 1, column.name, found, Seen::Number(i64::from(before))));
        }
        before = row;
    }
    Ok(())
}

/// Nothing is found at entry `i`.
fn check_entry<'a>(
    theme: &ThemeView<'a>,
    column: &Column<'a>,
    cells: &[Cell<'a>],
    repeat: Option<Repeat>,
    i: u32,
) -> Result<(), Finding<'a>>
    requires within { i < length theme.now.entries }
    requires rows { theme.now.rows ≡ length cells.now }
    requires repeat { TellsRepeat theme.now.entries repeat }
    requires ahead { IfSome repeat (λ r. i ≤ r.at) }
    ensures first { Finds result (lines_at theme.now (col column.now) (map view cells.now) i) }
    ensures ahead { OnOk result (IfSome repeat (λ r. i + 1 ≤ r.at)) }
{
    let _entries = theme.entries();
    check_repeated(theme, column, repeat, i)?;
    let value = theme.value(i);
    check_cells(column, cells, i, value, theme.hits(i))?;
    check_rise(column, i, value, theme.hits(i))?;
    Ok(())
}

/// Nothing is found at any entry.
fn check_entries<'a>(
    alloc: Global,
    theme: &ThemeView<'a>,
    column: &Column<'a>,
    cells: &[Cell<'a>],
) -> Result<(), FindError<'a>>
    requires { theme.now.rows ≡ length cells.now }
    ensures { Tells result (entries_finding theme.now (col column.now) (map view cells.now)) }
{
    let repeat = first_repeat(alloc, theme)?;
    for i in 0..theme.entries() {
        check_entry(theme, column, cells, repeat, i)?;
    }
    Ok(())
}

/// The first place where an index and a column disagree.
#[tactic(auto, unfolding(crate::specs::Findings::first_finding))]
fn check_column<'a>(
    alloc: Global,
    theme: &ThemeView<'a>,
    table: &TableView<'a>,
    column: usize,
) -> Result<(), FindError<'a>>
    requires { column < length table.now.head.columns }
    ensures { Tells result (of_column table.now column (λ c. first_finding theme.now c (cells_of table.now column))) }
{
    if let Some(finding) = fits_table(theme, table, column) {
        return Err(FindError::Finding(finding));
    }
    let header = table.header();
    let found = header.at(column);
    let cells = column_cells(alloc, table, column)?;
    check_missing(alloc, theme, found)?;
    check_entries(alloc, theme, found, &cells)
}

/// The index agrees with a column: its kind, count and number of rows are the table's, each row stands in the entry of its
/// cell's value and in no other, and the rows of each entry rise. The first place where that fails is the finding: the
/// index as a whole, and then entry by entry. The table is passed once and the rows of each entry three
/// times; the values of the entries are sorted.
pub fn agrees<'a>(
    alloc: Global,
    theme: &ThemeView<'a>,
    table: &TableView<'a>,
    column: usize,
) -> Result<(), FindError<'a>>
    requires { column < length table.now.head.columns }
    // Nothing is found, or this is the first place.
    ensures first { Tells result (of_column table.now column (λ c. first_finding theme.now c (cells_of table.now column))) }
    // Where nothing is found the two agree.
    ensures agrees { OnOk result (AgreesAt theme.now table.now column) }
{
    agreement_is_no_finding();
    let _rows = theme.rows();
    check_column(alloc, theme, table, column)
}
