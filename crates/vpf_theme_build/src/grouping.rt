//! The cells of a column by their values.

ghost use Rattle.std.specs.Prelude.{◌≡◌, ◌<◌, All, IfOk, MatchBool, OnOk, length, map};
ghost use Rattle.vpf_theme.specs.Findings.{cells_of};
ghost use Rattle.vpf_theme_build.specs.Grouping.{EndsAt, FitColumn, GoesOn, IsGroup, IsIndexable, Sorts, entries_for, entry_in, grouped, numbered_cells, seen};

use std::alloc::{AllocError, Global};
use vpf_table::TableView;
use vpf_theme::compare;
use vpf_theme::laws::values_are_ordered;
use vpf_value::{Cell, same};

/// A cell of a column and the number of its row.
#[derive(Clone, Copy)]
pub struct Spot<'a> {
    /// The cell.
    pub cell: Cell<'a>,
    /// The number of its row, from 1.
    pub row: u32,
}

/// Cells that stand side by side, from one position up to another.
#[derive(Clone, Copy)]
pub struct Group {
    /// The position of the first, from 0.
    pub start: usize,
    /// The position behind the last.
    pub end: usize,
}

/// The cells of a column with the numbers of their rows.
fn spots_of<'a>(
    alloc: Global,
    table: &TableView<'a>,
    column: usize,
) -> Result<Vec<Spot<'a>>, AllocError>
    requires { column < length table.now.head.columns }
    ensures spots { IfOk result (λ spots. map seen spots.items ≡ numbered_cells 1 (cells_of table.now column)) }
    ensures fits { IfOk result (λ spots. FitColumn table.now column spots.items) }
{
    let mut spots = Vec::with_capacity(alloc, table.len() as usize)?;
    let mut k = 0;
    for row in table.rows() {
        k += 1;
        spots.push(Spot {
            cell: row.cell(column),
            row: k,
        })?;
    }
    Ok(spots)
}

/// Sorts cells by their values, and those of one value by their rows.
fn sort_spots(spots: &mut Vec<Spot<'_>>) -> Result<(), AllocError>
    ensures { OnOk result (Sorts spots.old.items spots.new.items) }
{
    values_are_ordered();
    spots.sort_by(|a, b| compare(&a.cell, &b.cell))?;
    Ok(())
}

/// The cells of a column that can be indexed with the numbers of their rows, by their values.
pub fn sorted_spots<'a>(
    alloc: Global,
    table: &TableView<'a>,
    column: usize,
) -> Result<Vec<Spot<'a>>, AllocError>
    requires column { column < length table.now.head.columns }
    requires indexed { IsIndexable table.now column }
    ensures entries { IfOk result (λ spots. grouped (map seen spots.items) ≡ entries_for (cells_of table.now column)) }
    ensures fits { IfOk result (λ spots. FitColumn table.now column spots.items) }
    ensures len { IfOk result (λ spots. length spots.items ≡ length table.now.rows) }
{
    values_are_ordered();
    let mut spots = spots_of(alloc, table, column)?;
    sort_spots(&mut spots)?;
    Ok(spots)
}

/// Whether a group ends behind cell `i`: it is the last, or the next has another value.
fn ends_at(spots: &[Spot<'_>], i: usize) -> bool
    requires { i < length spots.now }
    ensures { MatchBool result (EndsAt spots.now i) (GoesOn spots.now i) }
{
    let next = i + 1;
    next == spots.len() || !same(&spots[i].cell, &spots[next].cell)
}

/// The groups of cells of one value, of cells of which equal ones stand side by side.
pub fn groups_of(alloc: Global, spots: &[Spot<'_>]) -> Result<Vec<Group>, AllocError>
    ensures entries { IfOk result (λ groups. map (entry_in spots.now) groups.items ≡ grouped (map seen spots.now)) }
    ensures within { IfOk result (λ groups. All (IsGroup spots.now) groups.items) }
{
    let mut groups = Vec::new(alloc);
    let mut start = 0;
    for i in 0..spots.len() {
        if ends_at(spots, i) {
            groups.push(Group { start, end: i + 1 })?;
            start = i + 1;
        }
    }
    Ok(groups)
}
