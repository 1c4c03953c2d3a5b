//! Selection by a thematic index, where there is one.

ghost use Rattle.std.specs.Prelude.{◌≡◌, ◌<◌, ◌≤◌, ◌+◌, IfOk, length};
ghost use Rattle.std.specs.Option.{option_copied};
ghost use Rattle.vpf_value.specs.Values.{view};
ghost use Rattle.vpf_theme.specs.Findings.{cells_of};
ghost use Rattle.vpf_theme.specs.Entries.{AreRows};
ghost use Rattle.vpf_select.specs.Selecting.{Compares, FitsColumn, IsOwn, RefusesRow, Selects, most_looks, selected, tested};

use crate::scanning::{Test, scan};
use std::alloc::{AllocError, AllocFailed, Global};
use std::sync::ledger::Ledger;
use thiserror::Error;
use vpf_source::Steps;
use vpf_table::TableView;
use vpf_theme::{Hits, ThemeView};
use vpf_value::same;

/// Why no rows are selected.
#[derive(Clone, Copy, Debug, PartialEq, Eq, Error)]
pub enum SelectError {
    /// The index lists this row, counted from 1, and its cell isn't the value.
    #[error("the index lists row {row}, which has another value")]
    Disagrees { row: u32 },
    /// There was too little memory.
    #[error("out of memory")]
    NoMemory,
}

impl From<AllocError> for SelectError {
    ghost use Rattle.std.specs.Prelude.{◌≡◌};
    ghost use Rattle.vpf_select.specs.declared.selecting.SelectError.TheVariants as errors;

    ghost from_gives = { λ _ e. e ≡ errors.NoMemory };

    fn from(_: AllocError) -> Self {
        SelectError::NoMemory
    }
}

impl<T: Drop> From<AllocFailed<T>> for SelectError {
    ghost use Rattle.std.specs.Prelude.{◌≡◌};
    ghost use Rattle.vpf_select.specs.declared.selecting.SelectError.TheVariants as errors;

    ghost from_gives = { λ _ e. e ≡ errors.NoMemory };

    fn from(_: AllocFailed<T>) -> Self {
        SelectError::NoMemory
    }
}

/// The rows of an entry, each looked at in the table.
fn tested<L: Ledger>(
    alloc: Global,
    table: &TableView<'_>,
    test: &Test<'_>,
    hits: Hits<'_>,
    steps: &mut Steps<L>,
) -> Result<Vec<u32>, SelectError>
    requires column { test.now.column < length table.now.head.columns }
    requires rows { AreRows (length table.now.rows) hits.left }
    ensures value { Selects (λ v. v.items) result (tested (view test.now.value) (cells_of table.now test.now.column) hits.entry.left) }
    ensures refused { RefusesRow (length table.now.rows) result }
    ensures rows { IfOk result (λ rows. AreRows (length table.now.rows) rows.items) }
    ensures more { steps.old ≤ steps.new }
    ensures cost { steps.new ≤ steps.old + length hits.entry.left }
{
    let mut found = Vec::new(alloc);
    for row in hits {
        let seen = table.row(row, steps);
        if !same(&seen.cell(test.column), &test.value) {
            return Err(SelectError::Disagrees { row });
        }
        found.push(row)?;
    }
    Ok(found)
}

/// The numbers of the rows that meet the test. With an index of the column they are those that its first entry with the
/// value lists, in its order, each of which is looked at in the table; the first whose cell isn't the value is refused. Without
/// one they are those of the scan. `steps` ticks once for each row that is looked at, and `entries` for each entry of the
/// index that is compared.
#[tactic(auto, unfolding(crate::specs::Selecting::selected))]
pub fn select<L: Ledger, M: Ledger>(
    alloc: Global,
    table: &TableView<'_>,
    theme: Option<&ThemeView<'_>>,
    test: &Test<'_>,
    entries: &mut Steps<M>,
    steps: &mut Steps<L>,
) -> Result<Vec<u32>, SelectError>
    requires column { test.now.column < length table.now.head.columns }
    requires own { IsOwn (option_copied theme) table.now test.now.column }
    requires fits { FitsColumn table.now test.now.column (view test.now.value) }
    ensures value { Selects (λ v. v.items) result (selected (option_copied theme.entry) (view test.now.value) (cells_of table.now test.now.column)) }
    // A row that is refused is a row of the table.
    ensures refused { RefusesRow (length table.now.rows) result }
    ensures rows { IfOk result (λ rows. AreRows (length table.now.rows) rows.items) }
    ensures more { steps.old ≤ steps.new }
    ensures cost { steps.new ≤ steps.old + most_looks (option_copied theme.entry) (view test.now.value) table.now }
    ensures compared { Compares (option_copied theme.entry) (view test.now.value) entries.old entries.new }
{
    let Some(theme) = theme else {
        return Ok(scan(alloc, table, test, steps)?);
    };
    match theme.find(&test.value, entries) {
        None => Ok(Vec::new(alloc)),
        Some(hits) => tested(alloc, table, test, hits, steps),
    }
}
