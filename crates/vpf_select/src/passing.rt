//! Selection by a thematic index over a table whose rows are found only by a walk.

ghost use Rattle.std.specs.Prelude.{◌≡◌, ◌<◌, ◌≤◌, ◌+◌, IfOk, Some, length};
ghost use Rattle.vpf_value.specs.Values.{view};
ghost use Rattle.vpf_theme.specs.Findings.{cells_of};
ghost use Rattle.vpf_theme.specs.Entries.{AreRows};
ghost use Rattle.vpf_select.specs.Inner.Passing.{first_unmet, met_by};
ghost use Rattle.vpf_select.specs.Selecting.{Compares, FitsColumn, IsOwn, RefusesRow, Selects, selected, unless_unlike};

use crate::scanning::Test;
use crate::selecting::SelectError;
use std::alloc::{AllocError, Global};
use std::sync::ledger::Ledger;
use vpf_source::Steps;
use vpf_table::TableView;
use vpf_theme::{Hits, ThemeView};
use vpf_value::same;

/// Whether each row meets the test, row by row, with a tick for each.
fn rows_met<L: Ledger>(
    alloc: Global,
    table: &TableView<'_>,
    test: &Test<'_>,
    steps: &mut Steps<L>,
) -> Result<Vec<bool>, AllocError>
    requires { test.now.column < length table.now.head.columns }
    ensures value { IfOk result (λ met. met.items ≡ met_by (view test.now.value) (cells_of table.now test.now.column)) }
    ensures more { steps.old ≤ steps.new }
    ensures cost { steps.new ≤ steps.old + length table.now.rows }
{
    let mut met = Vec::with_capacity(alloc, table.len() as usize)?;
    for row in table.rows() {
        steps.tick();
        met.push(same(&row.cell(test.column), &test.value))?;
    }
    Ok(met)
}

/// The rows of an entry, or the first of them that doesn't meet the test.
fn all_met(alloc: Global, met: &[bool], hits: Hits<'_>) -> Result<Vec<u32>, SelectError>
    requires { AreRows (length met.now) hits.left }
    ensures value { Selects (λ v. v.items) result (unless_unlike hits.entry.left (first_unmet met.now hits.entry.left)) }
    ensures refused { RefusesRow (length met.now) result }
    ensures rows { IfOk result (λ rows. AreRows (length met.now) rows.items) }
{
    let mut found = Vec::new(alloc);
    for row in hits {
        if !met[row as usize - 1] {
            return Err(SelectError::Disagrees { row });
        }
        found.push(row)?;
    }
    Ok(found)
}

/// What `select` gives with this index, of a table whose rows vary and that was opened without their index: there each look
/// at a row walks from the first. Here the rows are passed once, however many the entry lists. `steps` ticks once for
/// each row of the table, at most, and `entries` for each entry of the index that is compared.
#[tactic(auto, unfolding(crate::specs::Selecting::selected))]
pub fn select_in_one_pass<L: Ledger, M: Ledger>(
    alloc: Global,
    table: &TableView<'_>,
    theme: &ThemeView<'_>,
    test: &Test<'_>,
    entries: &mut Steps<M>,
    steps: &mut Steps<L>,
) -> Result<Vec<u32>, SelectError>
    requires column { test.now.column < length table.now.head.columns }
    requires own { IsOwn (Some theme.now) table.now test.now.column }
    requires fits { FitsColumn table.now test.now.column (view test.now.value) }
    ensures value { Selects (λ v. v.items) result (selected (Some theme.now) (view test.now.value) (cells_of table.now test.now.column)) }
    // A row that is refused is a row of the table.
    ensures refused { RefusesRow (length table.now.rows) result }
    ensures rows { IfOk result (λ rows. AreRows (length table.now.rows) rows.items) }
    ensures more { steps.old ≤ steps.new }
    ensures cost { steps.new ≤ steps.old + length table.now.rows }
    ensures compared { Compares (Some theme.now) (view test.now.value) entries.old entries.new }
{
    let Some(hits) = theme.find(&test.value, entries) else {
        return Ok(Vec::new(alloc));
    };
    let met = rows_met(alloc, table, test, steps)?;
    all_met(alloc, &met, hits)
}
