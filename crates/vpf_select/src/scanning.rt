//! The plain scan.

ghost use Rattle.std.specs.Prelude.{◌≡◌, ◌<◌, ◌≤◌, ◌+◌, IfOk, OnOk, length};
ghost use Rattle.vpf_value.specs.Values.{view};
ghost use Rattle.vpf_theme.specs.Findings.{cells_of};
ghost use Rattle.vpf_theme.specs.Agreeing.{scan_of};
ghost use Rattle.vpf_theme.specs.Entries.{AreRows};

use std::alloc::{AllocError, Global};
use std::sync::ledger::Ledger;
use vpf_source::Steps;
use vpf_table::TableView;
use vpf_value::{Cell, same};

/// A row meets the test where its cell in this column has the value.
#[derive(Clone, Copy, Debug)]
pub struct Test<'a> {
    /// The position of the column, counted from 0.
    pub column: usize,
    /// The value, which fits the column.
    pub value: Cell<'a>,
}

/// The numbers of the rows that meet the test, rising, counted from 1. Each row is looked at once, with a tick: where memory runs
/// out, only those up to that.
pub fn scan<L: Ledger>(
    alloc: Global,
    table: &TableView<'_>,
    test: &Test<'_>,
    steps: &mut Steps<L>,
) -> Result<Vec<u32>, AllocError>
    requires { test.now.column < length table.now.head.columns }
    ensures value { IfOk result (λ rows. rows.items ≡ scan_of (view test.now.value) (cells_of table.now test.now.column)) }
    ensures rows { IfOk result (λ rows. AreRows (length table.now.rows) rows.items) }
    ensures more { steps.old ≤ steps.new }
    ensures cost { steps.new ≤ steps.old + length table.now.rows }
    ensures ticked { OnOk result (steps.new ≡ steps.old + length table.now.rows) }
{
    let _rows = table.len();
    let mut found = Vec::new(alloc);
    let mut k = 0;
    for row in table.rows() {
        k += 1;
        steps.tick();
        if same(&row.cell(test.column), &test.value) {
            found.push(k)?;
        }
    }
    Ok(found)
}
