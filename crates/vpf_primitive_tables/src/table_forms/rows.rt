//! Rows by their numbers, and the new cells in them.

ghost use Rattle.std.specs.Prelude.{[], ◌≡◌, ◌<◌, ◌^◌, length};
ghost use Rattle.vpf_value.specs.Values.{view};
ghost use Rattle.vpf_table.specs.Canonical.{FitsRow};
ghost use Rattle.vpf_prims.specs.Lists.{kth};
ghost use Rattle.vpf_prims.specs.Numbering.{IsRowOf};
ghost use Rattle.vpf_write.specs.Revise.Revising.{new_value};
ghost use Rattle.vpf_primitive_tables.specs.TableForms.Forms.{natural_value};

use std::marker::Brand;
use std::sync::ledger::{Blank, Ledger};
use vpf_source::Steps;
use vpf_table::{RowView, TableView};
use vpf_value::Cell;
use vpf_write::revise::NewCell;

/// Row `k`, by a counter that is made for it.
fn counted_row<'t, 'a, L: Ledger>(blank: Blank, table: &'t TableView<'a>, k: u32) -> RowView<'t, 'a>
    requires name { blank.name ≡ L.name }
    requires parts { blank.parts ≡ L.parts }
    requires some { 0 < L.parts }
    requires row { IsRowOf (length table.now.rows) k }
    ensures { result ≡ kth table.now.rows k [] }
{
    let mut steps = Steps::<L>::new(blank);
    table.row(k, &mut steps)
}

/// Row `k` of a table, counted from 1. It fits the table's columns.
pub fn row_of<'t, 'a>(table: &'t TableView<'a>, k: u32) -> RowView<'t, 'a>
    requires { IsRowOf (length table.now.rows) k }
    ensures row { result ≡ kth table.now.rows k [] }
    ensures fits { FitsRow table.now.head.columns result }
{
    // What is known of all rows is so of this one.
    let _rows = table.rows();
    counted_row::<Brand>(Blank::new(1), table, k)
}

/// A number as a cell of 4 bytes.
pub fn number_cell<'a>(number: u32) -> Cell<'a>
    requires { number < 2 ^ 31 }
    ensures { view result ≡ natural_value number }
{
    Cell::Long(number as i32)
}

/// A new number in the column at this position, from 0.
pub fn new_number<'a>(column: usize, number: u32) -> NewCell<'a>
    requires { number < 2 ^ 31 }
    ensures { new_value result ≡ record { column = column; value = natural_value number } }
{
    NewCell {
        column,
        cell: number_cell(number),
    }
}

/// A new cell in the column at this position, from 0.
pub(crate) fn new_cell<'a>(column: usize, cell: Cell<'a>) -> NewCell<'a>
    ensures { new_value result ≡ record { column = column; value = view cell.entry } }
{
    NewCell { column, cell }
}
