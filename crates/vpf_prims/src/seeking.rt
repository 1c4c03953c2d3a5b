//! Rows of a table by their numbers.

ghost use Rattle.std.specs.Prelude.{[], ◌≡◌, ◌<◌, length};
ghost use Rattle.vpf_value.specs.Values.{view};
ghost use Rattle.vpf_prims.specs.Columns.{IsWithin, role_at};
ghost use Rattle.vpf_prims.specs.Lists.{kth};
ghost use Rattle.vpf_prims.specs.Numbering.{IsRowOf};
ghost use Rattle.vpf_prims.specs.References.{cell_at, id_of, reference_in};

use crate::placing::RoleColumn;
use crate::reading::{cell_at, reference_in};
use crate::rows::id_of;
use std::marker::Brand;
use std::sync::ledger::{Blank, Ledger};
use vpf_source::Steps;
use vpf_table::{RowView, TableView};
use vpf_value::Cell;

/// Row `k`, with a counter of its own for it.
fn row_counted<'t, 'a, L: Ledger>(blank: Blank, table: &'t TableView<'a>, k: u32) -> RowView<'t, 'a>
    requires name { blank.name ≡ L.name }
    requires parts { blank.parts ≡ L.parts }
    requires some { 0 < L.parts }
    requires row { IsRowOf (length table.now.rows) k }
    ensures row { result ≡ kth table.now.rows k [] }
    ensures width { length result ≡ length table.now.head.columns }
{
    let mut steps = Steps::<L>::new(blank);
    table.row(k, &mut steps)
}

/// Row `k`, counted from 1.
pub(crate) fn row_of<'t, 'a>(table: &'t TableView<'a>, k: u32) -> RowView<'t, 'a>
    requires { IsRowOf (length table.now.rows) k }
    ensures row { result ≡ kth table.now.rows k [] }
    ensures width { length result ≡ length table.now.head.columns }
{
    row_counted::<Brand>(Blank::new(1), table, k)
}

/// The cell of row `k` in a column.
pub(crate) fn cell_in_row<'a>(table: &TableView<'a>, column: &RoleColumn<'_>, k: u32) -> Cell<'a>
    requires row { IsRowOf (length table.now.rows) k }
    requires within { IsWithin (length table.now.head.columns) (role_at column.now) }
    ensures { view result ≡ cell_at (kth table.now.rows k []) (role_at column.now).place }
{
    cell_at(&row_of(table, k), column)
}

/// The number that row `k` refers to in its own tile, 0 where it refers to none.
pub(crate) fn number_in_row(table: &TableView<'_>, column: &RoleColumn<'_>, k: u32) -> u32
    requires row { IsRowOf (length table.now.rows) k }
    requires within { IsWithin (length table.now.head.columns) (role_at column.now) }
    ensures { result ≡ id_of (reference_in (cell_at (kth table.now.rows k []) (role_at column.now).place)) }
{
    id_of(reference_in(cell_in_row(table, column, k)))
}
