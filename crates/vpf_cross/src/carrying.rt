//! What rows carry in the columns without a role, and where two rows differ there.

ghost use Rattle.std.specs.Prelude.{[], ◌≡◌, ◌↔◌, ◌<◌, IsTrue, MatchOption, length, map, option_map};
ghost use Rattle.std.specs.List.{list_any};
ghost use Rattle.vpf_value.specs.Values.{view};
ghost use Rattle.vpf_head.specs.Folding.{same_name};
ghost use Rattle.vpf_head.specs.Inner.Views.{col};
ghost use Rattle.vpf_findings.specs.Firsts.{unless};
ghost use Rattle.vpf_theme.specs.Ordering.{same_value};
ghost use Rattle.vpf_prims.specs.Lists.{kth};
ghost use Rattle.vpf_prims.specs.Numbering.{IsRowOf};
ghost use Rattle.vpf_prims.specs.Reading.{carried_in};
ghost use Rattle.vpf_prims.specs.Roles.{role_of};
ghost use Rattle.vpf_prims.specs.Suiting.{carried_columns};
ghost use Rattle.vpf_cross.specs.Carrying.{CarryNone, IsNextCarried, carried_at, cell_difference, difference_of, first_difference};

use std::marker::Brand;
use std::sync::ledger::{Blank, Ledger};
use vpf_findings::{ColumnAt, Seen};
use vpf_head::{Column, Header};
use vpf_prims::Role;
use vpf_source::Steps;
use vpf_table::{RowView, TableView};
use vpf_value::{Cell, same};

/// The first column without a role in which two rows differ, and what stands there in each.
#[derive(Clone, Copy, Debug)]
pub struct Difference<'a> {
    /// The column, as the header of the one row's table spells it.
    pub column: ColumnAt<'a>,
    /// The cell of the one row.
    pub here: Seen<'a>,
    /// The cell of the other, as one of the same column.
    pub there: Seen<'a>,
}

/// Whether a table has a row of this number.
fn has_row(table: &TableView<'_>, k: u32) -> bool
    ensures { IsTrue result ↔ IsRowOf (length table.now.rows) k }
{
    1 <= k && k <= table.len()
}

/// Row `k`, with a counter of its own for it.
fn row_counted<'t, 'a, L: Ledger>(blank: Blank, table: &'t TableView<'a>, k: u32) -> RowView<'t, 'a>
    requires name { blank.name ≡ L.name }
    requires parts { blank.parts ≡ L.parts }
    requires some { 0 < L.parts }
    requires row { IsRowOf (length table.now.rows) k }
    ensures row { result ≡ kth table.now.rows k [] }
    ensures width { length result ≡ length table.now.head.columns }
{
    let mut steps = Steps::<L>::new(blank);
    table.row(k, &mut steps)
}

/// Row `k`, counted from 1.
fn row_of<'t, 'a>(table: &'t TableView<'a>, k: u32) -> RowView<'t, 'a>
    requires { IsRowOf (length table.now.rows) k }
    ensures row { result ≡ kth table.now.rows k [] }
    ensures width { length result ≡ length table.now.head.columns }
{
    row_counted::<Brand>(Blank::new(1), table, k)
}

/// Whether two names are one, in any case.
fn is_same_name(name: &[u8], other: &[u8]) -> bool
    ensures { result ≡ same_name name.now other.now }
{
    name.eq_ignore_ascii_case(other)
}

/// Whether the column of this name has one of these roles.
fn has_role(roles: &[Role], name: &[u8]) -> bool
    ensures { result ≡ list_any (λ role. same_name role.name name.now) (map role_of roles.now) }
{
    for role in roles {
        if is_same_name(role.name, name) {
            return true;
        }
    }
    false
}

/// The place of the first column from `from` on that has none of these roles.
fn next_carried(roles: &[Role], header: &Header<'_>, from: usize) -> Option<usize>
    ensures { MatchOption result (CarryNone (map role_of roles.now) header.now.columns from (length header.now.columns))
        (IsNextCarried (map role_of roles.now) header.now.columns from) }
{
    for c in from..header.len() {
        if !has_role(roles, header.at(c).name) {
            return Some(c);
        }
    }
    None
}

/// The difference of two cells in a column, where they differ.
fn cell_difference<'a>(
    column: &Column<'a>,
    here: Cell<'a>,
    there: Cell<'a>,
) -> Option<Difference<'a>>
    ensures { option_map difference_of result ≡ cell_difference (col column.now) (view here.entry) (view there.entry) }
{
    if same(&here, &there) {
        return None;
    }
    Some(Difference {
        column: ColumnAt::new(column.name),
        here: Seen::Cell(column.kind, here),
        there: Seen::Cell(column.kind, there),
    })
}

/// The first difference of two rows, each of the table with the header before it.
fn row_difference<'a>(
    roles: &[Role],
    header: &Header<'a>,
    row: &RowView<'_, 'a>,
    other_header: &Header<'a>,
    other_row: &RowView<'_, 'a>,
) -> Option<Difference<'a>>
    requires here { length row.now ≡ length header.now.columns }
    requires there { length other_row.now ≡ length other_header.now.columns }
    ensures { option_map difference_of result ≡ first_difference (carried_columns (map role_of roles.now) header.now.columns)
        (carried_in (map role_of roles.now) header.now.columns row.now) (carried_in (map role_of roles.now) other_header.now.columns other_row.now) }
{
    // There are few enough columns to count them.
    let _columns = other_header.len();
    let mut passed = 0;
    for c in 0..header.len() {
        let column = header.at(c);
        if has_role(roles, column.name) {
            continue;
        }
        let Some(d) = next_carried(roles, other_header, passed) else {
            return None;
        };
        if let Some(difference) = cell_difference(column, row.cell(c), other_row.cell(d)) {
            return Some(difference);
        }
        passed = d + 1;
    }
    None
}

/// The first column without one of these roles in which row `k` of a table and row `j` of another differ. The cells of both rows without
/// a role are compared in their order, until those of one row end. A row that isn't there has none. It takes no memory.
pub fn first_difference<'a>(
    roles: &[Role],
    here: &TableView<'a>,
    k: u32,
    there: &TableView<'a>,
    j: u32,
) -> Option<Difference<'a>>
    ensures { option_map difference_of result ≡ first_difference (carried_columns (map role_of roles.now) here.now.head.columns)
        (carried_at (map role_of roles.now) here.now k) (carried_at (map role_of roles.now) there.now j) }
{
    if !has_row(here, k) || !has_row(there, j) {
        return None;
    }
    let row = row_of(here, k);
    let other = row_of(there, j);
    row_difference(roles, here.header(), &row, there.header(), &other)
}
