//! The first finding on a column of a row.

ghost use Rattle.std.specs.Prelude.{◌≡◌, IfOk, length};
ghost use Rattle.vpf_table.specs.Findings.{CellSeen, disagreement_of, sight_of};
ghost use Rattle.vpf_table.specs.Firsts.{Finds};
ghost use Rattle.vpf_prims.specs.Columns.{IsWithin, in_table, role_at};
ghost use Rattle.vpf_prims.specs.Edges.{id_at};
ghost use Rattle.vpf_prims.specs.Lines.{cell_range_line, id_line, range_line};
ghost use Rattle.vpf_prims.specs.References.{id_of, reference_in};
ghost use Rattle.vpf_value.specs.Values.{view};

use crate::placing::{RoleColumn, TableAt};
use crate::reading::{cell_at, is_from, is_same, reference_in, signed_in};
use crate::rows::id_of;
use vpf_table::RowView;
use vpf_table::findings::{Finding, Seen};
use vpf_value::Cell;

/// The id of row `k` is `k`.
pub fn check_id<'a>(
    at: TableAt,
    k: u32,
    column: &RoleColumn<'a>,
    row: &RowView<'_, 'a>,
) -> Result<(), Finding<'a>>
    requires { IsWithin (length row.now) (role_at column.now) }
    ensures { Finds result (id_line at k (role_at column.now) row.now) }
{
    let id = signed_in(cell_at(row, column));
    if is_same(id, k) {
        return Ok(());
    }
    let found = Seen::Number(i64::from(id));
    Err(at.finding(1, k, column.name, found, Seen::Number(i64::from(k))))
}

/// A finding on a cell of row `k`.
pub fn cell_finding<'a>(
    at: TableAt,
    k: u32,
    column: &RoleColumn<'a>,
    cell: Cell<'a>,
    wanted: Seen<'a>,
) -> Finding<'a>
    ensures { disagreement_of result ≡ in_table at 1 k (role_at column.now).name (CellSeen column.now.kind (view cell.entry)) (sight_of wanted.entry) }
{
    let found = Seen::Cell(column.kind, cell);
    at.finding(1, k, column.name, found, wanted)
}

/// The number that the reference in a cell of row `k` has in its own tile, one of `low` to `last`.
pub fn number_in_cell<'a>(
    at: TableAt,
    low: u32,
    last: u32,
    k: u32,
    column: &RoleColumn<'a>,
    cell: Cell<'a>,
) -> Result<u32, Finding<'a>>
    ensures first { Finds result (cell_range_line at low last k (role_at column.now) (view cell.entry)) }
    ensures value { IfOk result (λ n. n ≡ id_of (reference_in (view cell.entry))) }
{
    let reference = reference_in(cell);
    if is_from(low, last, reference.id) {
        return Ok(id_of(reference));
    }
    Err(cell_finding(at, k, column, cell, Seen::Range(low, last)))
}

/// The number that a reference in row `k` has in its own tile, one of `low` to `last`.
pub fn number_from<'a>(
    at: TableAt,
    low: u32,
    last: u32,
    k: u32,
    column: &RoleColumn<'a>,
    row: &RowView<'_, 'a>,
) -> Result<u32, Finding<'a>>
    requires { IsWithin (length row.now) (role_at column.now) }
    ensures first { Finds result (range_line at low last k (role_at column.now) row.now) }
    ensures value { IfOk result (λ n. n ≡ id_at (role_at column.now) row.now) }
{
    number_in_cell(at, low, last, k, column, cell_at(row, column))
}
