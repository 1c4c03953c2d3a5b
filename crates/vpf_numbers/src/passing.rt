//! The rows of tables whose references stay within their tile, looked at one after another.

ghost use Rattle.std.specs.Prelude.{◌≡◌, length, if◌then◌else◌, ◌==◌};
ghost use Rattle.vpf_findings.specs.Firsts.{Finds, first_of_rows};
ghost use Rattle.vpf_prims.specs.Columns.{IsWithin, role_at};
ghost use Rattle.vpf_numbers.specs.RowLines.{plain_rows_line, ring_rows_line, universe_rows_line};

use crate::lines::check_reference;
use vpf_findings::Finding;
use vpf_prims::{RoleColumn, TableAt, check_id};
use vpf_table::TableView;

/// Rows whose ids count up from 1, and whose references are from 1 to `last`.
pub(crate) fn check_plain_rows<'a>(
    at: TableAt,
    last: u32,
    id: &RoleColumn<'a>,
    column: &RoleColumn<'a>,
    table: &TableView<'a>,
) -> Result<(), Finding<'a>>
    requires id { IsWithin (length table.now.head.columns) (role_at id.now) }
    requires column { IsWithin (length table.now.head.columns) (role_at column.now) }
    ensures { Finds result (first_of_rows (plain_rows_line at (role_at id.now) (role_at column.now) last) 1 table.now.rows) }
{
    // There are few enough rows to count them.
    let _rows = table.len();
    let mut k = 0;
    for row in table.rows() {
        k += 1;
        check_id(at, k, id, &row)?;
        check_reference(at, 1, last, k, column, &row)?;
    }
    Ok(())
}

/// The least number that row `k` may refer to, where the first may refer to nothing.
fn universe_low(k: u32) -> u32
    ensures { result ≡ (if k == 1 then 0 else 1) }
{
    if k == 1 { 0 } else { 1 }
}

/// Rows whose ids count up from 1, and whose references are from 1 to `last`, or 0 in the first row.
pub(crate) fn check_universe_rows<'a>(
    at: TableAt,
    last: u32,
    id: &RoleColumn<'a>,
    column: &RoleColumn<'a>,
    table: &TableView<'a>,
) -> Result<(), Finding<'a>>
    requires id { IsWithin (length table.now.head.columns) (role_at id.now) }
    requires column { IsWithin (length table.now.head.columns) (role_at column.now) }
    ensures { Finds result (first_of_rows (universe_rows_line at (role_at id.now) (role_at column.now) last) 1 table.now.rows) }
{
    let _rows = table.len();
    let mut k = 0;
    for row in table.rows() {
        k += 1;
        check_id(at, k, id, &row)?;
        check_reference(at, universe_low(k), last, k, column, &row)?;
    }
    Ok(())
}

/// Rows whose ids count up from 1, whose faces are from 1 to `faces`, and whose edges are from 1 to `edges`: the three columns are those of
/// ids, faces and edges.
pub(crate) fn check_ring_rows<'a>(
    at: TableAt,
    faces: u32,
    edges: u32,
    id: &RoleColumn<'a>,
    face: &RoleColumn<'a>,
    edge: &RoleColumn<'a>,
    table: &TableView<'a>,
) -> Result<(), Finding<'a>>
    requires id { IsWithin (length table.now.head.columns) (role_at id.now) }
    requires face { IsWithin (length table.now.head.columns) (role_at face.now) }
    requires edge { IsWithin (length table.now.head.columns) (role_at edge.now) }
    ensures { Finds result (first_of_rows (ring_rows_line at (role_at id.now) (role_at face.now) (role_at edge.now) faces edges) 1 table.now.rows) }
{
    let _rows = table.len();
    let mut k = 0;
    for row in table.rows() {
        k += 1;
        check_id(at, k, id, &row)?;
        check_reference(at, 1, faces, k, face, &row)?;
        check_reference(at, 1, edges, k, edge, &row)?;
    }
    Ok(())
}
