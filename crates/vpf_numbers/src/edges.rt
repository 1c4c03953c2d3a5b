//! The columns and the rows of edges.

ghost use Rattle.std.specs.Prelude.{◌≡◌, IfOk, IfSome, is_some, length, map};
ghost use Rattle.vpf_findings.specs.Firsts.{◌or◌, Finds, Tells, first_of_rows};
ghost use Rattle.vpf_prims.specs.Edges.{AreWithin, edge_columns, edge_row, reference_at};
ghost use Rattle.vpf_prims.specs.References.{cell_at, is_line};
ghost use Rattle.vpf_prims.specs.Roles.{edge_roles};
ghost use Rattle.vpf_numbers.specs.Around.{columns_in_view, model_edg};
ghost use Rattle.vpf_numbers.specs.ColumnLines.{beside_finding, roles_finding};
ghost use Rattle.vpf_numbers.specs.RowLines.{edge_end_lines, edge_row_lines, edge_side_lines, edge_wing_lines};

use crate::around::Around;
use crate::carried::check_beside;
use crate::columns::check_roles;
use crate::lines::{check_cross, check_face, check_mark};
use std::alloc::Global;
use vpf_findings::{FindError, Finding, TableName};
use vpf_head::Header;
use vpf_prims::{EdgeColumns, EdgeRow, Ranges, TableAt, check_id, edge_roles};
use vpf_table::{RowView, RowWalk, TableView};
use vpf_triplet::Triplet;

/// The wings of row `k` and whether it is a line between tiles, where they and its mark are right.
fn check_wings<'a>(
    columns: &EdgeColumns<'a>,
    around: &Around<'_, 'a>,
    last: u32,
    k: u32,
    row: &mut RowWalk<'_, 'a>,
) -> Result<(Triplet, Triplet, bool), Finding<'a>>
    requires { AreWithin (length row.old) columns.now }
    ensures first { Finds result (edge_wing_lines around.now columns.now last k row.old) }
    ensures right { IfOk result (λ wings. wings.0 ≡ reference_at columns.now.right_edge row.old) }
    ensures left { IfOk result (λ wings. wings.1 ≡ reference_at columns.now.left_edge row.old) }
    ensures line { IfOk result (λ wings. wings.2 ≡ is_line (cell_at row.old columns.now.tile_line.place)) }
    ensures same { row.new ≡ row.old }
{
    let at = columns.at();
    let [right, left] = [columns.right_edge(), columns.left_edge()];
    let right = check_cross(at, around, TableName::Edg, last, k, &right, row)?;
    let left = check_cross(at, around, TableName::Edg, last, k, &left, row)?;
    let line = check_mark(at, k, &columns.tile_line(), row)?;
    Ok((right, left, line))
}

/// The faces of row `k` on its right and on its left, which are right.
fn check_sides<'a>(
    columns: &EdgeColumns<'a>,
    around: &Around<'_, 'a>,
    last: u32,
    k: u32,
    row: &mut RowWalk<'_, 'a>,
) -> Result<(Triplet, Triplet), Finding<'a>>
    requires { AreWithin (length row.old) columns.now }
    ensures first { Finds result (edge_side_lines around.now columns.now last k row.old) }
    ensures right { IfOk result (λ sides. sides.0 ≡ reference_at columns.now.right_face row.old) }
    ensures left { IfOk result (λ sides. sides.1 ≡ reference_at columns.now.left_face row.old) }
    ensures same { row.new ≡ row.old }
{
    let at = columns.at();
    let [right, left] = [columns.right_face(), columns.left_face()];
    let right = check_face(at, around, last, k, &right, row)?;
    let left = check_face(at, around, last, k, &left, row)?;
    Ok((right, left))
}

/// The nodes where row `k` begins and ends, which are right.
fn check_ends<'a>(
    columns: &EdgeColumns<'a>,
    around: &Around<'_, 'a>,
    last: u32,
    k: u32,
    row: &mut RowWalk<'_, 'a>,
) -> Result<(Triplet, Triplet), Finding<'a>>
    requires { AreWithin (length row.old) columns.now }
    ensures first { Finds result (edge_end_lines around.now columns.now last k row.old) }
    ensures start { IfOk result (λ ends. ends.0 ≡ reference_at columns.now.start_node row.old) }
    ensures end { IfOk result (λ ends. ends.1 ≡ reference_at columns.now.end_node row.old) }
    ensures same { row.new ≡ row.old }
{
    let at = columns.at();
    let [start, end] = [columns.start_node(), columns.end_node()];
    let start = check_cross(at, around, TableName::Cnd, last, k, &start, row)?;
    let end = check_cross(at, around, TableName::Cnd, last, k, &end, row)?;
    Ok((start, end))
}

/// What row `k` says, where its references and its mark are right. The row is passed once.
fn check_references<'a>(
    columns: &EdgeColumns<'a>,
    around: &Around<'_, 'a>,
    most: Ranges,
    k: u32,
    row: &mut RowWalk<'_, 'a>,
) -> Result<EdgeRow, Finding<'a>>
    requires { AreWithin (length row.old) columns.now }
    ensures first { Finds result (edge_end_lines around.now columns.now most.nodes k row.old
        or edge_side_lines around.now columns.now most.faces k row.old
        or edge_wing_lines around.now columns.now most.edges k row.old) }
    ensures said { IfOk result (λ said. said ≡ edge_row columns.now row.old) }
{
    let (start_node, end_node) = check_ends(columns, around, most.nodes, k, row)?;
    let (right_face, left_face) = check_sides(columns, around, most.faces, k, row)?;
    let (right_edge, left_edge, line) = check_wings(columns, around, most.edges, k, row)?;
    Ok(EdgeRow {
        start_node,
        end_node,
        right_face,
        left_face,
        right_edge,
        left_edge,
        line,
    })
}

/// What row `k` says, where its id, its references and its mark are right.
fn check_row<'a>(
    columns: &EdgeColumns<'a>,
    around: &Around<'_, 'a>,
    most: Ranges,
    k: u32,
    row: &RowView<'_, 'a>,
) -> Result<EdgeRow, Finding<'a>>
    requires { AreWithin (length row.now) columns.now }
    ensures first { Finds result (edge_row_lines around.now columns.now most k row.now) }
    ensures said { IfOk result (λ said. said ≡ edge_row columns.now row.now) }
{
    check_id(columns.at(), k, &columns.id(), row)?;
    check_references(columns, around, most, k, &mut row.walk())
}

/// The rows of edges are right.
fn check_rows<'a>(
    columns: &EdgeColumns<'a>,
    around: &Around<'_, 'a>,
    most: Ranges,
    table: &TableView<'a>,
) -> Result<(), Finding<'a>>
    requires { AreWithin (length table.now.head.columns) columns.now }
    ensures { Finds result (first_of_rows (edge_row_lines around.now columns.now most) 1 table.now.rows) }
{
    // There are few enough rows to count them.
    let _rows = table.len();
    let mut k = 0;
    for row in table.rows() {
        k += 1;
        check_row(columns, around, most, k, &row)?;
    }
    Ok(())
}

/// What the rows of edges say, where they are right.
fn kept_rows<'a>(
    alloc: Global,
    columns: &EdgeColumns<'a>,
    around: &Around<'_, 'a>,
    most: Ranges,
    table: &TableView<'a>,
) -> Result<Vec<EdgeRow>, FindError<'a>>
    requires { AreWithin (length table.now.head.columns) columns.now }
    ensures first { Tells result (first_of_rows (edge_row_lines around.now columns.now most) 1 table.now.rows) }
    ensures said { IfOk result (λ said. said.items ≡ map (edge_row columns.now) table.now.rows) }
{
    let mut said = Vec::with_capacity(alloc, table.len() as usize)?;
    let mut k = 0;
    for row in table.rows() {
        k += 1;
        said.push(check_row(columns, around, most, k, &row)?)?;
    }
    Ok(said)
}

/// What the rows of edges say, where they are right: of a tiled coverage alone, as the rules on tiles ask for the same edges many times.
fn rows_of<'a>(
    alloc: Global,
    columns: &EdgeColumns<'a>,
    around: &Around<'_, 'a>,
    most: Ranges,
    table: &TableView<'a>,
) -> Result<Option<Vec<EdgeRow>>, FindError<'a>>
    requires { AreWithin (length table.now.head.columns) columns.now }
    ensures first { Tells result (first_of_rows (edge_row_lines around.now columns.now most) 1 table.now.rows) }
    ensures said { IfOk result (λ kept. IfSome kept (λ said. said.items ≡ map (edge_row columns.now) table.now.rows)) }
    ensures kept { IfOk result (λ kept. is_some kept ≡ around.now.is_tiled) }
{
    if around.is_tiled() {
        return Ok(Some(kept_rows(alloc, columns, around, most, table)?));
    }
    check_rows(columns, around, most, table)?;
    Ok(None)
}

/// The columns of edges, which are right, and those of the header that this one is to be like.
fn place_edges<'a>(
    alloc: Global,
    at: TableAt,
    model: Option<&Header<'a>>,
    header: &Header<'a>,
) -> Result<EdgeColumns<'a>, FindError<'a>>
    ensures first { Tells result (roles_finding at header.now.columns (columns_in_view model.entry) edge_roles
        or beside_finding at edge_roles header.now.columns (columns_in_view model.entry)) }
    ensures columns { IfOk result (λ columns. columns ≡ edge_columns at header.now.columns) }
    ensures within { IfOk result (AreWithin (length header.now.columns)) }
{
    check_roles(at, header, model, edge_roles())?;
    check_beside(at, header, model, edge_roles())?;
    EdgeColumns::place(alloc, at, header)
}

/// The columns of edges, where they and the rows are right, and what the rows say, where the coverage is tiled.
pub(crate) fn check_edges<'a>(
    alloc: Global,
    at: TableAt,
    around: &Around<'_, 'a>,
    most: Ranges,
    table: &TableView<'a>,
) -> Result<(EdgeColumns<'a>, Option<Vec<EdgeRow>>), FindError<'a>>
    ensures first { Tells result (roles_finding at table.now.head.columns (model_edg around.now) edge_roles
        or beside_finding at edge_roles table.now.head.columns (model_edg around.now)
        or first_of_rows (edge_row_lines around.now (edge_columns at table.now.head.columns) most) 1 table.now.rows) }
    ensures columns { IfOk result (λ edges. edges.0 ≡ edge_columns at table.now.head.columns) }
    ensures within { IfOk result (λ edges. AreWithin (length table.now.head.columns) edges.0) }
    ensures said { IfOk result (λ edges. IfSome edges.1 (λ said. said.items ≡ map (edge_row edges.0) table.now.rows)) }
    ensures kept { IfOk result (λ edges. is_some edges.1 ≡ around.now.is_tiled) }
{
    let columns = place_edges(alloc, at, around.edg(), table.header())?;
    let rows = rows_of(alloc, &columns, around, most, table)?;
    Ok((columns, rows))
}
