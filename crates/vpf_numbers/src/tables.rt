//! The tables of a tile apart from its edges: their columns and rows are right.

ghost use Rattle.std.specs.Prelude.{◌≡◌, ◌∷◌, [], IfOk, codes, map};
ghost use Rattle.std.specs.Option.{option_copied};
ghost use Rattle.vpf_findings.specs.Firsts.{◌or◌, Finds, first_of_rows};
ghost use Rattle.vpf_prims.specs.Columns.{id_column, role_column};
ghost use Rattle.vpf_prims.specs.Inner.Placed.{IsColumnOf};
ghost use Rattle.vpf_prims.specs.Roles.{face_roles, number_role, reference_role, ring_roles, role_of};
ghost use Rattle.vpf_prims.specs.Suiting.{carried_columns};
ghost use Rattle.vpf_prims.specs.Inner.Views.{IsEntityColumn};
ghost use Rattle.vpf_numbers.specs.Around.{columns_in_view};
ghost use Rattle.vpf_numbers.specs.ColumnLines.{bare_line, beside_finding, roles_finding};
ghost use Rattle.vpf_numbers.specs.RowLines.{face_row_lines, plain_rows_line, ring_row_lines};
ghost use Rattle.vpf_numbers.specs.TableLines.{entities_finding, face_columns_finding};

use crate::carried::{check_bare, check_beside};
use crate::columns::check_role;
use crate::passing::{check_plain_rows, check_ring_rows, check_universe_rows};
use vpf_base::limits::MOST_ROWS;
use vpf_findings::{Finding, Seen};
use vpf_head::Header;
use vpf_prims::{
    CONTAINING_FACE, FACE_ID, ID, RING_PTR, Role, RoleColumn, START_EDGE, TableAt, entity_roles,
    face_roles, ring_roles,
};
use vpf_table::TableView;

/// The columns of ids and first rings of faces. That there are no rows is a finding right after the column of ids, since face 1 has to be
/// there.
fn face_columns<'a>(
    at: TableAt,
    model: Option<&Header<'a>>,
    table: &TableView<'a>,
) -> Result<(RoleColumn<'a>, RoleColumn<'a>), Finding<'a>>
    ensures first { Finds result (face_columns_finding at table.now.head.columns (columns_in_view model.entry) table.now.rows) }
    ensures id { IfOk result (λ r. IsColumnOf table.now.head.columns (number_role (codes "id")) r.0) }
    ensures ring_ptr { IfOk result (λ r. IsColumnOf table.now.head.columns (reference_role (codes "ring_ptr")) r.1) }
{
    let id = check_role(at, table.header(), model, &ID)?;
    if table.is_empty() {
        let wanted = Seen::Range(1, MOST_ROWS);
        return Err(at.finding(1, 0, id.name, Seen::Number(0), wanted));
    }
    let ring_ptr = check_role(at, table.header(), model, &RING_PTR)?;
    check_beside(at, table.header(), model, face_roles())?;
    Ok((id, ring_ptr))
}

/// The column of first rings of faces, where the table's columns and rows are right.
pub(crate) fn check_faces<'a>(
    at: TableAt,
    model: Option<&Header<'a>>,
    rings: u32,
    table: &TableView<'a>,
) -> Result<RoleColumn<'a>, Finding<'a>>
    ensures first { Finds result (face_columns_finding at table.now.head.columns (columns_in_view model.entry) table.now.rows
        or first_of_rows (face_row_lines at table.now.head.columns rings) 1 table.now.rows) }
    ensures column { IfOk result (IsColumnOf table.now.head.columns (reference_role (codes "ring_ptr"))) }
{
    let (id, ring_ptr) = face_columns(at, model, table)?;
    check_universe_rows(at, rings, &id, &ring_ptr, table)?;
    Ok(ring_ptr)
}

/// The columns of rings, which carry no others.
fn ring_columns<'a>(
    at: TableAt,
    model: Option<&Header<'a>>,
    table: &TableView<'a>,
) -> Result<(RoleColumn<'a>, RoleColumn<'a>, RoleColumn<'a>), Finding<'a>>
    ensures first { Finds result (roles_finding at table.now.head.columns (columns_in_view model.entry) ring_roles
        or bare_line at (carried_columns ring_roles table.now.head.columns)
        or beside_finding at ring_roles table.now.head.columns (columns_in_view model.entry)) }
    ensures id { IfOk result (λ r. IsColumnOf table.now.head.columns (number_role (codes "id")) r.0) }
    ensures face { IfOk result (λ r. IsColumnOf table.now.head.columns (reference_role (codes "face_id")) r.1) }
    ensures edge { IfOk result (λ r. IsColumnOf table.now.head.columns (reference_role (codes "start_edge")) r.2) }
{
    let id = check_role(at, table.header(), model, &ID)?;
    let face = check_role(at, table.header(), model, &FACE_ID)?;
    let edge = check_role(at, table.header(), model, &START_EDGE)?;
    check_bare(at, table.header(), ring_roles())?;
    check_beside(at, table.header(), model, ring_roles())?;
    Ok((id, face, edge))
}

/// The columns of the faces of rings and of the edges where their walks start, where the table's columns and rows are right.
pub(crate) fn check_rings<'a>(
    at: TableAt,
    model: Option<&Header<'a>>,
    faces: u32,
    edges: u32,
    table: &TableView<'a>,
) -> Result<(RoleColumn<'a>, RoleColumn<'a>), Finding<'a>>
    ensures first { Finds result (roles_finding at table.now.head.columns (columns_in_view model.entry) ring_roles
        or bare_line at (carried_columns ring_roles table.now.head.columns)
        or beside_finding at ring_roles table.now.head.columns (columns_in_view model.entry)
        or first_of_rows (ring_row_lines at table.now.head.columns faces edges) 1 table.now.rows) }
    ensures face { IfOk result (λ r. IsColumnOf table.now.head.columns (reference_role (codes "face_id")) r.0) }
    ensures edge { IfOk result (λ r. IsColumnOf table.now.head.columns (reference_role (codes "start_edge")) r.1) }
{
    let (id, face, edge) = ring_columns(at, model, table)?;
    check_ring_rows(at, faces, edges, &id, &face, &edge, table)?;
    Ok((face, edge))
}

/// The columns of ids and of a reference, and that those without a role are right.
fn plain_columns<'a>(
    at: TableAt,
    model: Option<&Header<'a>>,
    roles: &[Role],
    reference: &Role,
    table: &TableView<'a>,
) -> Result<(RoleColumn<'a>, RoleColumn<'a>), Finding<'a>>
    requires { map role_of roles.now ≡ number_role (codes "id") ∷ role_of reference.now ∷ [] }
    ensures first { Finds result (roles_finding at table.now.head.columns (columns_in_view model.entry) (number_role (codes "id") ∷ role_of reference.now ∷ [])
        or beside_finding at (map role_of roles.now) table.now.head.columns (columns_in_view model.entry)) }
    ensures id { IfOk result (λ r. IsColumnOf table.now.head.columns (number_role (codes "id")) r.0) }
    ensures column { IfOk result (λ r. IsColumnOf table.now.head.columns (role_of reference.now) r.1) }
{
    let id = check_role(at, table.header(), model, &ID)?;
    let column = check_role(at, table.header(), model, reference)?;
    check_beside(at, table.header(), model, roles)?;
    Ok((id, column))
}

/// The column of a reference, in a table with ids and this reference alone, where the table's columns and rows are right: references are
/// from 1 to `last`.
pub(crate) fn check_plain<'a>(
    at: TableAt,
    model: Option<&Header<'a>>,
    roles: &[Role],
    reference: &Role,
    last: u32,
    table: &TableView<'a>,
) -> Result<RoleColumn<'a>, Finding<'a>>
    requires { map role_of roles.now ≡ number_role (codes "id") ∷ role_of reference.now ∷ [] }
    ensures first { Finds result (roles_finding at table.now.head.columns (columns_in_view model.entry) (number_role (codes "id") ∷ role_of reference.now ∷ [])
        or beside_finding at (map role_of roles.now) table.now.head.columns (columns_in_view model.entry)
        or first_of_rows (plain_rows_line at (id_column table.now.head.columns) (role_column table.now.head.columns (role_of reference.now)) last) 1
        table.now.rows) }
    ensures column { IfOk result (IsColumnOf table.now.head.columns (role_of reference.now)) }
{
    let (id, column) = plain_columns(at, model, roles, reference, table)?;
    check_plain_rows(at, last, &id, &column, table)?;
    Ok(column)
}

/// The column of the faces of entity nodes, where these have a table, whose columns and rows are right.
pub(crate) fn check_entities<'a>(
    at: TableAt,
    model: Option<&Header<'a>>,
    faces: u32,
    end: Option<&TableView<'a>>,
) -> Result<Option<RoleColumn<'a>>, Finding<'a>>
    ensures first { Finds result (entities_finding at (columns_in_view model.entry) faces (option_copied end.entry)) }
    ensures column { IfOk result (IsEntityColumn (option_copied end.entry)) }
{
    let Some(table) = end else {
        return Ok(None);
    };
    let column = check_plain(at, model, entity_roles(), &CONTAINING_FACE, faces, table)?;
    Ok(Some(column))
}
