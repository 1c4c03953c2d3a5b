//! The columns of the table of tiles.

ghost use Rattle.std.specs.Prelude.{◌≡◌, IfOk, codes, length};
ghost use Rattle.vpf_findings.specs.Firsts.{Tells};
ghost use Rattle.vpf_prims.specs.Columns.{IsWithin, role_at, role_column, role_line};
ghost use Rattle.vpf_prims.specs.Inner.Placed.{IsColumnOf};
ghost use Rattle.vpf_prims.specs.Roles.{number_role, role_of, text_role};
ghost use Rattle.vpf_library_files.specs.Tileref.Tileref.{tile_columns_finding, tileref_at};

use std::alloc::Global;
use std::slice;
use vpf_base::limits::MOST_TILES;
use vpf_findings::{FindError, Seen, TableName};
use vpf_head::Header;
use vpf_prims::{Role, RoleColumn, TableAt, place_roles, tileref_roles};
use vpf_table::TableView;

/// Where the findings are: in no tile, and in the first file that is read.
pub(crate) const TILEREF: TableAt = TableAt {
    tile: 0,
    table: TableName::Tileref,
    file: 0,
};

/// The columns of the table of tiles.
#[derive(Clone, Copy, Debug)]
pub(crate) struct TileColumns<'a> {
    /// The ids.
    pub(crate) id: RoleColumn<'a>,
    /// The names of the tiles.
    pub(crate) name: RoleColumn<'a>,
}

/// The column of a role, or the finding on it.
fn column_of<'a>(
    alloc: Global,
    header: &Header<'a>,
    role: &Role,
) -> Result<RoleColumn<'a>, FindError<'a>>
    ensures first { Tells result (role_line tileref_at header.now.columns (role_of role.now)) }
    ensures column { IfOk result (IsColumnOf header.now.columns (role_of role.now)) }
{
    let columns = place_roles(alloc, TILEREF, header, slice::from_ref(role))?;
    let [column] = columns.as_slice() else {
        unreachable!()
    };
    Ok(*column)
}

/// The roles of ids and of names.
fn roles() -> (&'static Role, &'static Role)
    ensures id { role_of result.0.now ≡ number_role (codes "id") }
    ensures name { role_of result.1.now ≡ text_role (codes "tile_name") }
{
    let [id, name] = tileref_roles() else {
        unreachable!()
    };
    (id, name)
}

impl<'a> TileColumns<'a> {
    /// The columns of a table, or the first finding on them: that there are no rows is one right after the column of ids.
    pub(crate) fn place(
        alloc: Global,
        table: &TableView<'a>,
    ) -> Result<TileColumns<'a>, FindError<'a>>
        ensures first { Tells result (tile_columns_finding table.now.head.columns table.now.rows) }
        ensures id { IfOk result (λ columns. IsColumnOf table.now.head.columns (number_role (codes "id")) columns.id) }
        ensures name { IfOk result (λ columns. IsColumnOf table.now.head.columns (text_role (codes "tile_name")) columns.name) }
    {
        let (id_role, name_role) = roles();
        let header = table.header();
        let id = column_of(alloc, header, id_role)?;
        if table.is_empty() {
            let wanted = Seen::Range(1, MOST_TILES);
            let finding = TILEREF.finding(1, 0, id.name, Seen::Number(0), wanted);
            return Err(FindError::Finding(finding));
        }
        let name = column_of(alloc, header, name_role)?;
        Ok(TileColumns { id, name })
    }
}
