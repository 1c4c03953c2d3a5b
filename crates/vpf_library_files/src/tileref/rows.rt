//! The rows of the table of tiles, and the paths that they name.

ghost use Rattle.std.specs.Prelude.{◌≡◌, ◌++◌, ◌∷◌, [], IfOk, OnOk, length, map};
ghost use Rattle.std.specs.Bool.{OnTrue};
ghost use Rattle.vpf_value.specs.Values.{view};
ghost use Rattle.vpf_findings.specs.Findings.{CellSeen, WordSeen, disagreement_of};
ghost use Rattle.vpf_findings.specs.Firsts.{Tells};
ghost use Rattle.vpf_prims.specs.Columns.{IsWithin, in_table, role_at};
ghost use Rattle.vpf_prims.specs.References.{cell_at};
ghost use Rattle.vpf_library_files.specs.Tileref.Paths.{path_of, path_text};
ghost use Rattle.vpf_library_files.specs.Tileref.Tileref.{row_path, text_bytes, tile_rows_finding, tileref_at};
ghost use Rattle.vpf_library_files.specs.Inner.Tileref.Texts.{texts_in};
ghost use Rattle.vpf_library_files.specs.Inner.Tileref.Taking.{is_new, next_tile_lines};

use crate::tileref::columns::{TILEREF, TileColumns};
use crate::tileref::naming::path_in;
use indexmap::IndexSet;
use std::alloc::{AllocError, Global};
use vpf_findings::{FindError, Finding, Seen, SeenWord};
use vpf_prims::{RoleColumn, check_id};
use vpf_table::{RowView, TableView};
use vpf_value::Cell;

/// The cell of a row in a column, nothing where the column is absent.
fn cell_of<'a>(row: &RowView<'_, 'a>, column: &RoleColumn<'_>) -> Cell<'a>
    requires { IsWithin (length row.now) (role_at column.now) }
    ensures { view result ≡ cell_at row.now (role_at column.now).place }
{
    match column.place {
        Some(place) => row.cell(place),
        None => Cell::Null,
    }
}

/// The bytes of a text; a cell of another kind has none.
fn text_of(cell: Cell<'_>) -> &[u8]
    ensures { result.now ≡ text_bytes (view cell.entry) }
{
    match cell {
        Cell::Text(text) => text,
        _ => &[],
    }
}

/// Puts the path that a cell names behind the others, unless one of them is the same. Tells whether it is a path that is put.
fn insert_path(
    alloc: Global,
    paths: &mut IndexSet<String>,
    cell: Cell<'_>,
) -> Result<bool, AllocError>
    ensures new { IfOk result (λ put. put ≡ is_new (texts_in paths.old) (path_of (text_bytes (view cell.entry)))) }
    ensures put { IfOk result (λ put. OnTrue put (texts_in paths.new ≡ texts_in paths.old ++ path_text (path_of (text_bytes (view cell.entry))) ∷ [])) }
{
    match path_in(alloc, text_of(cell))? {
        Some(path) => Ok(paths.insert(path)?),
        None => Ok(false),
    }
}

/// The finding on the name in row `k`.
fn name_finding<'a>(k: u32, column: &RoleColumn<'a>, cell: Cell<'a>) -> Finding<'a>
    ensures { disagreement_of result ≡ in_table tileref_at 1 k (role_at column.now).name (CellSeen column.now.kind (view cell.entry)) (WordSeen SeenWord.Path) }
{
    let found = Seen::Cell(column.kind, cell);
    TILEREF.finding(1, k, column.name, found, Seen::Word(SeenWord::Path))
}

/// Row `k`: its id is `k`, and the path that it names is put behind those of the rows before.
fn take_row<'a>(
    alloc: Global,
    k: u32,
    columns: &TileColumns<'a>,
    row: &RowView<'_, 'a>,
    paths: &mut IndexSet<String>,
) -> Result<(), FindError<'a>>
    requires id { IsWithin (length row.now) (role_at columns.now.id) }
    requires name { IsWithin (length row.now) (role_at columns.now.name) }
    ensures first { Tells result (next_tile_lines (role_at columns.now.id) (role_at columns.now.name) (texts_in paths.old) k row.now) }
    ensures put { OnOk result (texts_in paths.new ≡ texts_in paths.old ++ path_text (row_path (role_at columns.now.name) row.now) ∷ []) }
{
    check_id(TILEREF, k, &columns.id, row)?;
    let cell = cell_of(row, &columns.name);
    if insert_path(alloc, paths, cell)? {
        return Ok(());
    }
    Err(FindError::Finding(name_finding(k, &columns.name, cell)))
}

/// The paths of all rows, in their order.
pub(crate) fn paths_of<'a>(
    alloc: Global,
    columns: &TileColumns<'a>,
    table: &TableView<'a>,
) -> Result<IndexSet<String>, FindError<'a>>
    requires id { IsWithin (length table.now.head.columns) (role_at columns.now.id) }
    requires name { IsWithin (length table.now.head.columns) (role_at columns.now.name) }
    ensures first { Tells result (tile_rows_finding (role_at columns.now.id) (role_at columns.now.name) table.now.rows) }
    ensures paths { IfOk result (λ paths. texts_in paths ≡ map path_text (map (row_path (role_at columns.now.name)) table.now.rows)) }
{
    // There are few enough rows to count them.
    let _rows = table.len();
    let mut paths = IndexSet::new(alloc);
    let mut k = 0;
    for row in table.rows() {
        k += 1;
        take_row(alloc, k, columns, &row, &mut paths)?;
    }
    Ok(paths)
}
