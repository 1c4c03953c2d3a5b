//! The table of the connected nodes of a glued coverage.

ghost use Rattle.std.specs.Prelude.{◌≡◌, Some, codes, not, true};
ghost use Rattle.vpf_darts.specs.Darts.{tile_dart_code, tile_in};
ghost use Rattle.vpf_table.specs.Grid.{Grid};
ghost use Rattle.vpf_write.specs.Writing.{Writes};
ghost use Rattle.vpf_prims.specs.Libraries.{library_of};
ghost use Rattle.vpf_prims.specs.References.{id_of};
ghost use Rattle.vpf_follow.specs.Inner.Rows.{row_node};
ghost use Rattle.vpf_wing.specs.Links.{links_of, tail_node};
ghost use Rattle.vpf_follow.specs.Following.{is_home};
ghost use Rattle.vpf_glue.specs.GluedTables.Grids.{glued_node_grid, row_in};
ghost use Rattle.vpf_glue.specs.Inner.Sources.{FitsPairs, IsOfTile};

use crate::glued_tables::laws::rows_of_tiles_fit;
use crate::sources::{checked_of, numbers_are_right, row_in_tile};
use std::alloc::Global;
use vpf_coverage::Coverage;
use vpf_cross::Checked;
use vpf_darts::TileDart;
use vpf_findings::TableName;
use vpf_primitive_tables::table_forms::PairForm;
use vpf_prims::{EdgeRow, id_of};
use vpf_renumbering::glued_edges::GluedEdges;
use vpf_table::RowView;
use vpf_write::{WriteError, Written};

/// The number in its tile of the node where the `+` or `-` dart of a row begins.
fn tail_in(row: &EdgeRow, minus: bool) -> u32
    ensures { result ≡ id_of (row_node (not minus) row.now) }
{
    id_of(if minus { row.end_node } else { row.start_node })
}

/// The number in its tile of the node where a home dart begins.
fn tail_of(coverage: &Coverage<'_>, dart: TileDart) -> u32
    requires { is_home (links_of (library_of coverage.now)) (tile_dart_code dart) ≡ true }
    ensures { result ≡ tail_node (links_of (library_of coverage.now)) (tile_dart_code dart) }
{
    let Some(tile) = coverage.tile(dart.tile) else {
        unreachable!()
    };
    tail_in(&tile.edge(dart.edge), dart.minus)
}

/// The row of the node where a home dart begins, in the tile of the dart.
fn node_row<'c, 'a>(checked: &Checked<'c, 'a>, dart: TileDart) -> RowView<'c, 'a>
    requires { is_home (links_of (library_of checked.now)) (tile_dart_code dart) ≡ true }
    ensures row { result ≡ row_in (λ T. T.cnd) checked.now (tile_in (tile_dart_code dart)) (tail_node (links_of (library_of checked.now))
        (tile_dart_code dart)) }
    ensures fits { (like : Grid) → IsOfTile (λ T. Some T.cnd) checked.now like → FitsPairs (codes "first_edge") like result }
{
    numbers_are_right(checked);
    rows_of_tiles_fit();
    let node = tail_of(checked.coverage(), dart);
    row_in_tile(checked, dart.tile, TableName::Cnd, node)
}

/// The table of connected nodes: each by its row in the tile of the least dart that begins there, with the number of its first edge.
pub(crate) fn write_nodes<'a>(
    alloc: Global,
    form: &PairForm<'_, 'a>,
    edges: &GluedEdges<'_, '_, 'a>,
) -> Result<Written, WriteError>
    requires name { form.now.name ≡ codes "first_edge" }
    requires like { IsOfTile (λ T. Some T.cnd) edges.now form.now.table }
    ensures { Writes (glued_node_grid form.now.table edges.now) result }
{
    let first_edges = edges.first_edges(alloc)?;
    let mut made = form.begin(alloc)?;
    let firsts = first_edges.as_slice();
    let darts = edges.nodes();
    for (k, dart) in darts.iter().enumerate() {
        let row = node_row(checked_of(edges), *dart);
        form.put(&mut made, k as u32 + 1, &row, firsts[k])?;
    }
    made.finish()
}
