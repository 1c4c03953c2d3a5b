//! The tables and the rows of tiles, as a glued coverage is made of them.

ghost use Rattle.std.specs.Prelude.{◌≡◌, ◌≤◌, ◌*◌, IfSome, length};
ghost use Rattle.std.specs.Option.{IsSomeAnd, option_copied};
ghost use Rattle.vpf_findings.specs.declared.finding.TableName.TheVariants.{End};
ghost use Rattle.vpf_head.specs.Inner.Soundness.{IsSound};
ghost use Rattle.vpf_prims.specs.Coverages.{tile_at};
ghost use Rattle.vpf_prims.specs.Numbering.{IsRowOf};
ghost use Rattle.vpf_prims.specs.Libraries.{library_of};
ghost use Rattle.vpf_cross.specs.CarriedLines.{first_tile};
ghost use Rattle.vpf_base.specs.Limits.{most_rows};
ghost use Rattle.vpf_renumbering.specs.Glued.{first_darts, plus_darts};
ghost use Rattle.vpf_glue.specs.GluedTables.Grids.{first_end, whole_in};
ghost use Rattle.vpf_glue.specs.Inner.Sources.{IsOfTile, IsRight, IsRowIn, table_in};

use vpf_coverage::Coverage;
use vpf_cross::{Checked, first_tile};
use vpf_findings::TableName;
use vpf_numbers::laws::numbers_decide;
use vpf_primitive_tables::table_forms::row_of;
use vpf_prims::Tile;
use vpf_renumbering::glued_edges::GluedEdges;
use vpf_table::{RowView, TableView};

/// What is so of each checked coverage: the tables of its tiles have the same columns, and their rows are numbered and name what is there.
pub(crate) fn numbers_are_right(checked: &Checked<'_, '_>)
    ensures { IsRight checked.now }
{
    let coverage = checked.coverage();
    coverage.tiles_make_library();
    coverage.numbers_hold();
    numbers_decide();
}

/// The coverage whose edges these are.
pub(crate) fn checked_of<'w, 'c, 'a>(edges: &GluedEdges<'w, 'c, 'a>) -> &'w Checked<'c, 'a>
    ensures { result.now ≡ edges.now }
{
    edges.whole().checked()
}

/// What is so of the edges and the nodes of each glued coverage: they are few.
pub(crate) fn edges_number_few(edges: &GluedEdges<'_, '_, '_>)
    ensures edges { length (plus_darts (whole_in edges.now)) ≤ most_rows }
    ensures nodes { length (first_darts (whole_in edges.now)) ≤ 2 * most_rows }
{
    let _edges = edges.edges();
    let _nodes = edges.nodes();
}

/// The first tile that has tables.
pub(crate) fn first_of<'c, 'a>(checked: &Checked<'c, 'a>) -> Option<&'c Tile<'a>>
    ensures { option_copied result ≡ tile_at checked.now (first_tile (library_of checked.now)) }
{
    let coverage = checked.coverage();
    coverage.tile(first_tile(coverage))
}

/// The table of entity nodes of a tile.
pub(crate) fn end_of<'c, 'a>(coverage: &'c Coverage<'a>, t: u32) -> Option<&'c TableView<'a>>
    ensures table { option_copied result ≡ table_in coverage.now t End }
    ensures sound { IfSome (option_copied result) (λ end. IsSound end.head) }
{
    let end = coverage.tile(t)?.table(TableName::End)?;
    // What is so of each header: it is sound.
    let _columns = end.header().len();
    Some(end)
}

/// The first table of entity nodes of a tile.
pub(crate) fn first_end_of<'c, 'a>(checked: &Checked<'c, 'a>) -> Option<&'c TableView<'a>>
    ensures first { option_copied result ≡ first_end checked.now.tiles }
    ensures of_tile { IfSome (option_copied result) (λ end. IsOfTile (λ T. T.end) checked.now end) }
{
    let coverage = checked.coverage();
    for t in 0..=coverage.tiles() {
        if let Some(end) = end_of(coverage, t) {
            return Some(end);
        }
    }
    None
}

/// Row `k` of the table of this name of a tile.
pub(crate) fn row_in_tile<'c, 'a>(
    checked: &Checked<'c, 'a>,
    t: u32,
    name: TableName,
    k: u32,
) -> RowView<'c, 'a>
    requires { IsSomeAnd (table_in checked.now t name) (λ grid. IsRowOf (length grid.rows) k) }
    ensures { IsSomeAnd (table_in checked.now t name) (λ grid. IsRowIn grid k result) }
{
    let Some(tile) = checked.coverage().tile(t) else {
        unreachable!()
    };
    let Some(table) = tile.table(name) else {
        unreachable!()
    };
    // What is so of each header: it is sound.
    let _columns = table.header().len();
    row_of(table, k)
}
