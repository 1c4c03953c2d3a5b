//! The table of the edges of a glued coverage.

ghost use Rattle.std.specs.Prelude.{◌≡◌, ◌<◌, ◌^◌, ◌++◌, ◌∷◌, [], ℕ, IfSome, List, OnOk, Some, true};
ghost use Rattle.vpf_triplet.specs.declared.kinds.Kind.TheVariants.{I};
ghost use Rattle.vpf_darts.specs.Darts.{edge_in, tile_dart_code, tile_in};
ghost use Rattle.vpf_table.specs.Grid.{Grid, Row};
ghost use Rattle.vpf_write.specs.Inner.Tallies.{Holds};
ghost use Rattle.vpf_write.specs.Writing.{Writes};
ghost use Rattle.vpf_prims.specs.Libraries.{library_of};
ghost use Rattle.vpf_wing.specs.Links.{links_of};
ghost use Rattle.vpf_follow.specs.Following.{is_home};
ghost use Rattle.vpf_renumbering.specs.Glued.{face_number, glued_edge};
ghost use Rattle.vpf_primitive_tables.specs.TableForms.Forms.{edge_kinds_of, head_like};
ghost use Rattle.vpf_glue.specs.GluedTables.Grids.{glued_edge_grid, glued_edge_row, row_in, whole_in};
ghost use Rattle.vpf_glue.specs.Inner.GluedTables.Numbers.{AreSmall, row_numbers};
ghost use Rattle.vpf_glue.specs.Inner.Sources.{FitsEdges, IsFaceThere, IsOfTile};

use crate::glued_tables::EdgeNumbers;
use crate::glued_tables::laws::rows_of_tiles_fit;
use crate::sources::{checked_of, edges_number_few, numbers_are_right, row_in_tile};
use std::alloc::{AllocError, Global};
use vpf_cross::Checked;
use vpf_darts::TileDart;
use vpf_findings::TableName;
use vpf_primitive_tables::table_forms::EdgeForm;
use vpf_renumbering::glued_edges::{GluedEdges, TileFace};
use vpf_renumbering::glued_faces::GluedFaces;
use vpf_table::RowView;
use vpf_write::revise::RevisedTable;
use vpf_write::{WriteError, Written};

/// The universe, in each tile and in the glued coverage.
const UNIVERSE: u32 = 1;

/// The row of the edge of a home dart, in the tile of the dart.
fn edge_row<'c, 'a>(checked: &Checked<'c, 'a>, dart: TileDart) -> RowView<'c, 'a>
    requires { is_home (links_of (library_of checked.now)) (tile_dart_code dart) ≡ true }
    ensures row { result ≡ row_in (λ T. T.edg) checked.now (tile_in (tile_dart_code dart)) (edge_in (tile_dart_code dart)) }
    ensures fits { (like : Grid) → IsOfTile (λ T. Some T.edg) checked.now like → FitsEdges like result }
{
    numbers_are_right(checked);
    rows_of_tiles_fit();
    row_in_tile(checked, dart.tile, TableName::Edg, dart.edge)
}

/// The number of a face of a tile, or of the universe.
fn face_number(faces: &GluedFaces<'_, '_, '_>, face: Option<TileFace>) -> u32
    requires { IfSome face (IsFaceThere (library_of faces.now)) }
    ensures number { result ≡ face_number (whole_in faces.now) face }
    ensures few { result < 2 ^ 25 }
{
    match face {
        Some(face) => faces.face_number(face.tile, face.id),
        None => UNIVERSE,
    }
}

/// The faces on the two sides of the edge of a `+` dart, the right one first.
fn sides(
    edges: &GluedEdges<'_, '_, '_>,
    faces: &GluedFaces<'_, '_, '_>,
    dart: TileDart,
) -> (u32, u32)
    requires home { is_home (links_of (library_of edges.now)) (tile_dart_code dart) ≡ true }
    requires same { faces.now ≡ edges.now }
    ensures right { result.0 ≡ face_number (whole_in edges.now) ((whole_in edges.now).face (tile_dart_code dart)) }
    ensures left { result.1 ≡ face_number (whole_in edges.now) ((whole_in edges.now).face ((whole_in edges.now).darts.flip (tile_dart_code dart))) }
    ensures right_few { result.0 < 2 ^ 25 }
    ensures left_few { result.1 < 2 ^ 25 }
{
    numbers_are_right(checked_of(edges));
    let (right, left) = edges.faces_of(dart);
    (face_number(faces, right), face_number(faces, left))
}

/// What the edge of a `+` dart names.
fn names_of(
    edges: &GluedEdges<'_, '_, '_>,
    faces: &GluedFaces<'_, '_, '_>,
    dart: TileDart,
) -> EdgeNumbers
    requires home { is_home (links_of (library_of edges.now)) (tile_dart_code dart) ≡ true }
    requires same { faces.now ≡ edges.now }
    ensures numbers { (k : ℕ) → result ≡ row_numbers (glued_edge (whole_in edges.now) k (tile_dart_code dart)) }
    ensures small { AreSmall result }
{
    edges_number_few(edges);
    let joins = edges.edge(dart);
    let (right_face, left_face) = sides(edges, faces, dart);
    EdgeNumbers {
        start_node: joins.start_node,
        end_node: joins.end_node,
        right_face,
        left_face,
        right_edge: joins.right_edge,
        left_edge: joins.left_edge,
    }
}

/// Appends the row of the edge of a `+` dart.
fn put_edge<'a>(
    form: &EdgeForm<'_, 'a>,
    edges: &GluedEdges<'_, '_, 'a>,
    faces: &GluedFaces<'_, '_, 'a>,
    number: u32,
    dart: TileDart,
    made: &mut RevisedTable<'_, '_, 'a>,
) -> Result<(), AllocError>
    requires ids { form.now.references ≡ I }
    requires like { IsOfTile (λ T. Some T.edg) edges.now form.now.table }
    requires same { faces.now ≡ edges.now }
    requires number { number < 2 ^ 31 }
    requires home { is_home (links_of (library_of edges.now)) (tile_dart_code dart) ≡ true }
    requires head { made.old.head ≡ head_like form.now.table (edge_kinds_of I) }
    ensures head { made.new.head ≡ made.old.head }
    ensures put { OnOk result ((rows : List Row) → Holds made.old rows → Holds made.new
        (rows ++ glued_edge_row form.now.table.head.columns edges.now number (tile_dart_code dart) ∷ [])) }
{
    let row = edge_row(checked_of(edges), dart);
    let cells = names_of(edges, faces, dart).cells();
    form.put(made, number, &row, &cells)
}

/// The table of edges: each by the row of its `+` dart in the tile of that, with its new numbers.
pub(crate) fn write_edges<'a>(
    alloc: Global,
    form: &EdgeForm<'_, 'a>,
    edges: &GluedEdges<'_, '_, 'a>,
    faces: &GluedFaces<'_, '_, 'a>,
) -> Result<Written, WriteError>
    requires ids { form.now.references ≡ I }
    requires like { IsOfTile (λ T. Some T.edg) edges.now form.now.table }
    requires same { faces.now ≡ edges.now }
    ensures { Writes (glued_edge_grid form.now.table edges.now) result }
{
    let mut made = form.begin(alloc)?;
    let darts = edges.edges();
    for (k, dart) in darts.iter().enumerate() {
        put_edge(form, edges, faces, k as u32 + 1, *dart, &mut made)?;
    }
    made.finish()
}
