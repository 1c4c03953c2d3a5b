//! The tables of the edges of tiles.

ghost use Rattle.std.specs.Prelude.{◌≡◌, length};
ghost use Rattle.vpf_triplet.specs.declared.kinds.Kind.TheVariants.{K};
ghost use Rattle.vpf_write.specs.Writing.{Writes};
ghost use Rattle.vpf_prims.specs.Primitives.{EdgePrimitive};
ghost use Rattle.vpf_cutting.specs.Inner.Cuts.{plan_by};
ghost use Rattle.vpf_cutting.specs.Inner.Rows.{HasSmallReferences, references_of};
ghost use Rattle.vpf_primitive_tables.specs.TableForms.Forms.{AreOfKind};
ghost use Rattle.vpf_primitive_tables.specs.Inner.TableForms.Models.{values_of_edge};
ghost use Rattle.vpf_primitive_tables.specs.TileTables.Grids.{edges_made, id_values};

use crate::table_forms::laws::own_rows_fit;
use crate::table_forms::{EdgeCells, EdgeForm, row_of};
use std::alloc::Global;
use vpf_cutting::{Cut, CutEdge};
use vpf_value::Cell;
use vpf_write::revise::laws::numbers_and_ids_fit;
use vpf_write::{WriteError, Written};

/// What an edge names in its tile, as cells.
fn id_cells<'a>(edge: &CutEdge) -> EdgeCells<'a>
    requires { HasSmallReferences edge.now }
    ensures values { (e : EdgePrimitive) → edge.now ≡ references_of e → values_of_edge result ≡ id_values e }
    ensures fits { AreOfKind K (values_of_edge result) }
{
    numbers_and_ids_fit();
    EdgeCells {
        start_node: Cell::Triplet(edge.start_node),
        end_node: Cell::Triplet(edge.end_node),
        right_face: Cell::Triplet(edge.right_face),
        left_face: Cell::Triplet(edge.left_face),
        right_edge: Cell::Triplet(edge.right_edge),
        left_edge: Cell::Triplet(edge.left_edge),
    }
}

/// The table of the edges of a tile.
pub(crate) fn write_edges(
    alloc: Global,
    form: &EdgeForm<'_, '_>,
    cut: &Cut<'_, '_>,
    tile: u32,
) -> Result<Written, WriteError>
    requires ids { form.now.references ≡ K }
    requires rows { length cut.now.source.edges ≡ length form.now.table.rows }
    ensures { Writes (edges_made form.now.table cut.now.source (plan_by cut.now.plan) tile) result }
{
    own_rows_fit();
    let mut made = form.begin(alloc)?;
    let edges = cut.edges_in(tile);
    for (k, edge) in edges.iter().enumerate() {
        let number = k as u32 + 1;
        let row = row_of(form.table(), *edge);
        let cells = id_cells(&cut.edge(tile, *edge));
        form.put(&mut made, number, &row, &cells)?;
    }
    made.finish()
}
