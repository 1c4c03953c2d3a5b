//! The table of the rings of a glued coverage.

ghost use Rattle.std.specs.Prelude.{◌≡◌, ◌<◌, ◌^◌, All, length, map};
ghost use Rattle.vpf_prims.specs.Libraries.{library_of};
ghost use Rattle.vpf_write.specs.Writing.{Writes};
ghost use Rattle.vpf_renumbering.specs.Glued.{glued_rings};
ghost use Rattle.vpf_renumbering.specs.Inner.GluedFaces.Rings.{HasHomeStart, ring_said};
ghost use Rattle.vpf_glue.specs.GluedTables.Grids.{glued_ring_grid, whole_in};

use crate::sources::edges_number_few;
use std::alloc::Global;
use vpf_primitive_tables::table_forms::RingForm;
use vpf_renumbering::glued_edges::GluedEdges;
use vpf_renumbering::glued_faces::GluedRing;
use vpf_write::{WriteError, Written};

/// The table of rings, which are given in their order.
pub(crate) fn write_rings(
    alloc: Global,
    form: &RingForm<'_, '_>,
    edges: &GluedEdges<'_, '_, '_>,
    rings: &[GluedRing],
) -> Result<Written, WriteError>
    requires rings { map (ring_said (whole_in edges.now)) rings.now ≡ glued_rings (whole_in edges.now) }
    requires home { All (HasHomeStart (library_of edges.now)) rings.now }
    requires few { length rings.now < 2 ^ 26 }
    ensures { Writes (glued_ring_grid form.now edges.now) result }
{
    edges_number_few(edges);
    let mut made = form.begin(alloc)?;
    for (k, ring) in rings.iter().enumerate() {
        let edge = edges.edge_number(ring.start);
        made.put(k as u32 + 1, ring.face, edge)?;
    }
    made.finish()
}
