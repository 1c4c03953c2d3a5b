//! The table of the faces of a glued coverage.

ghost use Rattle.std.specs.Prelude.{◌≡◌, ◌+◌, ◌<◌, ◌^◌, [], All, Some, codes, length, slice_index_or};
ghost use Rattle.vpf_table.specs.Grid.{Grid};
ghost use Rattle.vpf_write.specs.Writing.{Writes};
ghost use Rattle.vpf_renumbering.specs.Glued.{glued_rings};
ghost use Rattle.vpf_primitive_tables.specs.Rings.{first_rings_of};
ghost use Rattle.vpf_glue.specs.GluedTables.Grids.{face_sources, glued_face_grid, whole_in};
ghost use Rattle.vpf_glue.specs.Inner.Sources.{FitsPairs, IsOfTile};

use crate::glued_tables::laws::rows_of_tiles_fit;
use crate::sources::{numbers_are_right, row_in_tile};
use std::alloc::Global;
use vpf_findings::TableName;
use vpf_primitive_tables::table_forms::{PairForm, row_of};
use vpf_renumbering::glued_faces::GluedFaces;
use vpf_table::{RowView, TableView};
use vpf_write::{WriteError, Written};

/// The row of the universe, in a tile's table.
fn universe_row<'t, 'a>(like: &'t TableView<'a>, faces: &GluedFaces<'_, '_, 'a>) -> RowView<'t, 'a>
    requires { IsOfTile (λ T. Some T.fac) faces.now like.now }
    ensures row { result ≡ slice_index_or (face_sources like.now faces.now) 0 [] }
    ensures fits { FitsPairs (codes "ring_ptr") like.now result }
{
    numbers_are_right(faces.checked());
    rows_of_tiles_fit();
    row_of(like, 1)
}

/// The row of another face in its tile, by its place among them, from 0.
fn other_row<'c, 'a>(
    like: &TableView<'a>,
    faces: &GluedFaces<'_, 'c, 'a>,
    place: u32,
) -> RowView<'c, 'a>
    requires like { IsOfTile (λ T. Some T.fac) faces.now like.now }
    requires row { place < length (whole_in faces.now).faces }
    ensures row { result ≡ slice_index_or (face_sources like.now faces.now) (place + 1) [] }
    ensures fits { FitsPairs (codes "ring_ptr") like.now result }
{
    numbers_are_right(faces.checked());
    rows_of_tiles_fit();
    let face = faces.face_at(place);
    row_in_tile(faces.checked(), face.tile, TableName::Fac, face.face)
}

/// The row that face `k` + 1 is written from.
fn face_row<'c, 'a>(
    like: &'c TableView<'a>,
    faces: &GluedFaces<'_, 'c, 'a>,
    k: u32,
) -> RowView<'c, 'a>
    requires like { IsOfTile (λ T. Some T.fac) faces.now like.now }
    requires row { k < length (whole_in faces.now).faces + 1 }
    ensures row { result ≡ slice_index_or (face_sources like.now faces.now) k [] }
    ensures fits { FitsPairs (codes "ring_ptr") like.now result }
{
    if k == 0 {
        universe_row(like, faces)
    } else {
        other_row(like, faces, k - 1)
    }
}

/// The table of faces: the universe, and the others by tile and number, each with the number of its first ring.
pub(crate) fn write_faces<'c, 'a>(
    alloc: Global,
    form: &PairForm<'c, 'a>,
    faces: &GluedFaces<'_, 'c, 'a>,
    ring_ptrs: &[u32],
) -> Result<Written, WriteError>
    requires name { form.now.name ≡ codes "ring_ptr" }
    requires like { IsOfTile (λ T. Some T.fac) faces.now form.now.table }
    requires ring_ptrs { ring_ptrs.now ≡ first_rings_of (length (whole_in faces.now).faces + 1) (glued_rings (whole_in faces.now)) }
    requires each { length ring_ptrs.now ≡ length (whole_in faces.now).faces + 1 }
    requires small { All (λ first. first < 2 ^ 26) ring_ptrs.now }
    ensures { Writes (glued_face_grid form.now.table faces.now) result }
{
    // What is so of the faces of each glued coverage: they are few.
    let _count = faces.count();
    let mut made = form.begin(alloc)?;
    for (k, ring_ptr) in ring_ptrs.iter().enumerate() {
        let row = face_row(form.table(), faces, k as u32);
        form.put(&mut made, k as u32 + 1, &row, *ring_ptr)?;
    }
    made.finish()
}
