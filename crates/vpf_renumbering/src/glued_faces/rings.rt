//! The rings of a glued coverage.

ghost use Rattle.std.specs.Prelude.{◌≡◌, ◌+◌, ◌++◌, ◌<◌, ◌≤◌, ◌^◌, All, IfOk, OnOk, Some, length, map, true};
ghost use Rattle.vpf_cut_rings.specs.Inner.Rings.{KeepsRings, first_rings_of};
ghost use Rattle.vpf_tiling_laws.specs.Gluing.Glued.{glued_rings};
ghost use Rattle.vpf_tiling_laws.specs.Gluing.Whole.{whole_of};
ghost use Rattle.vpf_prims.specs.Coverages.{tile_at};
ghost use Rattle.vpf_prims.specs.Libraries.{library_of};
ghost use Rattle.vpf_prims.specs.Numbering.{IsRowOf};
ghost use Rattle.vpf_prims.specs.Primitives.{face_count};
ghost use Rattle.vpf_prims.specs.Reading.{primitives_of};
ghost use Rattle.vpf_renumbering.specs.Inner.GluedFaces.Faces.{IsJoined};
ghost use Rattle.vpf_renumbering.specs.Inner.GluedFaces.Rings.{HasHomeStart, ring_said, rings_said, rings_glued, rings_of_tile};

use crate::glued_faces::faces::GluedFaces;
use crate::glued_faces::joined::faces_are_joined;
use crate::glued_faces::starts::start_dart;
use crate::glued_faces::universe::universe_rings;
use std::alloc::{AllocError, Global};
use vpf_cut_rings::{CutRing, first_rings, rings_by_face};
use vpf_cutting::copies::Copies;
use vpf_darts::TileDart;
use vpf_prims::Tile;

/// A ring of a glued coverage, before it has its number.
#[derive(Clone, Copy, Debug, PartialEq, Eq)]
pub struct GluedRing {
    /// Its face, 1 for the universe.
    pub face: u32,
    /// The dart with which its walk starts: of the two darts of its start edge the one that has its face, in the tile where that is.
    pub start: TileDart,
}

/// The rings as they are taken to find the first of each face: by their faces and the edges of their tiles.
fn cut_rings(alloc: Global, rings: &[GluedRing]) -> Result<Vec<CutRing>, AllocError>
    ensures { IfOk result (λ cut. cut.items ≡ map (λ ring. record { face = ring.face; edge = ring.start.edge }) rings.now) }
{
    rings
        .iter()
        .map(|ring| CutRing {
            face: ring.face,
            edge: ring.start.edge,
        })
        .collect(alloc)
}

impl GluedFaces<'_, '_, '_> {
    /// Puts the rings of a face of a tile after others, in the order of the tile.
    fn push_face_rings(
        &self,
        tile: u32,
        tables: &Tile<'_>,
        by_face: &Copies,
        face: u32,
        rings: &mut Vec<GluedRing>,
    ) -> Result<(), AllocError>
        requires joined { IsJoined (library_of self.now) }
        requires tile { tile_at self.now tile ≡ Some tables.now }
        requires kept { KeepsRings (primitives_of tables.now.tables) by_face.now }
        requires row { IsRowOf (face_count (library_of self.now) tile) face }
        requires other { 2 ≤ face }
        requires home { All (HasHomeStart (library_of self.now)) rings.old.items }
        ensures rings { OnOk result (rings_glued (library_of self.now) rings.new.items
            ≡ rings_glued (library_of self.now) rings.old.items ++ rings_said (library_of self.now) tile face) }
        ensures home { OnOk result (All (HasHomeStart (library_of self.now)) rings.new.items) }
    {
        let number = self.face_number(tile, face);
        for ring in by_face.in_tile(face) {
            let (_, edge) = tables.ring(*ring);
            let start = start_dart(self.checked().coverage(), tile, edge, face);
            rings.push(GluedRing {
                face: number,
                start,
            })?;
        }
        Ok(())
    }

    /// Puts the rings of the faces of a tile, but those of the universe, after others. The rings of the tile are passed twice, and take memory
    /// for each.
    fn push_tile_rings(
        &self,
        alloc: Global,
        tile: u32,
        rings: &mut Vec<GluedRing>,
    ) -> Result<(), AllocError>
        requires joined { IsJoined (library_of self.now) }
        requires home { All (HasHomeStart (library_of self.now)) rings.old.items }
        ensures rings { OnOk result (rings_glued (library_of self.now) rings.new.items
            ≡ rings_glued (library_of self.now) rings.old.items ++ rings_of_tile (library_of self.now) tile) }
        ensures home { OnOk result (All (HasHomeStart (library_of self.now)) rings.new.items) }
    {
        let Some(tables) = self.checked().coverage().tile(tile) else {
            return Ok(());
        };
        let by_face = rings_by_face(alloc, tables)?;
        for k in 0..tables.faces().saturating_sub(1) {
            self.push_face_rings(tile, tables, &by_face, k + 2, rings)?;
        }
        Ok(())
    }

    /// The rings, by their faces: first one for each cycle of the map that has the universe for a face, by its least dart, and then those of each
    /// face in their order, each by the dart with which it starts in its tile (MIL-STD-2407, 5.2.2, rings). The tiles and their rings are
    /// passed once, and the map is walked once.
    pub fn rings(&self, alloc: Global) -> Result<Vec<GluedRing>, AllocError>
        ensures rings { IfOk result (λ rings. map (ring_said (whole_of (library_of self.now))) rings.items ≡ glued_rings (whole_of (library_of self.now))) }
        ensures home { IfOk result (λ rings. All (HasHomeStart (library_of self.now)) rings.items) }
        ensures few { IfOk result (λ rings. length rings.items < 2 ^ 26) }
    {
        let checked = self.checked();
        self.faces_have_few_edges();
        faces_are_joined(checked);
        let mut rings = universe_rings(alloc, checked)?;
        for tile in 0..=checked.coverage().tiles() {
            self.push_tile_rings(alloc, tile, &mut rings)?;
        }
        Ok(rings)
    }

    /// For each face, from 1, the number of its first ring among these, 0 where it has none (MIL-STD-2407, 5.2.2, faces). The rings are passed
    /// once.
    pub fn ring_ptrs(&self, alloc: Global, rings: &[GluedRing]) -> Result<Vec<u32>, AllocError>
        requires { length rings.now < 2 ^ 26 }
        ensures firsts { IfOk result (λ firsts. firsts.items ≡ first_rings_of (length (whole_of (library_of self.now)).faces + 1)
            (map (ring_said (whole_of (library_of self.now))) rings.now)) }
        ensures few { IfOk result (λ firsts. All (λ first. first < 2 ^ 26) firsts.items) }
    {
        let cut = cut_rings(alloc, rings)?;
        let firsts = first_rings(alloc, self.count(), &cut)?;
        Ok(firsts)
    }
}
