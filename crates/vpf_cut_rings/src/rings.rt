//! The rings of the tiles of a coverage that is cut.

ghost use Rattle.std.specs.Prelude.{◌≡◌, ◌++◌, ◌<◌, ◌^◌, All, IfOk, OnOk, length, map, true};
ghost use Rattle.vpf_cut_rings.specs.Inner.Rings.{HasSmallNumbers, KeepsRings, ring_faces, ring_of};
ghost use Rattle.vpf_cutting.specs.Inner.Cuts.{plan_by};
ghost use Rattle.vpf_prims.specs.Reading.{primitives_of};
ghost use Rattle.vpf_tiling.specs.Presence.{holds_face};
ghost use Rattle.vpf_tiling.specs.Tiles.{face_rings, tiled_rings};

use crate::outer::outer_rings;
use std::alloc::{AllocError, Global};
use std::marker::Model;
use vpf_cutting::Cut;
use vpf_cutting::copies::Copies;
use vpf_prims::Tile;

/// A ring of a tile, by the tile's own numbers.
#[derive(Clone, Copy, Debug, PartialEq, Eq)]
pub struct CutRing {
    /// Its face, 1 for what is outside the faces of the tile.
    pub face: u32,
    /// The edge where its walk starts.
    pub edge: u32,
}

/// The rings of the tiles of a coverage that is cut by a plan (MIL-STD-2407, 5.2.2, rings): for all tiles it keeps which rings are of which
/// faces. Contracts see the cut.
#[derive(Drop)]
pub struct CutRings<'w, 'c, 'a> {
    cut: &'w Cut<'c, 'a>,
    by_face: Copies,
}

impl<'w, 'c, 'a> Model for CutRings<'w, 'c, 'a> {
    ghost use Rattle.vpf_cut_rings.specs.Inner.Rings.{KeepsRings};
    ghost use Rattle.vpf_cutting.specs.Inner.Cuts.{Cutting};

    ghost Value = { Cutting };

    ghost view = { λ r. r.cut.now };

    ghost invariant = { λ r. KeepsRings r.cut.now.source r.by_face };
}

/// The faces of the rings of a coverage, ring by ring.
fn ring_faces(alloc: Global, source: &Tile<'_>) -> Result<Vec<u32>, AllocError>
    ensures faces { IfOk result (λ faces. faces.items ≡ ring_faces (primitives_of source.now.tables)) }
    ensures few { IfOk result (λ faces. length faces.items < 2 ^ 24) }
{
    let mut faces = Vec::with_capacity(alloc, source.rings() as usize)?;
    for k in 0..source.rings() {
        faces.push(source.ring(k + 1).0)?;
    }
    Ok(faces)
}

/// Which rings of a coverage, or of a tile, are of which faces: as items that are in faces in place of tiles. The rings are passed once, and
/// take memory for each.
pub fn rings_by_face(alloc: Global, source: &Tile<'_>) -> Result<Copies, AllocError>
    ensures { IfOk result (λ rings. KeepsRings (primitives_of source.now.tables) rings) }
{
    source.names_its_own();
    let faces = ring_faces(alloc, source)?;
    Copies::of_places(alloc, source.faces(), &faces)
}

impl<'w, 'c, 'a> CutRings<'w, 'c, 'a> {
    /// The rings of a coverage that is cut. Its rings are passed once, and take memory for each.
    pub fn new(alloc: Global, cut: &'w Cut<'c, 'a>) -> Result<CutRings<'w, 'c, 'a>, AllocError>
        ensures { IfOk result (λ rings. rings ≡ cut.now) }
    {
        let by_face = rings_by_face(alloc, cut.source())?;
        Ok(CutRings { cut, by_face })
    }

    /// Puts the rings of a face of a tile after others, in the order of the coverage.
    fn push_face_rings(
        &self,
        tile: u32,
        face: u32,
        rings: &mut Vec<CutRing>,
    ) -> Result<(), AllocError>
        requires holds { holds_face self.now.source (plan_by self.now.plan) tile face ≡ true }
        requires small { All HasSmallNumbers rings.old.items }
        ensures rings { OnOk result (map ring_of rings.new.items
            ≡ map ring_of rings.old.items ++ face_rings self.now.source (plan_by self.now.plan) tile face) }
        ensures small { OnOk result (All HasSmallNumbers rings.new.items) }
    {
        self.cut.plan_holds();
        let number = self.cut.local_face(tile, face);
        for ring in self.by_face.in_tile(face) {
            let (_, start) = self.cut.source().ring(*ring);
            let edge = self.cut.local_edge(tile, start);
            rings.push(CutRing { face: number, edge })?;
        }
        Ok(())
    }

    /// The rings of a tile, by their faces there: first one for each cycle that has no face of the tile, by its least dart, and then those of
    /// each face of the tile, which start where they do in the coverage. The darts of the tile are passed once.
    pub fn of_tile(&self, alloc: Global, tile: u32) -> Result<Vec<CutRing>, AllocError>
        ensures rings { IfOk result (λ rings. map ring_of rings.items ≡ tiled_rings self.now.source (plan_by self.now.plan) tile) }
        ensures few { IfOk result (λ rings. length rings.items < 2 ^ 26) }
        ensures small { IfOk result (λ rings. All HasSmallNumbers rings.items) }
    {
        self.cut.plan_holds();
        let _few = self.cut.source().rings();
        let mut rings = outer_rings(alloc, self.cut, tile)?;
        for face in self.cut.faces_in(tile) {
            self.push_face_rings(tile, *face, &mut rings)?;
        }
        Ok(rings)
    }
}
