//! The faces of a glued coverage, and their numbers.

use crate::glued_faces::counting::counts;
use crate::glued_faces::joined::faces_are_joined;
use std::alloc::{AllocError, Global};
use std::marker::Model;
use vpf_cross::Checked;

/// The universe: face 1 of each tile, and of the glued coverage.
const UNIVERSE: u32 = 1;

/// A face of a tile, by the tile and its number there. Contracts see it as both.
#[derive(Clone, Copy, Debug, PartialEq, Eq)]
pub struct FacePlace {
    /// The tile, from 1; 0 where the coverage isn't tiled.
    pub tile: u32,
    /// The face's number there, from 2: it isn't the universe.
    pub face: u32,
}

impl Model for FacePlace {
    ghost use Rattle.vpf_wing.specs.Links.{Beyond};

    ghost Value = { Beyond };

    ghost view = { λ p. record { tile = p.tile; id = p.face } };

    ghost inverse = { λ p. record { tile = p.tile; face = p.id } };
}

/// The faces of the coverage that a checked coverage is glued to: the universe, and after it the other faces of all tiles, by tile and by number
/// in the tile (MIL-STD-2407, 5.2.3, tiled coverages). It keeps a number for each tile. Contracts see it as the tables of the
/// coverage.
#[derive(Drop)]
pub struct GluedFaces<'w, 'c, 'a> {
    checked: &'w Checked<'c, 'a>,
    counts: Vec<u32>,
}

impl<'w, 'c, 'a> Model for GluedFaces<'w, 'c, 'a> {
    ghost use Rattle.vpf_prims.specs.Coverages.{CoverageTables};
    ghost use Rattle.vpf_renumbering.specs.Inner.GluedFaces.Faces.{AreFaceCounts};

    ghost Value = { CoverageTables };

    ghost view = { λ f. f.checked.now };

    ghost invariant = { λ f. AreFaceCounts f.checked.now f.counts.items };
}

impl<'w, 'c, 'a> GluedFaces<'w, 'c, 'a> {
    ghost use Rattle.std.specs.Prelude.{◌≡◌, ◌+◌, ◌<◌, ◌≤◌, ◌^◌, IfOk, length, map, slice_index_or};
    ghost use Rattle.vpf_base.specs.Limits.{most_rows};
    ghost use Rattle.vpf_tiling_laws.specs.Gluing.Glued.{face_number, plus_darts};
    ghost use Rattle.vpf_tiling_laws.specs.Gluing.Whole.{face_here, whole_of};
    ghost use Rattle.vpf_prims.specs.Libraries.{library_of};
    ghost use Rattle.vpf_prims.specs.Numbering.{IsRowOf};
    ghost use Rattle.vpf_prims.specs.Primitives.{face_count, tile_entities};
    ghost use Rattle.vpf_renumbering.specs.Inner.GluedFaces.Faces.{entity_face, nowhere};

    /// The faces of a coverage that has no more edges than a table can have rows. The tiles are passed once.
    pub fn new(
        alloc: Global,
        checked: &'w Checked<'c, 'a>,
    ) -> Result<GluedFaces<'w, 'c, 'a>, AllocError>
        requires { length (plus_darts (whole_of (library_of checked.now))) ≤ most_rows }
        ensures { IfOk result (λ faces. faces ≡ checked.now) }
    {
        faces_are_joined(checked);
        let counts = counts(alloc, checked.coverage())?;
        Ok(GluedFaces { checked, counts })
    }

    /// The coverage.
    pub fn checked(&self) -> &'w Checked<'c, 'a>
        ensures { result.now ≡ self.now }
    {
        self.checked
    }

    /// What is so of each: the coverage has no more edges than a table can have rows.
    pub fn faces_have_few_edges(&self)
        ensures { length (plus_darts (whole_of (library_of self.now))) ≤ most_rows }
    {
        let _checked = self.checked;
    }

    /// How many faces there are, the universe included: the rows of the table of faces.
    pub fn count(&self) -> u32
        ensures value { result ≡ length (whole_of (library_of self.now)).faces + 1 }
        ensures few { result < 2 ^ 25 }
    {
        self.counts[self.counts.len() - 1] + 1
    }

    /// The number of a face of a tile: 1 for the universe, which is face 1 of each tile; the others come after those of the tiles before.
    pub fn face_number(&self, tile: u32, face: u32) -> u32
        requires { IsRowOf (face_count (library_of self.now) tile) face }
        ensures number { result ≡ face_number (whole_of (library_of self.now)) (face_here tile face) }
        ensures row { IsRowOf (length (whole_of (library_of self.now)).faces + 1) result }
        ensures few { result < 2 ^ 25 }
    {
        if face == UNIVERSE {
            return UNIVERSE;
        }
        self.counts[tile as usize] + face
    }

    /// The face, other than the universe, that stands at a place among all of them by tile and number, from 0: where the row of face `place` + 2
    /// comes from. A binary search over the tiles.
    pub fn face_at(&self, place: u32) -> FacePlace
        requires { place < length (whole_of (library_of self.now)).faces }
        ensures face { result ≡ slice_index_or (map (λ f. f.at) (whole_of (library_of self.now)).faces) place nowhere }
        ensures row { IsRowOf (face_count (library_of self.now) result.tile) result.id }
        ensures other { 2 ≤ result.id }
    {
        let _last = self.checked.coverage().tiles();
        let tile = self.counts.partition_point(|count| *count <= place) - 1;
        FacePlace {
            tile: tile as u32,
            face: place - self.counts[tile] + 2,
        }
    }

    /// The number of the face that an entity node of a tile lies in (MIL-STD-2407, 5.2.2, entity nodes).
    pub fn containing_face(&self, tile: u32, node: u32) -> u32
        requires { IsRowOf (length (tile_entities (library_of self.now) tile)) node }
        ensures number { result ≡ face_number (whole_of (library_of self.now)) (entity_face (library_of self.now) tile node) }
        ensures row { IsRowOf (length (whole_of (library_of self.now)).faces + 1) result }
        ensures few { result < 2 ^ 25 }
    {
        match self.checked.coverage().tile(tile) {
            Some(tables) => {
                tables.names_its_own();
                self.face_number(tile, tables.containing_face(node))
            }
            None => unreachable!(),
        }
    }
}
