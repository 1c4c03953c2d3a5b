//! The cells of the rows of a tile that name other primitives.

ghost use Rattle.std.specs.Prelude.{◌≡◌, ℕ, ◌+◌, ◌<◌, ◌^◌, true, length};
ghost use Rattle.vpf_cutting.specs.Inner.Cuts.{plan_by};
ghost use Rattle.vpf_cutting.specs.Inner.Onward.{IsOnward};
ghost use Rattle.vpf_cutting.specs.Inner.Rows.{HasSmallReferences, references_of};
ghost use Rattle.vpf_darts.specs.Darts.{dart_code};
ghost use Rattle.vpf_prims.specs.Numbering.{IsRowOf};
ghost use Rattle.vpf_prims.specs.Primitives.{cross};
ghost use Rattle.vpf_prims.specs.References.{plain};
ghost use Rattle.vpf_tiling.specs.Presence.{containing_face, has_edge, holds_entity, is_present, local_edge, local_face};
ghost use Rattle.vpf_triplet.specs.Canonical.{HasSmallParts};
ghost use Rattle.vpf_tiling.specs.Tiles.{tiled_edge, tiled_face, tiled_node, tiled_wing};

use crate::cut::Cut;
use vpf_darts::laws::first_kept_dart;
use vpf_darts::{Dart, flip};
use vpf_triplet::Triplet;
use vpf_wing::laws::well_formed_has_map;

/// What a row of edges of a tile names: its nodes and wings, which go on in another tile where the next dart has its home there, and its
/// faces, of which those of other tiles are named with their tiles (MIL-STD-2407, 5.2.3, cross-tile topology).
#[derive(Clone, Copy, Debug, PartialEq, Eq)]
pub struct CutEdge {
    /// The node where it begins.
    pub start_node: Triplet,
    /// The node where it ends.
    pub end_node: Triplet,
    /// The face on its right.
    pub right_face: Triplet,
    /// The face on its left.
    pub left_face: Triplet,
    /// The wing about its end node: the edge that follows it round its right face.
    pub right_edge: Triplet,
    /// The wing about its start node: the edge that follows it, run back, round its left face.
    pub left_edge: Triplet,
}

/// A reference within a tile.
fn plain(id: u32) -> Triplet
    requires { id < 2 ^ 31 }
    ensures value { result ≡ plain id }
    ensures small { HasSmallParts result }
{
    Triplet {
        id: Some(id),
        tile: None,
        ext: None,
    }
}

/// A reference that goes on in another tile, and its number there.
fn cross(id: u32, tile: u32, ext: u32) -> Triplet
    requires id { id < 2 ^ 31 }
    requires tile { tile < 2 ^ 31 }
    requires ext { ext < 2 ^ 31 }
    ensures value { result ≡ cross id tile ext }
    ensures small { HasSmallParts result }
{
    Triplet {
        id: Some(id),
        tile: Some(tile),
        ext: Some(ext),
    }
}

/// How a boundary goes on behind a dart: the next dart round its face, and the home tile of that one.
#[derive(Clone, Copy)]
pub(crate) struct Onward {
    pub(crate) next: Dart,
    pub(crate) home: u32,
}

impl<'c, 'a> Cut<'c, 'a> {
    /// How the boundary goes on behind a dart.
    fn onward(&self, dart: Dart) -> Onward
        requires { IsRowOf (length self.now.source.edges) dart.edge }
        ensures { IsOnward self.now.source (plan_by self.now.plan) (dart_code dart) result }
    {
        let next = self.next(dart);
        let home = self.home(next);
        Onward { next, home }
    }

    /// The head node of a dart in a tile, with its number in the home of the next dart.
    fn node_cell(&self, tile: u32, dart: Dart, onward: Onward) -> Triplet
        requires present { is_present self.now.source (plan_by self.now.plan) tile (dart_code dart) ≡ true }
        requires onward { IsOnward self.now.source (plan_by self.now.plan) (dart_code dart) onward }
        ensures value { result ≡ tiled_node self.now.source (plan_by self.now.plan) tile (dart_code dart) }
        ensures small { HasSmallParts result }
    {
        self.plan_holds();
        let node = self.head(dart);
        let here = self.local_node(tile, node);
        if onward.home == tile {
            return plain(here);
        }
        let there = self.local_node(onward.home, node);
        cross(here, onward.home, there)
    }

    /// The wing of a dart in a tile: the next edge there, with the edge of the next dart in its home.
    fn wing_cell(&self, tile: u32, dart: Dart, onward: Onward) -> Triplet
        requires present { is_present self.now.source (plan_by self.now.plan) tile (dart_code dart) ≡ true }
        requires onward { IsOnward self.now.source (plan_by self.now.plan) (dart_code dart) onward }
        ensures value { result ≡ tiled_wing self.now.source (plan_by self.now.plan) tile (dart_code dart) }
        ensures small { HasSmallParts result }
    {
        self.plan_holds();
        // A next dart that has its home here is the next one here.
        if onward.home == tile {
            well_formed_has_map();
            first_kept_dart();
            return plain(self.local_edge(tile, onward.next.edge));
        }
        let first = self.next_in(tile, dart);
        let here = self.local_edge(tile, first.edge);
        let there = self.local_edge(onward.home, onward.next.edge);
        cross(here, onward.home, there)
    }

    /// A face in a tile: its number there, or 1 with its own tile and its number there, or 1 alone for the universe.
    fn face_cell(&self, tile: u32, face: u32) -> Triplet
        requires { IsRowOf (length self.now.source.faces) face }
        ensures value { result ≡ tiled_face self.now.source (plan_by self.now.plan) tile face }
        ensures small { HasSmallParts result }
    {
        self.plan_holds();
        if face == 1 {
            return plain(1);
        }
        let own = self.tile_of_face(face);
        let number = self.local_face(own, face);
        if own == tile {
            plain(number)
        } else {
            cross(1, own, number)
        }
    }

    /// What the row of an edge that is in a tile names there.
    pub fn edge(&self, tile: u32, edge: u32) -> CutEdge
        requires { has_edge self.now.source (plan_by self.now.plan) tile edge ≡ true }
        ensures value { (k : ℕ) → result ≡ references_of (tiled_edge self.now.source (plan_by self.now.plan) tile k edge) }
        ensures small { HasSmallReferences result }
    {
        let plus = Dart { edge, minus: false };
        let minus = flip(plus);
        let behind_plus = self.onward(plus);
        let behind_minus = self.onward(minus);
        let start_node = self.node_cell(tile, minus, behind_minus);
        let end_node = self.node_cell(tile, plus, behind_plus);
        let right = self.face(plus);
        let left = self.face(minus);
        CutEdge {
            start_node,
            end_node,
            right_face: self.face_cell(tile, right),
            left_face: self.face_cell(tile, left),
            right_edge: self.wing_cell(tile, plus, behind_plus),
            left_edge: self.wing_cell(tile, minus, behind_minus),
        }
    }

    /// The face that an entity node of a tile lies in, by its number there.
    pub fn entity(&self, tile: u32, entity: u32) -> u32
        requires { holds_entity self.now.source (plan_by self.now.plan) tile entity ≡ true }
        ensures value { result ≡ local_face self.now.source (plan_by self.now.plan) tile (containing_face self.now.source entity) }
        ensures few { result < 2 ^ 24 + 1 }
    {
        let source = self.source();
        let face = source.containing_face(entity);
        self.local_face(tile, face)
    }
}
