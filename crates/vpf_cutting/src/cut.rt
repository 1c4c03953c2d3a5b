//! A coverage that is cut into tiles.

ghost use Rattle.std.specs.Prelude.{◌≡◌, ◌<◌, ◌≤◌, ◌+◌, ◌^◌, All, IfOk, Some, length, true};
ghost use Rattle.vpf_cutting.specs.Inner.Copies.Presence.{is_one_of};
ghost use Rattle.vpf_cutting.specs.Inner.Cuts.{IsPlanned, cutting_of, plan_by};
ghost use Rattle.vpf_darts.specs.Darts.{dart_code};
ghost use Rattle.vpf_prims.specs.Numbering.{IsRowOf};
ghost use Rattle.vpf_prims.specs.Primitives.{entities_in};
ghost use Rattle.vpf_prims.specs.Reading.{primitives_of};
ghost use Rattle.vpf_tiling.specs.Presence.{face_of, has_edge, has_node, head_of, held_entities, held_faces, holds_entity, holds_face};
ghost use Rattle.vpf_tiling.specs.Presence.{home, is_present, local_edge, local_face, local_node, next_of, present_edges, present_nodes};
ghost use Rattle.vpf_tiling.specs.Tiles.{is_made};

use crate::copies::Copies;
use crate::placing::{
    edges_in_tiles, entities_in_tiles, faces_in_tiles, nodes_in_tiles, tile_of_face,
};
use std::alloc::{AllocError, Global};
use std::marker::Model;
use vpf_darts::{Dart, flip};
use vpf_prims::{Tile, id_of};
use vpf_tiling::laws::local_numbers_count;
use vpf_wing::next_local;

/// An untiled coverage that is cut into tiles by a plan: which of its edges, nodes, faces and entity nodes are in which tile, and their
/// numbers there (MIL-STD-2407, 5.2.3, tiled coverages). Numbers of primitives and of tiles count from 1. Contracts see the coverage, the
/// list of the tiles of its faces, and how many tiles there are.
#[derive(Drop)]
pub struct Cut<'c, 'a> {
    tile: &'c Tile<'a>,
    plan: Vec<u32>,
    edges: Copies,
    nodes: Copies,
    faces: Copies,
    entities: Copies,
}

impl<'c, 'a> Model for Cut<'c, 'a> {
    ghost use Rattle.vpf_cutting.specs.Inner.Cuts.{Cutting, KeepsCut, cutting_of};

    ghost Value = { Cutting };

    ghost view = { λ c. cutting_of c.tile.now c.plan.items c.edges.tiles };

    ghost invariant = { λ c. KeepsCut (cutting_of c.tile.now c.plan.items c.edges.tiles) c.edges c.nodes c.faces c.entities };
}

/// The face of a dart: the right face of `e+`, the left face of `e-`.
fn face_of_dart(tile: &Tile<'_>, dart: Dart) -> u32
    requires { IsRowOf (length (primitives_of tile.now.tables).edges) dart.edge }
    ensures { result ≡ face_of (primitives_of tile.now.tables) (dart_code dart) }
{
    let row = tile.edge(dart.edge);
    if dart.minus {
        id_of(row.left_face)
    } else {
        id_of(row.right_face)
    }
}

/// The node where a dart ends: the end node of `e+`, the start node of `e-`.
fn head_of_dart(tile: &Tile<'_>, dart: Dart) -> u32
    requires { IsRowOf (length (primitives_of tile.now.tables).edges) dart.edge }
    ensures { result ≡ head_of (primitives_of tile.now.tables) (dart_code dart) }
{
    let row = tile.edge(dart.edge);
    if dart.minus {
        id_of(row.start_node)
    } else {
        id_of(row.end_node)
    }
}

/// Whether a number is one of these.
fn is_one_of(numbers: &[u32], number: u32) -> bool
    ensures { result ≡ is_one_of numbers.now number }
{
    numbers.iter().any(|other| *other == number)
}

impl<'c, 'a> Cut<'c, 'a> {
    /// A coverage that is cut by a plan into so many tiles. `plan` has the tile of each face, from face 1 on; face 1, the universe, has none,
    /// which is 0. Takes memory for each copy of a primitive in a tile, and passes the rows of edges twice.
    pub fn new(
        alloc: Global,
        tile: &'c Tile<'a>,
        plan: Vec<u32>,
        tiles: u32,
    ) -> Result<Cut<'c, 'a>, AllocError>
        requires { IsPlanned (cutting_of tile.now plan.items tiles) }
        ensures { IfOk result (λ cut. cut ≡ cutting_of tile.now plan.items tiles) }
    {
        let list: &[u32] = &plan;
        let edges = edges_in_tiles(alloc, tile, list, tiles)?;
        let nodes = nodes_in_tiles(alloc, tile, &edges)?;
        let faces = faces_in_tiles(alloc, tile, list, tiles)?;
        let entities = entities_in_tiles(alloc, tile, list, tiles)?;
        Ok(Cut {
            tile,
            plan,
            edges,
            nodes,
            faces,
            entities,
        })
    }

    /// What is so of each cut: its plan is one by which the coverage may be tiled.
    pub fn plan_holds(&self)
        ensures { IsPlanned self.now }
    {
        let _tile = self.tile;
    }

    /// The untiled coverage.
    pub fn source(&self) -> &'c Tile<'a>
        ensures { primitives_of result.now.tables ≡ self.now.source }
    {
        self.tile
    }

    /// How many tiles there are, with primitives or without.
    pub fn tiles(&self) -> u32
        ensures value { result ≡ self.now.tiles }
        ensures few { result < 2 ^ 31 }
    {
        self.edges.tiles()
    }

    /// Whether a tile has tables: where it holds a face, and the first in any case.
    pub fn is_made(&self, tile: u32) -> bool
        ensures { result ≡ is_made self.now.source (plan_by self.now.plan) self.now.tiles tile }
    {
        1 <= tile && tile <= self.tiles() && (tile == 1 || !self.faces_in(tile).is_empty())
    }

    /// The edges of a tile, which have a face there, rising.
    pub fn edges_in(&self, tile: u32) -> &[u32]
        ensures edges { result.now ≡ present_edges self.now.source (plan_by self.now.plan) tile }
        ensures each { All (λ edge. has_edge self.now.source (plan_by self.now.plan) tile edge ≡ true) result.now }
        ensures rows { All (IsRowOf (length self.now.source.edges)) result.now }
        ensures few { length result.now < 2 ^ 24 }
    {
        self.edges.in_tile(tile)
    }

    /// The nodes of a tile, which have an edge there, rising.
    pub fn nodes_in(&self, tile: u32) -> &[u32]
        ensures nodes { result.now ≡ present_nodes self.now.source (plan_by self.now.plan) tile }
        ensures each { All (λ node. has_node self.now.source (plan_by self.now.plan) tile node ≡ true) result.now }
        ensures rows { All (IsRowOf (length self.now.source.nodes)) result.now }
        ensures few { length result.now < 2 ^ 24 }
    {
        self.nodes.in_tile(tile)
    }

    /// The faces of a tile, rising, without the universe.
    pub fn faces_in(&self, tile: u32) -> &[u32]
        ensures faces { result.now ≡ held_faces self.now.source (plan_by self.now.plan) tile }
        ensures each { All (λ face. holds_face self.now.source (plan_by self.now.plan) tile face ≡ true) result.now }
        ensures rows { All (IsRowOf (length self.now.source.faces)) result.now }
        ensures few { length result.now < 2 ^ 24 }
    {
        self.faces.in_tile(tile)
    }

    /// The entity nodes of a tile, which lie in a face there, rising.
    pub fn entities_in(&self, tile: u32) -> &[u32]
        ensures entities { result.now ≡ held_entities self.now.source (plan_by self.now.plan) tile }
        ensures each { All (λ entity. holds_entity self.now.source (plan_by self.now.plan) tile entity ≡ true) result.now }
        ensures rows { All (IsRowOf (length (entities_in (Some self.now.source)))) result.now }
        ensures few { length result.now < 2 ^ 24 }
    {
        self.entities.in_tile(tile)
    }

    /// Whether an edge is in a tile.
    pub fn has_edge(&self, tile: u32, edge: u32) -> bool
        ensures { result ≡ has_edge self.now.source (plan_by self.now.plan) tile edge }
    {
        is_one_of(self.edges.tiles_of(edge), tile)
    }

    /// The number of an edge in a tile where it is: its rank among the edges there, from 1.
    pub fn local_edge(&self, tile: u32, edge: u32) -> u32
        requires { has_edge self.now.source (plan_by self.now.plan) tile edge ≡ true }
        ensures number { result ≡ local_edge self.now.source (plan_by self.now.plan) tile edge }
        ensures some { 1 ≤ result }
        ensures few { result < 2 ^ 24 }
    {
        local_numbers_count();
        match self.edges.local(tile, edge) {
            Some(number) => number,
            None => unreachable!(),
        }
    }

    /// The number of a node in a tile where it is: its rank among the nodes there, from 1.
    pub fn local_node(&self, tile: u32, node: u32) -> u32
        requires { has_node self.now.source (plan_by self.now.plan) tile node ≡ true }
        ensures number { result ≡ local_node self.now.source (plan_by self.now.plan) tile node }
        ensures some { 1 ≤ result }
        ensures few { result < 2 ^ 24 }
    {
        local_numbers_count();
        match self.nodes.local(tile, node) {
            Some(number) => number,
            None => unreachable!(),
        }
    }

    /// The number of a face in its tile: its rank among the faces there, from 2, since the universe is 1.
    pub fn local_face(&self, tile: u32, face: u32) -> u32
        requires { holds_face self.now.source (plan_by self.now.plan) tile face ≡ true }
        ensures number { result ≡ local_face self.now.source (plan_by self.now.plan) tile face }
        ensures some { 2 ≤ result }
        ensures few { result < 2 ^ 24 + 1 }
    {
        local_numbers_count();
        match self.faces.local(tile, face) {
            Some(number) => number + 1,
            None => unreachable!(),
        }
    }

    /// The tile of a face: 0 for the universe.
    pub fn tile_of_face(&self, face: u32) -> u32
        requires { IsRowOf (length self.now.source.faces) face }
        ensures { result ≡ plan_by self.now.plan face }
    {
        tile_of_face(&self.plan, face)
    }

    /// The face of a dart: the right face of `e+`, the left face of `e-`.
    pub fn face(&self, dart: Dart) -> u32
        requires { IsRowOf (length self.now.source.edges) dart.edge }
        ensures value { result ≡ face_of self.now.source (dart_code dart) }
        ensures row { IsRowOf (length self.now.source.faces) result }
    {
        face_of_dart(self.tile, dart)
    }

    /// The node where a dart ends: the end node of `e+`, the start node of `e-`.
    pub fn head(&self, dart: Dart) -> u32
        requires { IsRowOf (length self.now.source.edges) dart.edge }
        ensures { result ≡ head_of self.now.source (dart_code dart) }
    {
        head_of_dart(self.tile, dart)
    }

    /// The home tile of a dart: that of its face, or of the face on the other side where its own is the universe. It is there.
    pub fn home(&self, dart: Dart) -> u32
        requires { IsRowOf (length self.now.source.edges) dart.edge }
        ensures value { result ≡ home self.now.source (plan_by self.now.plan) (dart_code dart) }
        ensures there { is_present self.now.source (plan_by self.now.plan) result (dart_code dart) ≡ true }
        ensures few { result < 2 ^ 31 }
    {
        self.plan_holds();
        let face = self.face(dart);
        if face == 1 {
            self.tile_of_face(self.face(flip(dart)))
        } else {
            self.tile_of_face(face)
        }
    }

    /// The next of a dart in the coverage, round its face.
    pub fn next(&self, dart: Dart) -> Dart
        requires { IsRowOf (length self.now.source.edges) dart.edge }
        ensures next { dart_code result ≡ next_of self.now.source (dart_code dart) }
        ensures row { IsRowOf (length self.now.source.edges) result.edge }
    {
        self.tile.names_its_own();
        match next_local(self.tile, dart) {
            Some(next) => next,
            None => unreachable!(),
        }
    }
}
