//! The numbers of the edges and nodes of a glued coverage, and what its rows of edges name.

ghost use Rattle.std.specs.Prelude.{◌≡◌, ◌*◌, ◌≤◌, ◌==◌, if◌then◌else◌, All, IfOk, length, map, true};
ghost use Rattle.vpf_base.specs.Limits.{most_rows};
ghost use Rattle.vpf_darts.specs.Darts.{sign_in, tile_dart_code};
ghost use Rattle.vpf_prims.specs.Libraries.{library_of};
ghost use Rattle.vpf_prims.specs.Numbering.{IsRowOf};
ghost use Rattle.vpf_wing.specs.Links.{links_of};
ghost use Rattle.vpf_wing.specs.Inner.DartLaws.{stands_in};
ghost use Rattle.vpf_follow.specs.Following.{is_home};
ghost use Rattle.vpf_tiling_laws.specs.Gluing.Whole.{whole_of};
ghost use Rattle.vpf_tiling_laws.specs.Gluing.Glued.{edge_number, first_darts, node_number, plus_darts};
ghost use Rattle.vpf_renumbering.specs.Inner.Whole.Gathering.{AreHomeDarts};
ghost use Rattle.vpf_renumbering.specs.Inner.GluedEdges.Glued.{AreEdgeRows};

use crate::glued_edges::edges::plus_darts;
use crate::glued_edges::faces::{TileFace, face_of};
use crate::glued_edges::nodes::{Nodes, nodes_of};
use crate::whole::{WholeMap, home_darts};
use std::alloc::{AllocError, Global};
use std::marker::Model;
use vpf_cross::Checked;
use vpf_darts::{TileDart, Walk};
use vpf_wing::kept::place_of;

/// What the row of an edge of a glued coverage names, but its faces: nodes and wings, by their numbers (MIL-STD-2407, 5.2.2, winged-edge
/// topology). Numbers count from 1.
#[derive(Clone, Copy, Debug, PartialEq, Eq)]
pub struct EdgeJoins {
    /// The node where it begins.
    pub start_node: u32,
    /// The node where it ends.
    pub end_node: u32,
    /// The wing about its end node: the edge that follows it round its right face.
    pub right_edge: u32,
    /// The wing about its start node: the edge that follows it, run back, round its left face.
    pub left_edge: u32,
}

/// The edges and nodes of a checked coverage, numbered from 1 as they are when its tiles are glued: edges by their `+` home darts in their order,
/// and nodes by the least home darts that begin there (MIL-STD-2407, 5.2.3, cross-tile topology). It keeps each home dart with the number of
/// its node. Contracts see it as the tables of the coverage.
#[derive(Drop)]
pub struct GluedEdges<'w, 'c, 'a> {
    whole: WholeMap<'w, 'c, 'a>,
    darts: Vec<TileDart>,
    edges: Vec<TileDart>,
    nodes: Nodes,
}

impl<'w, 'c, 'a> Model for GluedEdges<'w, 'c, 'a> {
    ghost use Rattle.vpf_prims.specs.Coverages.{CoverageTables};

    ghost Value = { CoverageTables };

    ghost use Rattle.vpf_prims.specs.Libraries.{library_of};
    ghost use Rattle.vpf_renumbering.specs.Inner.GluedEdges.Glued.{KeepsGlued};

    ghost view = { λ g. g.whole };

    ghost invariant = { λ g. KeepsGlued (library_of g.whole) g.darts.items g.edges.items g.nodes };
}

impl<'w, 'c, 'a> GluedEdges<'w, 'c, 'a> {
    /// The edges and nodes of a checked coverage, which has no more edges in all its tiles than a table has rows: `edge_count` tells how many.
    /// Each dart is followed once about its node, and takes memory.
    pub fn new(
        alloc: Global,
        checked: &'w Checked<'c, 'a>,
    ) -> Result<GluedEdges<'w, 'c, 'a>, AllocError>
        requires { length (plus_darts (whole_of (library_of checked.now))) ≤ most_rows }
        ensures { IfOk result (λ glued. glued ≡ checked.now) }
    {
        let whole = WholeMap::new(checked);
        let darts = home_darts(alloc, checked)?;
        let edges = plus_darts(alloc, &darts)?;
        let nodes = nodes_of(alloc, &whole, &darts)?;
        Ok(GluedEdges {
            whole,
            darts,
            edges,
            nodes,
        })
    }

    /// The coverage as one map.
    pub fn whole(&self) -> &WholeMap<'w, 'c, 'a>
        ensures { result.now ≡ self.now }
    {
        &self.whole
    }

    /// Its home darts, in their order.
    pub fn darts(&self) -> &[TileDart]
        ensures { AreHomeDarts (library_of self.now) result.now }
    {
        &self.darts
    }

    /// The edges, by their numbers, each by its `+` dart.
    pub fn edges(&self) -> &[TileDart]
        ensures edges { map tile_dart_code result.now ≡ plus_darts (whole_of (library_of self.now)) }
        ensures each { All (λ d. is_home (links_of (library_of self.now)) (tile_dart_code d) ≡ true) result.now }
        ensures few { length result.now ≤ most_rows }
    {
        &self.edges
    }

    /// The nodes, by their numbers, each by the least dart that begins there.
    pub fn nodes(&self) -> &[TileDart]
        ensures nodes { map tile_dart_code result.now ≡ first_darts (whole_of (library_of self.now)) }
        ensures each { All (λ d. is_home (links_of (library_of self.now)) (tile_dart_code d) ≡ true) result.now }
        ensures few { length result.now ≤ 2 * most_rows }
    {
        &self.nodes.firsts
    }

    /// The `+` dart of the edge of a home dart.
    fn plus_dart(&self, dart: TileDart) -> TileDart
        requires { is_home (links_of (library_of self.now)) (tile_dart_code dart) ≡ true }
        ensures dart { tile_dart_code result ≡ (if sign_in (tile_dart_code dart) == 0 then tile_dart_code dart
            else (whole_of (library_of self.now)).darts.flip (tile_dart_code dart)) }
        ensures there { stands_in (tile_dart_code result) (plus_darts (whole_of (library_of self.now))) ≡ true }
    {
        self.whole.makes_map();
        if dart.minus {
            self.whole.flip(dart)
        } else {
            dart
        }
    }

    /// The number of the edge of a home dart.
    pub fn edge_number(&self, dart: TileDart) -> u32
        requires { is_home (links_of (library_of self.now)) (tile_dart_code dart) ≡ true }
        ensures number { result ≡ edge_number (whole_of (library_of self.now)) (tile_dart_code dart) }
        ensures row { IsRowOf (length (plus_darts (whole_of (library_of self.now)))) result }
    {
        let plus = self.plus_dart(dart);
        place_of(&self.edges, plus) as u32 + 1
    }

    /// The number of the node where a home dart begins.
    pub fn node_number(&self, dart: TileDart) -> u32
        requires { is_home (links_of (library_of self.now)) (tile_dart_code dart) ≡ true }
        ensures number { result ≡ node_number (whole_of (library_of self.now)) (tile_dart_code dart) }
        ensures row { IsRowOf (length (first_darts (whole_of (library_of self.now)))) result }
    {
        self.nodes.numbers[place_of(&self.darts, dart)]
    }

    /// What the row of the edge of a `+` home dart names, but its faces.
    pub fn edge(&self, dart: TileDart) -> EdgeJoins
        requires { is_home (links_of (library_of self.now)) (tile_dart_code dart) ≡ true }
        ensures start_node { result.start_node ≡ node_number (whole_of (library_of self.now)) (tile_dart_code dart) }
        ensures end_node { result.end_node ≡ node_number (whole_of (library_of self.now)) ((whole_of (library_of self.now)).darts.flip (tile_dart_code dart)) }
        ensures right_edge { result.right_edge ≡ edge_number (whole_of (library_of self.now)) ((whole_of (library_of self.now)).darts.next
            (tile_dart_code dart)) }
        ensures left_edge { result.left_edge ≡ edge_number (whole_of (library_of self.now))
            ((whole_of (library_of self.now)).darts.next ((whole_of (library_of self.now)).darts.flip (tile_dart_code dart))) }
        ensures rows { AreEdgeRows (whole_of (library_of self.now)) result }
    {
        self.whole.makes_map();
        let other = self.whole.flip(dart);
        EdgeJoins {
            start_node: self.node_number(dart),
            end_node: self.node_number(other),
            right_edge: self.edge_number(self.whole.next(dart)),
            left_edge: self.edge_number(self.whole.next(other)),
        }
    }

    /// The faces of a home dart and of the other dart of its edge, by their tiles and their numbers there: none for the universe. Of a `+` dart
    /// these are the right and the left face of its edge.
    pub fn faces_of(&self, dart: TileDart) -> (Option<TileFace>, Option<TileFace>)
        requires { is_home (links_of (library_of self.now)) (tile_dart_code dart) ≡ true }
        ensures own { result.0 ≡ (whole_of (library_of self.now)).face (tile_dart_code dart) }
        ensures other { result.1 ≡ (whole_of (library_of self.now)).face ((whole_of (library_of self.now)).darts.flip (tile_dart_code dart)) }
    {
        self.whole.makes_map();
        let coverage = self.whole.checked().coverage();
        let other = self.whole.flip(dart);
        (face_of(coverage, dart), face_of(coverage, other))
    }
}
