//! The first edges of the nodes of a glued coverage.

ghost use Rattle.std.specs.Prelude.{◌≡◌, ◌≢◌, ℕ, ◌≤◌, All, IfOk, length, map, true};
ghost use Rattle.vpf_base.specs.Limits.{most_rows};
ghost use Rattle.vpf_cutting.specs.Inner.Rows.{ArePutAt, first_or};
ghost use Rattle.vpf_darts.specs.Darts.{tile_dart_code};
ghost use Rattle.vpf_prims.specs.Libraries.{library_of};
ghost use Rattle.vpf_prims.specs.Lists.{kth};
ghost use Rattle.vpf_prims.specs.Numbering.{IsRowOf};
ghost use Rattle.vpf_wing.specs.Links.{links_of};
ghost use Rattle.vpf_follow.specs.Following.{is_home};
ghost use Rattle.vpf_tiling.specs.Ranks.{up_to};
ghost use Rattle.vpf_tiling.specs.Tiles.{first_edge_at};
ghost use Rattle.vpf_tiling_laws.specs.Gluing.Glued.{first_darts, glued_edges, node_number};
ghost use Rattle.vpf_tiling_laws.specs.Gluing.Whole.{whole_of};

use crate::glued_edges::glued::GluedEdges;
use std::alloc::{AllocError, Global};
use vpf_cutting::copies::EdgeNodes;
use vpf_darts::{TileDart, Walk};

/// Takes an edge as the first of a node that has none yet.
fn put_first(firsts: &mut [u32], node: u32, edge: u32)
    requires { IsRowOf (length firsts.old) node }
    ensures nodes { length firsts.new ≡ length firsts.old }
    ensures here { kth firsts.new node 0 ≡ first_or (kth firsts.old node 0) edge }
    ensures others { (other : ℕ) → other ≢ node → kth firsts.new other 0 ≡ kth firsts.old other 0 }
{
    let place = node as usize - 1;
    if firsts[place] == 0 {
        firsts[place] = edge;
    }
}

/// The same for both nodes of an edge.
fn put_ends(firsts: &mut [u32], ends: EdgeNodes, edge: u32)
    requires start { IsRowOf (length firsts.old) ends.start }
    requires end { IsRowOf (length firsts.old) ends.end }
    requires some { 1 ≤ edge }
    ensures { ArePutAt ends edge firsts.old firsts.new }
{
    put_first(firsts, ends.start, edge);
    put_first(firsts, ends.end, edge);
}

impl<'w, 'c, 'a> GluedEdges<'w, 'c, 'a> {
    /// The numbers of the nodes where the edge of a `+` dart begins and ends.
    fn ends(&self, dart: TileDart) -> EdgeNodes
        requires { is_home (links_of (library_of self.now)) (tile_dart_code dart) ≡ true }
        ensures start { result.start ≡ node_number (whole_of (library_of self.now)) (tile_dart_code dart) }
        ensures end { result.end ≡ node_number (whole_of (library_of self.now)) ((whole_of (library_of self.now)).darts.flip (tile_dart_code dart)) }
        ensures start_row { IsRowOf (length (first_darts (whole_of (library_of self.now)))) result.start }
        ensures end_row { IsRowOf (length (first_darts (whole_of (library_of self.now)))) result.end }
    {
        let whole = self.whole();
        whole.makes_map();
        EdgeNodes {
            start: self.node_number(dart),
            end: self.node_number(whole.flip(dart)),
        }
    }

    /// For each node, in order, the number of its first edge: the least of those that begin or end at it. The edges are passed once.
    pub fn first_edges(&self, alloc: Global) -> Result<Vec<u32>, AllocError>
        ensures firsts { IfOk result (λ firsts. firsts.items
            ≡ map (λ k. first_edge_at k (glued_edges (whole_of (library_of self.now)))) (up_to (length (first_darts (whole_of (library_of self.now)))))) }
        ensures few { IfOk result (λ firsts. All (λ first. first ≤ most_rows) firsts.items) }
    {
        let mut firsts = vec![in alloc; 0u32; self.nodes().len()]?;
        for (k, edge) in self.edges().iter().enumerate() {
            let ends = self.ends(*edge);
            put_ends(&mut firsts, ends, k as u32 + 1);
        }
        Ok(firsts)
    }
}
