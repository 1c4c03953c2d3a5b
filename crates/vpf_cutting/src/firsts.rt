//! The first edges of the nodes of a tile.

ghost use Rattle.std.specs.Prelude.{◌≡◌, ◌≢◌, ℕ, ◌<◌, ◌≤◌, ◌^◌, All, IfOk, length, true};
ghost use Rattle.vpf_cutting.specs.Inner.Cuts.{plan_by};
ghost use Rattle.vpf_cutting.specs.Inner.Rows.{ArePutAt, first_edges_of, first_or};
ghost use Rattle.vpf_darts.specs.Darts.{code};
ghost use Rattle.vpf_prims.specs.Lists.{kth};
ghost use Rattle.vpf_prims.specs.Numbering.{IsRowOf};
ghost use Rattle.vpf_tiling.specs.Presence.{has_edge, head_of, local_node, present_nodes};

use crate::copies::EdgeNodes;
use crate::cut::Cut;
use std::alloc::{AllocError, Global};
use vpf_darts::{Dart, flip};

/// Takes an edge as the first of a node that has none yet.
fn put_first(firsts: &mut [u32], node: u32, edge: u32)
    requires { IsRowOf (length firsts.old) node }
    ensures nodes { length firsts.new ≡ length firsts.old }
    ensures here { kth firsts.new node 0 ≡ first_or (kth firsts.old node 0) edge }
    ensures others { (other : ℕ) → other ≢ node → kth firsts.new other 0 ≡ kth firsts.old other 0 }
{
    let place = node as usize - 1;
    if firsts[place] == 0 {
        firsts[place] = edge;
    }
}

/// The same for both nodes of an edge.
fn put_ends(firsts: &mut [u32], ends: EdgeNodes, edge: u32)
    requires start { IsRowOf (length firsts.old) ends.start }
    requires end { IsRowOf (length firsts.old) ends.end }
    requires some { 1 ≤ edge }
    ensures { ArePutAt ends edge firsts.old firsts.new }
{
    put_first(firsts, ends.start, edge);
    put_first(firsts, ends.end, edge);
}

impl<'c, 'a> Cut<'c, 'a> {
    /// The numbers in a tile of the nodes where an edge begins and ends.
    fn ends_in(&self, tile: u32, edge: u32) -> EdgeNodes
        requires { has_edge self.now.source (plan_by self.now.plan) tile edge ≡ true }
        ensures start { result.start ≡ local_node self.now.source (plan_by self.now.plan) tile (head_of self.now.source (code 0 edge 1)) }
        ensures end { result.end ≡ local_node self.now.source (plan_by self.now.plan) tile (head_of self.now.source (code 0 edge 0)) }
        ensures start_row { IsRowOf (length (present_nodes self.now.source (plan_by self.now.plan) tile)) result.start }
        ensures end_row { IsRowOf (length (present_nodes self.now.source (plan_by self.now.plan) tile)) result.end }
    {
        self.plan_holds();
        let plus = Dart { edge, minus: false };
        let minus = flip(plus);
        let start = self.head(minus);
        let end = self.head(plus);
        EdgeNodes {
            start: self.local_node(tile, start),
            end: self.local_node(tile, end),
        }
    }

    /// For each node of a tile, in order, the number of its first edge there: the least of those that begin or end at it. The edges of the tile
    /// are passed once.
    pub fn first_edges(&self, alloc: Global, tile: u32) -> Result<Vec<u32>, AllocError>
        ensures firsts { IfOk result (λ firsts. firsts.items ≡ first_edges_of self.now.source (plan_by self.now.plan) tile) }
        ensures few { IfOk result (λ firsts. All (λ first. first < 2 ^ 24) firsts.items) }
    {
        let nodes = self.nodes_in(tile).len();
        let mut firsts = vec![in alloc; 0; nodes]?;
        let edges = self.edges_in(tile);
        for (k, edge) in edges.iter().enumerate() {
            let ends = self.ends_in(tile, *edge);
            put_ends(&mut firsts, ends, k as u32 + 1);
        }
        Ok(firsts)
    }
}
