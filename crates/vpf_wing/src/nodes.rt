//! Nodes, and the darts that begin at them.

ghost use Rattle.std.specs.Prelude.{◌≡◌, ◌≤◌, ◌<◌, ◌^◌, All, IfOk, length};
ghost use Rattle.vpf_findings.specs.Firsts.{Finds, Tells, first_of_rows};
ghost use Rattle.vpf_prims.specs.Edges.{IsEdge};
ghost use Rattle.vpf_prims.specs.Numbering.{IsRowOf};
ghost use Rattle.vpf_prims.specs.Primitives.{own_edges};
ghost use Rattle.vpf_prims.specs.Reading.{primitives_of};
ghost use Rattle.vpf_wing.specs.CycleLines.{at_node_line, node_lines, own_first_edges, turn_line};
ghost use Rattle.vpf_wing.specs.Inner.Nodes.{HoldCounts};
ghost use Rattle.vpf_wing.specs.Places.{tails};

use crate::firsts::FirstByNumber;
use crate::places::Darts;
use std::alloc::{AllocError, Global};
use std::marker::Model;
use vpf_findings::{FindError, Finding, Seen, SeenWord};
use vpf_prims::{Citation, Edge, Tile};

/// The nodes where the darts begin, by their places.
fn tails_of(alloc: Global, edges: &[Edge]) -> Result<Vec<u32>, AllocError>
    requires { length edges.now < 2 ^ 24 }
    ensures { IfOk result (λ nodes. nodes.items ≡ tails edges.now) }
{
    let mut nodes = Vec::with_capacity(alloc, 2 * edges.len())?;
    for edge in edges {
        nodes.push(edge.start_node)?;
        nodes.push(edge.end_node)?;
    }
    Ok(nodes)
}

/// How often each node up to `last` stands in a list.
fn counts_of(alloc: Global, nodes: &[u32], last: u32) -> Result<Vec<u32>, AllocError>
    requires few { length nodes.now < 2 ^ 25 }
    requires few_nodes { last < 2 ^ 24 }
    requires below { All (λ node. node ≤ last) nodes.now }
    ensures { IfOk result (λ counts. HoldCounts nodes.now counts.items) }
{
    let mut counts = vec![in alloc; 0u32; last as usize + 1]?;
    for node in nodes {
        counts[*node as usize] += 1;
    }
    Ok(counts)
}

/// The nodes where the darts begin, with the first dart of each node and how many begin there. Contracts see it as the list of
/// these nodes, by the places of the darts.
#[derive(Drop)]
struct Tails {
    firsts: FirstByNumber,
    counts: Vec<u32>,
}

impl Model for Tails {
    ghost use Rattle.std.specs.Prelude.{List, ℕ};
    ghost use Rattle.vpf_wing.specs.Inner.Nodes.{HoldCounts};

    ghost Value = { List ℕ };

    ghost view = { λ t. t.firsts };

    ghost invariant = { λ t. HoldCounts t.firsts t.counts.items };
}

impl Tails {
    ghost use Rattle.std.specs.Prelude.{◌≡◌, ◌≤◌, ◌<◌, ◌^◌, All, IfOk, length};
    ghost use Rattle.vpf_darts.specs.Cycles.{count_of};
    ghost use Rattle.vpf_wing.specs.Inner.FirstNumbers.{first_of_key};
    ghost use Rattle.vpf_wing.specs.Places.{tails};

    /// The tails of darts, whose nodes are at most `last`.
    fn new(alloc: Global, darts: &Darts, last: u32) -> Result<Tails, AllocError>
        requires few_nodes { last < 2 ^ 24 }
        requires below { All (λ node. node ≤ last) (tails darts.now) }
        ensures { IfOk result (λ t. t ≡ tails darts.now) }
    {
        let nodes = tails_of(alloc, darts.edges())?;
        let counts = counts_of(alloc, &nodes, last)?;
        let firsts = FirstByNumber::new(alloc, nodes, last)?;
        Ok(Tails { firsts, counts })
    }

    /// The number of the first dart that begins at a node, from 1, or 0 where none does.
    fn first(&self, node: u32) -> u32
        ensures first { result ≡ first_of_key self.now node }
        ensures within { result ≤ length self.now }
    {
        self.firsts.first(node)
    }

    /// How many darts begin at a node.
    fn count(&self, node: u32) -> u32
        ensures { result ≡ count_of node self.now }
    {
        let at = node as usize;
        if at < self.counts.len() {
            self.counts[at]
        } else {
            0
        }
    }
}

/// The edge that node `n` names is at it.
fn check_at_node<'a>(
    tile: &Tile<'a>,
    number: u32,
    edges: &[Edge],
    n: u32,
    edge: u32,
) -> Result<(), Finding<'a>>
    requires row { IsRowOf (length (primitives_of tile.now.tables).nodes) n }
    requires edge { IsEdge (length edges.now) edge }
    ensures { Finds result (at_node_line number tile.now edges.now n edge) }
{
    let row = edges[edge as usize - 1];
    if row.start_node == n || row.end_node == n {
        return Ok(());
    }
    let found = tile.seen(Citation::FirstEdge, n);
    let wanted = Seen::Word(SeenWord::Node);
    Err(tile.finding(number, Citation::FirstEdge, 3, n, found, wanted))
}

/// The darts at node `n` are one cycle of turn.
fn check_turn<'a>(
    tile: &Tile<'a>,
    number: u32,
    darts: &Darts,
    nodes: &Tails,
    n: u32,
) -> Result<(), Finding<'a>>
    requires { nodes.now ≡ tails darts.now }
    ensures { Finds result (turn_line number tile.now darts.now n) }
{
    let first = nodes.first(n);
    if first == 0 {
        return Ok(());
    }
    let size = darts.turn_size(first - 1);
    let count = nodes.count(n);
    if size == count {
        return Ok(());
    }
    let found = Seen::Number(size as i64);
    let wanted = Seen::Number(count as i64);
    Err(tile.finding(number, Citation::FirstEdge, 3, n, found, wanted))
}

/// The lines on node `n`, which names this edge.
fn check_node<'a>(
    tile: &Tile<'a>,
    number: u32,
    darts: &Darts,
    nodes: &Tails,
    n: u32,
    edge: u32,
) -> Result<(), Finding<'a>>
    requires tails { nodes.now ≡ tails darts.now }
    requires row { IsRowOf (length (primitives_of tile.now.tables).nodes) n }
    requires edge { IsEdge (length darts.now) edge }
    ensures { Finds result (node_lines number tile.now darts.now n edge) }
{
    check_at_node(tile, number, darts.edges(), n, edge)?;
    check_turn(tile, number, darts, nodes, n)
}

/// The lines on all nodes.
#[tactic(auto, using(crate::proofs::RowLemmas::end_row))]
fn check_node_rows<'a>(
    tile: &Tile<'a>,
    number: u32,
    darts: &Darts,
    nodes: &Tails,
) -> Result<(), Finding<'a>>
    requires edges { darts.now ≡ own_edges (primitives_of tile.now.tables) }
    requires tails { nodes.now ≡ tails darts.now }
    ensures { Finds result (first_of_rows (node_lines number tile.now darts.now) 1 (own_first_edges (primitives_of tile.now.tables))) }
{
    tile.names_its_own();
    for k in 0..tile.nodes() {
        check_node(tile, number, darts, nodes, k + 1, tile.first_edge(k + 1))?;
    }
    Ok(())
}

/// Each node names an edge at it, and its darts are one cycle of turn.
pub fn check_nodes<'a>(
    alloc: Global,
    tile: &Tile<'a>,
    number: u32,
    darts: &Darts,
) -> Result<(), FindError<'a>>
    requires { darts.now ≡ own_edges (primitives_of tile.now.tables) }
    ensures { Tells result (first_of_rows (node_lines number tile.now darts.now) 1 (own_first_edges (primitives_of tile.now.tables))) }
{
    tile.names_its_own();
    let nodes = Tails::new(alloc, darts, tile.nodes())?;
    check_node_rows(tile, number, darts, &nodes)?;
    Ok(())
}
