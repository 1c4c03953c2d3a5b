//! The rows of the grid of n by n cells, edge by edge and face by face.

ghost use Rattle.std.specs.Prelude.{◌≡◌, ◌+◌, ◌*◌, ◌<◌, ◌≤◌, List, map, IfOk, OnOk};
ghost use Rattle.std.specs.List.{range_with_len};
ghost use Rattle.vpf_vectors.specs.Cells.Numbers.{nodes, edges, faces, node_of, east_edge, north_edge, face_at, node_x, node_y, cell_x, cell_y};
ghost use Rattle.vpf_vectors.specs.Cells.Rows.{row_of_edge, east_row, north_row, after_east, after_west, after_north, after_south};
ghost use Rattle.vpf_vectors.specs.Cells.Rows.{start_edge, first_edge, divides_tiles, tile_of};
ghost use Rattle.vpf_vectors.specs.Cells.Rows.{edge_rows, face_rows, ring_rows, node_rows, plan_rows};

use crate::cells::rows::{EdgeRow, RingRow};
use std::alloc::{AllocError, Global};

/// The rows of the tables of a grid but `plan`, each by its id from 1.
#[derive(Drop)]
pub struct GridRows {
    /// The edges.
    pub edges: Vec<EdgeRow>,
    /// The first ring of each face.
    pub faces: Vec<u32>,
    /// The rings.
    pub rings: Vec<RingRow>,
    /// The first edge of each node.
    pub nodes: Vec<u32>,
}

/// The number of the node at (x, y).
#[tactic(auto, using(crate::proofs::cells::CodeLemmas::small_product), unfolding(crate::specs::Cells::Numbers::node_of))]
fn node_of(n: u32, x: u32, y: u32) -> u32
    requires n { n ≤ 200 }
    requires x { x ≤ n }
    requires y { y ≤ n }
    ensures { result ≡ node_of n x y }
{
    y * (n + 1) + x + 1
}

/// The edge from (x, y) to the east.
#[tactic(auto, using(crate::proofs::cells::CodeLemmas::small_product), unfolding(crate::specs::Cells::Numbers::east_edge))]
fn east_edge(n: u32, x: u32, y: u32) -> u32
    requires n { n ≤ 200 }
    requires x { x ≤ n }
    requires y { y ≤ n }
    ensures { result ≡ east_edge n x y }
{
    y * n + x + 1
}

/// The edge from (x, y) to the north.
#[tactic(auto, using(crate::proofs::cells::CodeLemmas::small_product), unfolding(crate::specs::Cells::Numbers::north_edge))]
fn north_edge(n: u32, x: u32, y: u32) -> u32
    requires n { n ≤ 200 }
    requires x { x ≤ n }
    requires y { y ≤ n }
    ensures { result ≡ north_edge n x y }
{
    n * (n + 1) + x * n + y + 1
}

/// The face of a cell, its lower corner counted from 1; 1 outside.
#[tactic(auto, using(crate::proofs::cells::CodeLemmas::small_product), unfolding(crate::specs::Cells::Numbers::face_at))]
fn face_at(n: u32, x: u32, y: u32) -> u32
    requires n { n ≤ 200 }
    requires x { x ≤ n + 1 }
    requires y { y ≤ n + 1 }
    ensures { result ≡ face_at n x y }
{
    if 1 <= x && x <= n && 1 <= y && y <= n {
        2 + (y - 1) * n + (x - 1)
    } else {
        1
    }
}

/// The edge that follows the edge from (x, y) to the east, round its right face.
#[tactic(auto, unfolding(crate::specs::Cells::Rows::after_east))]
fn after_east(n: u32, x: u32, y: u32) -> u32
    requires n { n ≤ 200 }
    requires x { x < n }
    requires y { y ≤ n }
    ensures { result ≡ after_east n x y }
{
    if 0 < y {
        north_edge(n, x + 1, y - 1)
    } else if x + 1 < n {
        east_edge(n, x + 1, y)
    } else {
        north_edge(n, x + 1, y)
    }
}

/// The edge that follows it, run back, round its left face.
#[tactic(auto, unfolding(crate::specs::Cells::Rows::after_west))]
fn after_west(n: u32, x: u32, y: u32) -> u32
    requires n { n ≤ 200 }
    requires x { x < n }
    requires y { y ≤ n }
    ensures { result ≡ after_west n x y }
{
    if y < n {
        north_edge(n, x, y)
    } else if 0 < x {
        east_edge(n, x - 1, y)
    } else {
        north_edge(n, x, y - 1)
    }
}

/// The edge that follows the edge from (x, y) to the north, round its right face.
#[tactic(auto, unfolding(crate::specs::Cells::Rows::after_north))]
fn after_north(n: u32, x: u32, y: u32) -> u32
    requires n { n ≤ 200 }
    requires x { x ≤ n }
    requires y { y < n }
    ensures { result ≡ after_north n x y }
{
    if x < n {
        east_edge(n, x, y + 1)
    } else if y + 1 < n {
        north_edge(n, x, y + 1)
    } else {
        east_edge(n, x - 1, y + 1)
    }
}

/// The edge that follows it, run back, round its left face.
#[tactic(auto, unfolding(crate::specs::Cells::Rows::after_south))]
fn after_south(n: u32, x: u32, y: u32) -> u32
    requires n { n ≤ 200 }
    requires x { x ≤ n }
    requires y { y < n }
    ensures { result ≡ after_south n x y }
{
    if 0 < x {
        east_edge(n, x - 1, y)
    } else if 0 < y {
        north_edge(n, x, y - 1)
    } else {
        east_edge(n, x, y)
    }
}

/// The home tile of a face other than 1.
#[tactic(auto, using(crate::proofs::cells::CodeLemmas::small_tile), unfolding(crate::specs::Cells::Numbers::cell_x, crate::specs::Cells::Numbers::cell_y))]
fn tile_of(n: u32, face: u32) -> u32
    requires least { 1 ≤ n }
    requires most { n ≤ 200 }
    requires inside { 2 ≤ face }
    requires last { face ≤ faces n }
    ensures { result ≡ tile_of n face }
{
    let x = (face - 2) % n;
    let y = (face - 2) / n;
    1 + y / 2 * (n / 2) + x / 2
}

/// Whether an edge with these faces is a tile line.
#[tactic(auto, unfolding(crate::specs::Cells::Rows::divides_tiles))]
fn divides_tiles(n: u32, right: u32, left: u32) -> bool
    requires least { 1 ≤ n }
    requires most { n ≤ 200 }
    requires right_least { 1 ≤ right }
    requires right_most { right ≤ faces n }
    requires left_least { 1 ≤ left }
    requires left_most { left ≤ faces n }
    ensures { result ≡ divides_tiles n right left }
{
    if right == 1 || left == 1 {
        true
    } else {
        tile_of(n, right) != tile_of(n, left)
    }
}

/// The row of the edge from (x, y) to the east.
#[tactic(auto, using(crate::proofs::cells::CodeLemmas::face_least, crate::proofs::cells::CodeLemmas::face_most))]
fn east_row(n: u32, x: u32, y: u32) -> EdgeRow
    requires n { n ≤ 200 }
    requires x { x < n }
    requires y { y ≤ n }
    ensures { result ≡ east_row n x y }
{
    let right_face = face_at(n, x + 1, y);
    let left_face = face_at(n, x + 1, y + 1);
    EdgeRow {
        start_node: node_of(n, x, y),
        end_node: node_of(n, x + 1, y),
        right_face,
        left_face,
        right_edge: after_east(n, x, y),
        left_edge: after_west(n, x, y),
        tile_line: divides_tiles(n, right_face, left_face),
    }
}

/// The row of the edge from (x, y) to the north.
#[tactic(auto, using(crate::proofs::cells::CodeLemmas::face_least, crate::proofs::cells::CodeLemmas::face_most))]
fn north_row(n: u32, x: u32, y: u32) -> EdgeRow
    requires n { n ≤ 200 }
    requires x { x ≤ n }
    requires y { y < n }
    ensures { result ≡ north_row n x y }
{
    let right_face = face_at(n, x + 1, y + 1);
    let left_face = face_at(n, x, y + 1);
    EdgeRow {
        start_node: node_of(n, x, y),
        end_node: node_of(n, x, y + 1),
        right_face,
        left_face,
        right_edge: after_north(n, x, y),
        left_edge: after_south(n, x, y),
        tile_line: divides_tiles(n, right_face, left_face),
    }
}

/// Puts the edges to the east at y after those below.
fn east_line(rows: &mut Vec<EdgeRow>, n: u32, y: u32) -> Result<(), AllocError>
    requires n { n ≤ 200 }
    requires y { y ≤ n }
    requires below { rows.old.items ≡ map (row_of_edge n) (range_with_len 1 (y * n)) }
    ensures { OnOk result (rows.new.items ≡ map (row_of_edge n) (range_with_len 1 ((y + 1) * n))) }
{
    for x in 0..n {
        rows.push(east_row(n, x, y))?;
    }
    Ok(())
}

/// Puts the edges to the north at x after those before.
fn north_line(rows: &mut Vec<EdgeRow>, n: u32, x: u32) -> Result<(), AllocError>
    requires n { n ≤ 200 }
    requires x { x ≤ n }
    requires before { rows.old.items ≡ map (row_of_edge n) (range_with_len 1 (n * (n + 1) + x * n)) }
    ensures { OnOk result (rows.new.items ≡ map (row_of_edge n) (range_with_len 1 (n * (n + 1) + (x + 1) * n))) }
{
    for y in 0..n {
        rows.push(north_row(n, x, y))?;
    }
    Ok(())
}

/// The rows of the edges.
fn edge_rows(alloc: Global, n: u32) -> Result<Vec<EdgeRow>, AllocError>
    requires n { n ≤ 200 }
    ensures { IfOk result (λ rows. rows.items ≡ edge_rows n) }
{
    let mut rows = Vec::new(alloc);
    for y in 0..n + 1 {
        east_line(&mut rows, n, y)?;
    }
    for x in 0..n + 1 {
        north_line(&mut rows, n, x)?;
    }
    Ok(rows)
}

/// The first ring of each face.
fn face_rows(alloc: Global, n: u32) -> Result<Vec<u32>, AllocError>
    requires n { n ≤ 200 }
    ensures { IfOk result (λ rows. rows.items ≡ face_rows n) }
{
    let mut rows = Vec::new(alloc);
    for face in 1..n * n + 2 {
        rows.push(face)?;
    }
    Ok(rows)
}

/// The edge where the ring of a face starts.
#[tactic(auto, unfolding(crate::specs::Cells::Rows::start_edge))]
fn start_edge(face: u32) -> u32
    requires { 1 ≤ face }
    ensures { result ≡ start_edge face }
{
    if face == 1 { 1 } else { face - 1 }
}

/// The rows of the rings.
fn ring_rows(alloc: Global, n: u32) -> Result<Vec<RingRow>, AllocError>
    requires n { n ≤ 200 }
    ensures { IfOk result (λ rows. rows.items ≡ ring_rows n) }
{
    let mut rows = Vec::new(alloc);
    for face in 1..n * n + 2 {
        rows.push(RingRow {
            face_id: face,
            start_edge: start_edge(face),
        })?;
    }
    Ok(rows)
}

/// The least edge at a node.
#[tactic(auto, using(crate::proofs::cells::CodeLemmas::small_first), unfolding(crate::specs::Cells::Numbers::node_x, crate::specs::Cells::Numbers::node_y))]
fn first_edge(n: u32, node: u32) -> u32
    requires n { n ≤ 200 }
    requires least { 1 ≤ node }
    requires most { node ≤ nodes n }
    ensures { result ≡ first_edge n node }
{
    let x = (node - 1) % (n + 1);
    let y = (node - 1) / (n + 1);
    if x == 0 { y * n + 1 } else { y * n + x }
}

/// The first edge of each node.
fn node_rows(alloc: Global, n: u32) -> Result<Vec<u32>, AllocError>
    requires n { n ≤ 200 }
    ensures { IfOk result (λ rows. rows.items ≡ node_rows n) }
{
    let mut rows = Vec::new(alloc);
    for node in 1..(n + 1) * (n + 1) + 1 {
        rows.push(first_edge(n, node))?;
    }
    Ok(rows)
}

/// The rows of the grid of `n` by `n` cells, `n` from 1 to 200.
pub fn grid_rows(alloc: Global, n: u32) -> Result<GridRows, AllocError>
    requires least { 1 ≤ n }
    requires most { n ≤ 200 }
    ensures edges { IfOk result (λ grid. grid.edges.items ≡ edge_rows n) }
    ensures faces { IfOk result (λ grid. grid.faces.items ≡ face_rows n) }
    ensures rings { IfOk result (λ grid. grid.rings.items ≡ ring_rows n) }
    ensures nodes { IfOk result (λ grid. grid.nodes.items ≡ node_rows n) }
{
    let edges = edge_rows(alloc, n)?;
    let faces = face_rows(alloc, n)?;
    let rings = ring_rows(alloc, n)?;
    let nodes = node_rows(alloc, n)?;
    Ok(GridRows {
        edges,
        faces,
        rings,
        nodes,
    })
}

/// The home tile of each face but 1, by rising face, of the grid of `n` by `n` cells.
pub fn plan_rows(alloc: Global, n: u32) -> Result<Vec<u32>, AllocError>
    requires least { 1 ≤ n }
    requires most { n ≤ 200 }
    ensures { IfOk result (λ rows. rows.items ≡ plan_rows n) }
{
    let mut rows = Vec::new(alloc);
    for face in 2..n * n + 2 {
        rows.push(tile_of(n, face))?;
    }
    Ok(rows)
}
