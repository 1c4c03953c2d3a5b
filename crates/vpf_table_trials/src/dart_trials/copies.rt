use crate::dart_trials::same::same;
use std::test::Fail;
use vpf_cutting::copies::{Copies, EdgeNodes, EdgeTiles};

// Edge 1 is in tiles 1 and 2, edge 2 in tile 2 alone, edge 3 in none, edge 4 in tiles 1 and 3.
const SIDES: [EdgeTiles; 4] = [
    EdgeTiles { left: 2, right: 1 },
    EdgeTiles { left: 2, right: 2 },
    EdgeTiles { left: 0, right: 0 },
    EdgeTiles { left: 3, right: 1 },
];

const ENDS: [EdgeNodes; 4] = [
    EdgeNodes { start: 1, end: 2 },
    EdgeNodes { start: 2, end: 3 },
    EdgeNodes { start: 3, end: 4 },
    EdgeNodes { start: 2, end: 2 },
];

#[test]
fn edges_are_in_the_tiles_beside_them(rt: HostRuntime) -> Result<(), Fail> {
    let edges = Copies::of_edges(rt.alloc(), 3, &SIDES)?;
    same(&rt, edges.in_tile(1), [1, 4].as_slice(), "edges in tile 1");
    same(&rt, edges.tiles_of(4), [1, 3].as_slice(), "tiles of edge 4");
    same(&rt, edges.local(1, 4), Some(2), "edge 4 in tile 1");
    Ok(())
}

#[test]
fn nodes_are_in_the_tiles_of_their_edges(rt: HostRuntime) -> Result<(), Fail> {
    let edges = Copies::of_edges(rt.alloc(), 3, &SIDES)?;
    let nodes = Copies::of_nodes(rt.alloc(), &edges, 4, &ENDS)?;
    same(
        &rt,
        nodes.in_tile(2),
        [1, 2, 3].as_slice(),
        "nodes in tile 2",
    );
    same(&rt, nodes.local(3, 3), None, "node 3 in tile 3");
    Ok(())
}

#[test]
fn faces_are_in_one_tile(rt: HostRuntime) -> Result<(), Fail> {
    let faces = Copies::of_places(rt.alloc(), 3, &[0, 3, 1, 3])?;
    same(&rt, faces.in_tile(3), [2, 4].as_slice(), "faces in tile 3");
    same(&rt, faces.tiles_of(1), [].as_slice(), "tiles of face 1");
    Ok(())
}
