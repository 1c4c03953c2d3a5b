//! What is so of the numbers in tiles.

ghost use Rattle.vpf_tiling.specs.Inner.Laws.{EdgesAreCounted, FacesAreCounted, NodesAreCounted};

/// The number of an edge or of a node in a tile is how many of those that are present there are up to it, and that of a face is one more.
pub fn local_numbers_count()
    ensures edges { EdgesAreCounted }
    ensures nodes { NodesAreCounted }
    ensures faces { FacesAreCounted }
{}
