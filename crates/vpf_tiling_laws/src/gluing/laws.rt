//! What is so of every coverage that may be tiled, and of every plan.

ghost use Rattle.vpf_tiling_laws.specs.Inner.Gluing.Gluing.{GluingGivesRenumbered, WholeIsNamed};
ghost use Rattle.vpf_tiling_laws.specs.Inner.Gluing.Renumbering.{EdgesAreMoved, EdgesStayApart, FacesAreMoved, FacesStayApart, NodesAreMoved, NodesStayApart};

use crate::tiled::laws::map_is_named;

/// What is read of the tiled library for gluing is the coverage with its darts, faces and entity nodes called by their names; so the library
/// is glued to the coverage that was cut, renumbered, and the plan of the library names the same tiles.
pub fn gluing_gives_renumbered()
    ensures whole { WholeIsNamed }
    ensures glued { GluingGivesRenumbered }
{
    map_is_named();
}

/// The renumbered coverage is the coverage with its edges, faces and nodes under new numbers, no two under one: the row of an edge says of the
/// new numbers what its own says of the old ones, and the rows of a face and of a node carry the same.
pub fn renumbered_is_moved()
    ensures edges { EdgesAreMoved }
    ensures edges_apart { EdgesStayApart }
    ensures faces { FacesAreMoved }
    ensures faces_apart { FacesStayApart }
    ensures nodes { NodesAreMoved }
    ensures nodes_apart { NodesStayApart }
{}
