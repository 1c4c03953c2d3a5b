//! What is so of the wings of all edges, of every edge table, and of every tile whose cycles are looked at.

ghost use Rattle.vpf_wing.specs.Inner.Laws.{CyclesDecide, EdgesAreMap, HasBoundaryListing, LoopsDecide, MadeMapIsMap};
ghost use Rattle.vpf_wing.specs.Inner.Laws.{NoFindingWhereMapIsMade, OneBoundaryListing, WellFormedHasMap};

use vpf_prims::laws::rows_have_wings;

/// There is no finding on wings exactly where each dart has one next dart and no two the same; and then the edges are a map.
pub fn no_finding_where_a_map_is_made()
    ensures exactly { NoFindingWhereMapIsMade }
    ensures map { MadeMapIsMap }
{}

/// An edge table without findings has exactly one listing of its boundary cycles.
pub fn one_boundary_listing()
    ensures map { EdgesAreMap }
    ensures some { HasBoundaryListing }
    ensures one { OneBoundaryListing }
{
    rows_have_wings();
    vpf_darts::laws::one_listing();
}

/// A well-formed untiled coverage is a combinatorial map.
pub fn well_formed_has_map()
    ensures { WellFormedHasMap }
{}

/// There is no finding on the loops of an untiled coverage exactly where they have two different faces.
pub fn loops_decide()
    ensures { LoopsDecide }
{}

/// There is no finding on the wings, cycles, rings and nodes of a tile, whose numbers are right, exactly where each dart has a next
/// of its own, each cycle of nexts one ring, and each node one cycle of turn.
pub fn cycles_decide()
    ensures { CyclesDecide }
{}
