//! What is so of every library that agrees, and of its boundary cycles past its lines between tiles.

ghost use Rattle.vpf_trace.specs.Inner.Laws.{LibraryHasKept, LibraryHasLines, LibraryHasMap, LibraryHasTrace, OneTrace, TraceWithoutLines};
ghost use Rattle.vpf_trace.specs.Inner.Laws.{UntiledMapIsOfWings};

use vpf_cross::follow::laws::homes_exist;
use vpf_darts::laws::{one_listing, removal_leaves_a_map};

/// A library that agrees is a combinatorial map; that of an untiled coverage is the map of its wings.
pub fn library_has_map()
    ensures map { LibraryHasMap }
    ensures wings { UntiledMapIsOfWings }
{
    homes_exist();
}

/// The lines of a library that agrees are the edges that are marked so, and what is left without them is a map of the home darts of the
/// other edges.
pub fn lines_leave_a_map()
    ensures lines { LibraryHasLines }
    ensures kept { LibraryHasKept }
{
    homes_exist();
    removal_leaves_a_map();
}

/// A library that agrees has exactly one listing of its boundary cycles past its lines; where no edge is a line, it is that of its map.
pub fn one_trace()
    ensures some { LibraryHasTrace }
    ensures one { OneTrace }
    ensures plain { TraceWithoutLines }
{
    homes_exist();
    removal_leaves_a_map();
    one_listing();
}
