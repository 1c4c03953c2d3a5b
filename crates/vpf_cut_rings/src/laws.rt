//! What is so of the rings of all tiles.

ghost use Rattle.vpf_cut_rings.specs.Inner.Laws.{LeastsBeginCycles, OuterRingsBeginCycles};

use vpf_darts::laws::first_kept_dart;
use vpf_wing::laws::well_formed_has_map;

/// Among darts that pass a test which is the same along their nexts, the least of each cycle are those that the cycles of a listing begin with.
pub fn leasts_begin_cycles()
    ensures { LeastsBeginCycles }
{}

/// The outer rings of a tile are those of the cycles of a listing of the tile's map whose first darts have no face of the tile, in their order.
pub fn outer_rings_begin_cycles()
    ensures { OuterRingsBeginCycles }
{
    first_kept_dart();
    well_formed_has_map();
}
