//! What gluing stands on.

ghost use Rattle.vpf_prims.specs.Libraries.{library_of};
ghost use Rattle.vpf_renumbering.specs.Inner.GluedFaces.Faces.{IsJoined};

use crate::whole::WholeMap;
use vpf_cross::Checked;
use vpf_numbers::laws::numbers_decide;
use vpf_wing::laws::cycles_decide;

/// What is so of each checked coverage: its tiles are numbered, their cycles hold, and it is one map.
pub(crate) fn faces_are_joined(checked: &Checked<'_, '_>)
    ensures { IsJoined (library_of checked.now) }
{
    let coverage = checked.coverage();
    coverage.tiles_make_library();
    coverage.numbers_hold();
    checked.topology_holds();
    numbers_decide();
    cycles_decide();
    WholeMap::new(checked).makes_map();
}
