//! How many entity nodes there are.

ghost use Rattle.std.specs.Prelude.{◌≡◌, length, flat_map};
ghost use Rattle.vpf_tiling_laws.specs.Gluing.Whole.{tiles_in, whole_entities};
ghost use Rattle.vpf_prims.specs.Libraries.{library_of};

use crate::glued_faces::counting::own_entities;
use vpf_cross::Checked;

/// How many entity nodes the tiles of a coverage have (MIL-STD-2407, 5.2.2, entity nodes). They can be more than a table has rows.
pub fn entity_count(checked: &Checked<'_, '_>) -> u64
    ensures { result ≡ length (flat_map (whole_entities (library_of checked.now)) (tiles_in (library_of checked.now))) }
{
    let coverage = checked.coverage();
    let mut count: u64 = 0;
    for tile in 0..=coverage.tiles() {
        count += u64::from(own_entities(coverage, tile));
    }
    count
}
