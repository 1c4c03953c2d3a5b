//! What is so of the files that tiling comes to.

ghost use Rattle.vpf_tiler.specs.Inner.Laws.{MadeAgrees, MadeGoesOn, MadeHasCycles, MadeIsGlued, MadeIsTileable};

use crate::tiled_files::laws::made_is_held;
use vpf_library_files::loading::laws::coverages_are_held;
use vpf_primitive_tables::tile_reading::laws::{cuts_are_read, cuts_have_columns};
use vpf_primitive_tables::tile_writing::laws::{tilerefs_are_written, tiles_are_writable};
use vpf_tiling::tileable::laws::refusals_decide;
use vpf_tiling_laws::gluing::laws::gluing_gives_renumbered;
use vpf_tiling_laws::tiled::laws::{
    following_is_next, listing_is_named, map_is_named, tiled_agrees,
};

/// Where tiling comes to some files, the coverage may be tiled by its plan, and each folder that holds exactly these files holds the coverage in
/// tiles: it agrees, goes on as the coverage does, has its boundary cycles past its lines between tiles, and is glued to it.
pub fn made_agrees()
    ensures tileable { MadeIsTileable }
    ensures accepted { MadeAgrees }
    ensures next { MadeGoesOn }
    ensures cycles { MadeHasCycles }
    ensures glued { MadeIsGlued }
{
    refusals_decide();
    coverages_are_held();
    cuts_are_read();
    cuts_have_columns();
    tiles_are_writable();
    tilerefs_are_written();
    made_is_held();
    tiled_agrees();
    following_is_next();
    map_is_named();
    listing_is_named();
    gluing_gives_renumbered();
}
