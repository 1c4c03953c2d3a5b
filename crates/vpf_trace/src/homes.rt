//! The home copy of a dart of a checked coverage, and the home dart that follows it.

ghost use Rattle.std.specs.Prelude.{◌≡◌, Some, true};
ghost use Rattle.vpf_darts.specs.Darts.{tile_dart_code};
ghost use Rattle.vpf_prims.specs.Libraries.{library_of};
ghost use Rattle.vpf_wing.specs.Links.{links_of};
ghost use Rattle.vpf_cross.specs.Following.{follow, home_copy};

use crate::stepping::walks_pass_lines;
use vpf_cross::Checked;
use vpf_cross::follow::follow;
use vpf_darts::TileDart;

/// The home copy of a dart of a checked coverage: itself where it is a home dart, and else the home dart that the same dart follows
/// (MIL-STD-2407, 5.2.3, cross-tile topology). In an untiled coverage every dart is a home dart. Takes no memory and can't fail.
pub fn home_copy(checked: &Checked<'_, '_>, dart: TileDart) -> TileDart
    requires { (links_of (library_of checked.now)).has (tile_dart_code dart) ≡ true }
    ensures copy { tile_dart_code result ≡ home_copy (links_of (library_of checked.now)) (tile_dart_code dart) }
{
    walks_pass_lines(checked);
    match checked.followed() {
        Some(followed) => followed.home_copy(dart),
        None => dart,
    }
}

/// The home dart that follows a dart of a checked coverage across its tiles, of which there always is one. It reads the rows of the dart's edge
/// and of its wing, takes no memory and can't fail.
pub fn next(checked: &Checked<'_, '_>, dart: TileDart) -> TileDart
    requires { (links_of (library_of checked.now)).has (tile_dart_code dart) ≡ true }
    ensures next { follow (links_of (library_of checked.now)) (tile_dart_code dart) ≡ Some (tile_dart_code result) }
{
    walks_pass_lines(checked);
    match follow(checked.coverage(), dart) {
        Some(next) => next,
        None => unreachable!(),
    }
}
