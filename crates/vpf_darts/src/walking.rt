//! The walk to the next kept dart, which takes no memory.

ghost use Rattle.std.specs.Prelude.{◌≡◌, ℕ, List, true, false};
ghost use Rattle.vpf_darts.specs.Darts.{tile_dart_code};
ghost use Rattle.vpf_darts.specs.Maps.{DartMap, IsMap, AreEdges, is_of_any, without};

use crate::darts::TileDart;

/// A map whose darts are asked for one at a time, and edges of it that are passed over.
pub trait Walk {
    // The map that is walked.
    ghost map: { Self → DartMap };

    // The edges that are passed over, each by one of its darts.
    ghost passed: { Self → List ℕ };

    /// The dart that follows round the dart's face.
    fn next(&self, dart: TileDart) -> TileDart
        requires { (map self.now).has (tile_dart_code dart) ≡ true }
        ensures { tile_dart_code result ≡ (map self.now).next (tile_dart_code dart) };

    /// The other dart of the edge.
    fn flip(&self, dart: TileDart) -> TileDart
        requires { (map self.now).has (tile_dart_code dart) ≡ true }
        ensures { tile_dart_code result ≡ (map self.now).flip (tile_dart_code dart) };

    /// Whether the dart's edge is passed over.
    fn is_passed(&self, dart: TileDart) -> bool
        requires { (map self.now).has (tile_dart_code dart) ≡ true }
        ensures { result ≡ is_of_any (map self.now).flip (passed self.now) (tile_dart_code dart) };
}

/// The next of a kept dart in the map without the edges that are passed over: the first kept dart about
/// its head. A run of such edges is passed over one at a time, and no memory is taken.
pub fn next_kept<W: Walk>(walk: &W, dart: TileDart) -> TileDart
    requires map { IsMap (W.map walk.now) }
    requires edges { AreEdges (W.map walk.now) (W.passed walk.now) }
    requires has { (W.map walk.now).has (tile_dart_code dart) ≡ true }
    requires kept { is_of_any (W.map walk.now).flip (W.passed walk.now) (tile_dart_code dart) ≡ false }
    ensures has { (W.map walk.now).has (tile_dart_code result) ≡ true }
    ensures next { tile_dart_code result ≡ (without (W.map walk.now) (W.passed walk.now)).next (tile_dart_code dart) }
{
    let mut at = walk.next(dart);
    while walk.is_passed(at) {
        at = walk.next(walk.flip(at));
    }
    at
}
