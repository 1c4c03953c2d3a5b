//! The next of a dart in a tile.

ghost use Rattle.std.specs.Prelude.{◌≡◌, true};
ghost use Rattle.vpf_cutting.specs.Inner.Cuts.{plan_by};
ghost use Rattle.vpf_darts.specs.Darts.{dart_code};
ghost use Rattle.vpf_tiling.specs.Presence.{is_present, tile_map};

use crate::cut::Cut;
use vpf_darts::laws::first_kept_dart;
use vpf_darts::{Dart, TileDart, Walk, next_kept};
use vpf_wing::laws::well_formed_has_map;

/// The walk over the darts of a coverage that passes over the edges that aren't in a tile. Darts are in tile 0.
#[derive(Drop)]
pub struct TileWalk<'w, 'c, 'a> {
    /// The coverage that is cut.
    pub cut: &'w Cut<'c, 'a>,
    /// The tile.
    pub tile: u32,
}

impl Walk for TileWalk<'_, '_, '_> {
    ghost use Rattle.vpf_cutting.specs.Inner.Cuts.{plan_by};
    ghost use Rattle.vpf_tiling.specs.Presence.{absent_darts, coverage_map};

    ghost map = { λ w. coverage_map w.cut.now.source };

    ghost passed = { λ w. absent_darts w.cut.now.source (plan_by w.cut.now.plan) w.tile };

    fn next(&self, dart: TileDart) -> TileDart {
        let next = self.cut.next(Dart {
            edge: dart.edge,
            minus: dart.minus,
        });
        TileDart {
            tile: 0,
            edge: next.edge,
            minus: next.minus,
        }
    }

    fn flip(&self, dart: TileDart) -> TileDart {
        dart.flip()
    }

    fn is_passed(&self, dart: TileDart) -> bool {
        !self.cut.has_edge(self.tile, dart.edge)
    }
}

impl<'c, 'a> Cut<'c, 'a> {
    /// The next of a dart in a tile where its edge is: its next in the map of the coverage without the edges that aren't there. These are
    /// passed over one at a time about a node, and no memory is taken.
    pub fn next_in(&self, tile: u32, dart: Dart) -> Dart
        requires { is_present self.now.source (plan_by self.now.plan) tile (dart_code dart) ≡ true }
        ensures next { dart_code result ≡ (tile_map self.now.source (plan_by self.now.plan) tile).next (dart_code dart) }
        ensures there { is_present self.now.source (plan_by self.now.plan) tile (dart_code result) ≡ true }
    {
        self.plan_holds();
        well_formed_has_map();
        first_kept_dart();
        let from = TileDart {
            tile: 0,
            edge: dart.edge,
            minus: dart.minus,
        };
        let next = next_kept(&TileWalk { cut: self, tile }, from);
        Dart {
            edge: next.edge,
            minus: next.minus,
        }
    }
}
