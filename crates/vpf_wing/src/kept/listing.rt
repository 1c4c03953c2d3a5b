//! The cycles of the darts that a walk keeps.

ghost use Rattle.std.specs.Prelude.{◌≡◌, ◌<◌, IfOk, length, map, true};
ghost use Rattle.std.proofs.Props.{props};
ghost use Rattle.vpf_darts.specs.Cycles.{IsListing};
ghost use Rattle.vpf_darts.specs.Darts.{tile_dart_code};
ghost use Rattle.vpf_darts.specs.Listings.{numbers_of};
ghost use Rattle.vpf_darts.specs.Maps.{without};
ghost use Rattle.vpf_wing.specs.Inner.DartLaws.{stands_in};
ghost use Rattle.vpf_wing.specs.Inner.Kept.Kept.{AreInOrder, AreKept, next_rank, place_among};

use std::alloc::{AllocError, Global};
use vpf_darts::laws::{numbers_keep_order, renaming_keeps_cycles};
use vpf_darts::{Listing, Ranked, TileDart, Walk, list_cycles, next_kept};

/// The place of a dart among darts in their order, from 0: a binary search.
pub fn place_of(darts: &[TileDart], dart: TileDart) -> usize
    requires order { AreInOrder darts.now }
    requires there { stands_in (tile_dart_code dart) (map tile_dart_code darts.now) ≡ true }
    ensures place { result ≡ place_among (map tile_dart_code darts.now) (tile_dart_code dart) }
    ensures inside { result < length darts.now }
{
    numbers_keep_order();
    match darts.binary_search(&dart) {
        Ok(place) => place,
        Err(_) => unreachable!(),
    }
}

/// The darts that a walk keeps, in their order: the rank of a dart is its place.
#[derive(Drop)]
struct Kept<'w, W: Walk> {
    walk: &'w W,
    darts: &'w [TileDart],
    ghost kept: { AreKept (W.map walk.now) (W.passed walk.now) darts.now } by { Prim.hlevel props },
}

impl<W: Walk> Ranked for Kept<'_, W> {
    ghost use Rattle.std.specs.Prelude.{length, map, nat_lt, slice_index};
    ghost use Rattle.vpf_darts.specs.Darts.{tile_dart_code};
    ghost use Rattle.vpf_darts.specs.Maps.{without};
    ghost use Rattle.vpf_wing.specs.Inner.Kept.Kept.{next_rank};

    ghost count = { λ s. length s.darts.now };

    ghost code = { λ s rank. slice_index (map tile_dart_code s.darts.now) rank };

    ghost next = { λ s. next_rank (without (W.map s.walk.now) (W.passed s.walk.now)) (map tile_dart_code s.darts.now) };

    ghost live = { λ s rank. nat_lt rank (length s.darts.now) };

    fn count(&self) -> usize {
        self.darts.len()
    }

    fn dart_at(&self, rank: usize) -> TileDart {
        self.darts[rank]
    }

    fn is_live_at(&self, rank: usize) -> bool {
        rank < self.darts.len()
    }

    fn next_of(&self, rank: usize) -> usize {
        place_of(self.darts, next_kept(self.walk, self.darts[rank]))
    }
}

/// The listing of the cycles of the darts that a walk keeps, where `darts` are these in their order. Room for all of them is taken first.
pub fn list_kept<W: Walk>(
    alloc: Global,
    walk: &W,
    darts: &[TileDart],
) -> Result<Listing, AllocError>
    requires { AreKept (W.map walk.now) (W.passed walk.now) darts.now }
    ensures { IfOk result (λ listing. IsListing (without (W.map walk.now) (W.passed walk.now)).next
        (without (W.map walk.now) (W.passed walk.now)).live (numbers_of listing)) }
{
    renaming_keeps_cycles();
    list_cycles(alloc, &Kept { walk, darts })
}
