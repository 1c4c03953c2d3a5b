//! The cycles of a map.

ghost use Rattle.std.specs.Prelude.{◌≡◌, ℕ, ◌+◌, ◌^◌, ◌<◌, ◌≤◌, All, Bool, IfOk, OnOk, false, length, map, not};
ghost use Rattle.vpf_darts.specs.Cycles.{IsListing};
ghost use Rattle.vpf_darts.specs.Darts.{tile_dart_code};
ghost use Rattle.vpf_darts.specs.Listings.{numbers_of};
ghost use Rattle.vpf_darts.specs.MapLists.{AreMapLists, IsInRange, dart_map, is_among, list_next};
ghost use Rattle.vpf_darts.specs.Inner.Ranks.{AddsCycle, IsClosed, IsRankedListing, IsRanking, marked};

use crate::darts::{Dart, TileDart};
use crate::listings::Listing;
use crate::maps::{FIRST, Map};
use std::alloc::{AllocError, Global};

/// Darts that have ranks, from 0 in the darts' order, by which their cycles are listed.
pub trait Ranked {
    // How many ranks there are.
    ghost count: { Self → ℕ };

    // The number of the dart of a rank.
    ghost code: { Self → ℕ → ℕ };

    // The rank of the next, and the rank itself beyond the count.
    ghost next: { Self → ℕ → ℕ };

    // Whether the dart of a rank is live.
    ghost live: { Self → ℕ → Bool };

    /// How many ranks there are.
    fn count(&self) -> usize
        ensures { result ≡ count self.now };

    /// The dart of a rank.
    fn dart_at(&self, rank: usize) -> TileDart
        requires { rank < count self.now }
        ensures { tile_dart_code result ≡ code self.now rank };

    /// Whether the dart of a rank is live: no other is listed.
    fn is_live_at(&self, rank: usize) -> bool
        requires { rank < count self.now }
        ensures { result ≡ live self.now rank };

    /// The rank of the next of the dart of a rank.
    fn next_of(&self, rank: usize) -> usize
        requires { rank < count self.now }
        ensures { result ≡ next self.now rank };
}

/// The listing of the cycles of the live darts, by their ranks. Each rank is looked at once, and room for
/// all darts is taken first.
pub fn list_cycles<R: Ranked>(alloc: Global, darts: &R) -> Result<Listing, AllocError>
    requires { IsRanking (R.count darts.now) (R.next darts.now) (R.live darts.now) }
    ensures { IfOk result (IsRankedListing (R.code darts.now) (R.next darts.now) (R.live darts.now)) }
{
    let mut marks = marks_of_dead(alloc, darts)?;
    let mut listed = Vec::with_capacity(alloc, darts.count())?;
    let mut ends = Vec::with_capacity(alloc, darts.count())?;
    for start in 0..darts.count() {
        if !marks[start] {
            push_cycle(darts, start, &mut marks, &mut listed)?;
            ends.push(listed.len())?;
        }
    }
    Ok(Listing {
        darts: listed,
        ends,
    })
}

/// Marks of the ranks of the darts that are not live.
fn marks_of_dead<R: Ranked>(alloc: Global, darts: &R) -> Result<Vec<bool>, AllocError>
    requires { IsRanking (R.count darts.now) (R.next darts.now) (R.live darts.now) }
    ensures len { IfOk result (λ marks. length marks.items ≡ R.count darts.now) }
    ensures dead { IfOk result (λ marks. (d : ℕ) → marked marks.items d ≡ not (R.live darts.now d)) }
{
    let mut marks = Vec::with_capacity(alloc, darts.count())?;
    for rank in 0..darts.count() {
        marks.push(!darts.is_live_at(rank))?;
    }
    Ok(marks)
}

/// Puts the cycle from `start` after the darts that are listed, and marks it.
fn push_cycle<R: Ranked>(
    darts: &R,
    start: usize,
    marks: &mut [bool],
    listed: &mut Vec<TileDart>,
) -> Result<(), AllocError>
    requires ranking { IsRanking (R.count darts.now) (R.next darts.now) (R.live darts.now) }
    requires one_each { length marks.old ≡ R.count darts.now }
    requires closed { IsClosed (R.next darts.now) (marked marks.old) }
    requires inside { start < R.count darts.now }
    requires unmarked { marked marks.old start ≡ false }
    ensures { OnOk result (AddsCycle (R.code darts.now) (R.next darts.now) start (marked marks.old) (marked marks.new)
        (map tile_dart_code listed.old.items) (map tile_dart_code listed.new.items)) }
{
    let mut rank = start;
    while !marks[rank] {
        marks[rank] = true;
        listed.push(darts.dart_at(rank))?;
        rank = darts.next_of(rank);
    }
    Ok(())
}

/// The darts of a map by their numbers, of which 0 and 1 are none.
#[derive(Drop)]
struct Numbered<'a> {
    map: &'a Map,
    ghost lists: { AreMapLists map.now },
}

impl Ranked for Numbered<'_> {
    ghost use Rattle.std.specs.Prelude.{◌+◌, length};
    ghost use Rattle.vpf_darts.specs.MapLists.{dart_map};

    ghost count = { λ s. length s.map.now.next + 2 };

    ghost code = { λ _ d. d };

    ghost next = { λ s. (dart_map s.map.now).next };

    ghost live = { λ s. (dart_map s.map.now).live };

    fn count(&self) -> usize {
        2 * self.map.edges() as usize + FIRST
    }

    fn dart_at(&self, rank: usize) -> TileDart {
        Dart::of_number(rank).into()
    }

    fn is_live_at(&self, rank: usize) -> bool {
        rank >= FIRST && self.map.is_live(Dart::of_number(rank))
    }

    fn next_of(&self, rank: usize) -> usize {
        if rank < FIRST {
            rank
        } else {
            self.map.next(Dart::of_number(rank)).number()
        }
    }
}

/// The listing of the cycles of a map: each begins with its least dart, and the first darts rise. The
/// darts are in tile 0, and those of removed edges are in no cycle.
pub fn cycles(alloc: Global, map: &Map) -> Result<Listing, AllocError>
    ensures listing { IfOk result (λ listing. IsListing (dart_map map.now).next (dart_map map.now).live (numbers_of listing)) }
    ensures untiled { IfOk result (All (All (λ d. d.tile ≡ 0))) }
{
    let _edges = map.edges();
    list_cycles(alloc, &Numbered { map })
}

/// The darts of nexts that are a permutation, by their numbers, of which 0 and 1 are none.
#[derive(Drop)]
struct Permuted<'a> {
    next: &'a [Dart],
    ghost few: { length next.now + 2 ≤ 2 ^ 33 },
    ghost in_range: { All (IsInRange (length next.now)) next.now },
}

impl Ranked for Permuted<'_> {
    ghost use Rattle.std.specs.Prelude.{◌+◌, length};
    ghost use Rattle.vpf_darts.specs.MapLists.{is_among, list_next};

    ghost count = { λ s. length s.next.now + 2 };

    ghost code = { λ _ d. d };

    ghost next = { λ s. list_next s.next.now };

    ghost live = { λ s. is_among (length s.next.now) };

    fn count(&self) -> usize {
        self.next.len() + FIRST
    }

    fn dart_at(&self, rank: usize) -> TileDart {
        Dart::of_number(rank).into()
    }

    fn is_live_at(&self, rank: usize) -> bool {
        rank >= FIRST
    }

    fn next_of(&self, rank: usize) -> usize {
        if rank < FIRST {
            rank
        } else {
            self.next[rank - FIRST].number()
        }
    }
}

/// The listing of the cycles of nexts of `1+`, `1-`, `2+` and so on that are known to be a permutation: no map is made, and no
/// tails or faces are needed. The darts are in tile 0.
pub fn cycles_of(alloc: Global, next: &[Dart]) -> Result<Listing, AllocError>
    requires few { length next.now + 2 ≤ 2 ^ 33 }
    requires in_range { All (IsInRange (length next.now)) next.now }
    requires permutation { IsRanking (length next.now + 2) (list_next next.now) (is_among (length next.now)) }
    ensures listing { IfOk result (λ listing. IsListing (list_next next.now) (is_among (length next.now)) (numbers_of listing)) }
    ensures untiled { IfOk result (All (All (λ d. d.tile ≡ 0))) }
{
    list_cycles(alloc, &Permuted { next })
}
