//! What is so of all maps, of what is left of them, and of their listings.

ghost use Rattle.std.specs.Prelude.{◌≡◌, ◌<◌, ◌^◌};
ghost use Rattle.std.specs.Ordering.{nat_cmp};
ghost use Rattle.vpf_darts.specs.declared.darts.TileDart.{TileDart};
ghost use Rattle.vpf_darts.specs.Darts.{tile_dart_code};
ghost use Rattle.vpf_darts.specs.Inner.Laws.{NumbersNameDarts, PartsGiveNumber, FlipIsOfSign};
ghost use Rattle.vpf_darts.specs.Inner.Laws.{FirstKeptDart, RemovalLeavesAMap, RemovalIsOfASet, RemovalIsOfLiveEdges, RemainderHasListing};
ghost use Rattle.vpf_darts.specs.Inner.Laws.{RenamingKeepsCycles, RisingRenamingKeepsListing, RenamingKeepsRemoval, RenamingGivesAMap};
ghost use Rattle.vpf_darts.specs.Inner.Laws.{OneListing, MapHasListing, DartLiesOnCycle};

use crate::darts::TileDart;

/// A number is that of one dart: it gives back the tile, the edge and the sign.
pub fn numbers_name_darts()
    ensures parts { NumbersNameDarts }
    ensures number { PartsGiveNumber }
    ensures flip { FlipIsOfSign }
{}

/// Darts are ordered as their numbers.
pub fn numbers_keep_order()
    ensures { (c d : TileDart) → c.edge < 2 ^ 32 → d.edge < 2 ^ 32 → ⟦<TileDart as Ord>⟧.cmp c d ≡ nat_cmp (tile_dart_code c) (tile_dart_code d) }
{}

/// In a map without some edges, the next of a kept dart is the first kept dart about its head.
pub fn first_kept_dart()
    ensures { FirstKeptDart }
{}

/// A map without any set of edges is a map, whatever the order in which they are removed, so its
/// listing holds each kept dart once.
pub fn removal_leaves_a_map()
    ensures map { RemovalLeavesAMap }
    ensures listing { RemainderHasListing }
    ensures set { RemovalIsOfASet }
    ensures live { RemovalIsOfLiveEdges }
{}

/// A bijection of the live darts that keeps `next` and `flip` takes cycles to cycles.
pub fn renaming_keeps_cycles()
    ensures cycles { RenamingKeepsCycles }
    ensures listing { RisingRenamingKeepsListing }
    ensures removal { RenamingKeepsRemoval }
    ensures map { RenamingGivesAMap }
{}

/// Each live dart lies on a cycle.
pub fn darts_lie_on_cycles()
    ensures { DartLiesOnCycle }
{}

/// A map has exactly one listing.
pub fn one_listing()
    ensures one { OneListing }
    ensures some { MapHasListing }
{}
