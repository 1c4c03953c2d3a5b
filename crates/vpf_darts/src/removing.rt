//! A map without some of its edges.

ghost use Rattle.std.specs.Prelude.{◌≡◌, ℕ, ◌&&◌, not, IfOk, All, length, map, true};
ghost use Rattle.std.specs.List.{zip};
ghost use Rattle.vpf_darts.specs.Darts.{dart_code};
ghost use Rattle.vpf_darts.specs.Maps.{SameMap, without};
ghost use Rattle.vpf_darts.specs.MapLists.{AreMapLists, IsInRange, dart_map, edges_of, list_next};

use crate::darts::{Dart, TileDart};
use crate::maps::{FIRST, Map};
use crate::walking::{Walk, next_kept};
use std::alloc::{AllocError, Global};

/// A map, and the marks of its edges that are passed over.
#[derive(Drop)]
struct Kept<'a> {
    map: &'a Map,
    lines: &'a [bool],
    ghost lists: { AreMapLists map.now },
    ghost one_each: { length lines.now ≡ length map.now.live },
}

impl Walk for Kept<'_> {
    ghost map = { λ k. dart_map k.map.now };

    ghost passed = { λ k. edges_of k.lines.now };

    fn next(&self, dart: TileDart) -> TileDart {
        self.map.next(dart.untiled()).into()
    }

    fn flip(&self, dart: TileDart) -> TileDart {
        dart.flip()
    }

    fn is_passed(&self, dart: TileDart) -> bool {
        self.lines[dart.edge as usize - 1]
    }
}

/// The next of a dart that is left: a dart of an edge that is passed over is its own.
fn next_left(kept: &Kept<'_>, dart: Dart) -> Dart
    requires { (dart_map kept.now.map.now).has (dart_code dart) ≡ true }
    ensures has { (dart_map kept.now.map.now).has (dart_code result) ≡ true }
    ensures next { dart_code result ≡ (without (dart_map kept.now.map.now) (edges_of kept.now.lines.now)).next (dart_code dart) }
{
    if kept.is_passed(dart.into()) {
        dart
    } else {
        next_kept(kept, dart.into()).untiled()
    }
}

/// The nexts that are left of `1+`, `1-`, `2+` and so on.
fn nexts_left(alloc: Global, kept: &Kept<'_>) -> Result<Vec<Dart>, AllocError>
    ensures len { IfOk result (λ nexts. length nexts.items ≡ length kept.now.map.now.next) }
    ensures in_range { IfOk result (λ nexts. All (IsInRange (length kept.now.map.now.next)) nexts.items) }
    ensures next { IfOk result (λ nexts. (d : ℕ) → list_next nexts.items d ≡ (without (dart_map kept.now.map.now) (edges_of kept.now.lines.now)).next d) }
{
    let darts = 2 * kept.lines.len();
    let mut nexts = Vec::with_capacity(alloc, darts)?;
    for place in 0..darts {
        nexts.push(next_left(kept, Dart::of_number(place + FIRST)))?;
    }
    Ok(nexts)
}

/// Which edges are left: the live ones that are not marked.
fn live_left(alloc: Global, live: &[bool], lines: &[bool]) -> Result<Vec<bool>, AllocError>
    ensures { IfOk result (λ left. left.items ≡ map (λ p. p.0 && not p.1) (zip live.now lines.now)) }
{
    live.iter()
        .zip(lines)
        .map(|(live, line)| *live && !*line)
        .collect(alloc)
}

/// The map without the edges that are marked, removed one after the other by rising number. `lines` has a
/// mark for each edge, from edge 1; a mark of an edge that is not live changes nothing. Tails and faces
/// stay.
pub fn without(alloc: Global, map: &Map, lines: &[bool]) -> Result<Map, AllocError>
    requires { length lines.now ≡ length map.now.live }
    ensures left { IfOk result (λ left. SameMap (dart_map left) (without (dart_map map.now) (edges_of lines.now))) }
    ensures tail { IfOk result (λ left. left.tail ≡ map.now.tail) }
    ensures face { IfOk result (λ left. left.face ≡ map.now.face) }
{
    let live = live_left(alloc, &map.live, lines)?;
    let next = nexts_left(alloc, &Kept { map, lines })?;
    let tail = Vec::from_slice(alloc, &map.tail)?;
    let face = Vec::from_slice(alloc, &map.face)?;
    Ok(Map {
        next,
        tail,
        face,
        live,
    })
}
