//! What no command reaches: the parts of a map, lists of which no map is made, and that each call succeeds with ample memory.

use crate::dart_trials::same::same;
use std::alloc::Global;
use std::process::Abort;
use std::test::Fail;
use vpf_darts::{Dart, Map, MapError, NotPermutation, cycles, flip, laws, without};

fn plus(edge: u32) -> Dart {
    Dart { edge, minus: false }
}

fn minus(edge: u32) -> Dart {
    Dart { edge, minus: true }
}

/// The map of these lists, where they are those of one.
fn map_of(
    rt: &impl Abort,
    alloc: Global,
    next: &[Dart],
    tail: &[u32],
    face: &[u32],
) -> Result<Map, MapError> {
    let next = Vec::from_slice(alloc, next)?;
    let tail = Vec::from_slice(alloc, tail)?;
    let face = Vec::from_slice(alloc, face)?;
    assert!(rt; Map::fits(&next, &tail, &face));
    Map::new(alloc, next, tail, face)
}

/// Three edges between two nodes, with three faces between them.
fn three_edges(rt: &impl Abort, alloc: Global) -> Result<Map, MapError> {
    let next = [minus(3), minus(2), plus(3), minus(1), plus(2), plus(1)];
    map_of(rt, alloc, &next, &[1, 2, 2, 1, 1, 2], &[2, 1, 3, 1, 3, 2])
}

/// A dart of the three edges, negative where it runs back; the next, its tail and its face, and the next where the third edge is left out.
const DARTS: [(i32, i32, [u32; 2], i32); 6] = [
    (1, -3, [1, 2], 2),
    (-1, -2, [2, 1], -2),
    (2, 3, [2, 3], 1),
    (-2, -1, [1, 1], -1),
    (3, 2, [1, 3], 3),
    (-3, 1, [2, 2], -3),
];

fn dart_of(number: i32) -> Dart {
    Dart {
        edge: number.unsigned_abs(),
        minus: number < 0,
    }
}

#[test]
fn reads_darts(rt: HostRuntime) -> Result<(), Fail> {
    let alloc = rt.alloc();
    let map = three_edges(&rt, alloc)?;
    assert!(rt; map.edges() == 3);
    let left = without(alloc, &map, &[false, false, true])?;
    for (number, next, [tail, face], next_left) in DARTS {
        let dart = dart_of(number);
        assert!(rt; map.has(dart) && left.has(dart));
        same(&rt, map.next(dart), dart_of(next), number);
        same(&rt, left.next(dart), dart_of(next_left), number);
        for map in [&map, &left] {
            assert!(rt; map.has(dart));
            same(&rt, [map.tail(dart), map.face(dart)], [tail, face], number);
        }
        same(&rt, left.is_live(dart), dart.edge < 3, number);
        same(&rt, flip(flip(dart)), dart, number);
    }
    for dart in [plus(0), minus(0), plus(4), minus(u32::MAX)] {
        same(&rt, map.has(dart), false, dart);
    }
    Ok(())
}

#[test]
fn refuses_what_is_no_permutation(rt: HostRuntime) -> Result<(), Fail> {
    let alloc = rt.alloc();
    for (next, dart) in [
        ([plus(2), minus(1), minus(1), plus(2)], plus(2)),
        ([plus(1), plus(1), minus(1), minus(1)], minus(1)),
        ([minus(2), plus(2), plus(1), plus(2)], minus(2)),
    ] {
        let made = map_of(&rt, alloc, &next, &[1, 1, 1, 1], &[1, 1, 1, 1]);
        let want = MapError::NotPermutation(NotPermutation { dart });
        same(&rt, made.err(), Some(want), dart);
    }
    let refusal = MapError::NotPermutation(NotPermutation { dart: minus(7) });
    let text = format!(in alloc; "{refusal}")?;
    same(&rt, text.as_str(), "an earlier dart has the next of 7-", 7);
    Ok(())
}

#[test]
fn makes_of_fitting_lists_alone(rt: HostRuntime) -> Result<(), Fail> {
    let alloc = rt.alloc();
    let both = [plus(1), minus(1)];
    for (next, tail, face, want) in [
        (both, [1, 1].as_slice(), [1, 1].as_slice(), true),
        (both, &[1], &[1, 1], false),
        (both, &[1, 1], &[1, 1, 1], false),
        ([plus(1), plus(2)], &[1, 1], &[1, 1], false),
        ([plus(1), plus(0)], &[1, 1], &[1, 1], false),
    ] {
        same(&rt, Map::fits(&next, tail, face), want, next);
    }
    same(&rt, Map::fits(&[plus(1)], &[1], &[1]), false, "one dart");
    let none = map_of(&rt, alloc, &[], &[], &[])?;
    assert!(rt; none.edges() == 0);
    let listing = cycles(alloc, &without(alloc, &none, &[])?)?;
    same(&rt, listing.is_empty(), true, "no edges");
    Ok(())
}

#[test]
fn holds_the_laws() {
    laws::numbers_name_darts();
    laws::numbers_keep_order();
    laws::first_kept_dart();
    laws::removal_leaves_a_map();
    laws::renaming_keeps_cycles();
    laws::darts_lie_on_cycles();
    laws::one_listing();
}
