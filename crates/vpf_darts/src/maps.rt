//! Combinatorial maps of untiled coverages.

ghost use Rattle.std.specs.Prelude.{◌≡◌, ◌↔◌, ◌/◌, ◌^◌, ◌<◌, IsTrue, IfOk, IfErr, OnOk, length, true, vec_len};
ghost use Rattle.vpf_darts.specs.Darts.{dart_code};
ghost use Rattle.vpf_darts.specs.Maps.{IsMap};
ghost use Rattle.vpf_darts.specs.MapLists.{AreMapLists, AreOfDarts, IsFirstRepeat, dart_map, lists_of, list_tail, list_face};
ghost use Rattle.vpf_darts.specs.Inner.MapError.{IfNotPermutation};

use crate::darts::Dart;
use crate::repeats::first_repeat;
use std::alloc::{AllocError, Global};
use std::marker::Model;
use thiserror::Error;

/// A map has fewer darts than this, two for each of fewer than 2^32 edges.
const MAX_DARTS: usize = 1 << 33;

/// The number of `1+`, the first dart of the lists.
pub(crate) const FIRST: usize = 2;

/// Two darts have one next, so the nexts are no permutation.
#[derive(Clone, Copy, Debug, PartialEq, Eq, Error)]
#[error("an earlier dart has the next of {dart}")]
pub struct NotPermutation {
    /// The least dart whose next an earlier dart has.
    pub dart: Dart,
}

/// Why no map was made.
#[derive(Clone, Copy, Debug, PartialEq, Eq, Error)]
pub enum MapError {
    /// Two darts have one next.
    #[error(transparent)]
    NotPermutation(NotPermutation),
    /// There was too little memory.
    #[error("out of memory")]
    NoMemory,
}

impl From<AllocError> for MapError {
    ghost use Rattle.std.specs.Prelude.{◌≡◌};
    ghost use Rattle.vpf_darts.specs.declared.maps.MapError.TheVariants.{NoMemory};

    ghost from_gives = { λ _ e. e ≡ NoMemory };

    fn from(_: AllocError) -> MapError {
        MapError::NoMemory
    }
}

/// A combinatorial map of an untiled coverage: the next of each dart, its tail node and its face, and
/// which edges are live.
///
/// An edge that was removed keeps its darts, each its own next.
#[derive(Drop)]
pub struct Map {
    pub(crate) next: Vec<Dart>,
    pub(crate) tail: Vec<u32>,
    pub(crate) face: Vec<u32>,
    pub(crate) live: Vec<bool>,
}

impl Model for Map {
    ghost use Rattle.std.specs.Prelude.{map};
    ghost use Rattle.std.specs.Prelude.{All, length};
    ghost use Rattle.vpf_darts.specs.Darts.{dart_code};
    ghost use Rattle.vpf_darts.specs.MapLists.{MapLists, AreMapLists, IsInRange};

    ghost Value = { MapLists };

    ghost view = { λ m. record { next = map dart_code m.next.items; tail = m.tail.items; face = m.face.items; live = m.live.items } };

    ghost invariant = { λ m. AreMapLists (record { next = map dart_code m.next.items; tail = m.tail.items; face = m.face.items; live = m.live.items })
        × All (IsInRange (length m.next.items)) m.next.items };
}

impl Map {
    /// Whether a map may be made of these lists.
    pub fn fits(next: &[Dart], tail: &[u32], face: &[u32]) -> bool
        ensures { IsTrue result ↔ AreOfDarts next.now tail.now face.now }
    {
        let darts = next.len();
        darts < MAX_DARTS
            && darts % 2 == 0
            && tail.len() == darts
            && face.len() == darts
            && next.iter().all(|dart| dart.is_in_range(darts))
    }

    /// The map of these lists, which hold the next, the tail node and the face of `1+`, `1-`, `2+` and so
    /// on.
    pub fn new(
        alloc: Global,
        next: Vec<Dart>,
        tail: Vec<u32>,
        face: Vec<u32>,
    ) -> Result<Map, MapError>
        requires lists { AreOfDarts next.items tail.items face.items }
        ensures made { IfOk result (λ m. m ≡ lists_of next.items tail.items face.items) }
        ensures permutation { OnOk result (IsMap (dart_map (lists_of next.items tail.items face.items))) }
        ensures repeat { IfErr result (λ e. IfNotPermutation e
            (λ dart. IsFirstRepeat (dart_map (lists_of next.items tail.items face.items)) (dart_code dart))) }
    {
        if let Some(dart) = first_repeat(alloc, &next)? {
            return Err(MapError::NotPermutation(NotPermutation { dart }));
        }
        let live = vec![in alloc; true; next.len() / 2]?;
        Ok(Map {
            next,
            tail,
            face,
            live,
        })
    }

    /// How many edges the map has, live or removed.
    pub fn edges(&self) -> u32
        ensures edges { result ≡ length self.now.live }
        ensures map { AreMapLists self.now }
    {
        self.live.len() as u32
    }

    /// Whether the dart is of one of the edges, live or removed.
    pub fn has(&self, dart: Dart) -> bool
        ensures { result ≡ (dart_map self.now).has (dart_code dart) }
    {
        dart.is_in_range(self.next.len())
    }

    /// Whether the dart's edge is live.
    pub fn is_live(&self, dart: Dart) -> bool
        requires { (dart_map self.now).has (dart_code dart) ≡ true }
        ensures { result ≡ (dart_map self.now).live (dart_code dart) }
    {
        self.live[dart.edge as usize - 1]
    }

    /// The dart that follows round the dart's face.
    pub fn next(&self, dart: Dart) -> Dart
        requires { (dart_map self.now).has (dart_code dart) ≡ true }
        ensures { dart_code result ≡ (dart_map self.now).next (dart_code dart) }
    {
        self.next[dart.number() - FIRST]
    }

    /// The node that the dart runs from.
    pub fn tail(&self, dart: Dart) -> u32
        requires { (dart_map self.now).has (dart_code dart) ≡ true }
        ensures { result ≡ list_tail self.now (dart_code dart) }
    {
        self.tail[dart.number() - FIRST]
    }

    /// The face that the dart runs round: the right face of `e+`, the left face of `e-`.
    pub fn face(&self, dart: Dart) -> u32
        requires { (dart_map self.now).has (dart_code dart) ≡ true }
        ensures { result ≡ list_face self.now (dart_code dart) }
    {
        self.face[dart.number() - FIRST]
    }
}
