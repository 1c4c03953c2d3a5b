//! The darts of a tile by their places in `1+`, `1-`, `2+` and so on, counted from 0.

ghost use Rattle.std.specs.Prelude.{◌≡◌, ◌+◌, ◌*◌, ◌^◌, ◌<◌, All, length, map, IfOk};
ghost use Rattle.vpf_darts.specs.Darts.{dart_code};
ghost use Rattle.vpf_darts.specs.MapLists.{IsInRange, dart_place};
ghost use Rattle.vpf_findings.specs.Findings.{sight_of};
ghost use Rattle.vpf_prims.specs.Edges.{HaveWings};
ghost use Rattle.vpf_prims.specs.declared.rows.Edge.{Edge};
ghost use Rattle.vpf_wing.specs.Nexts.{AreNexts, MakeMap};
ghost use Rattle.vpf_wing.specs.Places.{flip_place, place_seen};

use crate::following::place_of;
use crate::leasts::least_places;
use std::alloc::{AllocError, Global};
use std::marker::Model;
use vpf_darts::{Dart, TileDart};
use vpf_findings::Seen;
use vpf_prims::Edge;

/// The place of the other dart of the edge.
fn flip_place(place: u32) -> u32
    requires { place < 2 ^ 25 }
    ensures { result ≡ flip_place place }
{
    if place % 2 == 0 { place + 1 } else { place - 1 }
}

/// The dart at a place, as it is shown.
pub fn place_seen(tile: u32, place: u32) -> Seen<'static>
    requires { place < 2 ^ 25 }
    ensures { sight_of result ≡ place_seen tile place }
{
    Seen::Dart(TileDart {
        tile,
        edge: place / 2 + 1,
        minus: place % 2 == 1,
    })
}

/// The places of darts.
fn places_of(alloc: Global, darts: &[Dart]) -> Result<Vec<u32>, AllocError>
    requires few { length darts.now < 2 ^ 25 }
    requires in_range { All (IsInRange (length darts.now)) darts.now }
    ensures { IfOk result (λ places. places.items ≡ map (λ d. dart_place (dart_code d)) darts.now) }
{
    let mut places = Vec::with_capacity(alloc, darts.len())?;
    for dart in darts {
        places.push(place_of(*dart) as u32)?;
    }
    Ok(places)
}

/// The edges of a tile with the place of the next of each dart, where no two have one next. Contracts see it as the edges.
#[derive(Drop)]
pub struct Darts {
    edges: Vec<Edge>,
    nexts: Vec<u32>,
}

impl Model for Darts {
    ghost use Rattle.std.specs.Prelude.{List};
    ghost use Rattle.vpf_prims.specs.declared.rows.Edge.{Edge};
    ghost use Rattle.vpf_wing.specs.Inner.NextPlaces.{AreNextPlaces};

    ghost Value = { List Edge };

    ghost view = { λ d. d.edges.items };

    ghost invariant = { λ d. AreNextPlaces d.edges.items d.nexts.items };
}

impl Darts {
    ghost use Rattle.std.specs.Prelude.{◌≡◌, ◌*◌, ◌^◌, ◌<◌, IfOk, length};
    ghost use Rattle.vpf_prims.specs.Edges.{HaveWings, IsEdge};
    ghost use Rattle.vpf_wing.specs.Nexts.{AreNexts, MakeMap};
    ghost use Rattle.vpf_wing.specs.Places.{turn_size};

    /// The darts of edges whose nexts these are.
    pub fn new(alloc: Global, edges: Vec<Edge>, nexts: Vec<Dart>) -> Result<Darts, AllocError>
        requires few { length edges.items < 2 ^ 24 }
        requires nexts { AreNexts edges.items nexts.items }
        requires map { MakeMap edges.items }
        ensures { IfOk result (λ darts. darts ≡ edges.items) }
    {
        let nexts = places_of(alloc, &nexts)?;
        Ok(Darts { edges, nexts })
    }

    /// The edges, by their numbers from 1.
    pub fn edges(&self) -> &[Edge]
        ensures edges { result.now ≡ self.now }
        ensures few { length self.now < 2 ^ 24 }
    {
        &self.edges
    }

    /// How many darts are on one cycle of turn with the dart at a place.
    pub fn turn_size(&self, start: u32) -> u32
        requires { start < 2 * length self.now }
        ensures { result ≡ turn_size self.now start }
    {
        let darts = self.nexts.len() as u32;
        let mut at = start;
        for k in 0..darts {
            at = self.nexts[flip_place(at) as usize];
            if at == start {
                return k + 1;
            }
        }
        darts
    }
}

/// The darts of a tile with the least place of the cycle of each. Contracts see it as the edges.
#[derive(Drop)]
pub struct Cycles {
    darts: Darts,
    leasts: Vec<u32>,
}

impl Model for Cycles {
    ghost use Rattle.std.specs.Prelude.{List};
    ghost use Rattle.vpf_prims.specs.declared.rows.Edge.{Edge};
    ghost use Rattle.vpf_wing.specs.Inner.Leasts.{AreLeastPlaces};

    ghost Value = { List Edge };

    ghost view = { λ c. c.darts };

    ghost invariant = { λ c. AreLeastPlaces c.darts c.leasts.items };
}

impl Cycles {
    ghost use Rattle.std.specs.Prelude.{◌≡◌, ◌*◌, ◌^◌, ◌<◌, ◌≤◌, IfOk, length};
    ghost use Rattle.vpf_wing.specs.Places.{least_place};

    /// The cycles of darts.
    pub fn new(alloc: Global, darts: Darts) -> Result<Cycles, AllocError>
        ensures { IfOk result (λ cycles. cycles ≡ darts) }
    {
        let leasts = least_places(alloc, &darts.nexts)?;
        Ok(Cycles { darts, leasts })
    }

    /// The edges, by their numbers from 1.
    pub fn edges(&self) -> &[Edge]
        ensures edges { result.now ≡ self.now }
        ensures few { length self.now < 2 ^ 24 }
    {
        self.darts.edges()
    }

    /// The place of the least dart of the cycle of the dart at a place.
    #[tactic(auto, using(crate::proofs::PlaceLemmas::least_low))]
    pub fn least(&self, place: u32) -> u32
        requires { place < 2 * length self.now }
        ensures value { result ≡ least_place self.now place }
        ensures low { result ≤ place }
    {
        self.leasts[place as usize]
    }

    /// The darts alone.
    pub fn into_darts(self) -> Darts
        ensures { result ≡ self }
    {
        self.darts
    }
}
