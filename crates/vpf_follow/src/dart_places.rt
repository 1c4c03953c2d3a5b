//! Where darts stand first in a list, found by their tiles, edges and signs.

ghost use Rattle.std.specs.Prelude.{◌≡◌, ◌==◌, ◌<◌, ◌≤◌, ◌^◌, ◌-◌, ◌++◌, ◌∷◌, ℕ, [], IfOk, IfSome, OnErr, OnOk, get_or, if◌then◌else◌, length, position};
ghost use Rattle.vpf_darts.specs.declared.darts.TileDart.{TileDart as Dart};
ghost use Rattle.vpf_follow.specs.Inner.DartPlaces.{count_for, place_in_tile};

use std::alloc::{AllocError, Global};
use std::marker::Model;
use vpf_darts::TileDart;

/// What is counted of the darts of a tile: 0 where nothing is. Contracts see it as the counts.
#[derive(Drop)]
struct Counts {
    counts: Vec<u32>,
}

impl Model for Counts {
    ghost use Rattle.std.specs.Prelude.{ℕ, List};

    ghost Value = { List ℕ };

    ghost view = { λ c. c.counts.items };
}

impl Counts {
    /// The count at a place.
    fn at(&self, place: usize) -> u32
        ensures { result ≡ get_or self.now place 0 }
    {
        self.counts.get(place).copied().unwrap_or(0)
    }

    /// There are more counts than `place`.
    fn reach(&mut self, place: usize) -> Result<(), AllocError>
        requires { place < 2 ^ 34 }
        ensures same { (i : ℕ) → get_or self.new i 0 ≡ get_or self.old i 0 }
        ensures there { OnOk result (place < length self.new) }
    {
        if place >= self.counts.len() {
            let wanted = (place + 1).max(self.counts.len().saturating_mul(2));
            self.counts.resize(wanted, 0)?;
        }
        Ok(())
    }

    /// Counts so much at a place.
    fn set(&mut self, place: usize, count: u32) -> Result<(), AllocError>
        requires { place < 2 ^ 34 }
        ensures set { (i : ℕ) → OnOk result (get_or self.new i 0 ≡ (if i == place then count else get_or self.old i 0)) }
        ensures err { (i : ℕ) → OnErr result (get_or self.new i 0 ≡ get_or self.old i 0) }
    {
        self.reach(place)?;
        self.counts[place] = count;
        Ok(())
    }
}

/// Where a dart stands among those of its tile.
fn place_in_tile(dart: TileDart) -> usize
    ensures value { result ≡ place_in_tile dart }
    ensures few { result < 2 ^ 34 }
{
    2 * dart.edge as usize + usize::from(dart.minus)
}

/// There are more tiles than `tile`.
fn reach_tile(alloc: Global, tiles: &mut Vec<Counts>, tile: u32) -> Result<(), AllocError>
    ensures same { (t : ℕ) → get_or tiles.new.items t [] ≡ get_or tiles.old.items t [] }
    ensures there { OnOk result (tile < length tiles.new.items) }
{
    for _ in tiles.len()..tile as usize + 1 {
        tiles.push(Counts {
            counts: Vec::new(alloc),
        })?;
    }
    Ok(())
}

/// Counts so much of a dart.
fn set_count(
    alloc: Global,
    tiles: &mut Vec<Counts>,
    dart: TileDart,
    count: u32,
) -> Result<(), AllocError>
    ensures set { OnOk result (count_for tiles.new.items dart ≡ count) }
    ensures others { (d : Dart) → OnOk result ((d ≡ dart → ⊥) → count_for tiles.new.items d ≡ count_for tiles.old.items d) }
    ensures err { (d : Dart) → OnErr result (count_for tiles.new.items d ≡ count_for tiles.old.items d) }
{
    reach_tile(alloc, tiles, dart.tile)?;
    let Some(counts) = tiles.get_mut(dart.tile as usize) else {
        unreachable!()
    };
    counts.set(place_in_tile(dart), count)
}

/// A list of darts, which tells where each stands first, by its tile, edge and sign. Places count from 0. Contracts see it as the list.
#[derive(Drop)]
pub(crate) struct DartPlaces {
    alloc: Global,
    darts: Vec<TileDart>,
    firsts: Vec<Counts>,
}

impl Model for DartPlaces {
    ghost use Rattle.std.specs.Prelude.{List};
    ghost use Rattle.vpf_darts.specs.declared.darts.TileDart.{TileDart};
    ghost use Rattle.vpf_follow.specs.Inner.DartPlaces.{HoldPlaces};

    ghost Value = { List TileDart };

    ghost view = { λ p. p.darts.items };

    ghost invariant = { λ p. HoldPlaces p.darts.items p.firsts.items };
}

impl DartPlaces {
    ghost use Rattle.vpf_darts.specs.contracts.darts.TileDartPartialEq.TheImpl.{eq-value};

    /// No darts.
    pub(crate) fn new(alloc: Global) -> DartPlaces
        ensures { result ≡ [] }
    {
        DartPlaces {
            alloc,
            darts: Vec::new(alloc),
            firsts: Vec::new(alloc),
        }
    }

    /// How many darts there are.
    pub(crate) fn len(&self) -> usize
        ensures { result ≡ length self.now }
    {
        self.darts.len()
    }

    /// The first place of a dart.
    pub(crate) fn first(&self, dart: TileDart) -> Option<u32>
        ensures first { result ≡ position ((eq-value).it dart) self.now }
        ensures within { IfSome result (λ place. place < length self.now) }
    {
        let counts = self.firsts.get(dart.tile as usize)?;
        counts.at(place_in_tile(dart)).checked_sub(1)
    }

    /// Puts a dart at the end, and tells its first place among the darts before. Fails only for want of memory, and then puts nothing.
    pub(crate) fn put(&mut self, dart: TileDart) -> Result<Option<u32>, AllocError>
        requires { length self.old < 2 ^ 32 - 1 }
        ensures first { IfOk result (λ first. first ≡ position ((eq-value).it dart) self.old) }
        ensures put { OnOk result (self.new ≡ self.old ++ dart ∷ []) }
        ensures err { OnErr result (self.new ≡ self.old) }
    {
        let first = self.first(dart);
        self.darts.reserve(1)?;
        if first.is_none() {
            set_count(
                self.alloc,
                &mut self.firsts,
                dart,
                self.darts.len() as u32 + 1,
            )?;
        }
        self.darts.push(dart)?;
        Ok(first)
    }
}
