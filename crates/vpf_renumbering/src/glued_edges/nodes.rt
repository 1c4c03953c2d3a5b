//! The nodes of a glued coverage, each by the least dart that begins there, and their numbers.

ghost use Rattle.std.specs.Prelude.{◌≡◌, ℕ, ◌<◌, ◌≤◌, ◌^◌, if◌then◌else◌, [], IfOk, length, map, slice_index_or, true};
ghost use Rattle.std.specs.List.{AllByRecursion, concat};
ghost use Rattle.vpf_base.specs.Limits.{most_rows};
ghost use Rattle.vpf_darts.specs.Cycles.{BeginsWithLeast, count_of, first_of};
ghost use Rattle.vpf_darts.specs.Darts.{tile_dart_code};
ghost use Rattle.vpf_darts.specs.Listings.{numbers_of};
ghost use Rattle.vpf_wing.specs.Inner.Kept.Kept.{AreInOrder};
ghost use Rattle.vpf_wing.specs.Inner.DartLaws.{stands_in};
ghost use Rattle.vpf_prims.specs.Libraries.{library_of};
ghost use Rattle.vpf_tiling_laws.specs.Gluing.Glued.{plus_darts};
ghost use Rattle.vpf_tiling_laws.specs.Gluing.Whole.{whole_of};
ghost use Rattle.vpf_renumbering.specs.Inner.Whole.Gathering.{AreHomeDarts};
ghost use Rattle.vpf_renumbering.specs.Inner.GluedEdges.Glued.{AreNodesOf};
ghost use Rattle.vpf_renumbering.specs.Inner.GluedEdges.Numbers.{AreByList, ArePut};

use crate::whole::{WholeMap, turns};
use std::alloc::{AllocError, Global};
use vpf_cut_rings::laws::leasts_begin_cycles;
use vpf_darts::{Listing, TileDart};
use vpf_wing::kept::place_of;

/// The nodes of a checked coverage: for each the least home dart that begins there, in their order, and for each home dart the number of its
/// node, counted from 1.
#[derive(Drop)]
pub(crate) struct Nodes {
    pub(crate) firsts: Vec<TileDart>,
    pub(crate) numbers: Vec<u32>,
}

/// The dart that a turn begins with.
fn first_dart(turns: &Listing, i: usize) -> TileDart
    requires some { AllByRecursion BeginsWithLeast (numbers_of turns.now) }
    requires inside { i < length turns.now }
    ensures { tile_dart_code result ≡ first_of (slice_index_or (numbers_of turns.now) i []) }
{
    turns.at(i)[0]
}

/// The darts that turns begin with.
fn first_darts(alloc: Global, turns: &Listing) -> Result<Vec<TileDart>, AllocError>
    requires { AllByRecursion BeginsWithLeast (numbers_of turns.now) }
    ensures { IfOk result (λ nodes. map tile_dart_code nodes.items ≡ map first_of (numbers_of turns.now)) }
{
    let mut nodes = Vec::with_capacity(alloc, turns.len())?;
    for i in 0..turns.len() {
        nodes.push(first_dart(turns, i))?;
    }
    Ok(nodes)
}

/// Puts a number at the places of the darts of a turn.
fn put_turn(darts: &[TileDart], turn: &[TileDart], number: u32, numbers: &mut [u32])
    requires order { AreInOrder darts.now }
    requires there { (d : ℕ) → stands_in d (map tile_dart_code turn.now) ≡ true → stands_in d (map tile_dart_code darts.now) ≡ true }
    requires one_each { length numbers.old ≡ length darts.now }
    ensures { ArePut (map tile_dart_code darts.now) (map tile_dart_code turn.now) number numbers.old numbers.new }
{
    for dart in turn {
        numbers[place_of(darts, *dart)] = number;
    }
}

/// For each dart, in their order, the number of its turn, counted from 1. Each dart is looked up once.
fn turn_numbers(alloc: Global, darts: &[TileDart], turns: &Listing) -> Result<Vec<u32>, AllocError>
    requires order { AreInOrder darts.now }
    requires once { (d : ℕ) → count_of d (concat (numbers_of turns.now)) ≡ (if stands_in d (map tile_dart_code darts.now) then 1 else 0) }
    requires few { length turns.now < 2 ^ 32 }
    ensures { IfOk result (λ numbers. AreByList (map tile_dart_code darts.now) (numbers_of turns.now) numbers.items) }
{
    let mut numbers = vec![in alloc; 0u32; darts.len()]?;
    for i in 0..turns.len() {
        put_turn(darts, turns.at(i), i as u32 + 1, &mut numbers);
    }
    Ok(numbers)
}

/// The nodes of a coverage whose home darts these are.
pub(crate) fn nodes_of(
    alloc: Global,
    whole: &WholeMap<'_, '_, '_>,
    darts: &[TileDart],
) -> Result<Nodes, AllocError>
    requires few { length (plus_darts (whole_of (library_of whole.now))) ≤ most_rows }
    requires darts { AreHomeDarts (library_of whole.now) darts.now }
    ensures { IfOk result (λ nodes. AreNodesOf (library_of whole.now) nodes) }
{
    whole.makes_map();
    leasts_begin_cycles();
    let turns = turns(alloc, whole, darts)?;
    Ok(Nodes {
        firsts: first_darts(alloc, &turns)?,
        numbers: turn_numbers(alloc, darts, &turns)?,
    })
}
