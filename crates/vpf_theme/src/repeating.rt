//! The first entry whose value an entry before it has: values are sorted, and neighbours compared.

ghost use Rattle.std.specs.Prelude.{◌≡◌, ◌↔◌, ◌<◌, ◌-◌, length, true, IfOk, IsTrue};
ghost use Rattle.std.specs.List.Sorted.{IsPermutation, IsSorted};
ghost use Rattle.vpf_theme.specs.Inner.Repeating.{AreLevel, HoldPlaced, LeastPair, TellsRepeat, is_earlier, placed_at, placed_cmp};

use crate::comparing::compare;
use crate::view::ThemeView;
use std::alloc::{AllocError, Global};
use vpf_value::Cell;

/// The value of an entry, with the place of the entry.
#[derive(Clone, Copy)]
pub struct PlacedCell<'a> {
    /// The value.
    pub cell: Cell<'a>,
    /// The place of the entry, from 0.
    pub place: u32,
}

/// An entry whose value an entry before it has. Places count from 0.
#[derive(Clone, Copy)]
pub struct Repeat {
    /// Its place.
    pub at: u32,
    /// The place of the first entry that has the value.
    pub earlier: u32,
}

/// The values of the entries, entry by entry.
fn placed_values<'a>(
    alloc: Global,
    theme: &ThemeView<'a>,
) -> Result<Vec<PlacedCell<'a>>, AllocError>
    ensures { IfOk result (λ placed. HoldPlaced theme.now.entries (length theme.now.entries) placed.items) }
{
    let mut placed = Vec::with_capacity(alloc, theme.entries() as usize)?;
    for place in 0..theme.entries() {
        let cell = theme.value(place);
        placed.push(PlacedCell { cell, place })?;
    }
    Ok(placed)
}

/// Sorts by value, and those of one value by place.
fn sort_placed(placed: &mut Vec<PlacedCell<'_>>)
    ensures same { IsPermutation placed.old.items placed.new.items }
    ensures sorted { IsSorted placed_cmp placed.new.items }
{
    placed.sort_unstable_by(|a, b| compare(&a.cell, &b.cell).then(a.place.cmp(&b.place)));
}

/// Whether a place is before that of a repeat, if there is one.
fn is_earlier(place: u32, least: Option<Repeat>) -> bool
    ensures { result ≡ is_earlier place least }
{
    match least {
        None => true,
        Some(repeat) => place < repeat.at,
    }
}

/// Whether value `k` is that of its neighbour before, at a place before that of a repeat.
fn repeats_earlier(placed: &[PlacedCell<'_>], k: usize, least: Option<Repeat>) -> bool
    requires some { 0 < k }
    requires within { k < length placed.now }
    ensures { IsTrue result ↔ (AreLevel placed.now (k - 1) × (is_earlier (placed_at placed.now k).place least ≡ true)) }
{
    compare(&placed[k - 1].cell, &placed[k].cell).is_eq() && is_earlier(placed[k].place, least)
}

/// Of the neighbours of one value the two with the least place.
fn least_pair(placed: &[PlacedCell<'_>]) -> Option<Repeat>
    ensures { LeastPair placed.now (length placed.now) result }
{
    let mut least: Option<Repeat> = None;
    for k in 0..placed.len() {
        if k > 0 && repeats_earlier(placed, k, least) {
            least = Some(Repeat {
                at: placed[k].place,
                earlier: placed[k - 1].place,
            });
        }
    }
    least
}

/// The first entry whose value an entry before it has, and the first that has it. Values are sorted and not hashed, so that
/// none can be chosen which all fall together.
pub fn first_repeat(alloc: Global, theme: &ThemeView<'_>) -> Result<Option<Repeat>, AllocError>
    ensures { IfOk result (λ repeat. TellsRepeat theme.now.entries repeat) }
{
    theme.have_one_field();
    let mut placed = placed_values(alloc, theme)?;
    sort_placed(&mut placed);
    Ok(least_pair(&placed))
}
