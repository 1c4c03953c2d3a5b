//! Where a directory has a value.

ghost use Rattle.std.specs.Prelude.{◌≡◌, ◌<◌, ◌≤◌, ◌+◌, ◌-◌, ◌*◌, ◌^◌, true, false, None};
ghost use Rattle.vpf_triplet.specs.declared.kinds.Count.{Count};
ghost use Rattle.vpf_value.specs.Values.{view};
ghost use Rattle.vpf_value.specs.Inner.Fitting.{FitsCell};
ghost use Rattle.vpf_theme.specs.Layouts.{HasValues};
ghost use Rattle.vpf_theme.specs.Entries.{theme_in, value_of};
ghost use Rattle.vpf_theme.specs.Reading.{entries_line};
ghost use Rattle.vpf_theme.specs.Inner.Searching.{compared_by_halves, compared_for, compared_in_turn};
ghost use Rattle.vpf_theme.specs.Inner.Views.{IsPlace};

use crate::comparing::compare;
use crate::entries::value_at;
use crate::layout::Layout;
use std::cmp::Ordering;
use std::sync::ledger::Ledger;
use vpf_source::Steps;
use vpf_value::laws::fixed_cells;
use vpf_value::{Cell, same};

/// The value of entry `i` of a directory without faults, counted from 0.
pub fn sure_value<'a>(layout: &Layout, bytes: &'a [u8], i: u32) -> Cell<'a>
    requires values { HasValues layout.now }
    requires faultless { entries_line layout.now bytes.now ≡ None }
    requires within { i < layout.now.entries }
    ensures { view result ≡ value_of layout.now bytes.now i }
{
    value_at(layout, bytes, i)
}

/// The place of the value in a directory whose values rise, found by halves.
fn find_sorted<L: Ledger>(
    layout: &Layout,
    bytes: &[u8],
    value: &Cell<'_>,
    steps: &mut Steps<L>,
) -> Option<u32>
    requires values { HasValues layout.now }
    requires faultless { entries_line layout.now bytes.now ≡ None }
    requires sorted { layout.now.sorted ≡ true }
    requires fits { FitsCell layout.now.kind (Count.Fixed layout.now.count) (view value.now) }
    ensures place { IsPlace layout.now bytes.now (view value.now) result }
    ensures more { steps.old ≤ steps.new }
    ensures cost { 2 ^ (steps.new - steps.old) ≤ 2 * layout.now.entries + 1 }
    ensures compared { steps.new ≡ steps.old + compared_by_halves (view value.now) (theme_in layout.now bytes.now).entries }
{
    fixed_cells();
    let mut low = 0;
    let mut high = layout.entries;
    while low < high {
        let middle = low + (high - low) / 2;
        steps.tick();
        match compare(&sure_value(layout, bytes, middle), value) {
            Ordering::Less => low = middle + 1,
            Ordering::Equal => return Some(middle),
            Ordering::Greater => high = middle,
        }
    }
    None
}

/// The first place of the value in any directory, found one by one.
fn find_plain<L: Ledger>(
    layout: &Layout,
    bytes: &[u8],
    value: &Cell<'_>,
    steps: &mut Steps<L>,
) -> Option<u32>
    requires values { HasValues layout.now }
    requires faultless { entries_line layout.now bytes.now ≡ None }
    ensures place { IsPlace layout.now bytes.now (view value.now) result }
    ensures more { steps.old ≤ steps.new }
    ensures cost { steps.new ≤ steps.old + layout.now.entries }
    ensures compared { steps.new ≡ steps.old + compared_in_turn (view value.now) (theme_in layout.now bytes.now).entries }
{
    for i in 0..layout.entries {
        steps.tick();
        if same(&sure_value(layout, bytes, i), value) {
            return Some(i);
        }
    }
    None
}

/// The place of the first entry that has the value.
pub fn find_place<L: Ledger>(
    layout: &Layout,
    bytes: &[u8],
    value: &Cell<'_>,
    steps: &mut Steps<L>,
) -> Option<u32>
    requires values { HasValues layout.now }
    requires faultless { entries_line layout.now bytes.now ≡ None }
    requires fits { FitsCell layout.now.kind (Count.Fixed layout.now.count) (view value.now) }
    ensures place { IsPlace layout.now bytes.now (view value.now) result }
    ensures more { steps.old ≤ steps.new }
    ensures sorted { layout.now.sorted ≡ true → 2 ^ (steps.new - steps.old) ≤ 2 * layout.now.entries + 1 }
    ensures plain { layout.now.sorted ≡ false → steps.new ≤ steps.old + layout.now.entries }
    ensures compared { steps.new ≡ steps.old + compared_for (view value.now) (theme_in layout.now bytes.now) }
{
    if layout.sorted {
        find_sorted(layout, bytes, value, steps)
    } else {
        find_plain(layout, bytes, value, steps)
    }
}
