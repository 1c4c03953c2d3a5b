//! The cycles of darts, each by its least place.

ghost use Rattle.std.specs.Prelude.{◌≡◌, ◌<◌, ◌^◌, length, IfOk, slice_index_or};
ghost use Rattle.vpf_wing.specs.Inner.NextPlaces.{next_in, IsApart, StayBelow};
ghost use Rattle.vpf_wing.specs.Inner.Leasts.{AgreeOnCycles, HoldLeasts, MarksCycle};

use std::alloc::{AllocError, Global};

/// Writes a place at each place of its cycle. The number of places stands where nothing is written yet.
fn mark_cycle(nexts: &[u32], leasts: &mut [u32], start: u32)
    requires few { length nexts.now < 2 ^ 25 }
    requires below { StayBelow (next_in nexts.now) (length nexts.now) }
    requires apart { IsApart (next_in nexts.now) }
    requires room { length leasts.old ≡ length nexts.now }
    requires agree { AgreeOnCycles (next_in nexts.now) (length nexts.now) leasts.old }
    requires inside { start < length nexts.now }
    requires fresh { slice_index_or leasts.old start (length nexts.now) ≡ length nexts.now }
    ensures { MarksCycle (next_in nexts.now) (length nexts.now) start leasts.old leasts.new }
{
    let none = nexts.len() as u32;
    let mut at = start;
    while leasts[at as usize] == none {
        leasts[at as usize] = start;
        at = nexts[at as usize];
    }
}

/// The least place of the cycle of each place.
pub fn least_places(alloc: Global, nexts: &[u32]) -> Result<Vec<u32>, AllocError>
    requires few { length nexts.now < 2 ^ 25 }
    requires below { StayBelow (next_in nexts.now) (length nexts.now) }
    requires apart { IsApart (next_in nexts.now) }
    ensures len { IfOk result (λ leasts. length leasts.items ≡ length nexts.now) }
    ensures least { IfOk result (λ leasts. HoldLeasts (next_in nexts.now) (length nexts.now) leasts.items) }
{
    let none = nexts.len() as u32;
    let mut leasts = vec![in alloc; none; nexts.len()]?;
    for start in 0..none {
        if leasts[start as usize] == none {
            mark_cycle(nexts, &mut leasts, start);
        }
    }
    Ok(leasts)
}
