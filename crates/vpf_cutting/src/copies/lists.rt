//! A list of numbers for each number, all in one array.

ghost use Rattle.std.specs.Prelude.{◌≡◌, ◌+◌, IfOk, map, count_by, nat_lt};
ghost use Rattle.std.specs.List.{range_with_len};
ghost use Rattle.std.specs.List.Sorted.{IsStrictlySortedBy};
ghost use Rattle.vpf_cutting.specs.Inner.Copies.Lists.{Keeps, pair_cmp};

use std::alloc::{AllocError, Global};
use std::marker::Model;

/// A list of numbers for each number from 0 to some last one. Contracts see the lists in this order.
///
/// Takes 4 bytes for each number in a list, and 8 for each list.
#[derive(Drop)]
pub(crate) struct Lists {
    starts: Vec<usize>,
    all: Vec<u32>,
}

impl Model for Lists {
    ghost use Rattle.std.specs.Prelude.{ℕ, List, length};
    ghost use Rattle.vpf_cutting.specs.Inner.Copies.Lists.{AreStarts, lists_from};

    ghost Value = { List (List ℕ) };

    ghost view = { λ l. lists_from l.starts.items l.all.items };

    ghost invariant = { λ l. AreStarts l.starts.items (length l.all.items) };
}

impl Lists {
    ghost use Rattle.std.specs.Prelude.{◌≡◌, ℕ, IfOk};
    ghost use Rattle.vpf_cutting.specs.Inner.Copies.Lists.{StandWithin, is_paired, list_at, lists_by};

    /// The lists of the numbers from 0 to `count`, by pairs of a number and one that is in its list. The pairs come in any order, and
    /// as often as may be; each list rises, and has no number twice.
    pub(crate) fn of(
        alloc: Global,
        count: u32,
        mut pairs: Vec<(u32, u32)>,
    ) -> Result<Lists, AllocError>
        ensures { (most : ℕ) → StandWithin pairs.items most → IfOk result (λ lists. lists ≡ lists_by count most (is_paired pairs.items)) }
    {
        sort(&mut pairs);
        let starts = starts_of(alloc, count, &pairs)?;
        let all = seconds_of(alloc, &pairs)?;
        Ok(Lists { starts, all })
    }

    /// The list of a number, empty past the last.
    pub(crate) fn at(&self, number: u32) -> &[u32]
        ensures { result.now ≡ list_at self.now number }
    {
        let k = number as usize;
        if k + 1 < self.starts.len() {
            &self.all[self.starts[k]..self.starts[k + 1]]
        } else {
            &[]
        }
    }
}

/// Sorts pairs, and keeps each once.
fn sort(pairs: &mut Vec<(u32, u32)>)
    ensures rises { IsStrictlySortedBy pair_cmp pairs.new.items }
    ensures same { Keeps pairs.old.items pairs.new.items }
{
    pairs.sort_unstable();
    pairs.dedup();
}

/// How many of the pairs, which rise, are of a number below this one.
fn start_of(pairs: &[(u32, u32)], k: u64) -> usize
    requires { IsStrictlySortedBy pair_cmp pairs.now }
    ensures { result ≡ count_by (λ pair. nat_lt pair.0 k) pairs.now }
{
    pairs.partition_point(|pair| u64::from(pair.0) < k)
}

/// Where the list of each number from 0 to `count` begins among the pairs, and where the last ends.
fn starts_of(alloc: Global, count: u32, pairs: &[(u32, u32)]) -> Result<Vec<usize>, AllocError>
    requires { IsStrictlySortedBy pair_cmp pairs.now }
    ensures { IfOk result (λ starts. starts.items ≡ map (λ k. count_by (λ pair. nat_lt pair.0 k) pairs.now) (range_with_len 0 (count + 2))) }
{
    let mut starts = Vec::with_capacity(alloc, count as usize + 2)?;
    for k in 0..u64::from(count) + 2 {
        starts.push(start_of(pairs, k))?;
    }
    Ok(starts)
}

/// The second numbers of pairs.
fn seconds_of(alloc: Global, pairs: &[(u32, u32)]) -> Result<Vec<u32>, AllocError>
    ensures { IfOk result (λ seconds. seconds.items ≡ map (λ pair. pair.1) pairs.now) }
{
    pairs.iter().map(|pair| pair.1).collect(alloc)
}
