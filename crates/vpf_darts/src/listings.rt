//! Listings of cycles.

ghost use Rattle.std.specs.Prelude.{◌≡◌, ◌↔◌, ◌<◌, IsTrue, Some, [], length, slice_get};
ghost use Rattle.vpf_darts.specs.Listings.{RiseTo, begin_of, pieces};

use crate::darts::TileDart;
use std::marker::Model;

/// The cycles of a map, each a list of its darts; of an untiled map the darts are in tile 0.
#[derive(Drop)]
pub struct Listing {
    pub(crate) darts: Vec<TileDart>,
    pub(crate) ends: Vec<usize>,
}

impl Model for Listing {
    ghost use Rattle.std.specs.Prelude.{List, length};
    ghost use Rattle.vpf_darts.specs.declared.darts.TileDart.{TileDart};
    ghost use Rattle.vpf_darts.specs.Listings.{pieces, RiseTo};

    ghost Value = { List (List TileDart) };

    ghost view = { λ l. pieces 0 l.ends.items l.darts.items };

    ghost invariant = { λ l. RiseTo 0 l.ends.items (length l.darts.items) };
}

#[tactic(auto, using(crate::proofs::PieceLemmas::length_pieces))]
impl Listing {
    /// How many cycles there are.
    pub fn len(&self) -> usize
        ensures { result ≡ length self.now }
    {
        self.ends.len()
    }

    /// Whether there is no cycle.
    pub fn is_empty(&self) -> bool
        ensures { IsTrue result ↔ (self.now ≡ []) }
    {
        self.len() == 0
    }

    /// The darts of cycle `i`, from 0.
    pub fn at(&self, i: usize) -> &[TileDart]
        requires { i < length self.now }
        ensures { slice_get self.now i ≡ Some result.now }
    {
        piece(&self.darts, &self.ends, i)
    }
}

/// Where piece `i` begins.
#[tactic(auto, using(crate::proofs::PieceLemmas::before))]
fn start_of(ends: &[usize], i: usize) -> usize
    requires { i < length ends.now }
    ensures { result ≡ begin_of 0 ends.now i }
{
    if i == 0 { 0 } else { ends[i - 1] }
}

/// Piece `i`.
#[tactic(auto, using(crate::proofs::PieceLemmas::bounds, crate::proofs::PieceLemmas::piece_at))]
fn piece<'a>(darts: &'a [TileDart], ends: &[usize], i: usize) -> &'a [TileDart]
    requires rise { RiseTo 0 ends.now (length darts.now) }
    requires inside { i < length ends.now }
    ensures { slice_get (pieces 0 ends.now darts.now) i ≡ Some result.now }
{
    let start = start_of(ends, i);
    &darts[start..ends[i]]
}
