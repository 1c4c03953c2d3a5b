//! Darts as they are kept, each with what follows it.

ghost use Rattle.std.specs.Prelude.{◌≡◌, [], IfOk, OnOk};
ghost use Rattle.vpf_follow.specs.Inner.Homes.{first_followed, followings_and};

use crate::dart_places::DartPlaces;
use std::alloc::{AllocError, Global};
use std::marker::Model;
use vpf_darts::TileDart;

/// Darts in some order, and what follows each. Contracts see it as both lists.
#[derive(Drop)]
pub(crate) struct Homes {
    darts: Vec<TileDart>,
    nexts: DartPlaces,
}

impl Model for Homes {
    ghost use Rattle.std.specs.Prelude.{◌≡◌, length};
    ghost use Rattle.vpf_follow.specs.Inner.Homes.{Followings};

    ghost Value = { Followings };

    ghost view = { λ h. record { darts = h.darts.items; nexts = h.nexts } };

    ghost invariant = { λ h. length h.nexts ≡ length h.darts.items };
}

impl Homes {
    /// No darts.
    pub(crate) fn new(alloc: Global) -> Homes
        ensures { result ≡ record { darts = []; nexts = [] } }
    {
        Homes {
            darts: Vec::new(alloc),
            nexts: DartPlaces::new(alloc),
        }
    }

    /// The first of the darts that `next` follows.
    pub(crate) fn first(&self, next: TileDart) -> Option<TileDart>
        ensures { result ≡ first_followed self.now next }
    {
        let place = self.nexts.first(next)?;
        Some(self.darts[place as usize])
    }

    /// Puts a dart and what follows it at the end, and tells the first of the darts before that `next` follows too. Fails only for want
    /// of memory.
    pub(crate) fn put(
        &mut self,
        dart: TileDart,
        next: TileDart,
    ) -> Result<Option<TileDart>, AllocError>
        ensures first { IfOk result (λ first. first ≡ first_followed self.old next) }
        ensures put { OnOk result (self.new ≡ followings_and self.old dart next) }
    {
        if self.nexts.len() >= u32::MAX as usize {
            // There is no memory for so many darts.
            return Err(AllocError);
        }
        self.darts.reserve(1)?;
        let first = match self.nexts.put(next)? {
            Some(place) => self.darts.get(place as usize).copied(),
            None => None,
        };
        self.darts.push(dart)?;
        Ok(first)
    }
}
