//! Where keys stand first.

use std::alloc::{AllocError, Global};
use std::collections::HashMap;
use std::hash::Hash;
use std::marker::Model;

/// A list of keys, which tells where a key stands first. Places count from 0. Contracts see it as the list.
#[derive(Drop)]
pub struct FirstPlaces<K: Copy + Eq + Hash> {
    keys: Vec<K>,
    firsts: HashMap<K, u32>,
}

impl<K: Copy + Eq + Hash> Model for FirstPlaces<K> {
    ghost use Rattle.std.specs.Prelude.{List};

    ghost Value = { List K };

    ghost use Rattle.vpf_findings.specs.Inner.Places.{HoldFirsts};

    ghost view = { λ p. p.keys.items };

    ghost invariant = { λ p. HoldFirsts K.eq p.keys.items p.firsts };
}

impl<K: Copy + Eq + Hash> FirstPlaces<K> {
    ghost use Rattle.std.specs.Prelude.{◌≡◌, ◌↔◌, ◌<◌, ◌^◌, ◌++◌, ◌∷◌, [], IfOk, IfSome, IsTrue, OnErr, OnOk, length, position, slice_get, Some};

    /// No keys.
    pub fn new(alloc: Global) -> FirstPlaces<K>
        ensures { result ≡ [] }
    {
        FirstPlaces {
            keys: Vec::new(alloc),
            firsts: HashMap::new(alloc),
        }
    }

    /// How many keys there are.
    pub fn len(&self) -> usize
        ensures { result ≡ length self.now }
    {
        self.keys.len()
    }

    /// Whether there is no key.
    pub fn is_empty(&self) -> bool
        ensures { IsTrue result ↔ (self.now ≡ []) }
    {
        self.keys.is_empty()
    }

    /// The key at a place.
    pub fn at(&self, place: usize) -> K
        requires { place < length self.now }
        ensures { slice_get self.now place ≡ Some result }
    {
        self.keys[place]
    }

    /// The first place of a key.
    pub fn first(&self, key: &K) -> Option<u32>
        ensures first { result ≡ position (K.eq key.now) self.now }
        ensures within { IfSome result (λ place. place < length self.now) }
    {
        self.firsts.get(key).copied()
    }

    /// Puts a key at the end, and tells its first place among the keys before. Fails only for want of memory, and then puts nothing.
    pub fn put(&mut self, key: K) -> Result<Option<u32>, AllocError>
        requires { length self.old < 2 ^ 32 }
        ensures first { IfOk result (λ first. first ≡ position (K.eq key) self.old) }
        ensures put { OnOk result (self.new ≡ self.old ++ key ∷ []) }
        ensures err { OnErr result (self.new ≡ self.old) }
    {
        let first = self.first(&key);
        let place = self.keys.len() as u32;
        self.keys.reserve(1)?;
        if first.is_none() {
            self.firsts.insert(key, place)?;
        }
        self.keys.push(key)?;
        Ok(first)
    }
}
