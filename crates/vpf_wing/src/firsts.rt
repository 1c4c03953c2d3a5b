//! Where keys stand first.

use std::alloc::{AllocError, Global};
use std::marker::Model;

/// A list of keys, with the number of the first item that is each key. Contracts see it as the list.
#[derive(Drop)]
pub struct FirstByNumber {
    keys: Vec<u32>,
    firsts: Vec<u32>,
}

impl Model for FirstByNumber {
    ghost use Rattle.std.specs.Prelude.{List, ℕ};

    ghost Value = { List ℕ };

    ghost use Rattle.vpf_wing.specs.Inner.FirstNumbers.{AreFirsts};

    ghost view = { λ f. f.keys.items };

    ghost invariant = { AreFirsts };
}

impl FirstByNumber {
    ghost use Rattle.std.specs.Prelude.{◌≡◌, ◌≤◌, ◌<◌, ◌^◌, All, IfOk, length};
    ghost use Rattle.vpf_prims.specs.Lists.{kth};
    ghost use Rattle.vpf_wing.specs.Inner.FirstNumbers.{first_of_key};

    /// Looks up keys, which are at most `last`.
    pub fn new(alloc: Global, keys: Vec<u32>, last: u32) -> Result<FirstByNumber, AllocError>
        requires few { length keys.items < 2 ^ 25 }
        requires few_numbers { last < 2 ^ 25 }
        requires below { All (λ key. key ≤ last) keys.items }
        ensures { IfOk result (λ firsts. firsts ≡ keys.items) }
    {
        let mut firsts = vec![in alloc; 0u32; last as usize + 1]?;
        for (k, key) in keys.iter().enumerate() {
            let at = *key as usize;
            if firsts[at] == 0 {
                firsts[at] = k as u32 + 1;
            }
        }
        Ok(FirstByNumber { keys, firsts })
    }

    /// The number of the first item that is this key, from 1, or 0 where none is.
    #[tactic(auto, using(crate::proofs::FirstLemmas::first_within))]
    pub fn first(&self, key: u32) -> u32
        ensures first { result ≡ first_of_key self.now key }
        ensures within { result ≤ length self.now }
    {
        let at = key as usize;
        if at < self.firsts.len() {
            self.firsts[at]
        } else {
            0
        }
    }

    /// The key of this number, 0 at 0.
    pub fn key(&self, number: u32) -> u32
        requires { number ≤ length self.now }
        ensures { result ≡ kth self.now number 0 }
    {
        if number == 0 {
            0
        } else {
            self.keys[number as usize - 1]
        }
    }
}
