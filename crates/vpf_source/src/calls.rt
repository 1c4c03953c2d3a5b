//! Calls that are counted, and fail where they are told to.

ghost use Rattle.std.specs.Prelude.{◌≡◌, ◌≤◌, ◌↔◌, IsErr, IsTrue};
ghost use Rattle.vpf_source.specs.Inner.Calls.{after_call, next_fails, no_calls};

use crate::error::Failed;
use std::marker::Model;

/// The calls of an object so far, with the numbers of those that are to fail.
#[derive(Debug, Drop)]
pub struct CallLog {
    made: u64,
    faults: u64,
    fail: Vec<u64>,
}

impl Model for CallLog {
    ghost use Rattle.vpf_source.specs.Inner.Calls.{Calls};

    ghost Value = { Calls };

    ghost view = { λ log. record { made = log.made; faults = log.faults; fail = log.fail.items } };
}

impl CallLog {
    /// No call yet. `fail` has the numbers of the calls that are to fail, counted from 1.
    pub fn new(fail: Vec<u64>) -> Self
        ensures { result ≡ no_calls fail.items }
    {
        CallLog {
            made: 0,
            faults: 0,
            fail,
        }
    }

    /// Counts a call, and says whether it is to fail.
    pub fn begin(&mut self) -> Result<(), Failed>
        ensures fails { IsErr result ↔ IsTrue (next_fails self.old) }
        ensures counted { self.new ≡ after_call self.old }
        ensures later { self.old.faults ≤ self.new.faults }
    {
        self.made = self.made.saturating_add(1);
        if self.fail.contains(&self.made) {
            self.faults = self.faults.saturating_add(1);
            return Err(Failed);
        }
        Ok(())
    }
}
