//! The calls of an object in memory: how many there were, how many of them failed, and which are
//! to fail. A test makes such an object fail where it likes, and nowhere else.
ghost use Rattle.std.specs.Prelude.{◌≡◌, ◌≤◌, ◌↔◌, IsErr, is_ok, false};
ghost use Rattle.basics.specs.Calls.{no_calls, never_fails, FailsNext, after_call};
ghost use Rattle.basics.specs.Faults.{HasCause, HasRisen, counted_by};

use crate::Failed;
use std::marker::Model;

/// Counts the calls of an object in memory, and says which of them fail.
#[derive(Debug, Drop)]
pub struct Calls {
    failing: Vec<u64>,
    made: u64,
    faults: u64,
}

impl Model for Calls {
    ghost use Rattle.basics.specs.Calls.{CallLog};

    ghost Value = { CallLog };

    ghost view = { λ c. record { failing = c.failing.items; made = c.made; faults = c.faults } };
}

impl Calls {
    /// No calls yet. Those whose numbers, from 1, stand in `failing` are to fail.
    pub fn new(failing: Vec<u64>) -> Calls
        ensures { result ≡ no_calls failing.items }
    {
        Calls {
            failing,
            made: 0,
            faults: 0,
        }
    }

    /// How many of the calls failed; a count that ends at 2^64 - 1.
    pub fn faults(&self) -> u64
        ensures { result ≡ self.now.faults }
    {
        self.faults
    }

    /// Whether it was told of no failing call.
    pub fn never_fail(&self) -> bool
        ensures { result ≡ never_fails self.now }
    {
        self.failing.is_empty()
    }

    /// Counts a call. [`Failed`] exactly where its number is among those that are to fail, and
    /// then it counts a fault too.
    pub fn next(&mut self) -> Result<(), Failed>
        ensures fails { IsErr result ↔ FailsNext self.old }
        ensures log { self.new ≡ after_call self.old (is_ok result) }
        ensures cause { HasCause self.old.faults self.new.faults result }
    {
        self.made = self.made.saturating_add(1);
        if self.failing.contains(&self.made) {
            self.faults = self.faults.saturating_add(1);
            Err(Failed)
        } else {
            Ok(())
        }
    }

    /// Counts a call that fails whatever its number is.
    pub fn fail(&mut self) -> Failed
        ensures log { self.new ≡ after_call self.old false }
        ensures rises { HasRisen self.old.faults self.new.faults }
    {
        self.made = self.made.saturating_add(1);
        self.faults = self.faults.saturating_add(1);
        Failed
    }

    /// Counts faults that came in no call of this object.
    pub fn add_faults(&mut self, count: u64)
        ensures log { self.new ≡ record self.old { faults = counted_by count self.old.faults } }
        ensures later { self.old.faults ≤ self.new.faults }
    {
        self.faults = self.faults.saturating_add(count);
    }
}
