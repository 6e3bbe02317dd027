ghost use Rattle.std.specs.Prelude.{◌≡◌, ℕ, IsErr, OnOk, OnErr, ◌↔◌};
ghost use Rattle.pec_outside.specs.Memory.{CallState, NextFails, no_calls, answered, faulted, risen};

use crate::streams::Failed;
use std::marker::Model;

/// The calls of a memory form: how many were made, which of them fail, and how many did.
pub struct Calls {
    made: u64,
    failing: Vec<u64>,
    faults: u64,
}

impl Model for Calls {
    ghost Value = { CallState };

    ghost view = { λ calls. record { made = calls.made; failing = calls.failing.items; faults = calls.faults } };
}

impl Drop for Calls {
    fn drop(self) {
        let Calls {
            made: _,
            failing: _,
            faults: _,
        } = self;
    }
}

impl Calls {
    /// No call yet. `failing` are the numbers of those that fail, counted from 0.
    pub fn new(failing: Vec<u64>) -> Calls
        ensures { result ≡ no_calls failing.items }
    {
        Calls {
            made: 0,
            failing,
            faults: 0,
        }
    }

    /// Counts the next call. It answers `Failed` exactly where that call is one that fails.
    pub fn begin(&mut self) -> Result<(), Failed>
        ensures fails { IsErr result ↔ NextFails self.old }
        ensures ok { OnOk result (self.new ≡ answered self.old) }
        ensures err { OnErr result (self.new ≡ faulted self.old) }
    {
        let number = self.made;
        self.made = number.saturating_add(1);
        if self.failing.contains(&number) {
            return Err(self.fault());
        }
        Ok(())
    }

    /// How many calls failed.
    pub fn faults(&self) -> u64
        ensures { result ≡ self.now.faults }
    {
        self.faults
    }

    /// Counts a fault in the call that was begun last.
    pub fn fault(&mut self) -> Failed
        ensures { self.new ≡ record self.old { faults = risen self.old.faults } }
    {
        self.faults = self.faults.saturating_add(1);
        Failed
    }
}
