ghost use Rattle.std.specs.Prelude.{◌≡◌, ◌<◌, ◌≤◌, IfOk, OnOk, OnErr, None};
ghost use Rattle.pec_types.specs.declared.moments.TheConstants.{END_OF_TIME};
ghost use Rattle.pec_outside.specs.Flow.{HasRisen, as_u64, u64_of};
ghost use Rattle.pec_doors.specs.Devices.{DeviceState, unused, faulted};

use pec_outside::{Counted, Failed, Ticks};
use pec_types::Moment;
use std::marker::Model;
use std::rt::Clock;

#[cfg(test)]
mod tests;

/// The system's clock, in whole seconds since 1970-01-01T00:00:00Z. What it answers isn't told. This project's profile.
#[derive(Drop)]
pub struct SystemTicks<R> {
    system: R,
    faults: u64,
}

impl<R> Model for SystemTicks<R> {
    ghost Value = { DeviceState };

    ghost view = { λ ticks. record { faults = ticks.faults } };
}

impl<R> SystemTicks<R> {
    /// The clock of a system, with no fault yet.
    pub fn new(system: R) -> SystemTicks<R>
        ensures { result ≡ unused }
    {
        SystemTicks { system, faults: 0 }
    }

    /// How many calls failed.
    pub fn faults(&self) -> u64
        ensures { result ≡ self.now.faults }
    {
        self.faults
    }

    fn fault(&mut self) -> Failed
        ensures { self.new ≡ faulted self.old }
    {
        self.faults = self.faults.saturating_add(1);
        Failed
    }
}

impl<R> Counted for SystemTicks<R> {
    ghost faults = { λ ticks. as_u64 ticks.faults };

    ghost counted = { λ ticks. u64_of ticks.faults };
}

impl<R: Clock> Ticks for SystemTicks<R> {
    ghost coming = { λ _. None };

    /// As in the trait. It fails where the clock can't be read, and where it stands before 1970 or at or past the bound
    /// of moments.
    fn now(&mut self) -> Result<Moment, Failed>
        ensures bound { IfOk result (λ moment. moment < END_OF_TIME) }
        ensures later { as_u64 self.old.faults ≤ as_u64 self.new.faults }
        ensures cause { OnErr result (HasRisen (as_u64 self.old.faults) (as_u64 self.new.faults)) }

        // Beyond the trait.
        ensures ok { OnOk result (self.new ≡ self.old) }
        ensures err { OnErr result (self.new ≡ faulted self.old) }
    {
        let Ok(since) = self.system.since_1970() else {
            return Err(self.fault());
        };
        match Moment::new(since.as_secs()) {
            Some(moment) => Ok(moment),
            None => Err(self.fault()),
        }
    }
}
