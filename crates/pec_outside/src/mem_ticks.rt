ghost use Rattle.std.specs.Prelude.{◌≡◌, ◌+◌, ◌<◌, ◌≤◌, drop, Some, IsErr, IfOk, OnErr, ◌↔◌, vec_len};
ghost use Rattle.pec_types.specs.declared.moments.TheConstants.{END_OF_TIME};
ghost use Rattle.pec_outside.specs.Clocks.{ClockState, IsNext, moments_behind};
ghost use Rattle.pec_outside.specs.Flow.{HasRisen, as_u64, u64_of};
ghost use Rattle.pec_outside.specs.Memory.{NextFails, no_calls, answered, faulted};

use crate::calls::Calls;
use crate::counts::Counted;
use crate::streams::Failed;
use crate::ticks::Ticks;
use pec_types::{END_OF_TIME, Moment};
use std::alloc::Global;
use std::marker::Model;

/// A clock that answers the moments that it is given, and fails where it is told. This project's profile.
pub struct MemTicks {
    moments: Vec<Moment>,
    at: usize,
    calls: Calls,
}

impl Model for MemTicks {
    ghost Value = { ClockState };

    ghost view = { λ ticks. record { coming = drop ticks.at ticks.moments.items; calls = ticks.calls } };

    ghost invariant = { λ ticks. ticks.at < vec_len ticks.moments };
}

impl Drop for MemTicks {
    fn drop(self) {
        let MemTicks {
            moments: _,
            at: _,
            calls: _,
        } = self;
    }
}

impl MemTicks {
    /// A clock of these moments in order, and then of the last again. `failing` are the numbers of the calls that fail,
    /// counted from 0. It is given the allocator as each memory form is, and needs no memory.
    pub fn new(_alloc: Global, moments: Vec<Moment>, failing: Vec<u64>) -> MemTicks
        requires { 0 < vec_len moments }
        ensures { result ≡ record { coming = moments.items; calls = no_calls failing.items } }
    {
        MemTicks {
            moments,
            at: 0,
            calls: Calls::new(failing),
        }
    }
}

impl Counted for MemTicks {
    ghost faults = { λ ticks. as_u64 ticks.calls.faults };

    ghost counted = { λ ticks. u64_of ticks.calls.faults };
}

impl Ticks for MemTicks {
    ghost coming = { λ ticks. Some ticks.coming };

    /// As in the trait. It fails exactly where `failing` names the call.
    fn now(&mut self) -> Result<Moment, Failed>
        ensures given { IfOk result (λ moment. IsNext moment self.old.coming
            × (self.new.coming ≡ moments_behind self.old.coming)) }
        ensures bound { IfOk result (λ moment. moment < END_OF_TIME) }
        ensures err { OnErr result (self.new.coming ≡ self.old.coming) }
        ensures later { as_u64 self.old.calls.faults ≤ as_u64 self.new.calls.faults }
        ensures cause { OnErr result (HasRisen (as_u64 self.old.calls.faults) (as_u64 self.new.calls.faults)) }

        // Beyond the trait.
        ensures fails { IsErr result ↔ NextFails self.old.calls }
        ensures after { IfOk result (λ _.
            self.new ≡ record { coming = moments_behind self.old.coming; calls = answered self.old.calls }) }
        ensures failed { OnErr result (self.new ≡ record self.old { calls = faulted self.old.calls }) }
    {
        self.calls.begin()?;
        let moment = self.moments[self.at];
        prove!(moment.seconds() < END_OF_TIME);
        self.at = (self.at + 1).min(self.moments.len() - 1);
        Ok(moment)
    }
}
