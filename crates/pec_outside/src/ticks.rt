ghost use Rattle.std.specs.Prelude.{◌≡◌, ℕ, ◌<◌, ◌≤◌, List, Option, IfOk, OnErr};
ghost use Rattle.pec_types.specs.declared.moments.TheConstants.{END_OF_TIME};
ghost use Rattle.pec_outside.specs.Clocks.{Gives};
ghost use Rattle.pec_outside.specs.Flow.{HasRisen};

use crate::counts::Counted;
use crate::streams::Failed;
use pec_types::Moment;

/// A clock. This project's profile.
pub trait Ticks: Counted {
    // The moments that it will answer, in order, and behind the last of them that one again. None: the clock doesn't
    // tell.
    ghost coming: { Self → Option (List ℕ) };

    /// The moment. A clock that stands at or past the bound of moments has none to answer, and fails. A call that fails
    /// passes no moment over.
    fn now(&mut self) -> Result<Moment, Failed>
        ensures given { IfOk result (λ moment. Gives (coming self.old) moment (coming self.new)) }
        ensures bound { IfOk result (λ moment. moment < END_OF_TIME) }
        ensures err { OnErr result (coming self.new ≡ coming self.old) }
        ensures later { Self.faults self.old ≤ Self.faults self.new }
        ensures cause { OnErr result (HasRisen (Self.faults self.old) (Self.faults self.new)) };
}
