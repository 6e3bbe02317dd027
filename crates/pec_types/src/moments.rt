ghost use Rattle.std.specs.Prelude.{◌≡◌, ℕ, ◌<◌, ◌≤◌, ◌↔◌, IsNone, IfSome};
ghost use Rattle.pec_types.specs.Moments.{is_within};
ghost use Rattle.pec_types.specs.declared.moments.TheConstants.{END_OF_TIME};

use std::marker::Model;

/// The first second that is no moment: 2100-01-01T00:00:00Z. This project's profile.
pub const END_OF_TIME: u64 = 4_102_444_800;

/// Whole seconds since 1970-01-01T00:00:00Z, below 4,102,444,800. This project's profile.
#[derive(Clone, Copy, Debug, PartialEq, Eq, PartialOrd, Ord)]
pub struct Moment {
    seconds: u64,
}

impl Model for Moment {
    ghost Value = { ℕ };

    ghost view = { λ moment. moment.seconds };

    ghost invariant = { λ moment. moment.seconds < END_OF_TIME };

    ghost inverse = { λ seconds. record { seconds = seconds } };
}

impl Moment {
    /// The moment so many seconds after 1970-01-01T00:00:00Z, and `None` exactly at or past the bound.
    pub fn new(seconds: u64) -> Option<Moment>
        ensures none { IsNone result ↔ (END_OF_TIME ≤ seconds) }
        ensures value { IfSome result (λ moment. moment ≡ seconds) }
    {
        if seconds < END_OF_TIME {
            Some(Moment { seconds })
        } else {
            None
        }
    }

    /// The seconds since 1970-01-01T00:00:00Z.
    pub fn seconds(&self) -> u64
        ensures value { result ≡ self.now }
        ensures below { self.now < END_OF_TIME }
    {
        self.seconds
    }
}

/// Whether a second since 1970-01-01T00:00:00Z is of the range from one moment to another, whose ends belong to it.
/// This project's profile.
pub fn is_within(from: Moment, upto: Moment, second: u64) -> bool
    ensures { result ≡ is_within from upto second }
{
    from.seconds() <= second && second <= upto.seconds()
}
