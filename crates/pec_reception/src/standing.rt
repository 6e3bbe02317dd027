ghost use Rattle.std.specs.Prelude.{◌≡◌};
ghost use Rattle.pec_points.specs.ReceptionReading.{reception_of};
ghost use Rattle.pec_reception.specs.Standings.{standing_of};

use pec_points::{Arrived, Reception, receive};

/// How a letter stands that came: one for this provider, new or known, or none for it.
#[derive(Clone, Copy, Debug, PartialEq, Eq)]
pub(crate) enum Standing {
    New,
    Known,
    Foreign,
}

/// How a letter stands, by the table of reception.
pub(crate) fn stands(me: u32, arrived: &Arrived) -> Standing
    ensures { result ≡ standing_of (reception_of me arrived.now) }
{
    match receive(me, arrived) {
        Reception::Take => Standing::New,
        Reception::Charge => Standing::New,
        Reception::Outcome => Standing::New,
        Reception::Ack => Standing::New,
        Reception::Repeat => Standing::Known,
        Reception::Anomaly => Standing::Foreign,
        Reception::Drop => Standing::Foreign,
    }
}
