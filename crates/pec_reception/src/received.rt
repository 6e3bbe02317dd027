ghost use Rattle.std.specs.Prelude.{◌≡◌, None, Some};

use pec_shelf::Draft;
use pec_types::{Event, Letter};

/// What is to be done on a frame or on a pair: the entry to append, if any, with what was read in its bytes, what is
/// told of it, and the answer that is owed from then on, if any.
#[derive(Drop)]
pub struct Received {
    pub entry: Option<Draft>,
    pub event: Event,
    pub owed: Option<Letter>,
}

impl Received {
    /// An entry is appended.
    pub(crate) fn enters(entry: Draft, event: Event, owed: Option<Letter>) -> Received
        ensures { result ≡ record { entry = Some entry; event = event; owed = owed } }
    {
        Received {
            entry: Some(entry),
            event,
            owed,
        }
    }

    /// Nothing is appended.
    pub(crate) fn passes(event: Event, owed: Option<Letter>) -> Received
        ensures { result ≡ record { entry = None; event = event; owed = owed } }
    {
        Received {
            entry: None,
            event,
            owed,
        }
    }
}
