ghost use Rattle.std.specs.Prelude.{◌≡◌};
ghost use Rattle.pec_types.specs.Timetable.{raised};

use std::marker::Model;

/// How many look-ups a call has made, for contracts alone: no running call tells it. It stays at its greatest value, 2
/// to the 64 less 1, once it is there. This project's profile.
#[derive(Drop)]
pub struct Steps {
    number: u64,
}

impl Model for Steps {
    ghost use Rattle.std.specs.Prelude.{ℕ};

    ghost Value = { ℕ };

    ghost view = { λ steps. steps.number };
}

impl Steps {
    /// No look-up yet. It takes no memory.
    pub fn new() -> Steps
        ensures { result ≡ 0 }
    {
        Steps { number: 0 }
    }

    /// One more. Only a timetable raises it.
    pub(crate) fn raise(&mut self)
        ensures { self.new ≡ raised self.old }
    {
        self.number = self.number.saturating_add(1);
    }
}
