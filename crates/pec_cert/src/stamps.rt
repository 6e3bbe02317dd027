ghost use Rattle.pec_cert.specs.Stamp.{Instant};

use pec_types::Moment;
use std::marker::Model;

/// A moment, and how many minutes the clock that shows it is ahead of UTC, from -1,559 to 1,559.
#[derive(Clone, Copy, Debug, PartialEq, Eq)]
pub struct Stamp {
    pub moment: Moment,
    pub minutes: i32,
}

/// A zone as it is shown: two digits of hours and two of minutes, ahead of UTC or behind it.
#[derive(Clone, Copy, Debug, PartialEq, Eq)]
pub struct ShownZone {
    pub ahead: bool,
    pub hours: u8,
    pub minutes: u8,
}

/// A day as it is shown, in two, two and four digits.
#[derive(Clone, Copy, Debug, PartialEq, Eq)]
pub struct ShownDay {
    pub day: u8,
    pub month: u8,
    pub year: u16,
}

/// A time as it is shown, in two digits each.
#[derive(Clone, Copy, Debug, PartialEq, Eq)]
pub struct ShownTime {
    pub hour: u8,
    pub minute: u8,
    pub second: u8,
}

/// What a clock shows at a moment: its zone, and the day and the time there. `Stamp::shown` makes it.
#[derive(Clone, Copy, Debug, PartialEq, Eq)]
pub struct Shown {
    pub zone: ShownZone,
    pub day: ShownDay,
    pub time: ShownTime,
}

impl Model for Stamp {
    ghost use Rattle.pec_cert.specs.Stamp.{Instant, IsMinutes};

    ghost Value = { Instant };

    ghost view = { λ stamp. record { moment = stamp.moment; minutes = stamp.minutes } };

    ghost invariant = { λ stamp. IsMinutes stamp.minutes };

    ghost inverse = { λ instant. record { moment = instant.moment; minutes = instant.minutes } };
}
