ghost use Rattle.std.specs.Prelude.{◌≡◌, ◌<◌, ◌≤ℤ◌, ℕ, ℤ, pos, ◌+ℤ◌, ◌*ℤ◌, MatchOption};
ghost use Rattle.jiff_core.specs.DateTime.{civil_nanos};
ghost use Rattle.jiff_core.specs.Timestamp.{nanos_of_seconds};
ghost use Rattle.pec_types.specs.declared.moments.TheConstants.{END_OF_TIME};
ghost use Rattle.pec_cert.specs.Clock.{shown_of};
ghost use Rattle.pec_cert.specs.Stamp.{Instant, IsMinutes, IsStamp};
ghost use Rattle.pec_cert.specs.Shown.{AnswersShown, HasDigits, IsZone, IsDay, IsTime, IsShown, minutes_ahead};
ghost use Rattle.pec_cert.specs.declared.stamps.Shown.{Shown as ShownTo};

use crate::stamps::{Shown, ShownDay, ShownTime, ShownZone, Stamp};
use jiff_core::civil::{Date, DateTime, Time};
use jiff_core::{Offset, Timestamp};
use pec_types::Moment;

/// Which part of what is shown is out of range.
#[derive(Clone, Copy)]
pub(crate) enum Part {
    Zone,
    /// The day itself, or the moment alone.
    Day,
    Time,
}

/// The moment that is shown.
pub(crate) fn stamp_of(shown: Shown) -> Result<Stamp, Part>
    requires { HasDigits shown }
    ensures { AnswersShown shown result }
{
    let Some(minutes) = minutes_of(shown.zone) else {
        return Err(Part::Zone);
    };
    let Some(date) = date_of(shown.day) else {
        return Err(Part::Day);
    };
    let Some(time) = time_of(shown.time) else {
        return Err(Part::Time);
    };
    let seconds = DateTime { date, time }.to_second();
    let Some(moment) = moment_of(seconds - minutes as i64 * 60) else {
        return Err(Part::Day);
    };
    Ok(Stamp { moment, minutes })
}

fn minutes_of(zone: ShownZone) -> Option<i32>
    ensures { MatchOption result (IsZone zone → ⊥)
        (λ minutes. IsZone zone × (minutes ≡ minutes_ahead zone) × IsMinutes minutes) }
{
    if zone.hours > 25 || zone.minutes > 59 {
        return None;
    }
    let minutes = zone.hours as i32 * 60 + zone.minutes as i32;
    if zone.ahead {
        return Some(minutes);
    }
    if minutes == 0 { None } else { Some(-minutes) }
}

pub(crate) fn date_of(day: ShownDay) -> Option<Date>
    requires { (day.day < 100) × (day.month < 100) × (day.year < 10000) }
    ensures { MatchOption result (IsDay day → ⊥)
        (λ date. IsDay day × (date.year ≡ pos day.year) × (date.month ≡ day.month) × (date.day ≡ day.day)) }
{
    match Date::new(day.year as i16, day.month as i8, day.day as i8) {
        Ok(date) => Some(date),
        Err(_) => None,
    }
}

fn time_of(time: ShownTime) -> Option<Time>
    requires { (time.hour < 100) × (time.minute < 100) × (time.second < 100) }
    ensures { MatchOption result (IsTime time → ⊥)
        (λ t. IsTime time × (t.hour ≡ time.hour) × (t.minute ≡ time.minute) × (t.second ≡ time.second)) }
{
    match Time::new(time.hour as i8, time.minute as i8, time.second as i8, 0) {
        Ok(time) => Some(time),
        Err(_) => None,
    }
}

fn moment_of(seconds: i64) -> Option<Moment>
    ensures { MatchOption result ((moment : ℕ) → moment < END_OF_TIME → seconds ≡ pos moment → ⊥)
        (λ moment. (moment < END_OF_TIME) × (seconds ≡ pos moment)) }
{
    if seconds < 0 {
        return None;
    }
    Moment::new(seconds as u64)
}

impl Stamp {
    /// What the clock shows at the moment, by the calendar of `jiff`. It takes no memory.
    pub fn shown(self) -> Shown
        ensures shown { IsShown result self }
        // The same as a function of the stamp, for definitions that build on it.
        ensures exact { result ≡ shown_of self }
        ensures digits { HasDigits result }
    {
        let clock = clock_of(self.moment, self.minutes);
        let time = ShownTime {
            hour: clock.time.hour,
            minute: clock.time.minute,
            second: clock.time.second,
        };
        let day = day_of(clock.date);
        let zone = zone_of(self.minutes);
        Shown { zone, day, time }
    }
}

/// The law of clocks: before the year 2100 each moment is shown in each zone, and in one way.
pub fn a_moment_is_shown_in_one_way()
    ensures shown { (stamp : Instant) → IsStamp stamp → IsShown (shown_of stamp) stamp }
    ensures only { (shown : ShownTo) (stamp : Instant) → IsShown shown stamp → shown ≡ shown_of stamp }
    ensures one { (shown : ShownTo) (stamp other : Instant) → IsShown shown stamp → IsShown shown other
        → stamp ≡ other }
    ensures digits { (shown : ShownTo) (stamp : Instant) → IsShown shown stamp → HasDigits shown }
{}

fn zone_of(minutes: i32) -> ShownZone
    requires { IsMinutes minutes }
    ensures zone { IsZone result }
    ensures minutes { minutes ≡ minutes_ahead result }
{
    let whole = minutes.unsigned_abs();
    ShownZone {
        ahead: minutes >= 0,
        hours: (whole / 60) as u8,
        minutes: (whole % 60) as u8,
    }
}

fn day_of(date: Date) -> ShownDay
    requires { pos 0 ≤ℤ date.year }
    ensures year { pos result.year ≡ date.year }
    ensures month { result.month ≡ date.month }
    ensures day { result.day ≡ date.day }
{
    ShownDay {
        day: date.day,
        month: date.month,
        year: date.year as u16,
    }
}

// What a clock so many minutes ahead of UTC shows at the moment.
fn clock_of(moment: Moment, minutes: i32) -> DateTime
    requires { IsMinutes minutes }
    ensures clock { civil_nanos result ≡ pos moment *ℤ pos 1_000_000_000 +ℤ nanos_of_seconds (minutes *ℤ pos 60) }
    ensures year { pos 0 ≤ℤ result.date.year }
    ensures moment { moment < END_OF_TIME }
{
    let Ok(instant) = Timestamp::from_nanosecond(moment.seconds() as i128 * 1_000_000_000) else {
        unreachable!()
    };
    let offset = Offset {
        seconds: minutes * 60,
    };
    offset.to_datetime(instant)
}
