//! How a letter prints a stamp: the date of its head, and the line of its text.

ghost use Rattle.std.specs.Prelude.{◌≡◌, ◌++◌, ◌<◌, ◌↔◌, ℕ, List, Some, length, codes, OnOk, IfOk, MatchOption};
ghost use Rattle.jiff_core.specs.Weekday.{monday_zero};
ghost use Rattle.pec_types.specs.Text.{AllPrintable};
ghost use Rattle.pec_grammar.specs.Grammar.{choice_at, ending};
ghost use Rattle.pec_grammar.specs.Reading.{standing, Gives};
ghost use Rattle.pec_cert.specs.HeaderDate.{weekday_name, month_name, weekday_of, named_day_text, date_text, header_date_text, IsHeaderDate, header_date_of, line_text, day_line_of};
ghost use Rattle.pec_cert.specs.HeaderDateReading.{weekdays, months, named_day_at, date_at, header_date_at, header_stamp_of};
ghost use Rattle.pec_cert.specs.Shown.{HasDigits, IsDay};
ghost use Rattle.pec_cert.specs.Stamp.{Instant, IsStamp};

use crate::dates::{date_of, stamp_of};
use crate::digits::{four_digits, time, two_digits, zone};
use crate::stamps::{Shown, ShownDay, Stamp};
use crate::writing::{put_day, put_four_digits, put_time, put_two_digits, put_zone};
use jiff_core::civil::Weekday;
use pec_grammar::{Cursor, Stop, one_of, word};
use pec_types::NoMemory;
use std::alloc::{AllocError, Global};

/// The date of a head that shows a stamp, as `Tue, 02 Jan 2024 10:00:00 +0100`: 31 bytes (RFC 5322, section 3.3, in the
/// one spelling of this project's profile, with English names).
pub fn header_date(alloc: Global, stamp: Stamp) -> Result<Vec<u8>, NoMemory>
    ensures date { IfOk result (λ text. IsHeaderDate stamp text.items) }
    // The same as a function of the stamp, for definitions that build on it.
    ensures exact { IfOk result (λ text. text.items ≡ header_date_of stamp) }
{
    let shown = stamp.shown();
    let mut out = Vec::with_capacity(alloc, 31)?;
    put_header_date(&mut out, weekday(shown.day), shown)?;
    Ok(out)
}

/// The stamp that a text is the date of in a head, `None` where it is none. It takes no memory.
pub fn read_header_date(text: &[u8]) -> Option<Stamp>
    ensures date { MatchOption result ((stamp : Instant) → IsHeaderDate stamp text.now → ⊥)
        (λ stamp. IsHeaderDate stamp text.now) }
    // The same as a function of the bytes, for definitions that build on it.
    ensures exact { result ≡ header_stamp_of text.now }
{
    header_stamp(text)
}

/// The line of a letter's text that shows a stamp, without its end, as `Giorno 02/01/2024 ore 10:00:00 (+0100)`: 38
/// bytes (this project's profile).
pub fn day_line(alloc: Global, stamp: Stamp) -> Result<Vec<u8>, NoMemory>
    ensures { IfOk result (λ text. text.items ≡ day_line_of stamp) }
{
    let mut out = Vec::with_capacity(alloc, 38)?;
    put_day_line(&mut out, stamp.shown())?;
    Ok(out)
}

/// The law of the dates in heads: each stamp has one, no text is the date of two stamps, and the functions
/// `header_date_of` and `header_stamp_of` say which.
pub fn a_header_date_has_one_stamp()
    ensures text { (stamp : Instant) → IsStamp stamp → IsHeaderDate stamp (header_date_of stamp) }
    ensures only { (stamp : Instant) (text : List ℕ) → IsHeaderDate stamp text → text ≡ header_date_of stamp }
    ensures stamp { (stamp : Instant) (text : List ℕ) → (header_stamp_of text ≡ Some stamp) ↔ IsHeaderDate stamp text }
{}

/// The law of printed stamps: each is one line of printable bytes, 31 in a head and 38 in a text.
pub fn a_printed_stamp_is_one_line()
    ensures date { (stamp : Instant) (text : List ℕ) → IsHeaderDate stamp text
        → AllPrintable text × (length text ≡ 31) }
    ensures line { (stamp : Instant) → IsStamp stamp
        → AllPrintable (day_line_of stamp) × (length (day_line_of stamp) ≡ 38) }
{}

fn weekday(day: ShownDay) -> Weekday
    requires { IsDay day }
    ensures { monday_zero result ≡ weekday_of day }
{
    match date_of(day) {
        Some(date) => date.weekday(),
        None => unreachable!(),
    }
}

// Writing.

fn put_header_date(out: &mut Vec<u8>, day_of_week: Weekday, shown: Shown) -> Result<(), AllocError>
    requires { HasDigits shown }
    ensures { OnOk result (out.new.items ≡ out.old.items ++ header_date_text (monday_zero day_of_week) shown) }
{
    out.extend_from_slice(name_of_weekday(day_of_week))?;
    out.extend_from_slice(b", ")?;
    put_date(out, shown)?;
    Ok(())
}

fn name_of_weekday(weekday: Weekday) -> &'static [u8]
    ensures { result.now ≡ weekday_name (monday_zero weekday) }
{
    match weekday {
        Weekday::Monday => b"Mon",
        Weekday::Tuesday => b"Tue",
        Weekday::Wednesday => b"Wed",
        Weekday::Thursday => b"Thu",
        Weekday::Friday => b"Fri",
        Weekday::Saturday => b"Sat",
        Weekday::Sunday => b"Sun",
    }
}

fn put_date(out: &mut Vec<u8>, shown: Shown) -> Result<(), AllocError>
    requires { HasDigits shown }
    ensures { OnOk result (out.new.items ≡ out.old.items ++ date_text shown) }
{
    put_named_day(out, shown.day)?;
    out.push(b' ')?;
    put_time(out, shown.time)?;
    out.push(b' ')?;
    put_zone(out, shown.zone)?;
    Ok(())
}

fn put_named_day(out: &mut Vec<u8>, day: ShownDay) -> Result<(), AllocError>
    requires { (day.day < 100) × (day.month < 100) × (day.year < 10000) }
    ensures { OnOk result (out.new.items ≡ out.old.items ++ named_day_text day) }
{
    put_two_digits(out, day.day)?;
    out.push(b' ')?;
    out.extend_from_slice(name_of_month(day.month))?;
    out.push(b' ')?;
    put_four_digits(out, day.year)?;
    Ok(())
}

// The name of a month from 1 to 12.
fn name_of_month(month: u8) -> &'static [u8]
    ensures { result.now ≡ month_name month }
{
    match month {
        1 => b"Jan",
        2 => b"Feb",
        3 => b"Mar",
        4 => b"Apr",
        5 => b"May",
        6 => b"Jun",
        7 => b"Jul",
        8 => b"Aug",
        9 => b"Sep",
        10 => b"Oct",
        11 => b"Nov",
        _ => b"Dec",
    }
}

fn put_day_line(out: &mut Vec<u8>, shown: Shown) -> Result<(), AllocError>
    requires { HasDigits shown }
    ensures { OnOk result (out.new.items ≡ out.old.items ++ line_text shown) }
{
    out.extend_from_slice(b"Giorno ")?;
    put_day(out, shown.day)?;
    out.extend_from_slice(b" ore ")?;
    put_time(out, shown.time)?;
    out.extend_from_slice(b" (")?;
    put_zone(out, shown.zone)?;
    out.push(b')')?;
    Ok(())
}

// Reading.

fn header_stamp(text: &[u8]) -> Option<Stamp>
    ensures { result ≡ header_stamp_of text.now }
{
    let Ok((day_of_week, shown)) = whole_date(text) else {
        return None;
    };
    let Ok(stamp) = stamp_of(shown) else {
        return None;
    };
    if weekday(shown.day).index() != day_of_week {
        return None;
    }
    Some(stamp)
}

fn whole_date(text: &[u8]) -> Result<(u8, Shown), Stop<'_>>
    ensures { Gives (λ x. x) result (ending (header_date_at (record { rest = text.now; farthest = text.now }))) }
{
    let (date, at) = header_date_parts(Cursor::new(text))?;
    if !at.rest.is_empty() {
        return Err(Stop { rest: at.rest });
    }
    Ok(date)
}

#[tactic(auto, unfolding(crate::specs::HeaderDateReading::header_date_at))]
fn header_date_parts(at: Cursor<'_>) -> Result<((u8, Shown), Cursor<'_>), Stop<'_>>
    ensures { Gives (λ x. (x.0, standing x.1)) result (header_date_at (standing at.entry)) }
{
    let (day_of_week, at) = weekday_number(at)?;
    let at = word(at, b", ")?;
    let (shown, at) = date(at)?;
    Ok(((day_of_week, shown), at))
}

fn weekday_number(at: Cursor<'_>) -> Result<(u8, Cursor<'_>), Stop<'_>>
    ensures { Gives (λ x. (x.0, standing x.1)) result (choice_at weekdays (standing at.entry)) }
{
    let table: [(&[u8], u8); 7] = [
        (b"Mon", 0),
        (b"Tue", 1),
        (b"Wed", 2),
        (b"Thu", 3),
        (b"Fri", 4),
        (b"Sat", 5),
        (b"Sun", 6),
    ];
    let (weekday, at) = one_of(at, &table)?;
    Ok((weekday, at))
}

#[tactic(auto, unfolding(crate::specs::HeaderDateReading::date_at))]
fn date(at: Cursor<'_>) -> Result<(Shown, Cursor<'_>), Stop<'_>>
    ensures { Gives (λ x. (x.0, standing x.1)) result (date_at (standing at.entry)) }
{
    let (day, at) = named_day(at)?;
    let at = word(at, b" ")?;
    let (time, at) = time(at)?;
    let at = word(at, b" ")?;
    let (zone, at) = zone(at)?;
    Ok((Shown { zone, day, time }, at))
}

#[tactic(auto, unfolding(crate::specs::HeaderDateReading::named_day_at))]
fn named_day(at: Cursor<'_>) -> Result<(ShownDay, Cursor<'_>), Stop<'_>>
    ensures { Gives (λ x. (x.0, standing x.1)) result (named_day_at (standing at.entry)) }
{
    let (day, at) = two_digits(at)?;
    let at = word(at, b" ")?;
    let (month, at) = month_number(at)?;
    let at = word(at, b" ")?;
    let (year, at) = four_digits(at)?;
    Ok((ShownDay { day, month, year }, at))
}

fn month_number(at: Cursor<'_>) -> Result<(u8, Cursor<'_>), Stop<'_>>
    ensures { Gives (λ x. (x.0, standing x.1)) result (choice_at months (standing at.entry)) }
{
    let table: [(&[u8], u8); 12] = [
        (b"Jan", 1),
        (b"Feb", 2),
        (b"Mar", 3),
        (b"Apr", 4),
        (b"May", 5),
        (b"Jun", 6),
        (b"Jul", 7),
        (b"Aug", 8),
        (b"Sep", 9),
        (b"Oct", 10),
        (b"Nov", 11),
        (b"Dec", 12),
    ];
    let (month, at) = one_of(at, &table)?;
    Ok((month, at))
}
