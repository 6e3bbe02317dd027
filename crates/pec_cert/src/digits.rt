ghost use Rattle.std.specs.Prelude.{◌≡◌, ◌<◌, IfOk};
ghost use Rattle.pec_grammar.specs.Grammar.{byte_at};
ghost use Rattle.pec_grammar.specs.Reading.{standing, Gives};
ghost use Rattle.pec_cert.specs.LinesReading.{digit_at, two_at, four_at, zone_at, day_at, time_at, shown_at};

use crate::stamps::{Shown, ShownDay, ShownTime, ShownZone};
use pec_grammar::{Cursor, Stop, one_of, word};

/// Reads what a text shows of a moment.
#[tactic(auto, unfolding(crate::specs::LinesReading::shown_at))]
pub(crate) fn shown(at: Cursor<'_>) -> Result<(Shown, Cursor<'_>), Stop<'_>>
    ensures { Gives (λ x. (x.0, standing x.1)) result (shown_at (standing at.entry)) }
{
    let at = word(at, b"<data zona=\"")?;
    let (zone, at) = zone(at)?;
    let at = word(at, b"\">\r\n<giorno>")?;
    let (day, at) = day(at)?;
    let at = word(at, b"</giorno>\r\n<ora>")?;
    let (time, at) = time(at)?;
    let at = word(at, b"</ora>\r\n</data>\r\n")?;
    Ok((Shown { zone, day, time }, at))
}

#[tactic(auto, unfolding(crate::specs::LinesReading::zone_at))]
pub(crate) fn zone(at: Cursor<'_>) -> Result<(ShownZone, Cursor<'_>), Stop<'_>>
    ensures { Gives (λ x. (x.0, standing x.1)) result (zone_at (standing at.entry)) }
{
    let signs: [(&[u8], bool); 2] = [(b"+", true), (b"-", false)];
    let (ahead, at) = one_of(at, &signs)?;
    let (hours, at) = two_digits(at)?;
    let (minutes, at) = two_digits(at)?;
    let zone = ShownZone {
        ahead,
        hours,
        minutes,
    };
    Ok((zone, at))
}

#[tactic(auto, unfolding(crate::specs::LinesReading::day_at))]
fn day(at: Cursor<'_>) -> Result<(ShownDay, Cursor<'_>), Stop<'_>>
    ensures { Gives (λ x. (x.0, standing x.1)) result (day_at (standing at.entry)) }
{
    let (day, at) = two_digits(at)?;
    let at = word(at, b"/")?;
    let (month, at) = two_digits(at)?;
    let at = word(at, b"/")?;
    let (year, at) = four_digits(at)?;
    Ok((ShownDay { day, month, year }, at))
}

#[tactic(auto, unfolding(crate::specs::LinesReading::time_at))]
pub(crate) fn time(at: Cursor<'_>) -> Result<(ShownTime, Cursor<'_>), Stop<'_>>
    ensures { Gives (λ x. (x.0, standing x.1)) result (time_at (standing at.entry)) }
{
    let (hour, at) = two_digits(at)?;
    let at = word(at, b":")?;
    let (minute, at) = two_digits(at)?;
    let at = word(at, b":")?;
    let (second, at) = two_digits(at)?;
    let time = ShownTime {
        hour,
        minute,
        second,
    };
    Ok((time, at))
}

#[tactic(auto, unfolding(crate::specs::LinesReading::four_at))]
pub(crate) fn four_digits(at: Cursor<'_>) -> Result<(u16, Cursor<'_>), Stop<'_>>
    ensures { Gives (λ x. (x.0, standing x.1)) result (four_at (standing at.entry)) }
{
    let (high, at) = two_digits(at)?;
    let (low, at) = two_digits(at)?;
    Ok((high as u16 * 100 + low as u16, at))
}

#[tactic(auto, unfolding(crate::specs::LinesReading::two_at))]
pub(crate) fn two_digits(at: Cursor<'_>) -> Result<(u8, Cursor<'_>), Stop<'_>>
    ensures gives { Gives (λ x. (x.0, standing x.1)) result (two_at (standing at.entry)) }
    ensures below { IfOk result (λ x. x.0 < 100) }
{
    let (tens, at) = digit(at)?;
    let (ones, at) = digit(at)?;
    Ok((tens * 10 + ones, at))
}

#[tactic(auto, unfolding(crate::specs::LinesReading::digit_at, pec_grammar::specs::Grammar::byte_at))]
fn digit(at: Cursor<'_>) -> Result<(u8, Cursor<'_>), Stop<'_>>
    ensures gives { Gives (λ x. (x.0, standing x.1)) result (digit_at (standing at.entry)) }
    ensures below { IfOk result (λ x. x.0 < 10) }
{
    let [b, rest @ ..] = at.rest else {
        return Err(at.stop());
    };
    if !b.is_ascii_digit() {
        return Err(at.stop());
    }
    let farthest = at.farthest;
    Ok((*b - b'0', Cursor { rest, farthest }))
}
