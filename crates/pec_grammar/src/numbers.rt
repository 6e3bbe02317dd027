ghost use Rattle.std.specs.Prelude.{◌≡◌, ◌≤◌, ◌<◌, ◌+◌, ◌*◌, Some, None, IfOk, IfSome, if◌then◌else◌};
ghost use Rattle.pec_grammar.specs.Dependent.{raw_at};
ghost use Rattle.pec_grammar.specs.Numbers.{can_follow, digit_at, number_at};
ghost use Rattle.pec_grammar.specs.Reading.{standing, Gives};

use crate::cursors::{Cursor, Stop};

/// Reads a number below this bound in so many bytes, the greatest first. A stop is at the first byte with which no such
/// number goes on.
pub fn number(at: Cursor<'_>, count: u32, bound: u64) -> Result<(u64, Cursor<'_>), Stop<'_>>
    requires size { count ≤ 8 }
    requires some { 0 < bound }
    ensures gives { Gives (λ x. (x.0, standing x.1)) result (number_at bound count 0 (standing at.entry)) }
    ensures below { IfOk result (λ x. x.0 < bound) }
{
    let mut at = at;
    let mut high = 0;
    let mut left = count;
    while left > 0 {
        left -= 1;
        let (further, after) = digit(at, high, left, bound)?;
        high = further;
        at = after;
    }
    Ok((high, at))
}

/// Reads one byte behind those that make `high`, with so many left behind it.
#[tactic(auto, unfolding(crate::specs::Numbers::digit_at, crate::specs::Grammar::byte_at))]
fn digit(at: Cursor<'_>, high: u64, left: u32, bound: u64) -> Result<(u64, Cursor<'_>), Stop<'_>>
    requires { left < 8 }
    ensures gives { Gives (λ x. (x.0, standing x.1)) result (digit_at bound left high (standing at.entry)) }
    ensures below { IfOk result (λ x. x.0 < bound) }
{
    let [b, rest @ ..] = at.rest else {
        return Err(at.stop());
    };
    let Some(further) = further(high, *b, left, bound) else {
        return Err(at.stop());
    };
    let farthest = at.farthest;
    Ok((further, Cursor { rest, farthest }))
}

/// Reads so many bytes, whatever they are. It takes no memory.
#[tactic(auto, unfolding(crate::specs::Dependent::raw_at))]
pub fn raw(at: Cursor<'_>, count: usize) -> Result<(&[u8], Cursor<'_>), Stop<'_>>
    ensures { Gives (λ x. (x.0.now, standing x.1)) result (raw_at count (standing at.entry)) }
{
    if at.rest.len() < count {
        let end = Cursor {
            rest: &[],
            farthest: at.farthest,
        };
        return Err(end.stop());
    }
    let after = Cursor {
        rest: &at.rest[count..],
        farthest: at.farthest,
    };
    Ok((&at.rest[..count], after))
}

/// What a byte makes of the bytes before it, `None` where every number that begins so reaches the bound.
fn further(high: u64, b: u8, left: u32, bound: u64) -> Option<u64>
    requires { left < 8 }
    ensures value { result ≡ (if can_follow bound left high b then Some (high * 256 + b) else None) }
    ensures below { IfSome result (λ n. n < bound) }
{
    let further = high.saturating_mul(256).saturating_add(b as u64);
    if further.saturating_mul(256u64.pow(left)) < bound {
        Some(further)
    } else {
        None
    }
}
