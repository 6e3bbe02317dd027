ghost use Rattle.std.specs.Prelude.{◌≡◌, ◌==◌, map};
ghost use Rattle.pec_grammar.specs.Grammar.{byte_at, choice_at, word_at};
ghost use Rattle.pec_grammar.specs.Reading.{entry, standing, Gives};

use crate::cursors::{Cursor, Stop};

/// Reads this byte.
#[tactic(auto, unfolding(crate::specs::Grammar::byte_at))]
pub fn exactly(at: Cursor<'_>, expected: u8) -> Result<Cursor<'_>, Stop<'_>>
    ensures { Gives (λ after. (expected, standing after)) result (byte_at (λ b. b == expected) (standing at.entry)) }
{
    let [b, rest @ ..] = at.rest else {
        return Err(at.stop());
    };
    if *b != expected {
        return Err(at.stop());
    }
    Ok(Cursor {
        rest,
        farthest: at.farthest,
    })
}

/// Reads these bytes. A stop is behind as many of them as stand there.
pub fn word<'a>(at: Cursor<'a>, bytes: &[u8]) -> Result<Cursor<'a>, Stop<'a>>
    ensures { Gives (λ after. (tt, standing after)) result (word_at bytes.now (standing at.entry)) }
{
    let mut at = at;
    for b in bytes {
        at = exactly(at, *b)?;
    }
    Ok(at)
}

/// Reads one of these words, and gives its value. A stop is behind the longest front of one of them that stands there.
pub fn one_of<'a, T: Copy>(
    at: Cursor<'a>,
    table: &[(&[u8], T)],
) -> Result<(T, Cursor<'a>), Stop<'a>>
    ensures { Gives (λ x. (x.0, standing x.1)) result (choice_at (map entry table.now) (standing at.entry)) }
{
    let mut at = at;
    for (bytes, value) in table {
        match word(at, bytes) {
            Ok(after) => return Ok((*value, after)),
            Err(stop) => at = at.tried(stop),
        }
    }
    Err(Stop { rest: at.farthest })
}
