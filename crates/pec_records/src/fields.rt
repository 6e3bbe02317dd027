ghost use Rattle.std.specs.Prelude.{◌≡◌, ◌<◌, IfOk};
ghost use Rattle.pec_grammar.specs.Grammar.{choice_at};
ghost use Rattle.pec_grammar.specs.Reading.{standing, Gives, MayGive};
ghost use Rattle.pec_records.specs.EntryReading.{moment_at, number_32_at, id_from, id_at, bytes_at, origin_at};
ghost use Rattle.pec_records.specs.EntryReading.{decision_table, cause_rows, cause_table, tag_table};

use crate::tags::Tag;
use pec_grammar::{Cursor, ReadError, Stop, number, one_of, raw, word};
use pec_types::{Cause, Decision, END_OF_TIME, MESSAGES, Moment, MsgId, Refusal, Text8};
use std::alloc::Global;

/// Reads the seconds of a moment.
#[tactic(auto, unfolding(crate::specs::EntryReading::moment_at))]
pub(crate) fn read_seconds(at: Cursor<'_>) -> Result<(u64, Cursor<'_>), Stop<'_>>
    ensures gives { Gives (λ x. (x.0, standing x.1)) result (moment_at (standing at.entry)) }
    ensures below { IfOk result (λ x. x.0 < END_OF_TIME) }
{
    let (seconds, at) = number(at, 8, END_OF_TIME)?;
    Ok((seconds, at))
}

/// The moment of seconds that are known to be below the end of time.
pub(crate) fn moment_of(seconds: u64) -> Moment
    requires { seconds < END_OF_TIME }
    ensures { result ≡ seconds }
{
    Moment::new(seconds).unwrap()
}

/// Reads a number of four bytes.
#[tactic(auto, unfolding(crate::specs::EntryReading::number_32_at))]
pub(crate) fn read_number_32(at: Cursor<'_>) -> Result<(u32, Cursor<'_>), Stop<'_>>
    ensures { Gives (λ x. (x.0, standing x.1)) result (number_32_at (standing at.entry)) }
{
    let (number, at) = number(at, 4, 1 << 32)?;
    Ok((number as u32, at))
}

/// Reads what a journal begins with: the number of its provider, and the digest of a directory.
#[tactic(auto, unfolding(crate::specs::EntryReading::origin_at))]
pub(crate) fn read_origin(at: Cursor<'_>) -> Result<(u32, [u8; 32], Cursor<'_>), Stop<'_>>
    ensures { Gives (λ x. ((x.0, x.1), standing x.2)) result (origin_at (standing at.entry)) }
{
    let (provider, at) = read_number_32(at)?;
    let (bytes, at) = raw(at, 32)?;
    let mut digest = [0; 32];
    digest.copy_from_slice(bytes);
    Ok((provider, digest, at))
}

/// Reads what names a message: its provider, and its number there.
#[tactic(auto, unfolding(crate::specs::EntryReading::id_at))]
pub(crate) fn read_id(at: Cursor<'_>) -> Result<(u32, u64, Cursor<'_>), Stop<'_>>
    ensures gives { Gives (λ x. (id_from (x.0, x.1), standing x.2)) result (id_at (standing at.entry)) }
    ensures below { IfOk result (λ x. x.1 < MESSAGES) }
{
    let (provider, at) = read_number_32(at)?;
    let (number, at) = number(at, 8, MESSAGES)?;
    Ok((provider, number, at))
}

/// Reads a length and so many bytes, which are copied once the length was found to be right.
#[tactic(auto, unfolding(crate::specs::EntryReading::bytes_at))]
pub(crate) fn read_bytes(
    alloc: Global,
    at: Cursor<'_>,
) -> Result<(Text8, Cursor<'_>), ReadError<'_>>
    ensures { MayGive (λ x. (x.0, standing x.1)) result (bytes_at (standing at.entry)) }
{
    let (length, at) = read_number_32(at)?;
    let (bytes, at) = raw(at, length as usize)?;
    let bytes = Text8::of(Vec::from_slice(alloc, bytes)?);
    Ok((bytes, at))
}

/// Reads a decision.
pub(crate) fn read_decision(at: Cursor<'_>) -> Result<(Decision, Cursor<'_>), Stop<'_>>
    ensures { Gives (λ x. (x.0, standing x.1)) result (choice_at decision_table (standing at.entry)) }
{
    let table: [(&[u8], Decision); 4] = [
        (&[0], Decision::Placed),
        (&[1], Decision::Refused(Refusal::NoMailbox)),
        (&[2], Decision::Refused(Refusal::MailboxFull)),
        (&[3], Decision::Refused(Refusal::Virus)),
    ];
    let (decision, at) = one_of(at, &table)?;
    Ok((decision, at))
}

/// Reads a cause, by its number.
pub(crate) fn read_cause(at: Cursor<'_>) -> Result<(Cause, Cursor<'_>), Stop<'_>>
    ensures { Gives (λ x. (x.0, standing x.1)) result (choice_at cause_table (standing at.entry)) }
{
    let (cause, at) = one_cause(at, Cause::all())?;
    Ok((cause, at))
}

/// Reads the number of one of these causes.
fn one_cause<'a>(at: Cursor<'a>, causes: &[Cause]) -> Result<(Cause, Cursor<'a>), Stop<'a>>
    ensures { Gives (λ x. (x.0, standing x.1)) result (choice_at (cause_rows causes.now) (standing at.entry)) }
{
    let mut at = at;
    for cause in causes {
        match word(at, &[cause.number()]) {
            Ok(after) => return Ok((*cause, after)),
            Err(stop) => at = at.tried(stop),
        }
    }
    Err(Stop { rest: at.farthest })
}

/// Reads the tag that an entry begins with.
pub(crate) fn read_tag(at: Cursor<'_>) -> Result<(Tag, Cursor<'_>), Stop<'_>>
    ensures { Gives (λ x. (x.0, standing x.1)) result (choice_at tag_table (standing at.entry)) }
{
    let table: [(&[u8], Tag); 13] = [
        (&[0], Tag::Start),
        (&[1], Tag::Accepted),
        (&[2], Tag::NotAccepted),
        (&[3], Tag::Took),
        (&[4], Tag::Decided),
        (&[5], Tag::Charged),
        (&[6], Tag::Learned),
        (&[7], Tag::Acked),
        (&[8], Tag::Ticked),
        (&[9], Tag::Anomaly),
        (&[10], Tag::StartTwo),
        (&[11], Tag::Upgraded),
        (&[12], Tag::Archived),
    ];
    one_of(at, &table)
}
