ghost use Rattle.pec_types.specs.Answers.{ReadsExactly, TellsExactly, OrNoMemory};
ghost use Rattle.pec_types.specs.Bytes.{Bytes};
ghost use Rattle.pec_grammar.specs.Grammar.{ending};
ghost use Rattle.pec_grammar.specs.Reading.{standing, MayGive};
ghost use Rattle.pec_records.specs.Entry.{IsEntry, IsEntryFault};
ghost use Rattle.pec_records.specs.EntryReading.{start_at, accepted_at, not_accepted_at, took_at, decided_at};
ghost use Rattle.pec_records.specs.EntryReading.{charged_at, learned_at, acked_at, ticked_at, anomaly_at};
ghost use Rattle.pec_records.specs.EntryReading.{start_two_at, upgraded_at, archived_at};
ghost use Rattle.pec_records.specs.EntryReading.{entry_at, entry_of};
ghost use Rattle.pec_records.specs.declared.faults.EntryFault.TheVariants as faults;

use crate::addresses::{read_address, read_addresses};
use crate::entries::Entry;
use crate::faults::EntryFault;
use crate::fields::{
    moment_of, read_bytes, read_cause, read_decision, read_id, read_number_32, read_origin,
    read_seconds, read_tag,
};
use crate::tags::Tag;
use pec_grammar::{Cursor, ReadError, Stop};
use pec_types::{MsgId, each_cause_is_one_of_all, lower_addresses_pass};
use std::alloc::Global;

/// The entry that these bytes are, in this project's own format. It takes memory in proportion to the bytes, and
/// reserves nothing for a count or a length that runs past their end.
pub fn decode(alloc: Global, bytes: &[u8]) -> Result<Entry, EntryFault>
    // An entry is answered exactly where the bytes are its text, and otherwise the one place at which they stop being
    // one.
    ensures reads { ReadsExactly (λ entry. IsEntry entry bytes.now) (IsEntryFault bytes.now) faults.NoMemory result }
    // The same answer as a function of the bytes, for definitions that build on it.
    ensures exact { OrNoMemory faults.NoMemory result (entry_of bytes.now) }
{
    an_entry_is_told_exactly();
    read_entry(alloc, bytes)
}

/// The function that tells an entry, or the fault of bytes, is one with the format: definitions above may take either.
pub fn an_entry_is_told_exactly()
    ensures { (bytes : Bytes) → TellsExactly (λ entry. IsEntry entry bytes) (IsEntryFault bytes) (entry_of bytes) }
{
    lower_addresses_pass();
    each_cause_is_one_of_all();
}

#[tactic(auto, unfolding(crate::specs::EntryReading::entry_of))]
fn read_entry(alloc: Global, bytes: &[u8]) -> Result<Entry, EntryFault>
    ensures { OrNoMemory faults.NoMemory result (entry_of bytes.now) }
{
    lower_addresses_pass();
    each_cause_is_one_of_all();
    match whole_entry(alloc, bytes) {
        Ok(entry) => Ok(entry),
        Err(ReadError::Stop(stop)) => Err(EntryFault::Syntax(bytes.len() - stop.rest.len())),
        Err(ReadError::NoMemory) => Err(EntryFault::NoMemory),
    }
}

fn whole_entry(alloc: Global, bytes: &[u8]) -> Result<Entry, ReadError<'_>>
    ensures { MayGive (λ x. x) result (ending (entry_at (record { rest = bytes.now; farthest = bytes.now }))) }
{
    let (entry, at) = entry(alloc, Cursor::new(bytes))?;
    if !at.rest.is_empty() {
        return Err(ReadError::Stop(Stop { rest: at.rest }));
    }
    Ok(entry)
}

/// Reads an entry: its tag, and the fields behind it.
#[tactic(auto, unfolding(crate::specs::EntryReading::entry_at))]
fn entry(alloc: Global, at: Cursor<'_>) -> Result<(Entry, Cursor<'_>), ReadError<'_>>
    ensures { MayGive (λ x. (x.0, standing x.1)) result (entry_at (standing at.entry)) }
{
    let (tag, at) = read_tag(at)?;
    match tag {
        Tag::Start => start(at),
        Tag::Accepted => accepted(alloc, at),
        Tag::NotAccepted => not_accepted(alloc, at),
        Tag::Took => took(alloc, at),
        Tag::Decided => decided(alloc, at),
        Tag::Charged => charged(at),
        Tag::Learned => learned(alloc, at),
        Tag::Acked => acked(alloc, at),
        Tag::Ticked => ticked(at),
        Tag::Anomaly => anomaly(alloc, at),
        Tag::StartTwo => start_two(at),
        Tag::Upgraded => upgraded(at),
        Tag::Archived => archived(alloc, at),
    }
}

#[tactic(auto, unfolding(crate::specs::EntryReading::start_at))]
fn start(at: Cursor<'_>) -> Result<(Entry, Cursor<'_>), ReadError<'_>>
    ensures { MayGive (λ x. (x.0, standing x.1)) result (start_at (standing at.entry)) }
{
    let (provider, digest, at) = read_origin(at)?;
    Ok((Entry::Start { provider, digest }, at))
}

#[tactic(auto, unfolding(crate::specs::EntryReading::accepted_at))]
fn accepted(alloc: Global, at: Cursor<'_>) -> Result<(Entry, Cursor<'_>), ReadError<'_>>
    ensures { MayGive (λ x. (x.0, standing x.1)) result (accepted_at (standing at.entry)) }
{
    let (seconds, at) = read_seconds(at)?;
    let (sender, at) = read_address(alloc, at)?;
    let (message, at) = read_bytes(alloc, at)?;
    let entry = Entry::Accepted {
        moment: moment_of(seconds),
        sender,
        message,
    };
    Ok((entry, at))
}

#[tactic(auto, unfolding(crate::specs::EntryReading::not_accepted_at))]
fn not_accepted(alloc: Global, at: Cursor<'_>) -> Result<(Entry, Cursor<'_>), ReadError<'_>>
    ensures { MayGive (λ x. (x.0, standing x.1)) result (not_accepted_at (standing at.entry)) }
{
    let (seconds, at) = read_seconds(at)?;
    let (sender, at) = read_address(alloc, at)?;
    let (cause, at) = read_cause(at)?;
    let (path, at) = read_addresses(alloc, at)?;
    let (message, at) = read_bytes(alloc, at)?;
    let entry = Entry::NotAccepted {
        moment: moment_of(seconds),
        sender,
        cause,
        path,
        message,
    };
    Ok((entry, at))
}

#[tactic(auto, unfolding(crate::specs::EntryReading::took_at))]
fn took(alloc: Global, at: Cursor<'_>) -> Result<(Entry, Cursor<'_>), ReadError<'_>>
    ensures { MayGive (λ x. (x.0, standing x.1)) result (took_at (standing at.entry)) }
{
    let (seconds, at) = read_seconds(at)?;
    let (provider, number, at) = read_id(at)?;
    let (message, at) = read_bytes(alloc, at)?;
    let entry = Entry::Took {
        moment: moment_of(seconds),
        id: MsgId { provider, number },
        message,
    };
    Ok((entry, at))
}

#[tactic(auto, unfolding(crate::specs::EntryReading::decided_at))]
fn decided(alloc: Global, at: Cursor<'_>) -> Result<(Entry, Cursor<'_>), ReadError<'_>>
    ensures { MayGive (λ x. (x.0, standing x.1)) result (decided_at (standing at.entry)) }
{
    let (seconds, at) = read_seconds(at)?;
    let (provider, number, at) = read_id(at)?;
    let (recipient, at) = read_address(alloc, at)?;
    let (decision, at) = read_decision(at)?;
    let entry = Entry::Decided {
        moment: moment_of(seconds),
        id: MsgId { provider, number },
        recipient,
        decision,
    };
    Ok((entry, at))
}

#[tactic(auto, unfolding(crate::specs::EntryReading::charged_at))]
fn charged(at: Cursor<'_>) -> Result<(Entry, Cursor<'_>), ReadError<'_>>
    ensures { MayGive (λ x. (x.0, standing x.1)) result (charged_at (standing at.entry)) }
{
    let (seconds, at) = read_seconds(at)?;
    let (provider, number, at) = read_id(at)?;
    let (by, at) = read_number_32(at)?;
    let entry = Entry::Charged {
        moment: moment_of(seconds),
        id: MsgId { provider, number },
        by,
    };
    Ok((entry, at))
}

#[tactic(auto, unfolding(crate::specs::EntryReading::learned_at))]
fn learned(alloc: Global, at: Cursor<'_>) -> Result<(Entry, Cursor<'_>), ReadError<'_>>
    ensures { MayGive (λ x. (x.0, standing x.1)) result (learned_at (standing at.entry)) }
{
    let (seconds, at) = read_seconds(at)?;
    let (provider, number, at) = read_id(at)?;
    let (recipient, at) = read_address(alloc, at)?;
    let (decision, at) = read_decision(at)?;
    let (decided, at) = read_seconds(at)?;
    let (message, at) = read_bytes(alloc, at)?;
    let entry = Entry::Learned {
        moment: moment_of(seconds),
        id: MsgId { provider, number },
        recipient,
        decision,
        decided: moment_of(decided),
        message,
    };
    Ok((entry, at))
}

#[tactic(auto, unfolding(crate::specs::EntryReading::acked_at))]
fn acked(alloc: Global, at: Cursor<'_>) -> Result<(Entry, Cursor<'_>), ReadError<'_>>
    ensures { MayGive (λ x. (x.0, standing x.1)) result (acked_at (standing at.entry)) }
{
    let (seconds, at) = read_seconds(at)?;
    let (provider, number, at) = read_id(at)?;
    let (recipient, at) = read_address(alloc, at)?;
    let entry = Entry::Acked {
        moment: moment_of(seconds),
        id: MsgId { provider, number },
        recipient,
    };
    Ok((entry, at))
}

#[tactic(auto, unfolding(crate::specs::EntryReading::ticked_at))]
fn ticked(at: Cursor<'_>) -> Result<(Entry, Cursor<'_>), ReadError<'_>>
    ensures { MayGive (λ x. (x.0, standing x.1)) result (ticked_at (standing at.entry)) }
{
    let (seconds, at) = read_seconds(at)?;
    let entry = Entry::Ticked {
        moment: moment_of(seconds),
    };
    Ok((entry, at))
}

#[tactic(auto, unfolding(crate::specs::EntryReading::anomaly_at))]
fn anomaly(alloc: Global, at: Cursor<'_>) -> Result<(Entry, Cursor<'_>), ReadError<'_>>
    ensures { MayGive (λ x. (x.0, standing x.1)) result (anomaly_at (standing at.entry)) }
{
    let (seconds, at) = read_seconds(at)?;
    let (accounts, at) = read_addresses(alloc, at)?;
    let (message, at) = read_bytes(alloc, at)?;
    let entry = Entry::Anomaly {
        moment: moment_of(seconds),
        accounts,
        message,
    };
    Ok((entry, at))
}

#[tactic(auto, unfolding(crate::specs::EntryReading::start_two_at))]
fn start_two(at: Cursor<'_>) -> Result<(Entry, Cursor<'_>), ReadError<'_>>
    ensures { MayGive (λ x. (x.0, standing x.1)) result (start_two_at (standing at.entry)) }
{
    let (provider, digest, at) = read_origin(at)?;
    Ok((Entry::StartTwo { provider, digest }, at))
}

#[tactic(auto, unfolding(crate::specs::EntryReading::upgraded_at))]
fn upgraded(at: Cursor<'_>) -> Result<(Entry, Cursor<'_>), ReadError<'_>>
    ensures { MayGive (λ x. (x.0, standing x.1)) result (upgraded_at (standing at.entry)) }
{
    let (seconds, at) = read_seconds(at)?;
    let entry = Entry::Upgraded {
        moment: moment_of(seconds),
    };
    Ok((entry, at))
}

#[tactic(auto, unfolding(crate::specs::EntryReading::archived_at))]
fn archived(alloc: Global, at: Cursor<'_>) -> Result<(Entry, Cursor<'_>), ReadError<'_>>
    ensures { MayGive (λ x. (x.0, standing x.1)) result (archived_at (standing at.entry)) }
{
    let (seconds, at) = read_seconds(at)?;
    let (account, at) = read_address(alloc, at)?;
    let (place, at) = read_number_32(at)?;
    let entry = Entry::Archived {
        moment: moment_of(seconds),
        account,
        place,
    };
    Ok((entry, at))
}
