ghost use Rattle.std.specs.Prelude.{◌≡◌, ℕ, List, if◌then◌else◌, Some, None, IfOk, IfSome, IsErrOf, option_map, slice_get};
ghost use Rattle.std.specs.Option.{option_and_then};
ghost use Rattle.std.specs.Result.{result_ok};
ghost use Rattle.pec_types.specs.Bytes.{Bytes};
ghost use Rattle.pec_directory.specs.Directory.{providers_of};
ghost use Rattle.pec_letters.specs.SeenReading.{view};
ghost use Rattle.pec_letters.specs.Views.{view_shown};
ghost use Rattle.pec_ledger.specs.OfDirectory.{facts_in};
ghost use Rattle.pec_ledger.specs.Pairs.{same_id};
ghost use Rattle.pec_ledger.specs.Half.{Taken as TakenShown};
ghost use Rattle.pec_plays.specs.Frames.{original_in, original_taken};
ghost use Rattle.pec_records.specs.declared.entries.Entry.{Entry as SomeEntry};
ghost use Rattle.pec_trade.specs.Houses.{world_at};
ghost use Rattle.pec_trade.specs.Texts.{seen_in};
ghost use Rattle.pec_outgoing.specs.Needs.{HoldsMessage, enveloped_in};
ghost use Rattle.pec_outgoing.specs.Views.{own_shown};
ghost use Rattle.pec_outgoing.specs.declared.faults.ComposeFault.TheVariants as faults;

use crate::asking::Own;
use crate::desks::Desk;
use crate::entries::{accepted_in, is_same, took_in};
use crate::facts::has_facts;
use crate::faults::ComposeFault;
use pec_letters::{EnvelopeView, read_envelope};
use pec_records::Entry;
use pec_seal::Sealer;
use pec_shelf::Shelf;
use pec_trade::{House, an_envelope_is_seen_with_its_facts};
use pec_types::{Facts, LetterFault, MsgId, NoMemory};
use std::alloc::Global;

/// The original of a message that was taken, a slice of its envelope, and the facts of its head.
#[derive(Drop)]
pub(crate) struct Original<'a> {
    pub(crate) facts: Facts,
    pub(crate) bytes: &'a [u8],
}

/// The original of a message that was taken, a slice of the envelope that an entry holds (RFC 6109, section 3.3, within
/// this project's profile). `Changed` comes exactly where the entry holds no envelope that is seen as one of this
/// message.
pub fn original_of<'a, S: Sealer>(
    alloc: Global,
    house: &House<'_, S>,
    shelf: &Shelf,
    id: MsgId,
    entry: &'a Entry,
) -> Result<&'a [u8], ComposeFault>
    ensures holds { IfOk result (λ original. enveloped_in (world_at house.now) id entry.now ≡ Some original.now) }
    ensures changed { IsErrOf result faults.Changed → (original : Bytes)
        → enveloped_in (world_at house.now) id entry.now ≡ Some original → ⊥ }
    // Of the entry that stands at the number of a row of its journal, it is the original that was taken.
    ensures taken { IfOk result (λ original. (me : ℕ) (journal : List SomeEntry) (row : TakenShown)
        → slice_get journal row.entry ≡ Some entry.now
        → original_taken (world_at house.now) me journal id row ≡ Some original.now) }
{
    let desk = Desk {
        alloc,
        house,
        shelf,
    };
    let found = taken_original(&desk, id, entry)?;
    let Original { facts: _, bytes } = found;
    Ok(bytes)
}

/// The facts of the original of a message that was taken, of the envelope that an entry holds. `Changed` comes as
/// `original_of` has it.
pub fn facts_of<S: Sealer>(
    alloc: Global,
    house: &House<'_, S>,
    shelf: &Shelf,
    id: MsgId,
    entry: &Entry,
) -> Result<Facts, ComposeFault>
    ensures holds { IfOk result (λ facts. option_and_then (world_at house.now).facts
        (enveloped_in (world_at house.now) id entry.now) ≡ Some facts) }
    ensures changed { IsErrOf result faults.Changed → (original : Bytes)
        → enveloped_in (world_at house.now) id entry.now ≡ Some original → ⊥ }
    // Of the entry that stands at the number of a row of its journal, they are those of the original that was taken.
    ensures taken { IfOk result (λ facts. (me : ℕ) (journal : List SomeEntry) (row : TakenShown)
        → slice_get journal row.entry ≡ Some entry.now
        → option_and_then (world_at house.now).facts (original_taken (world_at house.now) me journal id row)
        ≡ Some facts) }
{
    let desk = Desk {
        alloc,
        house,
        shelf,
    };
    let found = taken_original(&desk, id, entry)?;
    let Original { facts, bytes: _ } = found;
    Ok(facts)
}

/// The original of an accepted message, of the entry by which it was accepted.
pub(crate) fn accepted_original<'a, S: Sealer>(
    desk: &Desk<'_, S>,
    message: &Own<'_>,
    entry: &'a Entry,
) -> Result<&'a [u8], ComposeFault>
    ensures holds { IfOk result (λ original. HoldsMessage (world_at desk.now.house.now) (own_shown message.now)
        entry.now original.now) }
    ensures changed { IsErrOf result faults.Changed → (original : Bytes)
        → HoldsMessage (world_at desk.now.house.now) (own_shown message.now) entry.now original → ⊥ }
{
    let Some(original) = accepted_in(message.row.moment(), message.row.sender(), entry) else {
        return Err(ComposeFault::Changed);
    };
    let has = has_facts(desk.alloc, original, message.facts)?;
    if !has {
        return Err(ComposeFault::Changed);
    }
    Ok(original)
}

/// The original in the envelope with which a message was taken, where it is seen as an envelope of that message.
pub(crate) fn taken_original<'a, S: Sealer>(
    desk: &Desk<'_, S>,
    id: MsgId,
    entry: &'a Entry,
) -> Result<Original<'a>, ComposeFault>
    ensures holds { IfOk result (λ found. enveloped_in (world_at desk.now.house.now) id entry.now
        ≡ Some found.bytes.now) }
    ensures facts { IfOk result (λ found. facts_in found.bytes.now ≡ Some found.facts) }
    ensures changed { IsErrOf result faults.Changed → (original : Bytes)
        → enveloped_in (world_at desk.now.house.now) id entry.now ≡ Some original → ⊥ }
{
    let Some(envelope) = took_in(id, entry) else {
        return Err(ComposeFault::Changed);
    };
    let Some(found) = original_in(desk, id, envelope)? else {
        return Err(ComposeFault::Changed);
    };
    Ok(found)
}

/// The original in an envelope, where it is one of this message.
#[tactic(auto, using(crate::proofs::SeenLemmas::unseen, crate::proofs::SeenLemmas::original_of))]
fn original_in<'a, S: Sealer>(
    desk: &Desk<'_, S>,
    id: MsgId,
    envelope: &'a [u8],
) -> Result<Option<Original<'a>>, NoMemory>
    ensures original { IfOk result (λ found. option_map (λ found. found.bytes.now) found
        ≡ original_in id (seen_in (S.seals desk.now.house.now.sealer.now)
        (providers_of desk.now.house.now.directory.now) envelope.now)) }
    ensures facts { IfOk result (λ found. IfSome found (λ found. facts_in found.bytes.now ≡ Some found.facts)) }
{
    let Some(seen) = envelope_seen(desk, envelope)? else {
        return Ok(None);
    };
    Ok(unless_another(seen, id))
}

/// What is seen of a text that is an envelope.
fn envelope_seen<'a, S: Sealer>(
    desk: &Desk<'_, S>,
    text: &'a [u8],
) -> Result<Option<EnvelopeView<'a>>, NoMemory>
    ensures seen { IfOk result (λ found. option_map view_shown found
        ≡ result_ok (view (S.seals desk.now.house.now.sealer.now)
        (providers_of desk.now.house.now.directory.now) text.now)) }
    ensures facts { IfOk result (λ found. IfSome found (λ seen. facts_in seen.original.now ≡ Some seen.facts)) }
{
    an_envelope_is_seen_with_its_facts::<S>();
    match read_envelope(desk.alloc, desk.house.sealer, desk.house.directory, text) {
        Ok(seen) => Ok(Some(seen)),
        Err(LetterFault::NoMemory) => Err(NoMemory),
        Err(_) => Ok(None),
    }
}

/// The original in what is seen, where it is of this message.
fn unless_another<'a>(seen: EnvelopeView<'a>, id: MsgId) -> Option<Original<'a>>
    requires { facts_in seen.original.now ≡ Some seen.facts }
    ensures original { option_map (λ found. found.bytes.now) result
        ≡ (if same_id id seen.entry.id then Some seen.entry.original.now else None) }
    ensures facts { IfSome result (λ found. facts_in found.bytes.now ≡ Some found.facts) }
{
    if !is_same(id, seen.id) {
        return None;
    }
    let EnvelopeView {
        facts,
        original,
        ..
    } = seen;
    Some(Original {
        facts,
        bytes: original,
    })
}
