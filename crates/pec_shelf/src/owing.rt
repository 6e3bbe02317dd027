ghost use Rattle.std.specs.Prelude.{◌≡◌, ◌≤◌, ◌&&◌, ◌==◌, not, [], ◌∷◌, ◌++◌, length, IfOk, OnOk, if◌then◌else◌};
ghost use Rattle.std.specs.List.{flat_map, list_any};
ghost use Rattle.pec_types.specs.declared.messages.TheConstants.{MESSAGES};
ghost use Rattle.pec_ledger.specs.Due.{is_unheard, outcome_on, outcomes_to};
ghost use Rattle.pec_shelf.specs.Lines.{awaits_at, envelope_at, envelope_rows, is_at, is_heard};
ghost use Rattle.pec_shelf.specs.Still.{envelope_in, outcome_in};

use crate::certified::Certified;
use crate::inbox::Inbox;
use crate::outbox::Outbox;
use crate::rows::{FateRow, MessageRow, fate_at};
use crate::shelf::Shelf;
use pec_types::{Letter, MsgId, NoMemory};

/// What is owed to a provider beside answers, of the two sides of this shelf: outcomes, and then envelopes.
pub(crate) fn owed(
    shelf: &Shelf,
    outbox: &Outbox,
    inbox: &Inbox,
    to: u32,
) -> Result<Vec<Letter>, NoMemory>
    requires few { length outbox.now.messages ≤ MESSAGES }
    requires charged { outbox.now.charged ≡ shelf.now.half.charged }
    requires known { outbox.now.known ≡ shelf.now.half.known }
    requires decided { inbox.now.decided ≡ shelf.now.half.decided }
    requires acked { inbox.now.acked ≡ shelf.now.half.acked }
    ensures { IfOk result (λ letters. letters.items
        ≡ outcomes_to shelf.now.half to ++ envelope_rows outbox.now.me shelf.now.half to 0 outbox.now.messages) }
{
    let mut letters = Vec::new(shelf.alloc);
    push_outcomes(
        shelf,
        &mut letters,
        to,
        inbox.all_decided(),
        inbox.unheard(),
    )?;
    push_envelopes(shelf, &mut letters, to, outbox, outbox.unanswered())?;
    Ok(letters)
}

/// Adds the outcomes of the decisions at these places that are owed to a provider.
fn push_outcomes(
    shelf: &Shelf,
    letters: &mut Vec<Letter>,
    to: u32,
    fates: &[FateRow],
    places: &[u64],
) -> Result<(), NoMemory>
    ensures { OnOk result (letters.new.items
        ≡ letters.old.items ++ flat_map (outcome_in shelf.now.half to fates.now) places.now) }
{
    for place in places {
        push_outcome_at(shelf, letters, to, fates, *place)?;
    }
    Ok(())
}

/// Adds the outcome of the decision at a place, if it is owed to a provider.
fn push_outcome_at(
    shelf: &Shelf,
    letters: &mut Vec<Letter>,
    to: u32,
    fates: &[FateRow],
    place: u64,
) -> Result<(), NoMemory>
    ensures { OnOk result (letters.new.items
        ≡ letters.old.items ++ outcome_in shelf.now.half to fates.now place) }
{
    let Some(fate) = fate_at(fates, place) else {
        return Ok(());
    };
    push_outcome(shelf, letters, to, fate)?;
    Ok(())
}

fn push_outcome(
    shelf: &Shelf,
    letters: &mut Vec<Letter>,
    to: u32,
    fate: &FateRow,
) -> Result<(), NoMemory>
    ensures { OnOk result (letters.new.items
        ≡ letters.old.items ++ (if is_unheard shelf.now.half to fate.now then outcome_on fate.now ∷ [] else [])) }
{
    if is_unheard(shelf, to, fate) {
        letters.push(outcome_on(shelf, fate)?)?;
    }
    Ok(())
}

fn is_unheard(shelf: &Shelf, to: u32, fate: &FateRow) -> bool
    ensures { result ≡ is_unheard shelf.now.half to fate.now }
{
    fate.id().provider == to && !shelf.is_acked(fate.id(), fate.recipient())
}

fn outcome_on(shelf: &Shelf, fate: &FateRow) -> Result<Letter, NoMemory>
    ensures { IfOk result (λ letter. letter ≡ outcome_on fate.now) }
{
    let recipient = fate.recipient().copy(shelf.alloc)?;
    Ok(Letter::Outcome {
        id: fate.id(),
        recipient,
    })
}

/// Adds the envelopes of the messages of these numbers that are owed to a provider.
fn push_envelopes(
    shelf: &Shelf,
    letters: &mut Vec<Letter>,
    to: u32,
    outbox: &Outbox,
    numbers: &[u64],
) -> Result<(), NoMemory>
    requires { length outbox.now.messages ≤ MESSAGES }
    ensures { OnOk result (letters.new.items
        ≡ letters.old.items ++ flat_map (envelope_in outbox.now.me shelf.now.half to outbox.now.messages) numbers.now) }
{
    for number in numbers {
        push_envelope_of(shelf, letters, to, outbox, *number)?;
    }
    Ok(())
}

/// Adds the envelope of the message of a number, if it is owed to a provider.
fn push_envelope_of(
    shelf: &Shelf,
    letters: &mut Vec<Letter>,
    to: u32,
    outbox: &Outbox,
    number: u64,
) -> Result<(), NoMemory>
    requires { length outbox.now.messages ≤ MESSAGES }
    ensures { OnOk result (letters.new.items
        ≡ letters.old.items ++ envelope_in outbox.now.me shelf.now.half to outbox.now.messages number) }
{
    let Some(row) = outbox.message(number) else {
        return Ok(());
    };
    let id = MsgId {
        provider: outbox.me(),
        number,
    };
    push_envelope(shelf, letters, to, id, row)?;
    Ok(())
}

fn push_envelope(
    shelf: &Shelf,
    letters: &mut Vec<Letter>,
    to: u32,
    id: MsgId,
    row: &MessageRow,
) -> Result<(), NoMemory>
    ensures { OnOk result (letters.new.items ≡ letters.old.items ++ envelope_at shelf.now.half to id row.now) }
{
    if awaits(shelf, to, id, row.certified()) {
        letters.push(Letter::Envelope { id, to })?;
    }
    Ok(())
}

/// A message has pairs at a provider that hasn't charged it, and none of these pairs has a known outcome.
fn awaits(shelf: &Shelf, to: u32, id: MsgId, recipients: &[Certified]) -> bool
    ensures { result ≡ awaits_at shelf.now.half to id recipients.now }
{
    has_pairs_at(to, recipients)
        && shelf.charge(id, to).is_none()
        && !hears_of(shelf, to, id, recipients)
}

/// Whether some recipient is at home at a provider.
pub(crate) fn has_pairs_at(to: u32, recipients: &[Certified]) -> bool
    ensures { result ≡ list_any (is_at to) recipients.now }
{
    for recipient in recipients {
        if to == recipient.home {
            return true;
        }
    }
    false
}

/// Whether an outcome of a recipient there is known.
fn hears_of(shelf: &Shelf, to: u32, id: MsgId, recipients: &[Certified]) -> bool
    ensures { result ≡ list_any (is_heard shelf.now.half id to) recipients.now }
{
    for recipient in recipients {
        if is_heard(shelf, to, id, recipient) {
            return true;
        }
    }
    false
}

fn is_heard(shelf: &Shelf, to: u32, id: MsgId, recipient: &Certified) -> bool
    ensures { result ≡ is_heard shelf.now.half id to recipient.now }
{
    to == recipient.home && shelf.known(id, &recipient.address).is_some()
}
