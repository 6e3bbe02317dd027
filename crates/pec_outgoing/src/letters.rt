ghost use Rattle.std.specs.Prelude.{◌≡◌, ◌<◌, [], ◌∷◌, Some, length, unwrap_or, IfOk, IsErrOf};
ghost use Rattle.pec_types.specs.Bytes.{Bytes};
ghost use Rattle.pec_directory.specs.Directory.{providers_of};
ghost use Rattle.pec_receipts.specs.Receipts.{receipts_at};
ghost use Rattle.pec_ledger.specs.Lookups.{outcome_kind};
ghost use Rattle.pec_ledger.specs.OfDirectory.{facts_in};
ghost use Rattle.pec_plays.specs.Frames.{unless_empty};
ghost use Rattle.pec_plays.specs.Paths.{outcome_path};
ghost use Rattle.pec_trade.specs.Houses.{world_at};
ghost use Rattle.pec_outgoing.specs.Needs.{AckAsked, ChargeAsked, ComposedOf, EnvelopeAsked, Holds, OutcomeAsked, composed_from};
ghost use Rattle.pec_outgoing.specs.Views.{asked_shown, own_shown};
ghost use Rattle.pec_outgoing.specs.declared.faults.ComposeFault.TheVariants as faults;

use crate::asking::{Asked, Own};
use crate::desks::Desk;
use crate::faults::ComposeFault;
use crate::originals::{Original, accepted_original, taken_original};
use crate::paths::{addresses_at, is_among, path_to, receipts_at};
use crate::texts::{envelope_text, receipt_text};
use pec_receipts::Receipt;
use pec_records::Entry;
use pec_seal::Sealer;
use pec_shelf::{FateRow, KnownRow, TakenRow};
use pec_types::{Address, Decision, Kind, MsgId, NoMemory, Refusal};
use std::marker::Model;

/// The path and the text of a letter. Contracts see both.
#[derive(Drop)]
pub(crate) struct Outgoing {
    path: Vec<Address>,
    text: Vec<u8>,
}

impl Model for Outgoing {
    ghost use Rattle.pec_ledger.specs.Trade.{Framed};

    ghost Value = { Framed };

    ghost view = { λ letter. record { path = letter.path.items; message = letter.text.items } };
}

impl Outgoing {
    pub(crate) fn path(&self) -> &[Address]
        ensures { result.now ≡ self.now.path }
    {
        self.path.as_slice()
    }

    pub(crate) fn text(&self) -> &[u8]
        ensures { result.now ≡ self.now.message }
    {
        self.text.as_slice()
    }
}

/// The path and the text of a letter, composed of an entry; `Changed` comes exactly where the entry doesn't hold the
/// original of which the letter is composed.
pub(crate) fn composed<S: Sealer>(
    desk: &Desk<'_, S>,
    asked: &Asked<'_>,
    entry: &Entry,
) -> Result<Option<Outgoing>, ComposeFault>
    ensures composed { IfOk result (λ found. ComposedOf (world_at desk.now.house.now) desk.now.shelf.now.me
        (asked_shown asked.now) entry.now found) }
    ensures changed { IsErrOf result faults.Changed → (original : Bytes)
        → Holds (world_at desk.now.house.now) (asked_shown asked.now) entry.now original → ⊥ }
{
    match asked {
        Asked::Envelope { id, to, message } => envelope(desk, *id, *to, message, entry),
        Asked::Charge { id, row } => charge(desk, *id, row, entry),
        Asked::Outcome {
            id,
            recipient,
            fate,
            row,
        } => outcome(desk, *id, recipient, fate, row, entry),
        Asked::Ack {
            id,
            recipient,
            known,
            message,
        } => acknowledgement(desk, *id, recipient, known, message, entry),
    }
}

/// The envelope of an own message, for its recipients at a provider.
fn envelope<S: Sealer>(
    desk: &Desk<'_, S>,
    id: MsgId,
    to: u32,
    message: &Own<'_>,
    entry: &Entry,
) -> Result<Option<Outgoing>, ComposeFault>
    ensures composed { IfOk result (λ found. ComposedOf (world_at desk.now.house.now) desk.now.shelf.now.me
        (EnvelopeAsked id to (own_shown message.now)) entry.now found) }
    ensures changed { IsErrOf result faults.Changed → (original : Bytes)
        → Holds (world_at desk.now.house.now) (EnvelopeAsked id to (own_shown message.now)) entry.now original → ⊥ }
{
    let original = accepted_original(desk, message, entry)?;
    let letter = envelope_with(desk, id, to, message, original)?;
    Ok(letter)
}

/// The same, with the message's original.
fn envelope_with<S: Sealer>(
    desk: &Desk<'_, S>,
    id: MsgId,
    to: u32,
    message: &Own<'_>,
    original: &[u8],
) -> Result<Option<Outgoing>, NoMemory>
    requires facts { facts_in original.now ≡ Some message.now.facts.now }
    ensures { IfOk result (λ found. found ≡ composed_from (world_at desk.now.house.now) desk.now.shelf.now.me
        (EnvelopeAsked id to (own_shown message.now)) original.now) }
{
    let facts = message.facts;
    let path = addresses_at(
        desk.alloc,
        desk.house.directory,
        to,
        facts.recipients.as_slice(),
    )?;
    if path.is_empty() {
        return Ok(None);
    }
    let text = envelope_text(desk, id, message.row.moment(), facts, original)?;
    Ok(unless_empty(path, text))
}

/// The receipt of taking charge of a message that was taken here.
fn charge<S: Sealer>(
    desk: &Desk<'_, S>,
    id: MsgId,
    row: &TakenRow,
    entry: &Entry,
) -> Result<Option<Outgoing>, ComposeFault>
    ensures composed { IfOk result (λ found. ComposedOf (world_at desk.now.house.now) desk.now.shelf.now.me
        (ChargeAsked id row.now) entry.now found) }
    ensures changed { IsErrOf result faults.Changed → (original : Bytes)
        → Holds (world_at desk.now.house.now) (ChargeAsked id row.now) entry.now original → ⊥ }
{
    let found = taken_original(desk, id, entry)?;
    let letter = charge_with(desk, id, row, found)?;
    Ok(letter)
}

/// The same, with the message's original.
fn charge_with<S: Sealer>(
    desk: &Desk<'_, S>,
    id: MsgId,
    row: &TakenRow,
    original: Original<'_>,
) -> Result<Option<Outgoing>, NoMemory>
    requires facts { facts_in original.bytes.now ≡ Some original.facts }
    ensures { IfOk result (λ found. found ≡ composed_from (world_at desk.now.house.now) desk.now.shelf.now.me
        (ChargeAsked id row.now) original.entry.bytes.now) }
{
    let Original { facts, bytes } = original;
    let receipt = Receipt {
        kind: Kind::Charge,
        id,
        by: desk.shelf.me(),
        moment: row.moment(),
        facts,
        recipient: None,
    };
    let text = receipt_text(desk, &receipt, bytes)?;
    let letter = to_provider(desk, id.provider, text)?;
    Ok(letter)
}

/// The letter on a pair that was decided here: to the message's sender, or where it is a virus to the sender's
/// provider. The original names the recipient.
fn outcome<S: Sealer>(
    desk: &Desk<'_, S>,
    id: MsgId,
    recipient: &Address,
    fate: &FateRow,
    row: &TakenRow,
    entry: &Entry,
) -> Result<Option<Outgoing>, ComposeFault>
    ensures composed { IfOk result (λ found. ComposedOf (world_at desk.now.house.now) desk.now.shelf.now.me
        (OutcomeAsked id recipient.now fate.now row.now) entry.now found) }
    ensures changed { IsErrOf result faults.Changed → (original : Bytes)
        → Holds (world_at desk.now.house.now) (OutcomeAsked id recipient.now fate.now row.now) entry.now original → ⊥ }
{
    let found = taken_original(desk, id, entry)?;
    if !is_among(found.facts.recipients.as_slice(), recipient) {
        return Err(ComposeFault::Changed);
    }
    let letter = outcome_with(desk, id, recipient, fate, row, found)?;
    Ok(letter)
}

/// The same, with the message's original.
fn outcome_with<S: Sealer>(
    desk: &Desk<'_, S>,
    id: MsgId,
    recipient: &Address,
    fate: &FateRow,
    row: &TakenRow,
    original: Original<'_>,
) -> Result<Option<Outgoing>, NoMemory>
    requires facts { facts_in original.bytes.now ≡ Some original.facts }
    ensures { IfOk result (λ found. found ≡ composed_from (world_at desk.now.house.now) desk.now.shelf.now.me
        (OutcomeAsked id recipient.now fate.now row.now) original.entry.bytes.now) }
{
    let Original { facts, bytes } = original;
    let receipt = Receipt {
        kind: outcome_kind(fate.decision()),
        id,
        by: desk.shelf.me(),
        moment: fate.moment(),
        facts,
        recipient: Some(recipient.copy(desk.alloc)?),
    };
    let text = receipt_text(desk, &receipt, bytes)?;
    let letter = to_addressee(desk, id, fate.decision(), &receipt.facts.sender, text)?;
    Ok(letter)
}

/// The acknowledgement of an outcome that is known here, to the recipient's provider.
fn acknowledgement<S: Sealer>(
    desk: &Desk<'_, S>,
    id: MsgId,
    recipient: &Address,
    known: &KnownRow,
    message: &Own<'_>,
    entry: &Entry,
) -> Result<Option<Outgoing>, ComposeFault>
    ensures composed { IfOk result (λ found. ComposedOf (world_at desk.now.house.now) desk.now.shelf.now.me
        (AckAsked id recipient.now known.now (own_shown message.now)) entry.now found) }
    ensures changed { IsErrOf result faults.Changed → (original : Bytes)
        → Holds (world_at desk.now.house.now) (AckAsked id recipient.now known.now (own_shown message.now)) entry.now original → ⊥ }
{
    let original = accepted_original(desk, message, entry)?;
    let letter = acknowledgement_with(desk, id, recipient, known, message, original)?;
    Ok(letter)
}

/// The same, with the message's original.
fn acknowledgement_with<S: Sealer>(
    desk: &Desk<'_, S>,
    id: MsgId,
    recipient: &Address,
    known: &KnownRow,
    message: &Own<'_>,
    original: &[u8],
) -> Result<Option<Outgoing>, NoMemory>
    requires facts { facts_in original.now ≡ Some message.now.facts.now }
    ensures { IfOk result (λ found. found ≡ composed_from (world_at desk.now.house.now) desk.now.shelf.now.me
        (AckAsked id recipient.now known.now (own_shown message.now)) original.now) }
{
    let Some(home) = desk.house.directory.home_of(recipient) else {
        return Ok(None);
    };
    let receipt = Receipt {
        kind: Kind::Ack,
        id,
        by: desk.shelf.me(),
        moment: known.moment(),
        facts: message.facts.copy(desk.alloc)?,
        recipient: Some(recipient.copy(desk.alloc)?),
    };
    let text = receipt_text(desk, &receipt, original)?;
    let letter = to_provider(desk, home, text)?;
    Ok(letter)
}

/// A letter of this text along the path of an outcome.
fn to_addressee<S: Sealer>(
    desk: &Desk<'_, S>,
    id: MsgId,
    decision: Decision,
    sender: &Address,
    text: Vec<u8>,
) -> Result<Option<Outgoing>, NoMemory>
    requires { 0 < length text.items → id.provider < length desk.now.house.now.directory.now }
    ensures { IfOk result (λ found. found
        ≡ unless_empty (outcome_path (world_at desk.now.house.now) id decision sender.now) text.items) }
{
    match decision {
        Decision::Placed => to_sender(desk, sender, text),
        Decision::Refused(Refusal::NoMailbox) => to_sender(desk, sender, text),
        Decision::Refused(Refusal::MailboxFull) => to_sender(desk, sender, text),
        Decision::Refused(Refusal::Virus) => to_provider(desk, id.provider, text),
    }
}

/// A letter of this text to the sender of a message.
fn to_sender<S: Sealer>(
    desk: &Desk<'_, S>,
    sender: &Address,
    text: Vec<u8>,
) -> Result<Option<Outgoing>, NoMemory>
    ensures { IfOk result (λ found. found ≡ unless_empty (sender.now ∷ []) text.items) }
{
    let path = path_to(desk.alloc, sender)?;
    Ok(unless_empty(path, text))
}

/// A letter of this text to the address for receipts of a provider, which is there where there is a text.
fn to_provider<S: Sealer>(
    desk: &Desk<'_, S>,
    provider: u32,
    text: Vec<u8>,
) -> Result<Option<Outgoing>, NoMemory>
    requires { 0 < length text.items → provider < length desk.now.house.now.directory.now }
    ensures { IfOk result (λ found. found
        ≡ unless_empty (unwrap_or (receipts_at (providers_of desk.now.house.now.directory.now) provider) [] ∷ [])
        text.items) }
{
    if text.is_empty() {
        return Ok(None);
    }
    let address = receipts_at(desk.house.directory, provider);
    let path = path_to(desk.alloc, address)?;
    Ok(unless_empty(path, text))
}

/// A letter without a text is none.
fn unless_empty(path: Vec<Address>, text: Vec<u8>) -> Option<Outgoing>
    ensures { result ≡ unless_empty path.items text.items }
{
    if text.is_empty() {
        return None;
    }
    Some(Outgoing { path, text })
}

/// The kind of the letter that tells a decision.
fn outcome_kind(decision: Decision) -> Kind
    ensures { result ≡ outcome_kind decision }
{
    match decision {
        Decision::Placed => Kind::Delivery,
        Decision::Refused(Refusal::NoMailbox) => Kind::DeliveryError(Refusal::NoMailbox),
        Decision::Refused(Refusal::MailboxFull) => Kind::DeliveryError(Refusal::MailboxFull),
        Decision::Refused(Refusal::Virus) => Kind::VirusFound,
    }
}
