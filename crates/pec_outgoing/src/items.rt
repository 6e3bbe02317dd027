ghost use Rattle.std.specs.Prelude.{◌≡◌, ℕ, List, Some, option_map, slice_get, IfOk, IsErrOf, IsTrue};
ghost use Rattle.pec_types.specs.Bytes.{Bytes};
ghost use Rattle.pec_records.specs.declared.entries.Entry.{Entry as SomeEntry};
ghost use Rattle.pec_ledger.specs.Items.{item_text, refusal_by};
ghost use Rattle.pec_ledger.specs.OfDirectory.{facts_in};
ghost use Rattle.pec_trade.specs.Houses.{world_at};
ghost use Rattle.pec_outgoing.specs.Desk.{IsHalfOf};
ghost use Rattle.pec_outgoing.specs.Entries.{is_of_row, learned_in, took_in};
ghost use Rattle.pec_outgoing.specs.ItemNeeds.{AnomalyWanted, IsShown, ReceiptWanted, ServesItem, ShownOf, needed_item};
ghost use Rattle.pec_outgoing.specs.Needs.{receipt_on};
ghost use Rattle.pec_outgoing.specs.Views.{own_shown, wanted_shown};
ghost use Rattle.pec_outgoing.specs.declared.faults.ComposeFault.TheVariants as faults;

use crate::asking::Own;
use crate::desks::Desk;
use crate::entries::{anomaly_in, is_of_row, learned_in, took_in};
use crate::faults::ComposeFault;
use crate::notices::refusal_text;
use crate::originals::accepted_original;
use crate::texts::{anomaly_text, receipt_text};
use crate::wanting::{Wanted, posted_wanted};
use pec_receipts::Receipt;
use pec_records::Entry;
use pec_seal::Sealer;
use pec_shelf::{MessageRow, PostedRow, Shelf};
use pec_trade::House;
use pec_types::{Address, Kind, Moment, MsgId, NoMemory};
use std::alloc::Global;

/// The bytes of an item of a mailbox or of an archive, composed of an entry (RFC 6109, section 3, within this project's
/// profile): an envelope as it was taken, a receipt of delivery or of an error as it came, and any other receipt, also
/// the error of a virus, a notice and the envelope of an anomaly as this provider composes and seals it. An item of
/// which the provider may compose nothing has no byte. `Changed` comes exactly where the entry isn't what the item is
/// composed of, as where the provider has nothing for it (`needed_item`).
pub fn item<S: Sealer>(
    alloc: Global,
    house: &House<'_, S>,
    shelf: &Shelf,
    posted: &PostedRow,
    entry: &Entry,
) -> Result<Vec<u8>, ComposeFault>
    // Of whatever entry this is, the bytes are composed of it.
    ensures of { IfOk result (λ text.
        ShownOf (world_at house.now) shelf.now.me shelf.now.half posted.now entry.now text.items) }
    ensures changed { IsErrOf result faults.Changed
        → ServesItem (world_at house.now) shelf.now.me shelf.now.half posted.now entry.now → ⊥ }
    // Of the entry that stands at the needed number of its journal, these are the item's bytes.
    ensures text { IfOk result (λ text. (journal : List SomeEntry) (number : ℕ)
        → IsHalfOf (world_at house.now) journal shelf.now
        → needed_item shelf.now.half posted.now ≡ Some number → slice_get journal number ≡ Some entry.now
        → item_text (world_at house.now) shelf.now.me journal posted.now ≡ Some text.items) }
{
    let desk = Desk {
        alloc,
        house,
        shelf,
    };
    let Some(wanted) = posted_wanted(shelf, posted) else {
        return Err(ComposeFault::Changed);
    };
    let text = text_of(&desk, &wanted, entry)?;
    Ok(text)
}

/// The bytes of an item, composed of an entry; `Changed` comes exactly where the entry isn't what it is composed of.
fn text_of<S: Sealer>(
    desk: &Desk<'_, S>,
    wanted: &Wanted<'_>,
    entry: &Entry,
) -> Result<Vec<u8>, ComposeFault>
    ensures shown { IfOk result (λ text. IsShown (world_at desk.now.house.now) desk.now.shelf.now.me
        (wanted_shown wanted.now) entry.now text.items) }
    ensures changed { IsErrOf result faults.Changed → (text : Bytes)
        → IsShown (world_at desk.now.house.now) desk.now.shelf.now.me (wanted_shown wanted.now) entry.now text → ⊥ }
{
    match wanted {
        Wanted::Envelope { id, .. } => envelope(desk, *id, entry),
        Wanted::Outcome { id, recipient, .. } => outcome(desk, *id, recipient, entry),
        Wanted::Refusal { id, row, .. } => refusal(desk, *id, *row, entry),
        Wanted::Receipt {
            kind,
            id,
            recipient,
            moment,
            message,
        } => receipt(desk, *kind, *id, recipient, *moment, message, entry),
        Wanted::Anomaly { number, moment } => anomaly(desk, *number, *moment, entry),
    }
}

/// The envelope with which a message was taken.
fn envelope<S: Sealer>(
    desk: &Desk<'_, S>,
    id: MsgId,
    entry: &Entry,
) -> Result<Vec<u8>, ComposeFault>
    ensures shown { IfOk result (λ text. took_in id entry.now ≡ Some text.items) }
    ensures changed { IsErrOf result faults.Changed → (text : Bytes) → took_in id entry.now ≡ Some text → ⊥ }
{
    let Some(envelope) = took_in(id, entry) else {
        return Err(ComposeFault::Changed);
    };
    let text = Vec::from_slice(desk.alloc, envelope)?;
    Ok(text)
}

/// The receipt of delivery or of an error, but for a virus, from which an outcome was learned.
fn outcome<S: Sealer>(
    desk: &Desk<'_, S>,
    id: MsgId,
    recipient: &Option<Address>,
    entry: &Entry,
) -> Result<Vec<u8>, ComposeFault>
    ensures shown { IfOk result (λ text. learned_in id recipient.now entry.now ≡ Some text.items) }
    ensures changed { IsErrOf result faults.Changed → (text : Bytes)
        → learned_in id recipient.now entry.now ≡ Some text → ⊥ }
{
    let Some(receipt) = learned_in(id, recipient, entry) else {
        return Err(ComposeFault::Changed);
    };
    let text = Vec::from_slice(desk.alloc, receipt)?;
    Ok(text)
}

/// A receipt or a notice that this provider composes of a message that it accepted.
fn receipt<S: Sealer>(
    desk: &Desk<'_, S>,
    kind: Kind,
    id: MsgId,
    recipient: &Option<Address>,
    moment: Moment,
    message: &Own<'_>,
    entry: &Entry,
) -> Result<Vec<u8>, ComposeFault>
    ensures shown { IfOk result (λ text. IsShown (world_at desk.now.house.now) desk.now.shelf.now.me
        (ReceiptWanted kind id recipient.now moment (own_shown message.now)) entry.now text.items) }
    ensures changed { IsErrOf result faults.Changed → (text : Bytes)
        → IsShown (world_at desk.now.house.now) desk.now.shelf.now.me (ReceiptWanted kind id recipient.now moment (own_shown message.now)) entry.now text → ⊥ }
{
    let original = accepted_original(desk, message, entry)?;
    let text = receipt_with(desk, kind, id, recipient, moment, message, original)?;
    Ok(text)
}

/// The same, with the message's original.
fn receipt_with<S: Sealer>(
    desk: &Desk<'_, S>,
    kind: Kind,
    id: MsgId,
    recipient: &Option<Address>,
    moment: Moment,
    message: &Own<'_>,
    original: &[u8],
) -> Result<Vec<u8>, NoMemory>
    requires facts { facts_in original.now ≡ Some message.now.facts.now }
    ensures { IfOk result (λ text. receipt_on (world_at desk.now.house.now) kind id desk.now.shelf.now.me moment
        recipient.now original.now ≡ text.items) }
{
    let receipt = Receipt {
        kind,
        id,
        by: desk.shelf.me(),
        moment,
        facts: message.facts.copy(desk.alloc)?,
        recipient: copied(desk.alloc, recipient)?,
    };
    let text = receipt_text(desk, &receipt, original)?;
    Ok(text)
}

fn copied(alloc: Global, address: &Option<Address>) -> Result<Option<Address>, NoMemory>
    ensures { IfOk result (λ copy. copy ≡ address.now) }
{
    let Some(address) = address else {
        return Ok(None);
    };
    let copy = address.copy(alloc)?;
    Ok(Some(copy))
}

/// The notice that a message wasn't accepted, of an entry that has the moment and the sender of its row, and a path.
fn refusal<S: Sealer>(
    desk: &Desk<'_, S>,
    id: MsgId,
    row: Option<&MessageRow>,
    entry: &Entry,
) -> Result<Vec<u8>, ComposeFault>
    ensures shown { IfOk result (λ text. IsTrue (is_of_row (option_map (λ found. found.now.message) row.entry) entry.now)
        × (refusal_by (world_at desk.now.house.now) id entry.now ≡ Some text.items)) }
    ensures changed { IsErrOf result faults.Changed → (text : Bytes)
        → IsTrue (is_of_row (option_map (λ found. found.now.message) row.entry) entry.now)
        × (refusal_by (world_at desk.now.house.now) id entry.now ≡ Some text) → ⊥ }
{
    if !is_of_row(row, entry) {
        return Err(ComposeFault::Changed);
    }
    let Some(text) = refusal_by(desk, id, entry)? else {
        return Err(ComposeFault::Changed);
    };
    Ok(text)
}

/// The notice that a message wasn't accepted, where the entry says so.
fn refusal_by<S: Sealer>(
    desk: &Desk<'_, S>,
    id: MsgId,
    entry: &Entry,
) -> Result<Option<Vec<u8>>, NoMemory>
    ensures { IfOk result (λ found. option_map (λ text. text.items) found
        ≡ refusal_by (world_at desk.now.house.now) id entry.now) }
{
    match entry {
        Entry::NotAccepted {
            moment,
            sender,
            cause,
            path,
            message,
        } => {
            let text = refusal_text(
                desk,
                id,
                *moment,
                sender,
                *cause,
                path.as_slice(),
                message.bytes(),
            )?;
            Ok(Some(text))
        }
        Entry::Start { .. } => Ok(None),
        Entry::Accepted { .. } => Ok(None),
        Entry::Took { .. } => Ok(None),
        Entry::Decided { .. } => Ok(None),
        Entry::Charged { .. } => Ok(None),
        Entry::Learned { .. } => Ok(None),
        Entry::Acked { .. } => Ok(None),
        Entry::Ticked { .. } => Ok(None),
        Entry::Anomaly { .. } => Ok(None),
        Entry::StartTwo { .. } => Ok(None),
        Entry::Upgraded { .. } => Ok(None),
        Entry::Archived { .. } => Ok(None),
    }
}

/// The envelope of a message that no provider could have sent, which came by the entry of a number.
fn anomaly<S: Sealer>(
    desk: &Desk<'_, S>,
    number: u64,
    moment: Moment,
    entry: &Entry,
) -> Result<Vec<u8>, ComposeFault>
    ensures shown { IfOk result (λ text. IsShown (world_at desk.now.house.now) desk.now.shelf.now.me
        (AnomalyWanted number moment) entry.now text.items) }
    ensures changed { IsErrOf result faults.Changed → (text : Bytes)
        → IsShown (world_at desk.now.house.now) desk.now.shelf.now.me (AnomalyWanted number moment) entry.now text → ⊥ }
{
    let Some(message) = anomaly_in(entry) else {
        return Err(ComposeFault::Changed);
    };
    let text = anomaly_text(desk, number, moment, message)?;
    Ok(text)
}
