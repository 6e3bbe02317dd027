ghost use Rattle.std.specs.Prelude.{◌≡◌, List, IsNone, None, option_map};
ghost use Rattle.pec_types.specs.declared.receipts.Kind.TheVariants as kinds;
ghost use Rattle.pec_records.specs.declared.entries.Entry.{Entry};
ghost use Rattle.pec_ledger.specs.Items.{item_text};
ghost use Rattle.pec_ledger.specs.Half.{EnvelopeItem};
ghost use Rattle.pec_ledger.specs.Lookups.{accepted_at};
ghost use Rattle.pec_ledger.specs.Trade.{Trade};
ghost use Rattle.pec_shelf.specs.Rows.{item_shown};
ghost use Rattle.pec_outgoing.specs.Desk.{IsHalfOf};
ghost use Rattle.pec_outgoing.specs.ItemNeeds.{ReceiptWanted, item_wanted, needed_item, number_wanted, posted_wanted, receipt_wanted};
ghost use Rattle.pec_outgoing.specs.Views.{wanted_shown};

use crate::asking::{Own, own_message};
use pec_shelf::{MessageRow, Placed, PostedRow, Shelf, TakenRow};
use pec_types::{Address, Kind, Moment, MsgId, Refusal};

/// An item with what it is composed of beside an entry.
#[derive(Drop)]
pub(crate) enum Wanted<'a> {
    /// The envelope with which a message was taken.
    Envelope {
        id: MsgId,
        row: &'a TakenRow,
    },
    /// A receipt of delivery or of an error, but for a virus, as it came.
    Outcome {
        number: u64,
        id: MsgId,
        recipient: &'a Option<Address>,
    },
    /// The notice that a message wasn't accepted, with the message's row.
    Refusal {
        number: u64,
        id: MsgId,
        row: Option<&'a MessageRow>,
    },
    /// Any other receipt, or a notice, on a message that was accepted.
    Receipt {
        kind: Kind,
        id: MsgId,
        recipient: &'a Option<Address>,
        moment: Moment,
        message: Own<'a>,
    },
    /// What is no certified mail.
    Anomaly {
        number: u64,
        moment: Moment,
    },
}

/// The number of the entry of which an item of a mailbox or of an archive is composed, from 0: an envelope of the entry
/// by which its message was taken, a receipt of delivery or of an error, a notice of non-acceptance and an anomaly of
/// that by which the item was placed, and any other receipt, also the error of a virus, of the entry by which the
/// message was accepted. `None` comes exactly where the provider doesn't have what the item needs; then there are no
/// bytes of it. It takes no memory.
#[tactic(auto, using(crate::proofs::ItemLemmas::nothing_wanted))]
pub fn needed_item(shelf: &Shelf, posted: &PostedRow) -> Option<u64>
    ensures number { result ≡ needed_item shelf.now.half posted.now }
    ensures none { IsNone result → (trade : Trade) (journal : List Entry) → IsHalfOf trade journal shelf.now
        → item_text trade shelf.now.me journal posted.now ≡ None }
{
    let number = number_of(shelf, posted);
    number
}

#[tactic(auto, unfolding(crate::specs::ItemNeeds::needed_item))]
fn number_of(shelf: &Shelf, posted: &PostedRow) -> Option<u64>
    ensures { result ≡ needed_item shelf.now.half posted.now }
{
    match posted_wanted(shelf, posted) {
        Some(wanted) => Some(wanted.number()),
        None => None,
    }
}

impl Wanted<'_> {
    /// The number of the entry.
    fn number(&self) -> u64
        ensures { result ≡ number_wanted (wanted_shown self.now) }
    {
        match self {
            Wanted::Envelope { row, .. } => row.entry(),
            Wanted::Outcome { number, .. } => *number,
            Wanted::Refusal { number, .. } => *number,
            Wanted::Receipt { message, .. } => message.row.entry(),
            Wanted::Anomaly { number, .. } => *number,
        }
    }
}

/// What an item is composed of beside an entry, where the provider has it.
pub(crate) fn posted_wanted<'a>(shelf: &'a Shelf, posted: &'a PostedRow) -> Option<Wanted<'a>>
    ensures { option_map wanted_shown result ≡ posted_wanted shelf.now.half posted.now }
{
    item_wanted(shelf, posted.entry(), posted.item())
}

/// The same, of an item that was placed by the entry of this number.
fn item_wanted<'a>(shelf: &'a Shelf, number: u64, item: &'a Placed) -> Option<Wanted<'a>>
    ensures { option_map wanted_shown result ≡ item_wanted shelf.now.half number (item_shown item.now) }
{
    match item {
        Placed::Envelope(id) => taken_wanted(shelf, *id),
        Placed::Receipt {
            kind,
            id,
            recipient,
            moment,
        } => receipt_wanted(shelf, number, *kind, *id, recipient, *moment),
        Placed::Anomaly(moment) => Some(Wanted::Anomaly {
            number,
            moment: *moment,
        }),
    }
}

fn taken_wanted(shelf: &Shelf, id: MsgId) -> Option<Wanted<'_>>
    ensures { option_map wanted_shown result ≡ item_wanted shelf.now.half 0 (EnvelopeItem id) }
{
    let row = shelf.taken(id)?;
    Some(Wanted::Envelope { id, row })
}

fn receipt_wanted<'a>(
    shelf: &'a Shelf,
    number: u64,
    kind: Kind,
    id: MsgId,
    recipient: &'a Option<Address>,
    moment: Moment,
) -> Option<Wanted<'a>>
    ensures { option_map wanted_shown result
        ≡ receipt_wanted shelf.now.half number kind id recipient.now moment }
{
    match kind {
        Kind::Delivery => Some(Wanted::Outcome {
            number,
            id,
            recipient,
        }),
        Kind::DeliveryError(refusal) => {
            error_wanted(shelf, number, refusal, id, recipient, moment)
        }
        Kind::VirusFound => own_wanted(shelf, kind, id, recipient, moment),
        Kind::NonAcceptance(_) => Some(Wanted::Refusal {
            number,
            id,
            row: shelf.message(id.number),
        }),
        Kind::Acceptance => own_wanted(shelf, kind, id, recipient, moment),
        Kind::Charge => own_wanted(shelf, kind, id, recipient, moment),
        Kind::Warning => own_wanted(shelf, kind, id, recipient, moment),
        Kind::Notice => own_wanted(shelf, kind, id, recipient, moment),
        Kind::LateNotice => own_wanted(shelf, kind, id, recipient, moment),
        Kind::Ack => own_wanted(shelf, kind, id, recipient, moment),
    }
}

/// The same of a delivery error: that of a virus is composed by this provider, any other is shown as it came.
fn error_wanted<'a>(
    shelf: &'a Shelf,
    number: u64,
    refusal: Refusal,
    id: MsgId,
    recipient: &'a Option<Address>,
    moment: Moment,
) -> Option<Wanted<'a>>
    ensures { option_map wanted_shown result
        ≡ receipt_wanted shelf.now.half number (kinds.DeliveryError refusal) id recipient.now moment }
{
    match refusal {
        Refusal::NoMailbox => Some(Wanted::Outcome {
            number,
            id,
            recipient,
        }),
        Refusal::MailboxFull => Some(Wanted::Outcome {
            number,
            id,
            recipient,
        }),
        Refusal::Virus => { own_wanted(shelf, Kind::DeliveryError(refusal), id, recipient, moment) }
    }
}

fn own_wanted<'a>(
    shelf: &'a Shelf,
    kind: Kind,
    id: MsgId,
    recipient: &'a Option<Address>,
    moment: Moment,
) -> Option<Wanted<'a>>
    ensures { option_map wanted_shown result
        ≡ option_map (ReceiptWanted kind id recipient.now moment) (accepted_at shelf.now.half id.number) }
{
    let message = own_message(shelf, id.number)?;
    Some(Wanted::Receipt {
        kind,
        id,
        recipient,
        moment,
        message,
    })
}
