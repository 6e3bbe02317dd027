ghost use Rattle.std.specs.Prelude.{◌≡◌, ◌==◌, [], option_map, slice_get, unwrap_or, if◌then◌else◌};
ghost use Rattle.pec_ledger.specs.Lookups.{decided_of, known_of};
ghost use Rattle.pec_ledger.specs.Pairs.{pair_of};
ghost use Rattle.pec_ledger.specs.Trade.{Trade};
ghost use Rattle.pec_shelf.specs.PairRows.{decided_in, home_in, learned_in, not_received, not_sent, received, received_half, row_of, row_with, sent_at, sent_to};
ghost use Rattle.pec_shelf.specs.Seen.{IsFor};

use crate::accounts::is_among;
use crate::booking::{charged_at, noticed_at, warned_at};
use crate::certified::Certified;
use crate::shelf::Shelf;
use pec_types::{Address, Decision, Moment, MsgId};

/// What one provider has of a pair. A side that it doesn't have is empty.
#[derive(Clone, Copy)]
pub struct Row {
    /// When the message was accepted here.
    pub accepted: Option<Moment>,
    /// When the recipient's provider took charge of it.
    pub charged: Option<Moment>,
    /// When the sender was warned.
    pub warned: Option<Moment>,
    /// When the sender had notice.
    pub noticed: Option<Moment>,
    /// What was decided and when, and when that was learned here.
    pub known: Option<(Decision, Moment, Moment)>,
    /// When the message was taken here, for this recipient.
    pub taken: Option<Moment>,
    /// What was decided here, and when.
    pub decided: Option<(Decision, Moment)>,
    /// The sender's provider said that it knows what was decided.
    pub acked: bool,
}

/// The sender's side of a row.
#[derive(Clone, Copy)]
pub(crate) struct SentHalf {
    accepted: Option<Moment>,
    charged: Option<Moment>,
    warned: Option<Moment>,
    noticed: Option<Moment>,
    known: Option<(Decision, Moment, Moment)>,
}

/// The recipient's side of a row.
#[derive(Clone, Copy)]
pub(crate) struct ReceivedHalf {
    taken: Option<Moment>,
    decided: Option<(Decision, Moment)>,
    acked: bool,
}

impl Shelf {
    /// What this provider has of a pair: its half of the pair's row, `None` where the pair is neither of its messages
    /// nor taken here. It takes no memory.
    pub fn row(&self, id: MsgId, recipient: &Address) -> Option<Row>
        ensures { (trade : Trade) → IsFor trade self.now
            → result ≡ row_of trade self.now.me self.now.half (pair_of id recipient.now) }
    {
        let sent = sent_half(self, id, recipient);
        let received = received_half(self, id, recipient);
        let row = row_with(sent, received);
        row
    }
}

fn row_with(sent: SentHalf, received: ReceivedHalf) -> Option<Row>
    ensures { result ≡ row_with sent received }
{
    if sent.accepted.is_none() && received.taken.is_none() {
        return None;
    }
    Some(Row {
        accepted: sent.accepted,
        charged: sent.charged,
        warned: sent.warned,
        noticed: sent.noticed,
        known: sent.known,
        taken: received.taken,
        decided: received.decided,
        acked: received.acked,
    })
}

fn sent_half(shelf: &Shelf, id: MsgId, recipient: &Address) -> SentHalf
    ensures { result ≡ (if id.provider == shelf.now.me
        then sent_to shelf.now.half (pair_of id recipient.now) (slice_get shelf.now.half.messages id.number)
        (home_in recipient.now (unwrap_or (slice_get shelf.now.certified id.number) []))
        else not_sent) }
{
    if id.provider != shelf.me() {
        return not_sent();
    }
    let Some(row) = shelf.message(id.number) else {
        return not_sent();
    };
    let Some(home) = home_in(recipient, row.certified()) else {
        return not_sent();
    };
    sent_at(shelf, id, recipient, row.moment(), home)
}

fn not_sent() -> SentHalf
    ensures { result ≡ not_sent }
{
    SentHalf {
        accepted: None,
        charged: None,
        warned: None,
        noticed: None,
        known: None,
    }
}

/// The sender's side of a pair of a message that was accepted at a moment, whose recipient is at home there.
fn sent_at(shelf: &Shelf, id: MsgId, recipient: &Address, accepted: Moment, home: u32) -> SentHalf
    ensures { result ≡ sent_at shelf.now.half (pair_of id recipient.now) accepted home }
{
    SentHalf {
        accepted: Some(accepted),
        charged: charged_at(shelf, id, home),
        warned: warned_at(shelf, id, recipient),
        noticed: noticed_at(shelf, id, recipient),
        known: learned_at(shelf, id, recipient),
    }
}

/// Where the recipient of an address is at home.
fn home_in(address: &Address, recipients: &[Certified]) -> Option<u32>
    ensures { result ≡ home_in address.now recipients.now }
{
    for recipient in recipients {
        if recipient.is_for(address) {
            return Some(recipient.home);
        }
    }
    None
}

fn learned_at(shelf: &Shelf, id: MsgId, recipient: &Address) -> Option<(Decision, Moment, Moment)>
    ensures { result ≡ option_map learned_in (known_of shelf.now.half (pair_of id recipient.now)) }
{
    let known = shelf.known(id, recipient)?;
    Some((known.decision(), known.decided(), known.moment()))
}

fn received_half(shelf: &Shelf, id: MsgId, recipient: &Address) -> ReceivedHalf
    ensures { result ≡ received_half shelf.now.half (pair_of id recipient.now)
        (received shelf.now.half (pair_of id recipient.now)) }
{
    let Some(row) = shelf.taken(id) else {
        return not_received();
    };
    if !is_among(recipient, row.recipients()) {
        return not_received();
    }
    ReceivedHalf {
        taken: Some(row.moment()),
        decided: decided_at(shelf, id, recipient),
        acked: shelf.is_acked(id, recipient),
    }
}

fn not_received() -> ReceivedHalf
    ensures { result ≡ not_received }
{
    ReceivedHalf {
        taken: None,
        decided: None,
        acked: false,
    }
}

fn decided_at(shelf: &Shelf, id: MsgId, recipient: &Address) -> Option<(Decision, Moment)>
    ensures { result ≡ option_map decided_in (decided_of shelf.now.half (pair_of id recipient.now)) }
{
    let fate = shelf.fate(id, recipient)?;
    Some((fate.decision(), fate.moment()))
}
