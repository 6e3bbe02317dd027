ghost use Rattle.std.specs.Prelude.{◌≡◌, ◌&&◌, ◌==◌, ◌||◌, true, is_some, find, slice_get, Some, IfSome};
ghost use Rattle.std.specs.List.{list_all};
ghost use Rattle.pec_ledger.specs.Half.{Fate};
ghost use Rattle.pec_ledger.specs.Pairs.{same_pair};
ghost use Rattle.pec_shelf.specs.Still.{IsAnswered, IsHeard, is_answered};
ghost use Rattle.pec_shelf.specs.Waiting.{IsDoneAt};

use crate::certified::Certified;
use crate::drawers::Drawers;
use crate::keys::{OfCharge, OfPair};
use crate::rows::{AckedRow, ChargeRow, FateRow, KnownRow, MessageRow, fate_at};
use crate::waiting::Waiting;
use pec_places::Table;
use pec_types::MsgId;

/// Where the place of what was decided on a pair stands among these, if the pair is acknowledged.
pub(crate) fn heard_index(
    decided: &Table<FateRow>,
    acked: &Table<AckedRow>,
    places: &Waiting,
    row: &AckedRow,
) -> Option<usize>
    ensures { IfSome result (IsDoneAt (IsHeard acked.now.rows) decided.now.rows places.now.places) }
{
    let fate = decided.find(&OfPair {
        id: row.id(),
        recipient: row.recipient(),
    })?;
    let place = fate.place();
    if !is_heard_at(decided.rows(), acked, place) {
        return None;
    }
    let index = places.position(place)?;
    Some(index)
}

/// Whether the decision at a place is acknowledged.
fn is_heard_at(decided: &[FateRow], acked: &Table<AckedRow>, place: u64) -> bool
    ensures { result ≡ true → (fate : Fate) → slice_get decided.now place ≡ Some fate
        → IsHeard acked.now.rows place fate }
{
    match fate_at(decided, place) {
        Some(row) => is_heard(acked, row),
        None => false,
    }
}

fn is_heard(acked: &Table<AckedRow>, row: &FateRow) -> bool
    ensures { result ≡ is_some (find (same_pair row.now.pair) acked.now.rows) }
{
    let id = row.id();
    let recipient = row.recipient();
    acked.find(&OfPair { id, recipient }).is_some()
}

/// Where the number of a message stands among these, if each of its certified recipients is heard of.
pub(crate) fn answered_index(
    messages: &Drawers<MessageRow>,
    charged: &Table<ChargeRow>,
    known: &Table<KnownRow>,
    places: &Waiting,
    id: MsgId,
) -> Option<usize>
    ensures { IfSome result
        (IsDoneAt (IsAnswered id.provider charged.now.rows known.now.rows) messages.now.rows places.now.places) }
{
    let index = places.position(id.number)?;
    let row = messages.row(id.number)?;
    if !are_answered(charged, known, id, row.certified()) {
        return None;
    }
    Some(index)
}

/// Whether each of these recipients of a message is heard of: the provider there took charge, or the outcome is known.
fn are_answered(
    charged: &Table<ChargeRow>,
    known: &Table<KnownRow>,
    id: MsgId,
    recipients: &[Certified],
) -> bool
    ensures { result ≡ list_all (is_answered charged.now.rows known.now.rows id) recipients.now }
{
    for recipient in recipients {
        if !is_answered(charged, known, id, recipient) {
            return false;
        }
    }
    true
}

fn is_answered(
    charged: &Table<ChargeRow>,
    known: &Table<KnownRow>,
    id: MsgId,
    recipient: &Certified,
) -> bool
    ensures { result ≡ is_answered charged.now.rows known.now.rows id recipient.now }
{
    let by = recipient.home;
    let recipient = &recipient.address;
    charged.find(&OfCharge { id, by }).is_some() || known.find(&OfPair { id, recipient }).is_some()
}
