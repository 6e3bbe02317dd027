//! The message that an entry holds, where the entry is of the tag, and of the id, that is asked for. None of this takes
//! memory.

ghost use Rattle.std.specs.Prelude.{◌≡◌, option_map};
ghost use Rattle.pec_ledger.specs.Pairs.{same_id};
ghost use Rattle.pec_outgoing.specs.Entries.{accepted_in, anomaly_in, is_of_row, is_refused_in, learned_in, names, took_in};

use pec_records::Entry;
use pec_shelf::MessageRow;
use pec_types::{Address, Moment, MsgId};

/// A message that was accepted at this moment from this account.
pub(crate) fn accepted_in<'a>(
    moment: Moment,
    sender: &Address,
    entry: &'a Entry,
) -> Option<&'a [u8]>
    ensures { option_map (λ message. message.now) result ≡ accepted_in moment sender.now entry.now }
{
    match entry {
        Entry::Accepted {
            moment: at,
            sender: from,
            message,
        } => {
            if moment.seconds() == at.seconds() && sender.bytes() == from.bytes() {
                return Some(message.bytes());
            }
            None
        }
        Entry::Start { .. } => None,
        Entry::NotAccepted { .. } => None,
        Entry::Took { .. } => None,
        Entry::Decided { .. } => None,
        Entry::Charged { .. } => None,
        Entry::Learned { .. } => None,
        Entry::Acked { .. } => None,
        Entry::Ticked { .. } => None,
        Entry::Anomaly { .. } => None,
        Entry::StartTwo { .. } => None,
        Entry::Upgraded { .. } => None,
        Entry::Archived { .. } => None,
    }
}

/// The envelope with which this message was taken.
pub(crate) fn took_in(id: MsgId, entry: &Entry) -> Option<&[u8]>
    ensures { option_map (λ message. message.now) result ≡ took_in id entry.now }
{
    match entry {
        Entry::Took {
            id: other,
            message,
            ..
        } => {
            if is_same(id, *other) {
                return Some(message.bytes());
            }
            None
        }
        Entry::Start { .. } => None,
        Entry::Accepted { .. } => None,
        Entry::NotAccepted { .. } => None,
        Entry::Decided { .. } => None,
        Entry::Charged { .. } => None,
        Entry::Learned { .. } => None,
        Entry::Acked { .. } => None,
        Entry::Ticked { .. } => None,
        Entry::Anomaly { .. } => None,
        Entry::StartTwo { .. } => None,
        Entry::Upgraded { .. } => None,
        Entry::Archived { .. } => None,
    }
}

/// The receipt from which the outcome of this message for this recipient was learned.
pub(crate) fn learned_in<'a>(
    id: MsgId,
    named: &Option<Address>,
    entry: &'a Entry,
) -> Option<&'a [u8]>
    ensures { option_map (λ message. message.now) result ≡ learned_in id named.now entry.now }
{
    match entry {
        Entry::Learned {
            id: other,
            recipient,
            message,
            ..
        } => {
            if is_same(id, *other) && names(named, recipient) {
                return Some(message.bytes());
            }
            None
        }
        Entry::Start { .. } => None,
        Entry::Accepted { .. } => None,
        Entry::NotAccepted { .. } => None,
        Entry::Took { .. } => None,
        Entry::Decided { .. } => None,
        Entry::Charged { .. } => None,
        Entry::Acked { .. } => None,
        Entry::Ticked { .. } => None,
        Entry::Anomaly { .. } => None,
        Entry::StartTwo { .. } => None,
        Entry::Upgraded { .. } => None,
        Entry::Archived { .. } => None,
    }
}

/// What came and is no certified mail.
pub(crate) fn anomaly_in(entry: &Entry) -> Option<&[u8]>
    ensures { option_map (λ message. message.now) result ≡ anomaly_in entry.now }
{
    match entry {
        Entry::Anomaly { message, .. } => Some(message.bytes()),
        Entry::Start { .. } => None,
        Entry::Accepted { .. } => None,
        Entry::NotAccepted { .. } => None,
        Entry::Took { .. } => None,
        Entry::Decided { .. } => None,
        Entry::Charged { .. } => None,
        Entry::Learned { .. } => None,
        Entry::Acked { .. } => None,
        Entry::Ticked { .. } => None,
        Entry::StartTwo { .. } => None,
        Entry::Upgraded { .. } => None,
        Entry::Archived { .. } => None,
    }
}

/// A message that wasn't accepted, which came at this moment from this account, along a path of at least one address.
fn is_refused_in(moment: Moment, sender: &Address, entry: &Entry) -> bool
    ensures { result ≡ is_refused_in moment sender.now entry.now }
{
    match entry {
        Entry::NotAccepted {
            moment: at,
            sender: from,
            path,
            ..
        } => {
            moment.seconds() == at.seconds()
                && sender.bytes() == from.bytes()
                && 0 < path.as_slice().len()
        }
        Entry::Start { .. } => false,
        Entry::Accepted { .. } => false,
        Entry::Took { .. } => false,
        Entry::Decided { .. } => false,
        Entry::Charged { .. } => false,
        Entry::Learned { .. } => false,
        Entry::Acked { .. } => false,
        Entry::Ticked { .. } => false,
        Entry::Anomaly { .. } => false,
        Entry::StartTwo { .. } => false,
        Entry::Upgraded { .. } => false,
        Entry::Archived { .. } => false,
    }
}

/// So it is of a row, where there is one.
pub(crate) fn is_of_row(row: Option<&MessageRow>, entry: &Entry) -> bool
    ensures { result ≡ is_of_row (option_map (λ found. found.now.message) row.entry) entry.now }
{
    match row {
        Some(row) => is_refused_in(row.moment(), row.sender(), entry),
        None => false,
    }
}

/// The two ids are one.
pub(crate) fn is_same(id: MsgId, other: MsgId) -> bool
    ensures { result ≡ same_id id other }
{
    id.provider == other.provider && id.number == other.number
}

/// An item names this recipient.
fn names(named: &Option<Address>, recipient: &Address) -> bool
    ensures { result ≡ names named.now recipient.now }
{
    match named {
        Some(named) => named.bytes() == recipient.bytes(),
        None => false,
    }
}
