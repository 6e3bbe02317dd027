ghost use Rattle.std.specs.Prelude.{◌≡◌, ◌+◌, ◌^◌, ◌<◌, ◌≤◌, length, map, is_some};
ghost use Rattle.std.specs.Option.{option_map};
ghost use Rattle.pec_types.specs.declared.messages.TheConstants.{MESSAGES};
ghost use Rattle.pec_ledger.specs.Pairs.{pair_of};
ghost use Rattle.pec_ledger.specs.Trade.{Trade};
ghost use Rattle.pec_shelf.specs.Seen.{IsFor};
ghost use Rattle.pec_shelf.specs.Summaries.{IsUpTo, decision_on, is_noticed, is_placed, is_refused, most_pairs, nothing_yet, plus, summary_of, summary_within};
ghost use Rattle.pec_shelf.specs.SummariesReading.{kept_within, more_if, with_accepted, with_message, with_messages, with_pair, with_pairs};

use crate::certified::Certified;
use crate::outbox::Outbox;
use crate::rows::MessageRow;
use crate::shelf::Shelf;
use pec_types::{Address, Decision, Moment, MsgId, is_within};

/// What has become of messages, in numbers: how many were accepted, and how many of their pairs, each a message and a
/// certified recipient, are known to be placed, are known to be refused, aren't known, and had a notice, in time or
/// late.
#[derive(Clone, Copy, Debug, PartialEq, Eq)]
pub struct Summary {
    pub accepted: u64,
    pub delivered: u64,
    pub refused: u64,
    pub unknown: u64,
    pub noticed: u64,
}

impl Summary {
    /// Of no message.
    pub fn new() -> Summary
        ensures { result ≡ nothing_yet }
    {
        Summary {
            accepted: 0,
            delivered: 0,
            refused: 0,
            unknown: 0,
            noticed: 0,
        }
    }

    /// Two summaries in one, whose numbers 64 bits tell.
    pub fn plus(self, other: Summary) -> Summary
        requires accepted { self.accepted + other.accepted < 2 ^ 64 }
        requires delivered { self.delivered + other.delivered < 2 ^ 64 }
        requires refused { self.refused + other.refused < 2 ^ 64 }
        requires unknown { self.unknown + other.unknown < 2 ^ 64 }
        requires noticed { self.noticed + other.noticed < 2 ^ 64 }
        ensures { result ≡ plus self other }
    {
        Summary {
            accepted: self.accepted + other.accepted,
            delivered: self.delivered + other.delivered,
            refused: self.refused + other.refused,
            unknown: self.unknown + other.unknown,
            noticed: self.noticed + other.noticed,
        }
    }
}

/// One more, where that counts. A number stays at its greatest value, which those of a shelf don't reach.
fn more_if(count: u64, counts: bool) -> u64
    ensures { result ≡ more_if count counts }
{
    if !counts {
        return count;
    }
    count.saturating_add(1)
}

impl Shelf {
    /// What has become of this provider's messages, in numbers. It takes no memory.
    pub fn summary(&self) -> Summary
        ensures is { (trade : Trade) → IsFor trade self.now → result ≡ summary_of trade self.now.me self.now.half }
        // A provider has so many messages, each with so many recipients, at most.
        ensures few { IsUpTo result most_pairs }
    {
        summary_of(self, self.me, &self.outbox)
    }

    /// What has become of the messages that this provider accepted in a range of moments, whose ends belong to it, in
    /// numbers. It takes no memory.
    pub fn summary_within(&self, from: Moment, upto: Moment) -> Summary
        ensures is { (trade : Trade) → IsFor trade self.now
            → result ≡ summary_within trade self.now.me from upto self.now.half }
        ensures few { IsUpTo result most_pairs }
    {
        summary_within(self, self.me, &self.outbox, from, upto)
    }
}

/// The summary of the messages of a range of moments on the sender's side of this shelf.
fn summary_within(shelf: &Shelf, me: u32, outbox: &Outbox, from: Moment, upto: Moment) -> Summary
    requires { length outbox.now.messages ≤ MESSAGES }
    ensures { result ≡ with_messages me shelf.now.half nothing_yet 0 (map (kept_within from upto) outbox.now.messages) }
{
    let mut summary = Summary::new();
    for number in 0..outbox.messages().len() {
        let Some(row) = outbox.message(number) else {
            return summary;
        };
        let id = MsgId {
            provider: me,
            number,
        };
        summary = with_message_within(shelf, summary, id, row, from, upto);
    }
    summary
}

/// With a message and its pairs, where it is of a range of moments.
fn with_message_within(
    shelf: &Shelf,
    summary: Summary,
    id: MsgId,
    row: &MessageRow,
    from: Moment,
    upto: Moment,
) -> Summary
    ensures { result ≡ with_message shelf.now.half id summary (kept_within from upto row.now) }
{
    if !is_within(from, upto, row.moment().seconds()) {
        return summary;
    }
    with_message(shelf, summary, id, row)
}

/// The summary of all messages on the sender's side of this shelf.
fn summary_of(shelf: &Shelf, me: u32, outbox: &Outbox) -> Summary
    requires { length outbox.now.messages ≤ MESSAGES }
    ensures { result ≡ with_messages me shelf.now.half nothing_yet 0 outbox.now.messages }
{
    let mut summary = Summary::new();
    for number in 0..outbox.messages().len() {
        let Some(row) = outbox.message(number) else {
            return summary;
        };
        let id = MsgId {
            provider: me,
            number,
        };
        summary = with_message(shelf, summary, id, row);
    }
    summary
}

/// With a message and its pairs.
fn with_message(shelf: &Shelf, summary: Summary, id: MsgId, row: &MessageRow) -> Summary
    ensures { result ≡ with_message shelf.now.half id summary row.now }
{
    let summary = with_accepted(summary, row);
    with_pairs(shelf, summary, id, row.certified())
}

/// With the message itself.
fn with_accepted(summary: Summary, row: &MessageRow) -> Summary
    ensures { result ≡ with_accepted summary row.now }
{
    let accepted = more_if(summary.accepted, row.facts().is_some());
    Summary {
        accepted,
        ..summary
    }
}

/// With the pairs of these recipients of a message.
fn with_pairs(shelf: &Shelf, mut summary: Summary, id: MsgId, recipients: &[Certified]) -> Summary
    ensures { result ≡ with_pairs shelf.now.half id summary recipients.now }
{
    for recipient in recipients {
        summary = with_pair(shelf, summary, id, &recipient.address);
    }
    summary
}

/// With one pair.
fn with_pair(shelf: &Shelf, summary: Summary, id: MsgId, recipient: &Address) -> Summary
    ensures { result ≡ with_pair shelf.now.half summary (pair_of id recipient.now) }
{
    let decision = decision_on(shelf, id, recipient);
    let noticed = is_noticed(shelf, id, recipient);
    Summary {
        accepted: summary.accepted,
        delivered: more_if(summary.delivered, is_placed(decision)),
        refused: more_if(summary.refused, is_refused(decision)),
        unknown: more_if(summary.unknown, decision.is_none()),
        noticed: more_if(summary.noticed, noticed),
    }
}

/// What was decided on a pair, where that is known.
fn decision_on(shelf: &Shelf, id: MsgId, recipient: &Address) -> Option<Decision>
    ensures { result ≡ decision_on shelf.now.half (pair_of id recipient.now) }
{
    let known = shelf.known(id, recipient)?;
    Some(known.decision())
}

/// Whether the sender had a notice of a pair.
fn is_noticed(shelf: &Shelf, id: MsgId, recipient: &Address) -> bool
    ensures { result ≡ is_noticed shelf.now.half (pair_of id recipient.now) }
{
    shelf.notice(id, recipient).is_some()
}

fn is_placed(decision: Option<Decision>) -> bool
    ensures { result ≡ is_placed decision }
{
    match decision {
        Some(Decision::Placed) => true,
        Some(Decision::Refused(_)) | None => false,
    }
}

fn is_refused(decision: Option<Decision>) -> bool
    ensures { result ≡ is_refused decision }
{
    match decision {
        Some(Decision::Refused(_)) => true,
        Some(Decision::Placed) | None => false,
    }
}
