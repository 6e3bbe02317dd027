ghost use Rattle.std.specs.Prelude.{◌≡◌, List, IsNone, None, option_map};
ghost use Rattle.pec_records.specs.declared.entries.Entry.{Entry};
ghost use Rattle.pec_types.specs.declared.letters.Letter.TheVariants as letters;
ghost use Rattle.pec_ledger.specs.Lookups.{accepted_at};
ghost use Rattle.pec_ledger.specs.Trade.{Trade};
ghost use Rattle.pec_plays.specs.Frames.{frame_of};
ghost use Rattle.pec_outgoing.specs.Desk.{IsHalfOf};
ghost use Rattle.pec_outgoing.specs.Needs.{asked_by, needed, number_of};
ghost use Rattle.pec_outgoing.specs.Views.{asked_shown, own_shown};

use pec_shelf::{FateRow, KnownRow, MessageRow, Shelf, TakenRow};
use pec_types::{Address, Facts, Letter, MsgId};

/// An accepted message: its row and its facts.
#[derive(Drop)]
pub(crate) struct Own<'a> {
    pub(crate) row: &'a MessageRow,
    pub(crate) facts: &'a Facts,
}

/// A letter with the rows of which it is composed beside an entry.
#[derive(Drop)]
pub(crate) enum Asked<'a> {
    Envelope {
        id: MsgId,
        to: u32,
        message: Own<'a>,
    },
    Charge {
        id: MsgId,
        row: &'a TakenRow,
    },
    Outcome {
        id: MsgId,
        recipient: &'a Address,
        fate: &'a FateRow,
        row: &'a TakenRow,
    },
    Ack {
        id: MsgId,
        recipient: &'a Address,
        known: &'a KnownRow,
        message: Own<'a>,
    },
}

/// The number of the entry of which a letter is composed, from 0: an envelope and an acknowledgement are composed of
/// the entry by which the message was accepted, a receipt of taking charge and one on an outcome of that by which it
/// was taken. `None` comes exactly where the provider doesn't have what the letter needs, as where it is another one's;
/// then no frame is put for it. It takes no memory.
#[tactic(auto, using(crate::proofs::NeedsLemmas::nothing_needed))]
pub fn needed(shelf: &Shelf, letter: &Letter) -> Option<u64>
    ensures number { result ≡ needed shelf.now.me shelf.now.half letter.now }
    ensures none { IsNone result → (trade : Trade) (journal : List Entry) → IsHalfOf trade journal shelf.now
        → frame_of trade shelf.now.me journal letter.now ≡ None }
{
    let number = number_asked(shelf, letter);
    number
}

#[tactic(auto, unfolding(crate::specs::Needs::needed))]
fn number_asked<'a>(shelf: &'a Shelf, letter: &'a Letter) -> Option<u64>
    ensures { result ≡ needed shelf.now.me shelf.now.half letter.now }
{
    match asked_by(shelf, letter) {
        Some(asked) => Some(asked.number()),
        None => None,
    }
}

impl Asked<'_> {
    /// The number of the entry.
    fn number(&self) -> u64
        ensures { result ≡ number_of (asked_shown self.now) }
    {
        match self {
            Asked::Envelope { message, .. } => message.row.entry(),
            Asked::Charge { row, .. } => row.entry(),
            Asked::Outcome { row, .. } => row.entry(),
            Asked::Ack { message, .. } => message.row.entry(),
        }
    }
}

/// What a letter is composed of beside an entry, where the provider has it.
pub(crate) fn asked_by<'a>(shelf: &'a Shelf, letter: &'a Letter) -> Option<Asked<'a>>
    ensures { option_map asked_shown result ≡ asked_by shelf.now.me shelf.now.half letter.now }
{
    match letter {
        Letter::Envelope { id, to } => envelope(shelf, *id, *to),
        Letter::Charge { id, by } => charge(shelf, *id, *by),
        Letter::Outcome { id, recipient } => outcome(shelf, *id, recipient),
        Letter::Ack { id, recipient } => acknowledgement(shelf, *id, recipient),
    }
}

/// The accepted message of a number.
pub(crate) fn own_message(shelf: &Shelf, number: u64) -> Option<Own<'_>>
    ensures { option_map own_shown result ≡ accepted_at shelf.now.half number }
{
    let row = shelf.message(number)?;
    let facts = row.facts()?;
    Some(Own { row, facts })
}

fn envelope(shelf: &Shelf, id: MsgId, to: u32) -> Option<Asked<'_>>
    ensures { option_map asked_shown result
        ≡ asked_by shelf.now.me shelf.now.half (letters.Envelope id to) }
{
    if id.provider != shelf.me() {
        return None;
    }
    let message = own_message(shelf, id.number)?;
    Some(Asked::Envelope { id, to, message })
}

fn charge(shelf: &Shelf, id: MsgId, by: u32) -> Option<Asked<'_>>
    ensures { option_map asked_shown result
        ≡ asked_by shelf.now.me shelf.now.half (letters.Charge id by) }
{
    if by != shelf.me() {
        return None;
    }
    let row = shelf.taken(id)?;
    Some(Asked::Charge { id, row })
}

fn outcome<'a>(shelf: &'a Shelf, id: MsgId, recipient: &'a Address) -> Option<Asked<'a>>
    ensures { option_map asked_shown result
        ≡ asked_by shelf.now.me shelf.now.half (letters.Outcome id recipient.now) }
{
    let fate = shelf.fate(id, recipient)?;
    let row = shelf.taken(id)?;
    Some(Asked::Outcome {
        id,
        recipient,
        fate,
        row,
    })
}

fn acknowledgement<'a>(shelf: &'a Shelf, id: MsgId, recipient: &'a Address) -> Option<Asked<'a>>
    ensures { option_map asked_shown result
        ≡ asked_by shelf.now.me shelf.now.half (letters.Ack id recipient.now) }
{
    if id.provider != shelf.me() {
        return None;
    }
    let known = shelf.known(id, recipient)?;
    let message = own_message(shelf, id.number)?;
    Some(Asked::Ack {
        id,
        recipient,
        known,
        message,
    })
}
