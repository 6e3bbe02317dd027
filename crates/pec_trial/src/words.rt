//! What providers answer in words of the tests' own. A message is written as `PROVIDER/NUMBER`.

use pec_types::{
    Address, BookLine, Decision, Due, Event, ItemKind, ItemLine, Kind, Letter, Mark, Moment, MsgId,
    ProviderFault, Submitted,
};
use std::alloc::{AllocError, Global};

/// What is told in words.
pub trait Told {
    /// Adds its words, and a space before each where others stand there.
    fn add_to(&self, alloc: Global, words: &mut Vec<u8>) -> Result<(), AllocError>;
}

/// Adds a word, and a space before it where others stand there.
pub fn add(words: &mut Vec<u8>, word: &[u8]) -> Result<(), AllocError> {
    if !words.is_empty() {
        words.push(b' ')?;
    }
    words.extend_from_slice(word)
}

pub fn add_number(alloc: Global, words: &mut Vec<u8>, number: u64) -> Result<(), AllocError> {
    let digits = number.to_string(alloc)?;
    add(words, digits.as_bytes())
}

fn add_id(alloc: Global, words: &mut Vec<u8>, id: MsgId) -> Result<(), AllocError> {
    add_number(alloc, words, u64::from(id.provider))?;
    let number = id.number.to_string(alloc)?;
    words.push(b'/')?;
    words.extend_from_slice(number.as_bytes())
}

/// Adds a message and a number.
fn add_numbered(
    alloc: Global,
    words: &mut Vec<u8>,
    id: MsgId,
    number: u32,
) -> Result<(), AllocError> {
    add_id(alloc, words, id)?;
    add_number(alloc, words, u64::from(number))
}

fn add_pair(
    alloc: Global,
    words: &mut Vec<u8>,
    id: MsgId,
    recipient: &Address,
) -> Result<(), AllocError> {
    add_id(alloc, words, id)?;
    add(words, recipient.bytes())
}

fn add_decision(
    alloc: Global,
    words: &mut Vec<u8>,
    id: MsgId,
    recipient: &Address,
    decision: Decision,
) -> Result<(), AllocError> {
    add_pair(alloc, words, id, recipient)?;
    add(words, decision.word())
}

fn add_moment(
    alloc: Global,
    words: &mut Vec<u8>,
    moment: Option<Moment>,
) -> Result<(), AllocError> {
    match moment {
        Some(moment) => add_number(alloc, words, moment.seconds()),
        None => add(words, b"-"),
    }
}

/// Of what is not there, that it is none.
impl<T: Told> Told for Option<T> {
    fn add_to(&self, alloc: Global, words: &mut Vec<u8>) -> Result<(), AllocError> {
        match self {
            Some(one) => one.add_to(alloc, words),
            None => add(words, b"none"),
        }
    }
}

/// What was done with a frame or a pair.
impl Told for Event {
    fn add_to(&self, alloc: Global, words: &mut Vec<u8>) -> Result<(), AllocError> {
        add(words, event_word(self))?;
        match self {
            Event::Took(id) => add_id(alloc, words, *id),
            Event::Charged(id, by) => add_numbered(alloc, words, *id, *by),
            Event::Learned(id, recipient, decision) => {
                add_decision(alloc, words, *id, recipient, *decision)
            }
            Event::Acked(id, recipient) => add_pair(alloc, words, *id, recipient),
            Event::Repeat(letter) => letter.add_to(alloc, words),
            Event::Anomaly(accounts) => add_number(alloc, words, u64::from(*accounts)),
            Event::Dropped => Ok(()),
            Event::Decided(id, recipient, decision) => {
                add_decision(alloc, words, *id, recipient, *decision)
            }
        }
    }
}

fn event_word(event: &Event) -> &'static [u8] {
    match event {
        Event::Took(_) => b"took",
        Event::Charged(_, _) => b"charged",
        Event::Learned(_, _, _) => b"learned",
        Event::Acked(_, _) => b"acked",
        Event::Repeat(_) => b"repeat",
        Event::Anomaly(_) => b"anomaly",
        Event::Dropped => b"dropped",
        Event::Decided(_, _, _) => b"decided",
    }
}

impl Told for Letter {
    fn add_to(&self, alloc: Global, words: &mut Vec<u8>) -> Result<(), AllocError> {
        add(words, letter_word(self))?;
        match self {
            Letter::Envelope { id, to } => add_numbered(alloc, words, *id, *to),
            Letter::Charge { id, by } => add_numbered(alloc, words, *id, *by),
            Letter::Outcome { id, recipient } => add_pair(alloc, words, *id, recipient),
            Letter::Ack { id, recipient } => add_pair(alloc, words, *id, recipient),
        }
    }
}

fn letter_word(letter: &Letter) -> &'static [u8] {
    match letter {
        Letter::Envelope { .. } => b"envelope",
        Letter::Charge { .. } => b"charge",
        Letter::Outcome { .. } => b"outcome",
        Letter::Ack { .. } => b"ack",
    }
}

/// Why a provider didn't do what was asked of it.
impl Told for ProviderFault {
    fn add_to(&self, alloc: Global, words: &mut Vec<u8>) -> Result<(), AllocError> {
        add(words, fault_word(*self))?;
        match self {
            ProviderFault::ClockBack(last) => add_number(alloc, words, last.seconds()),
            ProviderFault::Changed(entry) => add_number(alloc, words, *entry),
            _ => Ok(()),
        }
    }
}

fn fault_word(fault: ProviderFault) -> &'static [u8] {
    match fault {
        ProviderFault::DiskFault => b"disk-fault",
        ProviderFault::Down => b"down",
        ProviderFault::ClockBack(_) => b"clock-back",
        ProviderFault::NoAccount => b"no-account",
        ProviderFault::Full => b"full",
        ProviderFault::NoItem => b"no-item",
        ProviderFault::JournalFull => b"journal-full",
        ProviderFault::OldJournal => b"old-journal",
        ProviderFault::NoNeed => b"no-need",
        ProviderFault::NoMemory => b"no-memory",
        ProviderFault::Changed(_) => b"changed",
    }
}

impl Told for Submitted {
    fn add_to(&self, alloc: Global, words: &mut Vec<u8>) -> Result<(), AllocError> {
        match self {
            Submitted::Accepted(id) => {
                add(words, b"accepted")?;
                add_id(alloc, words, *id)
            }
            Submitted::NotAccepted(id, cause) => {
                add(words, b"not-accepted")?;
                add_id(alloc, words, *id)?;
                add(words, cause.word())
            }
        }
    }
}

impl Told for Mark {
    fn add_to(&self, alloc: Global, words: &mut Vec<u8>) -> Result<(), AllocError> {
        add(words, due_word(self.due))?;
        add_pair(alloc, words, self.id, &self.recipient)
    }
}

fn due_word(due: Due) -> &'static [u8] {
    match due {
        Due::Nothing => b"nothing",
        Due::Warning => b"warning",
        Due::Notice => b"notice",
        Due::LateNotice => b"late-notice",
    }
}

/// One line of a book.
impl Told for BookLine {
    fn add_to(&self, alloc: Global, words: &mut Vec<u8>) -> Result<(), AllocError> {
        add_pair(alloc, words, self.id, &self.recipient)?;
        add(words, self.class.word())?;
        for moment in [Some(self.accepted), self.charged, self.warned, self.noticed] {
            add_moment(alloc, words, moment)?;
        }
        add_outcome(alloc, words, self.outcome)
    }
}

fn add_outcome(
    alloc: Global,
    words: &mut Vec<u8>,
    outcome: Option<(Decision, Moment)>,
) -> Result<(), AllocError> {
    match outcome {
        Some((decision, moment)) => {
            add(words, decision.word())?;
            add_number(alloc, words, moment.seconds())
        }
        None => add(words, b"open"),
    }
}

/// One line of a mailbox: what the item is, and the message and the recipient that it names.
impl Told for ItemLine {
    fn add_to(&self, alloc: Global, words: &mut Vec<u8>) -> Result<(), AllocError> {
        add(words, kind_word(self.kind))?;
        if let Some(id) = self.id {
            add_id(alloc, words, id)?;
        }
        match &self.recipient {
            Some(recipient) => add(words, recipient.bytes()),
            None => Ok(()),
        }
    }
}

fn kind_word(kind: ItemKind) -> &'static [u8] {
    match kind {
        ItemKind::Envelope => b"envelope",
        ItemKind::Anomaly => b"anomaly",
        ItemKind::Receipt(kind) => receipt_word(kind),
    }
}

fn receipt_word(kind: Kind) -> &'static [u8] {
    match kind {
        Kind::Acceptance => b"acceptance",
        Kind::NonAcceptance(_) => b"non-acceptance",
        Kind::Charge => b"charge",
        Kind::Delivery => b"delivery",
        Kind::DeliveryError(_) => b"delivery-error",
        Kind::VirusFound => b"virus-found",
        Kind::Warning => b"warning",
        Kind::Notice => b"notice",
        Kind::LateNotice => b"late-notice",
        Kind::Ack => b"ack",
    }
}
