//! Rows of what is printed, and its text.

use crate::values::{
    decided_line, directory, event, mark, named_item, nameless_item, open_line, turn_sending,
    turn_with,
};
use pec_directory::Directory;
use pec_script::{
    Answer, LineFault, answer_text, book_text, fault_text, item_text, items_text, marks_text,
    refused_text, submitted_text, turns_text, vault_text,
};
use pec_types::{
    Cause, Class, Decision, Due, Event, ItemKind, ItemLine, Moment, MsgId, NoMemory, ProviderFault,
    Refusal, Submitted, Turn,
};
use std::alloc::Global;
use std::slice::from_ref;

/// A provider's fault, where it has no moment. One with a moment can't stand in a static table.
#[derive(Clone, Copy)]
pub enum Fault {
    DiskFault,
    Down,
    NoAccount,
    Full,
    NoItem,
    JournalFull,
    OldJournal,
    NoNeed,
    NoMemory,
    Changed(u64),
}

/// What is printed.
#[derive(Clone, Copy)]
pub enum Printed {
    /// A book of a pair that was delivered, one that was refused, and one that is open.
    Book,
    /// A mailbox with an item of this kind that names nothing, and one that names a message and a recipient.
    Mailbox(ItemKind),
    /// An archive with the same two items.
    Vault(ItemKind),
    /// An archive without items.
    NoVault,
    /// What a clock call does of each kind, and a mark of nothing.
    Marks,
    /// What a clock call does that finds nothing due.
    NoMark,
    /// A round in which the first provider did the thing of this number.
    Event(u32),
    /// A round in which the second provider put so many frames to the first and ended so.
    Turn(u32, Option<Fault>),
    Refusal(Fault),
    /// That a clock is behind this moment, in seconds.
    ClockBack(u64),
    Answer(Answer),
    /// The fault of the line of this number.
    Fault(u64, LineFault),
    /// The item of the bytes `Salve`.
    Item,
    /// That the message 12 of the second provider is accepted, or isn't for this cause.
    Submitted(Option<Cause>),
}

/// What is printed, and its text.
pub type Row = (Printed, &'static str);

/// The text of the first row that isn't right; none where each is.
pub fn first_wrong(alloc: Global, rows: &[Row]) -> Option<&'static str> {
    for row in rows {
        if !is_right(alloc, row) {
            return Some(row.1);
        }
    }
    None
}

/// Whether the row is printed as its text.
fn is_right(alloc: Global, row: &Row) -> bool {
    match directory(alloc) {
        Some(directory) => is_printed(alloc, &directory, row.0, row.1.as_bytes()),
        None => false,
    }
}

fn is_printed(alloc: Global, directory: &Directory, printed: Printed, wanted: &[u8]) -> bool {
    match text_of(alloc, directory, printed) {
        Some(text) => text.as_slice() == wanted,
        None => false,
    }
}

fn text_of(alloc: Global, directory: &Directory, printed: Printed) -> Option<Vec<u8>> {
    match printed {
        Printed::Book => book(alloc, directory),
        Printed::Mailbox(kind) => some(items_text(alloc, directory, &items(alloc, kind))),
        Printed::Vault(kind) => some(vault_text(alloc, directory, &items(alloc, kind))),
        Printed::NoVault => some(vault_text(alloc, directory, &[])),
        Printed::Marks => marks(alloc, directory),
        Printed::NoMark => some(marks_text(alloc, directory, &[])),
        Printed::Event(number) => round_of(alloc, directory, event(alloc, number)),
        Printed::Turn(frames, ended) => {
            let turn = turn_sending(alloc, frames, fault_in(ended));
            round_text(alloc, directory, turn)
        }
        Printed::Refusal(fault) => some(fault_text(alloc, directory, &fault_of(fault))),
        Printed::ClockBack(seconds) => clock_back(alloc, directory, seconds),
        Printed::Answer(answer) => some(answer_text(alloc, &answer)),
        Printed::Fault(line, fault) => some(refused_text(alloc, line, fault)),
        Printed::Item => some(item_text(alloc, b"Salve")),
        Printed::Submitted(cause) => some(submitted_text(alloc, directory, &submitted(cause))),
    }
}

/// A text, where there was memory for it.
fn some(text: Result<Vec<u8>, NoMemory>) -> Option<Vec<u8>> {
    match text {
        Ok(text) => Some(text),
        Err(_) => None,
    }
}

fn fault_of(fault: Fault) -> ProviderFault {
    match fault {
        Fault::DiskFault => ProviderFault::DiskFault,
        Fault::Down => ProviderFault::Down,
        Fault::NoAccount => ProviderFault::NoAccount,
        Fault::Full => ProviderFault::Full,
        Fault::NoItem => ProviderFault::NoItem,
        Fault::JournalFull => ProviderFault::JournalFull,
        Fault::OldJournal => ProviderFault::OldJournal,
        Fault::NoNeed => ProviderFault::NoNeed,
        Fault::NoMemory => ProviderFault::NoMemory,
        Fault::Changed(entry) => ProviderFault::Changed(entry),
    }
}

fn submitted(cause: Option<Cause>) -> Submitted {
    let id = MsgId {
        provider: 1,
        number: 12,
    };
    match cause {
        Some(cause) => Submitted::NotAccepted(id, cause),
        None => Submitted::Accepted(id),
    }
}

fn book(alloc: Global, directory: &Directory) -> Option<Vec<u8>> {
    let virus = Decision::Refused(Refusal::Virus);
    let mut lines = Vec::new(alloc);
    add(
        &mut lines,
        decided_line(alloc, 0, Class::Primary, Decision::Placed),
    );
    add(&mut lines, decided_line(alloc, 1, Class::Copy, virus));
    add(&mut lines, open_line(alloc, 0, Class::Primary));
    some(book_text(alloc, directory, &lines))
}

/// Adds a line. Where memory is wanting it isn't there, and the text isn't what has to come.
fn add<T: Drop>(lines: &mut Vec<T>, line: Option<T>) {
    if let Some(line) = line {
        let _ = lines.push(line);
    }
}

/// An item of this kind that names nothing, and one that names a message and a recipient.
fn items(alloc: Global, kind: ItemKind) -> Vec<ItemLine> {
    let mut items = Vec::new(alloc);
    add(&mut items, Some(nameless_item(kind)));
    add(&mut items, named_item(alloc, kind));
    items
}

static DUES: &[Due] = &[Due::Warning, Due::Nothing, Due::Notice, Due::LateNotice];

fn marks(alloc: Global, directory: &Directory) -> Option<Vec<u8>> {
    let mut marks = Vec::new(alloc);
    for due in DUES {
        add(&mut marks, mark(alloc, *due));
    }
    some(marks_text(alloc, directory, &marks))
}

/// The round of a turn with this event alone, if there is one.
fn round_of(alloc: Global, directory: &Directory, event: Option<Event>) -> Option<Vec<u8>> {
    round_text(alloc, directory, turn_with(alloc, event?))
}

fn round_text(alloc: Global, directory: &Directory, turn: Turn) -> Option<Vec<u8>> {
    some(turns_text(alloc, directory, from_ref(&turn)))
}

fn fault_in(ended: Option<Fault>) -> Option<ProviderFault> {
    match ended {
        Some(fault) => Some(fault_of(fault)),
        None => None,
    }
}

fn clock_back(alloc: Global, directory: &Directory, seconds: u64) -> Option<Vec<u8>> {
    let last = Moment::new(seconds)?;
    some(fault_text(alloc, directory, &ProviderFault::ClockBack(last)))
}
