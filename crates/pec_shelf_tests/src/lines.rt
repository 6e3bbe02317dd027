//! The lines that come of a script: those of answers that the program doesn't print are in words of the tests' own.

use pec_directory::Directory;
use pec_shelf::Row;
use pec_types::{Decision, Facts, Letter, Moment, MsgId, id_text};
use std::alloc::Global;

/// Lines one behind the other. Where one couldn't be written, the log is like no other.
#[derive(Drop)]
pub(crate) struct Log {
    alloc: Global,
    text: Vec<u8>,
    has_failed: bool,
}

impl Log {
    pub(crate) fn new(alloc: Global) -> Log {
        Log {
            alloc,
            text: Vec::new(alloc),
            has_failed: false,
        }
    }

    /// Whether these bytes were written, and nothing failed.
    pub(crate) fn is(&self, bytes: &[u8]) -> bool {
        !self.has_failed && self.text.as_slice() == bytes
    }

    /// Whether the same was written, and nothing failed.
    pub(crate) fn is_as(&self, other: &Log) -> bool {
        !other.has_failed && self.is(&other.text)
    }

    /// Something couldn't be written.
    pub(crate) fn fail(&mut self) {
        self.has_failed = true;
    }

    /// Adds bytes as they are.
    pub(crate) fn put(&mut self, bytes: &[u8]) {
        match self.text.extend_from_slice(bytes) {
            Ok(()) => {}
            Err(_) => self.has_failed = true,
        }
    }

    /// Adds a text as it is, where there was memory for it.
    pub(crate) fn put_text<E: Drop>(&mut self, text: Result<Vec<u8>, E>) {
        match text {
            Ok(text) => self.put(&text),
            Err(_) => self.has_failed = true,
        }
    }

    /// Adds a word, and the space behind it.
    pub(crate) fn add(&mut self, word: &[u8]) {
        self.put(word);
        self.put(b" ");
    }

    pub(crate) fn add_number(&mut self, number: u64) {
        match number.to_string(self.alloc) {
            Ok(digits) => self.add(digits.as_bytes()),
            Err(_) => self.has_failed = true,
        }
    }

    pub(crate) fn add_moment(&mut self, moment: Option<u64>) {
        match moment {
            Some(moment) => self.add_number(moment),
            None => self.add(b"-"),
        }
    }

    /// Ends a line, in place of the space behind its last word.
    pub(crate) fn end(&mut self) {
        let _space = self.text.pop();
        self.put(b"\n");
    }

    /// Adds a line of this number, or of a hyphen.
    pub(crate) fn add_found(&mut self, found: Option<u64>) {
        self.add_moment(found);
        self.end();
    }

    /// Adds a line that says that there is nothing.
    pub(crate) fn add_nothing(&mut self) {
        self.put(b"-\n");
    }

    /// Adds the name of a message.
    fn add_id(&mut self, directory: &Directory, id: MsgId) {
        match id_text(self.alloc, directory.first_domain(id.provider), id.number) {
            Ok(text) => self.add(&text),
            Err(_) => self.has_failed = true,
        }
    }
}

/// Adds letters that are due, one a line, and how many they are.
pub(crate) fn add_letters(log: &mut Log, directory: &Directory, letters: &[Letter]) {
    for letter in letters {
        add_letter(log, directory, letter);
    }
    log.add(b"due");
    log.add_number(letters.len() as u64);
    log.end();
}

fn add_letter(log: &mut Log, directory: &Directory, letter: &Letter) {
    match letter {
        Letter::Envelope { id, to } => {
            log.add(b"envelope");
            log.add_id(directory, *id);
            log.add_number(u64::from(*to));
            log.end();
        }
        Letter::Outcome { id, recipient } => {
            log.add(b"outcome");
            add_pair(log, directory, *id, recipient.bytes());
        }
        Letter::Charge { .. } | Letter::Ack { .. } => log.put(b"answer\n"),
    }
}

/// Adds a pair.
pub(crate) fn add_pair(log: &mut Log, directory: &Directory, id: MsgId, recipient: &[u8]) {
    log.add_id(directory, id);
    log.add(recipient);
    log.end();
}

/// Adds who sent a message, and each of its recipients.
pub(crate) fn add_facts(log: &mut Log, facts: &Facts) {
    log.add(facts.sender.bytes());
    for recipient in facts.recipients.as_slice() {
        log.add(recipient.class.word());
        log.add(recipient.address.bytes());
    }
    log.end();
}

/// Adds the moments and decisions of a row: the sender's side, and then the recipient's.
pub(crate) fn add_row(log: &mut Log, row: Row) {
    for moment in [row.accepted, row.charged, row.warned, row.noticed] {
        add_moment(log, moment);
    }
    add_known(log, row.known);
    log.add(b"/");
    add_moment(log, row.taken);
    add_decision(log, row.decided);
    if row.acked {
        log.add(b"acked");
    }
    log.end();
}

fn add_known(log: &mut Log, known: Option<(Decision, Moment, Moment)>) {
    match known {
        Some((decision, decided, learned)) => {
            add_decision(log, Some((decision, decided)));
            add_moment(log, Some(learned));
        }
        None => log.add(b"-"),
    }
}

fn add_decision(log: &mut Log, decided: Option<(Decision, Moment)>) {
    match decided {
        Some((decision, moment)) => {
            log.add(decision.word());
            add_moment(log, Some(moment));
        }
        None => log.add(b"-"),
    }
}

fn add_moment(log: &mut Log, moment: Option<Moment>) {
    match moment {
        Some(moment) => log.add_number(moment.seconds()),
        None => log.add(b"-"),
    }
}
