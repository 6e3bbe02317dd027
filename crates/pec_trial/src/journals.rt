//! Journals that are written entry by entry.

ghost use Rattle.pec_records.specs.Entry.{HasCounts};

use crate::directories::two;
use crate::reading::{account_at, moment_of, small, word};
use crate::submissions::message_of;
use pec_directory::Directory;
use pec_journal::Journal;
use pec_outside::MemDisk;
use pec_records::{Entry, encode};
use pec_types::Text8;
use std::alloc::Global;
use std::test::Fail;

/// A disk with a journal of entries, a line for each: `start PROVIDER`, `start-two PROVIDER`, `start-of-another PROVIDER`
/// with the digest of another directory, `ticked MOMENT`, `accepted MOMENT SENDER MESSAGE`, `upgraded MOMENT`, `archived
/// MOMENT ACCOUNT PLACE`; or any other, which is no entry.
pub fn journal_of(alloc: Global, entries: &str) -> Result<MemDisk, Fail> {
    let disk = MemDisk::new(alloc, Vec::new(alloc));
    match Journal::create(disk) {
        Ok(journal) => filled(alloc, journal, entries),
        Err(_) => Err("no journal".into()),
    }
}

fn filled(alloc: Global, mut journal: Journal<MemDisk>, entries: &str) -> Result<MemDisk, Fail> {
    append_all(alloc, &mut journal, entries)?;
    Ok(journal.into_disk())
}

fn append_all(alloc: Global, journal: &mut Journal<MemDisk>, entries: &str) -> Result<(), Fail> {
    for line in entries.split('\n') {
        if !line.is_empty() {
            let bytes = bytes_of(alloc, line)?;
            append(alloc, journal, &bytes)?;
        }
    }
    Ok(())
}

fn append(alloc: Global, journal: &mut Journal<MemDisk>, bytes: &[u8]) -> Result<(), Fail> {
    journal.reserve(alloc, bytes.len())?;
    journal.append(bytes)?;
    Ok(())
}

#[derive(Clone, Copy)]
enum Kind {
    Start,
    StartTwo,
    StartOfAnother,
    Ticked,
    Accepted,
    Upgraded,
    Archived,
    NoEntry,
}

const KINDS: [(&str, Kind); 7] = [
    ("start", Kind::Start),
    ("start-two", Kind::StartTwo),
    ("start-of-another", Kind::StartOfAnother),
    ("ticked", Kind::Ticked),
    ("accepted", Kind::Accepted),
    ("upgraded", Kind::Upgraded),
    ("archived", Kind::Archived),
];

fn kind_of(word: &str) -> Kind {
    for (name, kind) in &KINDS {
        if *name == word {
            return *kind;
        }
    }
    Kind::NoEntry
}

/// The bytes of the entry that a line is, or of none.
fn bytes_of(alloc: Global, line: &str) -> Result<Vec<u8>, Fail> {
    match kind_of(word(line, 0)) {
        Kind::Start => start(alloc, line),
        Kind::StartTwo => start_two(alloc, line),
        Kind::StartOfAnother => start_of_another(alloc, line),
        Kind::Ticked => ticked(alloc, line),
        Kind::Accepted => accepted(alloc, line),
        Kind::Upgraded => upgraded(alloc, line),
        Kind::Archived => archived(alloc, line),
        // no entry has the tag 13
        Kind::NoEntry => Ok(Vec::from_slice(alloc, b"\x0d")?),
    }
}

fn encoded(alloc: Global, entry: &Entry) -> Result<Vec<u8>, Fail>
    requires { HasCounts entry.now }
{
    Ok(encode(alloc, entry)?)
}

fn start(alloc: Global, line: &str) -> Result<Vec<u8>, Fail> {
    let provider = small(line, 1)?;
    let digest = digest(alloc)?;
    encoded(alloc, &Entry::Start { provider, digest })
}

fn start_two(alloc: Global, line: &str) -> Result<Vec<u8>, Fail> {
    let provider = small(line, 1)?;
    let digest = digest(alloc)?;
    encoded(alloc, &Entry::StartTwo { provider, digest })
}

/// The digest of the directory of the tests.
fn digest(alloc: Global) -> Result<[u8; 32], Fail> {
    let directory = Directory::read(alloc, two())?;
    Ok(directory.digest(alloc)?)
}

fn start_of_another(alloc: Global, line: &str) -> Result<Vec<u8>, Fail> {
    let provider = small(line, 1)?;
    let digest = [7; 32];
    encoded(alloc, &Entry::Start { provider, digest })
}

fn ticked(alloc: Global, line: &str) -> Result<Vec<u8>, Fail> {
    let moment = moment_of(line, 1)?;
    encoded(alloc, &Entry::Ticked { moment })
}

fn accepted(alloc: Global, line: &str) -> Result<Vec<u8>, Fail> {
    let moment = moment_of(line, 1)?;
    let sender = account_at(alloc, line, 2)?;
    let message = message_of(alloc, word(line, 3))?;
    let entry = Entry::Accepted {
        moment,
        sender,
        message: Text8::of(message),
    };
    encoded(alloc, &entry)
}

fn upgraded(alloc: Global, line: &str) -> Result<Vec<u8>, Fail> {
    let moment = moment_of(line, 1)?;
    encoded(alloc, &Entry::Upgraded { moment })
}

fn archived(alloc: Global, line: &str) -> Result<Vec<u8>, Fail> {
    let moment = moment_of(line, 1)?;
    let account = account_at(alloc, line, 2)?;
    let place = small(line, 3)?;
    let entry = Entry::Archived {
        moment,
        account,
        place,
    };
    encoded(alloc, &entry)
}
