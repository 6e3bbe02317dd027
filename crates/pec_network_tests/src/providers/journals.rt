//! Journals of others, and bytes that are none.

use super::desk::{Desk, Who};
use super::home::Home;
use crate::digests::digest_of;
use pec_outside::{Disk, MemDisk};
use pec_provider::ReopenFault;
use pec_trial::{journal_of, two};
use std::alloc::Global;
use std::test::Fail;

/// Entries, a line for each, and why the provider of this number doesn't open them.
#[derive(Clone, Copy)]
struct Case {
    why: &'static str,
    who: Who,
    entries: &'static str,
    fault: Option<ReopenFault>,
}

static CASES: [Case; 10] = [
    Case {
        why: "its own entries",
        who: Who::Alfa,
        entries: "start 0\naccepted 5 alice@alfa.example to-bob\nticked 5",
        fault: None,
    },
    Case {
        why: "no entry",
        who: Who::Alfa,
        entries: "",
        fault: Some(ReopenFault::BadEntry(0)),
    },
    Case {
        why: "the Start of another provider",
        who: Who::Beta,
        entries: "start 0\nticked 5",
        fault: Some(ReopenFault::BadEntry(0)),
    },
    Case {
        why: "no Start",
        who: Who::Alfa,
        entries: "ticked 5",
        fault: Some(ReopenFault::BadEntry(0)),
    },
    Case {
        why: "a Start too many",
        who: Who::Alfa,
        entries: "start 0\nstart 0",
        fault: Some(ReopenFault::BadEntry(1)),
    },
    Case {
        why: "and behind others",
        who: Who::Alfa,
        entries: "start 0\nticked 5\nticked 6\nstart 0\nticked 7",
        fault: Some(ReopenFault::BadEntry(3)),
    },
    Case {
        why: "a moment that goes back",
        who: Who::Alfa,
        entries: "start 0\nticked 5\nticked 4",
        fault: Some(ReopenFault::BadEntry(2)),
    },
    Case {
        why: "a message of an account of another",
        who: Who::Alfa,
        entries: "start 0\nticked 5\naccepted 5 bob@beta.example to-alice",
        fault: Some(ReopenFault::BadEntry(2)),
    },
    Case {
        why: "a message of another sender",
        who: Who::Alfa,
        entries: "start 0\naccepted 5 anna@alfa.example to-bob",
        fault: Some(ReopenFault::BadEntry(1)),
    },
    Case {
        why: "bytes that are no entry",
        who: Who::Alfa,
        entries: "start 0\nticked 5\njunk\nticked 4",
        fault: Some(ReopenFault::BadEntry(2)),
    },
];

/// The table, by a function without a clause: the proof of the test is spared its texts.
fn cases() -> &'static [Case] {
    &CASES
}

#[test]
fn a_journal_of_others_is_refused_with_the_number_of_its_first_bad_entry(
    rt: HostRuntime,
) -> Result<(), Fail> {
    for case in cases() {
        let fault = fault_of(rt.alloc(), case)?;
        assert!(rt; fault == case.fault, "{}", case.why);
    }
    Ok(())
}

fn fault_of(alloc: Global, case: &Case) -> Result<Option<ReopenFault>, Fail> {
    let disk = journal_of(alloc, case.entries)?;
    Ok(fault_over(alloc, two(), case.who, disk))
}

/// Why a provider of a directory isn't opened over a disk.
fn fault_over(alloc: Global, directory: &str, who: Who, disk: MemDisk) -> Option<ReopenFault> {
    match Home::of(alloc, directory) {
        Some(home) => Desk::opened(alloc, home, who, disk).err(),
        None => Some(ReopenFault::NoMemory),
    }
}

/// A journal that was made with another directory is told by both digests.
#[test]
fn a_journal_of_another_directory_is_refused(rt: HostRuntime) -> Result<(), Fail> {
    let disk = journal_of(rt.alloc(), "start 0\nticked 5")?;
    assert!(rt; is_of_another(rt.alloc(), disk));
    Ok(())
}

/// Whether a journal isn't opened under another directory than that of the tests, and both digests are told.
fn is_of_another(alloc: Global, disk: MemDisk) -> bool {
    let other = two()
        .replacen(alloc, "quota = 100", "quota = 99", 1)
        .unwrap_or(String::new(alloc));
    let wanted = told_digests(alloc, other.as_str());
    wanted.is_some() && fault_over(alloc, other.as_str(), Who::Alfa, disk) == wanted
}

/// The fault that tells the digests of the directory of the tests and of another one.
fn told_digests(alloc: Global, other: &str) -> Option<ReopenFault> {
    let kept = digest_of(alloc, two())?;
    let given = digest_of(alloc, other)?;
    Some(ReopenFault::OtherDirectory(kept, given))
}

/// Bytes that are no journal, and the place at which they stop being one.
#[derive(Clone, Copy)]
struct File {
    bytes: &'static [u8],
    place: u64,
}

static FILES: [File; 5] = [
    File {
        bytes: b"",
        place: 0,
    },
    File {
        bytes: b"PECJRN1",
        place: 0,
    },
    File {
        bytes: b"PECJRN2\n\0",
        place: 0,
    },
    File {
        bytes: b"PECJRN1\n",
        place: 8,
    },
    File {
        bytes: b"PECJRN1\n\x01\0\0\0\x09\x08\0\0",
        place: 9,
    },
];

fn files() -> &'static [File] {
    &FILES
}

#[test]
fn bytes_that_are_no_journal_are_refused_at_their_place(rt: HostRuntime) {
    for file in files() {
        let fault = fault_of_bytes(rt.alloc(), file);
        assert!(rt; fault == Some(ReopenFault::NotAJournal(file.place)));
    }
}

fn fault_of_bytes(alloc: Global, file: &File) -> Option<ReopenFault> {
    let mut disk = MemDisk::new(alloc, Vec::new(alloc));
    let _ = disk.write_at(0, file.bytes);
    fault_over(alloc, two(), Who::Alfa, disk)
}
