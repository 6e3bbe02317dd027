//! Entries that are made, appended, refused and opened again, on disks that fail at one of their calls.
ghost use Rattle.pec_records.specs.Entry.{IsShort, IsWithinLimits};

use crate::rows::holds_at;
use crate::texts::{are_these, calls};
use pec_chronicle::{AppendFault, Chronicle, CreateFault, OpenFault, Opening};
use pec_outside::{Disk, MemDepot, MemDisk};
use pec_records::Entry;
use pec_types::{Address, Moment, Place, Text8};
use std::alloc::Global;

/// The number of a call of the disk that isn't made.
const NEVER: u64 = 99;

/// A second append at which one call of the disk fails, and how many entries are there after a crash and a restart. A
/// disk is made by calls 0 to 6: three for the journal, four for its first entry. The second entry takes calls 7 to 10:
/// a write, a sync, the gate, a sync.
struct Cut {
    call: u64,
    /// What the append answers.
    fault: Option<AppendFault>,
    /// After a crash that keeps no pending byte.
    without: u64,
    /// After a crash that keeps all of them.
    with: u64,
}

static CUTS: [Cut; 5] = [
    Cut {
        call: 7,
        fault: Some(AppendFault::DiskFault),
        without: 1,
        with: 1,
    },
    Cut {
        call: 8,
        fault: Some(AppendFault::DiskFault),
        without: 1,
        with: 1,
    },
    Cut {
        call: 9,
        fault: Some(AppendFault::DiskFault),
        without: 1,
        with: 1,
    },
    Cut {
        call: 10,
        fault: Some(AppendFault::DiskFault),
        without: 1,
        with: 2,
    },
    Cut {
        call: NEVER,
        fault: None,
        without: 2,
        with: 2,
    },
];

#[test]
fn an_entry_is_there_or_not_after_each_crash(rt: HostRuntime) {
    for cut in &CUTS {
        holds_at(&rt, has_entries_after(rt.alloc(), cut), cut.call, "");
    }
}

fn has_entries_after(alloc: Global, cut: &Cut) -> bool {
    leaves(alloc, cut, 0, cut.without) && leaves(alloc, cut, NEVER, cut.with)
}

/// Whether so many entries are there after the append of a row, a crash that keeps so many pending bytes, and a
/// restart.
fn leaves(alloc: Global, cut: &Cut, kept: u64, entries: u64) -> bool {
    match made(alloc, cut.call) {
        Ok(mut chronicle) => {
            if has_appended(alloc, &mut chronicle, cut.fault) {
                are_left(alloc, chronicle, kept, entries)
            } else {
                false
            }
        }
        Err(_) => false,
    }
}

fn are_left(alloc: Global, chronicle: Chronicle<MemDisk>, kept: u64, entries: u64) -> bool {
    let mut depot = MemDepot::new(alloc, Vec::new(alloc), calls(alloc, &[kept]));
    match restarted(alloc, chronicle.crash(&mut depot, 0)) {
        Ok(found) => found == entries,
        Err(_) => false,
    }
}

#[test]
fn a_fault_of_the_disk_makes_no_journal(rt: HostRuntime) {
    for call in 0..7 {
        holds_at(&rt, fails_to_make(rt.alloc(), call), call, "");
    }
    assert!(rt; is_made(rt.alloc(), 7));
}

fn fails_to_make(alloc: Global, call: u64) -> bool {
    match made(alloc, call) {
        Ok(_) => false,
        Err(fault) => fault == CreateFault::DiskFault,
    }
}

fn is_made(alloc: Global, call: u64) -> bool {
    made(alloc, call).is_ok()
}

// Two entries stand after calls 0 to 10. Opened again they take a sync, the size, the header and three gates, and a
// read each: calls 11 to 18.
#[test]
fn a_fault_of_the_disk_opens_no_entries(rt: HostRuntime) {
    for call in 11..19 {
        holds_at(&rt, fails_to_open(rt.alloc(), call), call, "");
    }
    assert!(rt; are_opened(rt.alloc(), 19));
}

fn fails_to_open(alloc: Global, call: u64) -> bool {
    match opened_again(alloc, call) {
        Ok(_) => false,
        Err(fault) => fault == Some(OpenFault::DiskFault),
    }
}

fn are_opened(alloc: Global, call: u64) -> bool {
    match opened_again(alloc, call) {
        Ok(entries) => entries == 2,
        Err(_) => false,
    }
}

/// How many entries are opened again on a disk that fails at this call; or the fault, or None where they weren't made.
fn opened_again(alloc: Global, call: u64) -> Result<u64, Option<OpenFault>> {
    match made(alloc, call) {
        Ok(mut chronicle) => {
            if has_appended(alloc, &mut chronicle, None) {
                restarted(alloc, chronicle)
            } else {
                Err(None)
            }
        }
        Err(_) => Err(None),
    }
}

/// How many entries a restart finds. Where it fails it leaves the entries, down.
fn restarted(alloc: Global, chronicle: Chronicle<MemDisk>) -> Result<u64, Option<OpenFault>> {
    match chronicle.restart(alloc) {
        Ok((mut opening, past)) => match all_read(alloc, &mut opening) {
            (entries, None) => Ok(entries),
            (_, Some(fault)) => Err(left_down(fault, &opening.back_to(past))),
        },
        Err((fault, chronicle)) => Err(left_down(fault, &chronicle)),
    }
}

/// A fault that left the entries down.
fn left_down(fault: OpenFault, chronicle: &Chronicle<MemDisk>) -> Option<OpenFault> {
    if chronicle.is_down() {
        Some(fault)
    } else {
        None
    }
}

/// How many entries are read, up to a fault, and no more than nine.
fn all_read(alloc: Global, opening: &mut Opening<MemDisk>) -> (u64, Option<OpenFault>) {
    for entries in 0..9 {
        match has_next(alloc, opening) {
            Ok(true) => (),
            Ok(false) => return (entries, None),
            Err(fault) => return (entries, Some(fault)),
        }
    }
    (9, None)
}

/// Whether one more entry is read; or the fault.
fn has_next(alloc: Global, opening: &mut Opening<MemDisk>) -> Result<bool, OpenFault> {
    match opening.next(alloc) {
        Ok(entry) => Ok(entry.is_some()),
        Err(fault) => Err(fault),
    }
}

/// Bytes over which no entries are opened.
struct File {
    bytes: &'static [u8],
    fault: OpenFault,
    /// How many entries were read before the fault.
    entries: u64,
}

static FILES: [File; 5] = [
    File {
        bytes: b"",
        fault: OpenFault::NotAJournal(0),
        entries: 0,
    },
    File {
        bytes: b"PECJRN1\n",
        fault: OpenFault::NotAJournal(8),
        entries: 0,
    },
    // no entry has the tag 13
    File {
        bytes: b"PECJRN1\n\x01\0\0\0\x01\x0d\0",
        fault: OpenFault::BadEntry(0),
        entries: 0,
    },
    File {
        bytes: b"PECJRN1\n\x01\0\0\0\x09\x08\0\0\0\0\0\0\0\x05\x01\0\0\0\x01\x0d\0",
        fault: OpenFault::BadEntry(1),
        entries: 1,
    },
    File {
        bytes: b"PECJRN1\n\x01\0\0\0\x09\x08\0\0\0\0\0\0\0\x05\x01\0\0\0\0\x01\0\0\0\x01\x0d\0",
        fault: OpenFault::BadEntry(1),
        entries: 1,
    },
];

#[test]
fn bytes_that_are_no_entries_are_refused(rt: HostRuntime) {
    for file in &FILES {
        holds_at(
            &rt,
            is_refused(rt.alloc(), file),
            file.bytes.len() as u64,
            "bytes",
        );
    }
}

/// Whether no entries are opened over these bytes, for the fault and behind the entries of the row.
fn is_refused(alloc: Global, file: &File) -> bool {
    match Chronicle::open(alloc, disk_of(alloc, file.bytes)) {
        Ok(mut opening) => all_read(alloc, &mut opening) == (file.entries, Some(file.fault)),
        Err((fault, _)) => fault == file.fault && file.entries == 0,
    }
}

/// A disk of these bytes; an empty one where memory is wanting.
fn disk_of(alloc: Global, bytes: &[u8]) -> MemDisk {
    let mut disk = MemDisk::new(alloc, Vec::new(alloc));
    let _ = disk.write_at(0, bytes);
    disk
}

#[test]
fn an_entry_is_read_at_its_place(rt: HostRuntime) {
    assert!(rt; reads_an_acceptance(rt.alloc()));
}

// The Start has 37 bytes behind a header of 8 and its framing of 5, the acceptance 36.
fn reads_an_acceptance(alloc: Global) -> bool {
    match made(alloc, NEVER) {
        Ok(mut chronicle) => {
            has_appended_acceptance(alloc, &mut chronicle)
                && chronicle.end() == 91
                && !chronicle.is_down()
                && reads_ciao(alloc, &mut chronicle)
        }
        Err(_) => false,
    }
}

fn reads_ciao(alloc: Global, chronicle: &mut Chronicle<MemDisk>) -> bool {
    if chronicle.is_down() {
        return false;
    }
    let place = Place { at: 55, length: 36 };
    match chronicle.read(alloc, place) {
        Ok(entry) => {
            let read = OwnedEntry { entry };
            is_ciao(&read.entry)
        }
        Err(_) => false,
    }
}

/// Whether an entry is the acceptance of this message.
fn is_ciao(entry: &Entry) -> bool {
    match entry {
        Entry::Accepted { message, .. } => are_these(message.bytes(), b"ciao"),
        _ => false,
    }
}

/// An entry that a test owns.
struct OwnedEntry {
    entry: Entry,
}

impl Drop for OwnedEntry {
    fn drop(self) {
        let OwnedEntry { entry: _ } = self;
    }
}

/// Entries on an empty disk that fails at this call, with a Start; or the fault.
fn made(alloc: Global, call: u64) -> Result<Chronicle<MemDisk>, CreateFault> {
    let disk = MemDisk::new(alloc, calls(alloc, &[call]));
    let start = OwnedEntry {
        entry: Entry::Start {
            provider: 0,
            digest: [7; 32],
        },
    };
    match Chronicle::create(alloc, disk, &start.entry) {
        Ok(chronicle) => Ok(chronicle),
        Err((fault, _)) => Err(fault),
    }
}

/// Whether the next entry isn't appended for this fault; where none is wanted, whether it is.
fn has_appended<D: Disk>(
    alloc: Global,
    chronicle: &mut Chronicle<D>,
    fault: Option<AppendFault>,
) -> bool {
    match Moment::new(5) {
        Some(moment) => {
            let ticked = OwnedEntry {
                entry: Entry::Ticked { moment },
            };
            is_appended(alloc, chronicle, &ticked.entry, fault)
        }
        None => false,
    }
}

fn has_appended_acceptance<D: Disk>(alloc: Global, chronicle: &mut Chronicle<D>) -> bool {
    match Address::read(alloc, b"anna@alfa.example") {
        Ok(sender) => has_accepted_of(alloc, chronicle, sender),
        Err(_) => false,
    }
}

fn has_accepted_of<D: Disk>(alloc: Global, chronicle: &mut Chronicle<D>, sender: Address) -> bool {
    match Moment::new(5) {
        Some(moment) => {
            let accepted = OwnedEntry {
                entry: Entry::Accepted {
                    moment,
                    sender,
                    message: ciao(alloc),
                },
            };
            is_appended(alloc, chronicle, &accepted.entry, None)
        }
        None => false,
    }
}

fn ciao(alloc: Global) -> Text8
    ensures { IsShort result }
{
    match Vec::from_slice(alloc, b"ciao") {
        Ok(bytes) => Text8::of(bytes),
        Err(_) => Text8::of(Vec::new(alloc)),
    }
}

fn is_appended<D: Disk>(
    alloc: Global,
    chronicle: &mut Chronicle<D>,
    entry: &Entry,
    fault: Option<AppendFault>,
) -> bool
    requires { IsWithinLimits entry.now }
{
    if chronicle.is_down() {
        return false;
    }
    match chronicle.reserve(alloc, entry) {
        Ok(encoded) => chronicle.append(encoded).err() == fault,
        Err(_) => false,
    }
}
