//! Disks that fail at one call of the append of each kind of entry, and providers that are opened again over them.

use super::desk::{Desk, Who};
use super::home::Home;
use super::world::wrong_line;
use pec_outside::MemDisk;
use pec_provider::CreateFault;
use pec_trial::two;
use std::alloc::Global;
use std::test::Fail;

/// An entry that a call appends behind a script, and what the same call answers once the provider is opened again:
/// where the entry isn't in the journal, and where it is. A call is a line without its answer.
#[derive(Clone, Copy)]
struct Entry {
    why: &'static str,
    whose: u32,
    /// Its number in the journal.
    number: u64,
    /// How many entries were read before it: one for each letter that was put, and one for each decision.
    reads: u64,
    before: &'static str,
    call: &'static str,
    without: &'static str,
    with: &'static str,
}

static FIRST: [Entry; 3] = [
    Entry {
        why: "Accepted",
        whose: 0,
        number: 1,
        reads: 0,
        before: "",
        call: "alfa submit 1704186000 alice@alfa.example bob@beta.example to-bob",
        without: "accepted 0/0",
        with: "accepted 0/1",
    },
    Entry {
        why: "NotAccepted",
        whose: 0,
        number: 1,
        reads: 0,
        before: "",
        call: "alfa submit 1704186000 alice@alfa.example bob@beta.example blind",
        without: "not-accepted 0/0 bcc",
        with: "not-accepted 0/1 bcc",
    },
    Entry {
        why: "Took",
        whose: 1,
        number: 1,
        reads: 0,
        before: TAKING,
        call: "beta arrive 1704186002 alfa 0",
        without: "took 0/0",
        with: "repeat envelope 0/0 1",
    },
];

static SECOND: [Entry; 3] = [
    Entry {
        why: "Decided",
        whose: 1,
        number: 2,
        reads: 1,
        before: DECIDING,
        call: "beta decide 1704186002",
        without: "decided 0/0 bob@beta.example delivered",
        with: "none",
    },
    Entry {
        why: "Charged",
        whose: 0,
        number: 2,
        reads: 1,
        before: LEARNING,
        call: "alfa arrive 1704186003 beta 0",
        without: "charged 0/0 1",
        with: "repeat charge 0/0 1",
    },
    Entry {
        why: "Learned",
        whose: 0,
        number: 2,
        reads: 1,
        before: LEARNING,
        call: "alfa arrive 1704186003 beta 1",
        without: "learned 0/0 bob@beta.example delivered",
        with: "repeat outcome 0/0 bob@beta.example",
    },
];

static THIRD: [Entry; 3] = [
    Entry {
        why: "Acked",
        whose: 1,
        number: 3,
        reads: 3,
        before: ACKING,
        call: "beta arrive 1704186004 alfa 0",
        without: "acked 0/0 bob@beta.example",
        with: "repeat ack 0/0 bob@beta.example",
    },
    Entry {
        why: "Ticked",
        whose: 0,
        number: 2,
        reads: 0,
        before: "
alfa submit 1704186000 alice@alfa.example bob@beta.example to-bob -> accepted 0/0
",
        call: "alfa tick 1704229200",
        without: "warning 0/0 bob@beta.example, 1 marks",
        with: "0 marks",
    },
    Entry {
        why: "Anomaly",
        whose: 1,
        number: 1,
        reads: 0,
        before: "",
        call: "beta arrive 1704186001 for-carl",
        without: "anomaly 1",
        with: "dropped",
    },
];

const TAKING: &str = "
alfa submit 1704186000 alice@alfa.example bob@beta.example to-bob -> accepted 0/0
alfa put 1 64 -> X-Trasporto: posta-certificata, 1 frames
";

const DECIDING: &str = "
alfa submit 1704186000 alice@alfa.example bob@beta.example to-bob -> accepted 0/0
alfa put 1 64 -> X-Trasporto: posta-certificata, 1 frames
beta arrive 1704186002 alfa 0 -> took 0/0
";

const LEARNING: &str = "
alfa submit 1704186000 alice@alfa.example bob@beta.example to-bob -> accepted 0/0
alfa put 1 64 -> X-Trasporto: posta-certificata, 1 frames
beta arrive 1704186002 alfa 0 -> took 0/0
beta decide 1704186002 -> decided 0/0 bob@beta.example delivered
beta put 0 64 -> X-Ricevuta: presa-in-carico, X-Ricevuta: avvenuta-consegna, 2 frames
";

const ACKING: &str = "
alfa submit 1704186000 alice@alfa.example bob@beta.example to-bob -> accepted 0/0
alfa put 1 64 -> X-Trasporto: posta-certificata, 1 frames
beta arrive 1704186002 alfa 0 -> took 0/0
beta decide 1704186002 -> decided 0/0 bob@beta.example delivered
beta put 0 64 -> X-Ricevuta: presa-in-carico, X-Ricevuta: avvenuta-consegna, 2 frames
alfa arrive 1704186003 beta 1 -> learned 0/0 bob@beta.example delivered
alfa put 1 64 -> X-Riscontro: pec.0000000@alfa.example bob@beta.example, 1 frames
";

/// The tables, by functions without a clause: the proof of the test is spared their texts.
fn first() -> &'static [Entry] {
    &FIRST
}

fn second() -> &'static [Entry] {
    &SECOND
}

fn third() -> &'static [Entry] {
    &THIRD
}

/// The first call of a disk in the append of an entry: three calls make a journal, four append an entry, and one reads
/// an entry for a letter or a decision.
fn first_call(number: u64, reads: u64) -> u64 {
    number
        .saturating_mul(4)
        .saturating_add(3)
        .saturating_add(reads)
}

/// An append writes the entry, syncs, opens its gate, and syncs. Only where the last of these fails is the entry there.
#[test]
fn a_fault_of_the_disk_leaves_an_entry_or_none(rt: HostRuntime) -> Result<(), Fail> {
    for entries in [first(), second(), third()] {
        let wrong = first_wrong(rt.alloc(), entries)?;
        assert!(rt; wrong.is_none(), "{wrong:?}");
    }
    Ok(())
}

/// The first wrong line where one of the four calls of the append of an entry fails, and what came.
fn first_wrong(alloc: Global, entries: &[Entry]) -> Result<Option<String>, Fail> {
    for entry in entries {
        for call in 0..4u64 {
            let wrong = wrong_behind(alloc, entry, call)?;
            if wrong.is_some() {
                return Ok(wrong);
            }
        }
    }
    Ok(None)
}

/// A call that a fault of the disk ends, and the same call while the provider is down and once it is opened again.
const FAULTED: &str = "BEFORE
CALL -> disk-fault
CALL -> down
WHO reopen -> interrupted
CALL -> LEFT
";

/// The first wrong line where a call of the disk fails as the entry is appended.
fn wrong_behind(alloc: Global, entry: &Entry, call: u64) -> Result<Option<String>, Fail> {
    let script = script_of(alloc, entry, call);
    let failing = first_call(entry.number, entry.reads).saturating_add(call);
    wrong_line(alloc, &[(entry.whose, failing)], script.as_str())
}

fn script_of(alloc: Global, entry: &Entry, call: u64) -> String {
    let who = if entry.whose == 0 { "alfa" } else { "beta" };
    let left = if call == 3 { entry.with } else { entry.without };
    let words = [
        ("BEFORE", entry.before),
        ("CALL", entry.call),
        ("WHO", who),
        ("LEFT", left),
    ];
    with_words(alloc, &words)
}

/// The lines with these words. Where memory is wanting none are left, and what comes isn't what has to.
fn with_words(alloc: Global, words: &[(&str, &str)]) -> String {
    let mut lines = String::from_str(alloc, FAULTED).unwrap_or(String::new(alloc));
    for (word, instead) in words {
        lines = lines
            .replace(alloc, word, instead)
            .unwrap_or(String::new(alloc));
    }
    lines
}

/// While a provider is down nothing is shown and nothing taken; it is opened again with what it had, and owes nothing.
#[test]
fn who_is_down_says_no_more(rt: HostRuntime) -> Result<(), Fail> {
    let wrong = wrong_line(rt.alloc(), &[(1, 16)], DOWN)?;
    assert!(rt; wrong.is_none(), "{wrong:?}");
    Ok(())
}

const DOWN: &str = "
alfa submit 1704186000 alice@alfa.example bob@beta.example to-bob -> accepted 0/0
alfa put 1 64 -> X-Trasporto: posta-certificata, 1 frames
beta arrive 1704186002 alfa 0 -> took 0/0
beta put 0 64 -> X-Ricevuta: presa-in-carico, 1 frames
beta decide 1704186002 -> disk-fault
beta decide 1704186002 -> down
beta arrive 1704186001 alfa 0 -> down
beta tick 1704186001 -> down
beta submit 1704186001 zoe@beta.example alice@alfa.example to-alice -> no-account
beta submit 1704186001 bob@beta.example alice@alfa.example to-alice -> down
beta book bob@beta.example -> down
beta mailbox bob@beta.example -> down
beta item bob@beta.example 9 -> down
beta item alice@alfa.example 0 -> no-account
beta reopen -> interrupted
beta mailbox bob@beta.example -> envelope 0/0, 1 items
beta decide 1704186001 -> clock-back 1704186002
beta decide 1704186003 -> none
beta put 0 64 -> X-Ricevuta: avvenuta-consegna, 1 frames
beta arrive 1704186003 alfa 0 -> repeat envelope 0/0 1
beta put 0 64 -> X-Ricevuta: presa-in-carico, X-Ricevuta: avvenuta-consegna, 2 frames
alfa arrive 1704186004 beta 1 -> learned 0/0 bob@beta.example delivered
beta reopen -> whole
beta put 0 64 -> X-Ricevuta: avvenuta-consegna, 1 frames
alfa arrive 1704186004 beta 0 -> repeat outcome 0/0 bob@beta.example
alfa mailbox alice@alfa.example -> acceptance 0/0, delivery 0/0 bob@beta.example, 2 items
beta mailbox bob@beta.example -> envelope 0/0, 1 items
";

/// A journal is made by three calls, and its Start is appended by four. Where one of these fails there is no provider.
#[test]
fn a_fault_of_the_disk_makes_no_provider(rt: HostRuntime) {
    for call in 0..8u64 {
        assert!(rt; is_told(rt.alloc(), call), "call {call}");
    }
}

fn is_told(alloc: Global, call: u64) -> bool {
    let fault = fault_of(alloc, call);
    if call < 7 {
        fault == Some(CreateFault::DiskFault)
    } else {
        fault.is_none()
    }
}

/// Why no provider is made on an empty disk, of which this call fails.
fn fault_of(alloc: Global, call: u64) -> Option<CreateFault> {
    let failing = Vec::from_slice(alloc, &[call]).unwrap_or(Vec::new(alloc));
    match Home::of(alloc, two()) {
        Some(home) => Desk::made(alloc, home, Who::Alfa, MemDisk::new(alloc, failing)).err(),
        None => Some(CreateFault::NoMemory),
    }
}
