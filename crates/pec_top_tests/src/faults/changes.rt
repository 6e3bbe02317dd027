//! Journals of which a byte reads otherwise than it was written, while the program runs: bytes of an entry of each
//! kind. What is composed of such an entry is told as changed; or it can't be seen that it changed, and no line is
//! another, but for items that are shown. Where a taken message was changed, nothing is decided on it.

use crate::faults::false_disks::FalseDepot;
use crate::running::{System, depot_failing, joined, played};
use pec_outside::{Depot, Disk};
use pec_top::Status;
use pec_trial::alfa;
use std::alloc::Global;

/// From alice to anna, to its end; a message that is refused, a look at the clock, and what is no certified mail.
const LINES: &str = "submit alfa 1704186000 alice@alfa.example anna@alfa.example {M1}\n\
round 1704186001\nround 1704186002\nround 1704186003\nround 1704186004\nround 1704186005\n\
submit alfa 1704186006 alice@alfa.example anna@alfa.example {M4}\ntick alfa 1704186007\n\
inject alfa alfa {Per: anna@alfa.example|From: x@y.example||ciao|}\nround 1704186008\n\
book alice@alfa.example\nmailbox alice@alfa.example\nmailbox anna@alfa.example\n";

/// All items.
const LOOKS: &str =
    "show alice@alfa.example 0\nshow alice@alfa.example 1\nshow alice@alfa.example 2\n\
show anna@alfa.example 0\nshow anna@alfa.example 1\n";

/// An entry of alfa's journal: what is written of a turn and of a look that finds it changed; whether anything is
/// composed of it; and from which byte of it on each change is found by the turns.
#[derive(Clone, Copy)]
struct Kept {
    turn: &'static str,
    look: &'static str,
    is_read: bool,
    sealed: usize,
}

/// One of each kind. A change of its tag is found of each that is read; a taken message is sealed, behind its tag and
/// its moment of nine bytes.
static ENTRIES: [Kept; 10] = [
    // a start, an accepted message, a taken one and a decision
    Kept {
        turn: "alfa changed 0",
        look: "changed 0",
        is_read: false,
        sealed: usize::MAX,
    },
    Kept {
        turn: "alfa changed 1",
        look: "changed 1",
        is_read: true,
        sealed: usize::MAX,
    },
    Kept {
        turn: "alfa changed 2",
        look: "changed 2",
        is_read: true,
        sealed: 9,
    },
    Kept {
        turn: "alfa changed 3",
        look: "changed 3",
        is_read: false,
        sealed: usize::MAX,
    },
    // a charge, an outcome and an acknowledgement
    Kept {
        turn: "alfa changed 4",
        look: "changed 4",
        is_read: false,
        sealed: usize::MAX,
    },
    Kept {
        turn: "alfa changed 5",
        look: "changed 5",
        is_read: true,
        sealed: usize::MAX,
    },
    Kept {
        turn: "alfa changed 6",
        look: "changed 6",
        is_read: false,
        sealed: usize::MAX,
    },
    // a refused message, a look at the clock and an anomaly
    Kept {
        turn: "alfa changed 7",
        look: "changed 7",
        is_read: true,
        sealed: usize::MAX,
    },
    Kept {
        turn: "alfa changed 8",
        look: "changed 8",
        is_read: false,
        sealed: usize::MAX,
    },
    Kept {
        turn: "alfa changed 9",
        look: "changed 9",
        is_read: true,
        sealed: usize::MAX,
    },
];

/// The table, by a function without a clause: the proofs of others are spared its texts.
fn entries() -> &'static [Kept] {
    &ENTRIES
}

/// Where the first gate stands, and how many bytes stand between the end of an entry and the next one: a gate and a
/// length.
const HEADER: usize = 8;

const FRAMING: usize = 5;

#[test]
fn no_changed_entry_is_told_as_another(rt: HostRuntime) {
    assert_eq!(rt; first_wrong(&rt), Some(None));
}

/// The place of the first byte whose change comes to what it mustn't, where there is one.
fn first_wrong(rt: &impl System) -> Option<Option<usize>> {
    let alloc = rt.alloc();
    let script = joined(alloc, &[LINES, LOOKS]);
    let mut depot = depot_failing(alloc, &[]);
    let whole = played(rt, &mut depot, alfa(), "run", script.as_str());
    if whole.status != Status::Done {
        return None;
    }
    let journal = journal_of(alloc, &mut depot)?;
    let mut begin = HEADER + FRAMING;
    for entry in entries() {
        let size = size_at(&journal, begin)?;
        if let Some(byte) = first_wrong_in(rt, entry, script.as_str(), &whole.text, begin, size) {
            return Some(Some(byte));
        }
        begin = begin.checked_add(size)?.checked_add(FRAMING)?;
    }
    Some(None)
}

/// The bytes of alfa's journal.
fn journal_of<P: Depot>(alloc: Global, depot: &mut P) -> Option<Vec<u8>>
where
    P::D: Drop,
{
    let mut disk = depot.disk(0).ok()?;
    let size = disk.size().ok()?;
    let mut journal = Vec::new(alloc);
    journal.resize(size as usize, 0).ok()?;
    disk.read_at(0, journal.as_mut_slice()).ok()?;
    Some(journal)
}

/// How many bytes the entry has that begins at a place, behind its length.
fn size_at(journal: &[u8], begin: usize) -> Option<usize> {
    let length = journal.get(begin.checked_sub(4)?..begin)?;
    let mut bytes = [0; 4];
    bytes.copy_from_slice(length);
    Some(u32::from_be_bytes(bytes) as usize)
}

/// How many entries a journal has, of as many as there may be.
fn entries_in(journal: &[u8]) -> Option<usize> {
    let mut begin = HEADER + FRAMING;
    for count in 0..entries().len() {
        let gate = journal.get(begin.checked_sub(FRAMING)?)?;
        if *gate != 1 {
            return Some(count);
        }
        let size = size_at(journal, begin)?;
        begin = begin.checked_add(size)?.checked_add(FRAMING)?;
    }
    Some(entries().len())
}

/// The place of the first byte of an entry whose change comes to what it mustn't.
fn first_wrong_in(
    rt: &impl System,
    entry: &Kept,
    script: &str,
    whole: &[u8],
    begin: usize,
    size: usize,
) -> Option<usize> {
    for byte in 0..size {
        let place = begin.saturating_add(byte);
        if is_tried(entry, byte, size) && !is_told(rt, entry, script, whole, byte, place) {
            return Some(place);
        }
    }
    None
}

/// Which bytes of an entry are changed: all that stand before a text in it, and some behind these; few where nothing is
/// composed of it. An entry of more than 200 bytes holds a letter.
fn is_tried(entry: &Kept, byte: usize, size: usize) -> bool {
    if !entry.is_read {
        return byte % 8 == 0;
    }
    byte < 24 || byte % 4 == 0 && size <= 200 || byte % 64 == 0
}

/// Whether the change of a byte of an entry, which stands at a place of the journal, comes to what it must.
fn is_told(
    rt: &impl System,
    entry: &Kept,
    script: &str,
    whole: &[u8],
    byte: usize,
    place: usize,
) -> bool {
    let alloc = rt.alloc();
    let mut depot = FalseDepot::new(depot_failing(alloc, &[]), 0, place as u64);
    let ran = played(rt, &mut depot, alfa(), "run", script);
    if ran.status != Status::Done {
        return false;
    }
    if !entry.is_read {
        return ran.text.as_slice() == whole;
    }
    let lines = lines_of(alloc, &ran.text);
    let outcome = outcome_of(entry, &lines, &lines_of(alloc, whole));
    if outcome == Outcome::ByATurn && entry.sealed < usize::MAX {
        return is_undecided(alloc, &mut depot, &lines);
    }
    is_enough(entry, byte, outcome)
}

/// Nothing is decided: no line tells it, and the journal has a start, an accepted message and a taken one.
fn is_undecided(alloc: Global, depot: &mut FalseDepot, lines: &[&str]) -> bool {
    if lines.iter().any(|line| line.contains(" decided ")) {
        return false;
    }
    match journal_of(alloc, depot) {
        Some(journal) => entries_in(&journal) == Some(3),
        None => false,
    }
}

/// What became of a change.
#[derive(Clone, Copy, PartialEq, Eq)]
enum Outcome {
    /// A line is another one.
    Wrong,
    /// No line is another one, but for items.
    Nothing,
    ByALook,
    ByATurn,
}

/// A changed tag is found, and in a sealed message each change is found by a turn.
fn is_enough(entry: &Kept, byte: usize, outcome: Outcome) -> bool {
    match outcome {
        Outcome::Wrong => false,
        Outcome::ByATurn => true,
        Outcome::ByALook => byte < entry.sealed,
        Outcome::Nothing => byte > 0 && byte < entry.sealed,
    }
}

/// The lines of a text.
fn lines_of(alloc: Global, text: &[u8]) -> Vec<&str> {
    let text = std::str::from_utf8(text).unwrap_or("");
    text.split('\n').collect(alloc).unwrap_or(Vec::new(alloc))
}

/// What became of a change of an entry in a run that wrote these lines, where the whole run has those.
fn outcome_of(entry: &Kept, lines: &[&str], whole: &[&str]) -> Outcome {
    for (place, line) in lines.iter().enumerate() {
        let outcome = if *line == entry.turn {
            Outcome::ByATurn
        } else if *line == entry.look {
            Outcome::ByALook
        } else {
            Outcome::Nothing
        };
        if outcome != Outcome::Nothing {
            return if is_down(lines, place) {
                outcome
            } else {
                Outcome::Wrong
            };
        }
        if !is_like(line, whole.get(place)) {
            return Outcome::Wrong;
        }
    }
    if lines.len() == whole.len() {
        Outcome::Nothing
    } else {
        Outcome::Wrong
    }
}

/// Whether a line is the one that was wanted; or an item was, and it is another one.
fn is_like(line: &str, wanted: Option<&&str>) -> bool {
    match wanted {
        Some(wanted) => line == *wanted || is_item(wanted) && is_item(line),
        None => false,
    }
}

/// Whether a line shows an item: it is one long word.
fn is_item(line: &str) -> bool {
    line.len() > 100 && !line.contains(' ')
}

/// Whether all lines behind a place are those of a provider that is down.
fn is_down(lines: &[&str], place: usize) -> bool {
    for line in lines.iter().skip(place.saturating_add(1)) {
        if !matches!(*line, "alfa down" | "round" | "injected" | "down" | "") {
            return false;
        }
    }
    true
}
