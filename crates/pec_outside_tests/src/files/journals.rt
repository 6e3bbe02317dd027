//! Journals: the files that they open over, the bytes by which they grow, and calls of the disk that fail.
use super::dealt::Dealt;
use crate::rows::holds_at;
use crate::texts::{are_these, calls, joined, put, put_number, says};
use pec_journal::{
    AppendFault, CreateFault, ENTRY_LIMIT, JOURNAL_LIMIT, Journal, OpenFault, ReadFault,
};
use pec_outside::{Depot, Disk, MemDepot, MemDisk};
use pec_types::Place;
use std::alloc::Global;

type Answer = Result<Place, AppendFault>;

// A journal of `ab`, an entry of no bytes, and `cde`.
const FILE: [u8; 29] = *b"PECJRN1\n\x01\0\0\0\x02ab\x01\0\0\0\0\x01\0\0\0\x03cde\0";

// Bytes, and what a journal that is opened over them tells.
static FILES: [(&[u8], &str); 16] = [
    (b"PECJRN1\n\0", ""), // fresh
    (b"PECJRN1\n\x01\0\0\0\x02ab\0", "ab;"), // one entry
    (b"PECJRN1\n\0\0\0\0\x02ab\0", ""), // a closed gate in place of the first
    (b"PECJRN1\n\x02\0\0\0\x02ab\0", ""), // each byte but 1 is a closed gate
    (b"PECJRN1\n\xff", ""),
    (b"PECJRN1\n\x01\0\0\0\x02ab\0\x01\0\0\0\0", "ab;"), // what follows a closed gate is free
    (b"PECJRN1\n\x01\0\0\0\0\x01\0\0\0\0\0", ";;"), // two entries of no bytes
    (b"", "NotAJournal(0)"),
    (b"PECJRN1", "NotAJournal(0)"), // no line feed
    (b"PECJRN2\n\0", "NotAJournal(0)"),
    (b"PECJRN1\r\0", "NotAJournal(0)"),
    (b"PECJRN1\n", "NotAJournal(8)"), // no gate
    (b"PECJRN1\n\x01\0\0\x02", "NotAJournal(9)"), // no whole length
    (b"PECJRN1\n\x01\0\0\0\x02a", "NotAJournal(9)"), // an entry past the end
    (b"PECJRN1\n\x01\xff\xff\xff\xffab\0", "NotAJournal(9)"),
    (b"PECJRN1\n\x01\0\0\0\x02ab", "NotAJournal(15)"), // no gate behind the entry
];

#[test]
fn a_journal_opens_over_its_file_alone(rt: HostRuntime) {
    for (bytes, wanted) in &FILES {
        assert!(rt; tells(rt.alloc(), bytes, wanted.as_bytes()));
    }
}

/// Whether reopening a disk that holds these bytes tells this.
fn tells(alloc: Global, bytes: &[u8], wanted: &[u8]) -> bool {
    let mut disk = MemDisk::new(alloc, Vec::new(alloc));
    holds_then(&mut disk, bytes) && says(told(alloc, disk), wanted)
}

// For each place, where a file that is cut off there isn't one.
static CUTS: [u64; 29] = [
    0, 0, 0, 0, 0, 0, 0, 0, // within the header
    8, 9, 9, 9, 9, 9, 9, // before the gate of `ab`, within its length and its bytes
    15, 16, 16, 16, 16, // before the gate of the empty entry, within its length
    20, 21, 21, 21, 21, 21, 21, 21, // `cde`
    28, // before the closed gate
];

// For each byte of the file, what its lowest bit makes of it where it is turned.
static FLIPS: [&str; 29] = [
    "NotAJournal(0)",
    "NotAJournal(0)",
    "NotAJournal(0)",
    "NotAJournal(0)",
    "NotAJournal(0)",
    "NotAJournal(0)",
    "NotAJournal(0)",
    "NotAJournal(0)",
    "", // the first gate is closed
    "NotAJournal(9)",
    "NotAJournal(9)",
    "NotAJournal(9)",
    "ab\x01;", // three bytes, up to a closed gate
    "`b;;cde;",
    "ac;;cde;",
    "ab;",
    "NotAJournal(16)",
    "NotAJournal(16)",
    "NotAJournal(16)",
    "ab;\x01;", // one byte in place of none
    "ab;;",
    "NotAJournal(21)",
    "NotAJournal(21)",
    "NotAJournal(21)",
    "ab;;cd;", // two bytes, and `e` is a closed gate
    "ab;;bde;",
    "ab;;cee;",
    "ab;;cdd;",
    "NotAJournal(29)", // the last gate is open
];

#[test]
fn each_cut_and_each_turned_bit_is_told(rt: HostRuntime) {
    for at in 0..29 {
        holds_at(&rt, is_cut_told(rt.alloc(), at), at as u64, "cut");
        holds_at(&rt, is_flip_told(rt.alloc(), at), at as u64, "turned");
    }
}

fn is_cut_told(alloc: Global, at: usize) -> bool {
    match (FILE.get(..at), CUTS.get(at)) {
        (Some(bytes), Some(place)) => tells(alloc, bytes, &no_journal(alloc, *place)),
        _ => false,
    }
}

fn no_journal(alloc: Global, place: u64) -> Vec<u8> {
    let mut text = joined(alloc, &[b"NotAJournal("]);
    put_number(alloc, &mut text, place);
    put(&mut text, b")");
    text
}

fn is_flip_told(alloc: Global, at: usize) -> bool {
    let mut bytes = FILE;
    match (bytes.get_mut(at), FLIPS.get(at)) {
        (Some(byte), Some(wanted)) => {
            *byte ^= 1;
            tells(alloc, &bytes, wanted.as_bytes())
        }
        _ => false,
    }
}

// Calls of the disk: three to make a journal, four for each entry, one to read one.
#[test]
fn a_journal_is_made_and_grows_by_these_bytes(rt: HostRuntime) {
    assert!(rt; is_made_and_grows(rt.alloc()));
}

fn is_made_and_grows(alloc: Global) -> bool {
    match fresh(alloc, &[]) {
        Some(journal) => grows_on(alloc, journal.into_disk()),
        None => false,
    }
}

/// Whether a journal that was made is opened again, and grows by `ab`.
fn grows_on(alloc: Global, disk: MemDisk) -> bool {
    if disk.calls() != 3 {
        return false;
    }
    match opened(alloc, disk) {
        Some(mut journal) => {
            let grows = grows(alloc, &mut journal);
            grows && stays(alloc, journal.into_disk())
        }
        None => false,
    }
}

fn grows<D: Disk>(alloc: Global, journal: &mut Journal<D>) -> bool {
    let place = Place { at: 13, length: 2 };
    journal.end() == 8
        && !journal.spent()
        && answers(alloc, journal, b"ab", Ok(place))
        && journal.end() == 15
        && is_entry(alloc, journal, place, b"ab")
}

/// Whether this is the entry at a place.
pub(super) fn is_entry<D: Disk>(
    alloc: Global,
    journal: &mut Journal<D>,
    place: Place,
    wanted: &[u8],
) -> bool {
    match journal.read(alloc, place) {
        Ok(entry) => says(entry, wanted),
        Err(_) => false,
    }
}

fn stays(alloc: Global, mut disk: MemDisk) -> bool {
    holds_one_entry(&mut disk) && stays_as_it_is(alloc, disk)
}

fn holds_one_entry(disk: &mut MemDisk) -> bool {
    let mut room = [b'-'; 20];
    // four to open it, four to append, one to read
    disk.calls() == 12
        && is_read(disk, &mut room, 16)
        && are_these(&room, b"PECJRN1\n\x01\0\0\0\x02ab\0----")
}

/// Whether a read at the front has so many bytes.
fn is_read(disk: &mut MemDisk, room: &mut [u8], wanted: usize) -> bool {
    match disk.read_at(0, room) {
        Ok(count) => count == wanted,
        Err(_) => false,
    }
}

/// Whether no journal is made over it, and it tells its entry then.
fn stays_as_it_is(alloc: Global, disk: MemDisk) -> bool {
    match Journal::create(disk) {
        Err((CreateFault::NotEmpty, disk)) => says(told(alloc, disk), b"ab;"),
        _ => false,
    }
}

// The entries of `FILE`, and where each stands in it. Three calls of the disk make their journal, and each append takes
// four, so that calls 15, 16 and 17 read them.
static PLACES: [(Place, &[u8]); 3] = [
    (Place { at: 13, length: 2 }, b"ab"),
    (Place { at: 20, length: 0 }, b""),
    (Place { at: 25, length: 3 }, b"cde"),
];

#[test]
fn entries_stand_at_the_places_that_are_told(rt: HostRuntime) {
    assert!(rt; are_told_their_places(rt.alloc()));
}

fn are_told_their_places(alloc: Global) -> bool {
    match three(alloc, &[]) {
        Some(mut journal) => {
            are_read(alloc, &mut journal) && are_told_again(alloc, journal.into_disk())
        }
        None => false,
    }
}

/// The journal of `FILE`, where each append answers its place, on a disk that fails at these calls.
fn three(alloc: Global, failing: &[u64]) -> Option<Journal<MemDisk>> {
    let mut journal = fresh(alloc, failing)?;
    for (place, entry) in &PLACES {
        if !answers(alloc, &mut journal, entry, Ok(*place)) {
            return None;
        }
    }
    Some(journal)
}

fn are_read<D: Disk>(alloc: Global, journal: &mut Journal<D>) -> bool {
    for (place, entry) in &PLACES {
        if !is_entry(alloc, journal, *place, entry) {
            return false;
        }
    }
    true
}

/// Whether reopening tells the places, by seven calls, and the entries are read there.
fn are_told_again(alloc: Global, disk: MemDisk) -> bool {
    match Journal::reopen(alloc, disk) {
        Ok((mut journal, places)) => {
            are_the_places(&places)
                && are_read(alloc, &mut journal)
                && journal.into_disk().calls() == 15 + 3 + 7 + 3
        }
        Err(_) => false,
    }
}

fn are_the_places(places: &[Place]) -> bool {
    match places {
        [first, second, third] => {
            *first == PLACES[0].0 && *second == PLACES[1].0 && *third == PLACES[2].0
        }
        _ => false,
    }
}

#[test]
fn a_read_that_fails_leaves_the_journal_as_it_was(rt: HostRuntime) {
    for call in 15..18 {
        holds_at(&rt, fails_alone(rt.alloc(), call), call, "");
    }
}

/// Whether the entry that this call reads isn't read where it fails, but all others are, and one is appended behind
/// them.
fn fails_alone(alloc: Global, failing: u64) -> bool {
    match three(alloc, &[failing]) {
        Some(mut journal) => {
            are_read_but(alloc, &mut journal, failing) && goes_on(alloc, &mut journal)
        }
        None => false,
    }
}

fn are_read_but<D: Disk>(alloc: Global, journal: &mut Journal<D>, failing: u64) -> bool {
    let mut call = 15u64;
    for (place, entry) in &PLACES {
        let is_read = if call == failing {
            is_unread(alloc, journal, *place)
        } else {
            is_entry(alloc, journal, *place, entry)
        };
        if !is_read {
            return false;
        }
        call = call.saturating_add(1);
    }
    true
}

fn is_unread<D: Disk>(alloc: Global, journal: &mut Journal<D>, place: Place) -> bool {
    journal.read(alloc, place).err() == Some(ReadFault::DiskFault)
}

fn goes_on<D: Disk>(alloc: Global, journal: &mut Journal<D>) -> bool {
    let place = Place { at: 33, length: 1 };
    !journal.spent()
        && answers(alloc, journal, b"f", Ok(place))
        && is_entry(alloc, journal, place, b"f")
        && are_read(alloc, journal)
}

// Of an entry of ten bytes one is dealt.
#[test]
fn what_a_disk_gives_is_what_is_read(rt: HostRuntime) {
    assert!(rt; is_given_one_of_ten(rt.alloc()));
}

fn is_given_one_of_ten(alloc: Global) -> bool {
    let place = Place { at: 13, length: 10 };
    let mut lengths = Vec::new(alloc);
    let _ = lengths.push(10);
    match Journal::reopen(alloc, Dealt::new(lengths)) {
        Ok((mut journal, places)) => {
            places.first() == Some(&place) && is_entry(alloc, &mut journal, place, b"\0")
        }
        Err(_) => false,
    }
}

// The append of `cd` behind `ab` is cut off: its calls of the disk are 7 to 10, and call 11 is the first of the append
// behind it. Pending are then seven bytes or fewer.
#[test]
fn an_entry_is_there_or_not_after_each_crash(rt: HostRuntime) {
    for call in 7..12 {
        holds_at(&rt, is_told_after_each_crash(rt.alloc(), call), call, "");
    }
}

/// Whether it goes so where this call fails, however many pending bytes a crash keeps.
fn is_told_after_each_crash(alloc: Global, call: u64) -> bool {
    for kept in 0..8 {
        if !is_there_or_not(alloc, call, kept) {
            return false;
        }
    }
    true
}

fn is_there_or_not(alloc: Global, call: u64, kept: u64) -> bool {
    match fresh(alloc, &[call]) {
        Some(mut journal) => {
            let fails = fails_at(alloc, &mut journal, call);
            fails && leaves(alloc, journal.into_disk(), kept, left_by(call, kept))
        }
        None => false,
    }
}

fn fails_at<D: Disk>(alloc: Global, journal: &mut Journal<D>, call: u64) -> bool {
    let (answer, next) = answered(call);
    let place = Place { at: 13, length: 2 };
    answers(alloc, journal, b"ab", Ok(place))
        && answers(alloc, journal, b"cd", answer)
        && answers(alloc, journal, b"", next)
        && journal.spent()
}

// The answers of the two appends where this call failed.
fn answered(call: u64) -> (Answer, Answer) {
    let place = Place { at: 20, length: 2 };
    if call == 11 {
        (Ok(place), Err(AppendFault::DiskFault))
    } else {
        (Err(AppendFault::DiskFault), Err(AppendFault::Spent))
    }
}

// The entries after a crash that kept so many pending bytes, where this call failed. At the last sync the open gate
// alone is pending.
fn left_by(call: u64, kept: u64) -> &'static str {
    match (call, kept) {
        (11, _) | (10, 1..) => "ab;cd;",
        _ => "ab;",
    }
}

/// Whether reopening a disk tells this after a crash that keeps so many pending bytes.
fn leaves(alloc: Global, disk: MemDisk, kept: u64, wanted: &str) -> bool {
    let mut depot = MemDepot::new(alloc, Vec::new(alloc), calls(alloc, &[kept]));
    let left = depot.crash(0, disk);
    says(told(alloc, left), wanted.as_bytes())
}

#[test]
fn a_disk_that_fails_gives_no_journal(rt: HostRuntime) {
    for call in 0..4 {
        holds_at(
            &rt,
            is_made(rt.alloc(), call) == (3 <= call),
            call,
            "create",
        );
    }
    // Two calls make the file, then a sync, the size, the header and the two gates are asked for.
    for call in 2..8 {
        holds_at(&rt, reopens(rt.alloc(), call, 7 <= call), call, "reopen");
    }
}

fn is_made(alloc: Global, call: u64) -> bool {
    fresh(alloc, &[call]).is_some()
}

/// Whether the disk holds its bytes, and a journal is opened over them just where one is wanted.
fn reopens(alloc: Global, call: u64, wanted: bool) -> bool {
    let mut disk = MemDisk::new(alloc, calls(alloc, &[call]));
    holds_then(&mut disk, b"PECJRN1\n\x01\0\0\0\x02ab\0") && opened(alloc, disk).is_some() == wanted
}

// 255 entries of 4,294,967,295 bytes and one more bring the end to seven bytes before the limit.
#[test]
fn a_journal_ends_at_its_limit(rt: HostRuntime) {
    assert!(rt; ends_at_its_limit(rt.alloc()));
}

fn ends_at_its_limit(alloc: Global) -> bool {
    match almost_full(alloc) {
        Some(mut journal) => is_filled_up(alloc, &mut journal),
        None => false,
    }
}

fn almost_full(alloc: Global) -> Option<Journal<Dealt>> {
    let mut lengths = Vec::new(alloc);
    let _ = lengths.resize(255, u32::MAX);
    let _ = lengths.push(4_294_966_256);
    opened(alloc, Dealt::new(lengths))
}

fn is_filled_up<D: Disk>(alloc: Global, journal: &mut Journal<D>) -> bool {
    let place = Place {
        at: 1_099_511_627_774,
        length: 2,
    };
    journal.end() == 1_099_511_627_769
        && answers(alloc, journal, b"abc", Err(AppendFault::Full))
        && answers(alloc, journal, b"ab", Ok(place))
        && journal.end() == JOURNAL_LIMIT
        && answers(alloc, journal, b"", Err(AppendFault::Full))
}

#[test]
fn an_entry_has_at_most_64_mebibytes(rt: HostRuntime) {
    assert!(rt; has_a_longest_entry(rt.alloc()));
}

fn has_a_longest_entry(alloc: Global) -> bool {
    match opened(alloc, Dealt::new(Vec::new(alloc))) {
        Some(mut journal) => is_longest(alloc, &mut journal),
        None => false,
    }
}

fn is_longest<D: Disk>(alloc: Global, journal: &mut Journal<D>) -> bool {
    let place = Place {
        at: 13,
        length: 67_108_864,
    };
    answers_long(alloc, journal, ENTRY_LIMIT, Ok(place))
        && answers_long(alloc, journal, ENTRY_LIMIT + 1, Err(AppendFault::TooLong))
        && journal.end() == 67_108_877
}

/// Whether this is what the append of so many bytes answers.
fn answers_long<D: Disk>(
    alloc: Global,
    journal: &mut Journal<D>,
    length: usize,
    wanted: Answer,
) -> bool {
    let mut entry = Vec::new(alloc);
    let _ = entry.resize(length, b'x');
    answers(alloc, journal, &entry, wanted)
}

fn holds_then<D: Disk>(disk: &mut D, bytes: &[u8]) -> bool {
    disk.write_at(0, bytes).is_ok() && disk.sync().is_ok()
}

/// A journal of no entries on a disk that fails at these calls.
fn fresh(alloc: Global, failing: &[u64]) -> Option<Journal<MemDisk>> {
    Journal::create(MemDisk::new(alloc, calls(alloc, failing))).ok()
}

fn opened<D: Disk + Drop>(alloc: Global, disk: D) -> Option<Journal<D>> {
    match Journal::reopen(alloc, disk) {
        Ok((journal, _)) => Some(journal),
        Err(_) => None,
    }
}

/// Whether this is what the append of an entry answers.
fn answers<D: Disk>(alloc: Global, journal: &mut Journal<D>, entry: &[u8], wanted: Answer) -> bool {
    match journal.reserve(alloc, entry.len()) {
        Ok(()) => journal.append(entry) == wanted,
        Err(_) => false,
    }
}

/// What reopening a disk tells: each entry with a semicolon behind it, or the fault.
fn told<D: Disk + Drop>(alloc: Global, disk: D) -> Vec<u8> {
    match Journal::reopen(alloc, disk) {
        Ok((mut journal, places)) => entries_of(alloc, &mut journal, &places),
        Err((fault, _)) => name_of(alloc, fault),
    }
}

fn name_of(alloc: Global, fault: OpenFault) -> Vec<u8> {
    match format!(in alloc; "{fault:?}") {
        Ok(name) => joined(alloc, &[name.as_bytes()]),
        Err(_) => Vec::new(alloc),
    }
}

fn entries_of<D: Disk>(alloc: Global, journal: &mut Journal<D>, places: &[Place]) -> Vec<u8> {
    let mut text = Vec::new(alloc);
    for place in places {
        put_next(alloc, &mut text, journal, *place);
    }
    text
}

/// Puts the entry at a place, or a sign that it isn't read.
fn put_next<D: Disk>(alloc: Global, text: &mut Vec<u8>, journal: &mut Journal<D>, place: Place) {
    match journal.read(alloc, place) {
        Ok(entry) => put(text, &entry),
        Err(_) => put(text, b"unread"),
    }
    put(text, b";");
}
