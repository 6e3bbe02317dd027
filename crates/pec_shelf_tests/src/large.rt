//! Many open pairs: clock calls in which nothing is due pass them by, and the one in which all are warned finds each.
//! The place of each entry is kept.

use crate::lines::Log;
use crate::playing::Desk;
use crate::steps::address_of;
use pec_records::Entry;
use pec_types::{Due, Mark, Moment, Text8};
use std::alloc::Global;

/// How many messages are open.
const OPEN: usize = 200;

/// How many recipients each of them has, and how many stand on one line of its head.
const RECIPIENTS: usize = 1_000;

const ON_A_LINE: usize = 40;

/// How many clock calls find nothing due.
const CALLS: usize = 1_000_000;

const ACCEPTED: u64 = 1_704_186_000;

const QUIET: u64 = 1_704_186_001;

const WARNED: u64 = 1_704_229_200;

#[test]
fn clock_calls_pass_many_open_pairs_by(rt: HostRuntime) {
    assert!(rt; passes_by(rt.alloc()));
}

fn passes_by(alloc: Global) -> bool {
    match Desk::new(alloc, 0) {
        Some(mut desk) => passes_by_at(alloc, &mut desk),
        None => false,
    }
}

fn passes_by_at(alloc: Global, desk: &mut Desk) -> bool {
    starts(alloc, desk)
        && accepts_all(alloc, desk)
        && ticks_often(desk)
        && warns_all(desk)
        && keeps_places(desk)
}

fn starts(alloc: Global, desk: &mut Desk) -> bool {
    let mut log = Log::new(alloc);
    desk.play_line(&mut log, "start 0 0 two");
    log.is(b"")
}

/// Takes the messages in: none has marks.
fn accepts_all(alloc: Global, desk: &mut Desk) -> bool {
    let message = message_of(alloc);
    for _ in 0..OPEN {
        if !has_no_marks(desk, accepted(alloc, &message)) {
            return false;
        }
    }
    true
}

fn accepted(alloc: Global, message: &[u8]) -> Option<Entry> {
    let moment = Moment::new(ACCEPTED)?;
    match (
        address_of(alloc, "alice@alfa.example"),
        Vec::from_slice(alloc, message),
    ) {
        (Some(sender), Ok(message)) => Some(Entry::Accepted {
            moment,
            sender,
            message: Text8::of(message),
        }),
        _ => None,
    }
}

/// A message with many recipients in one field. Where memory is wanting some lack.
fn message_of(alloc: Global) -> Vec<u8> {
    let mut message = Vec::new(alloc);
    put(&mut message, b"From: alice@alfa.example\r\nTo: ");
    for number in 0..RECIPIENTS {
        put_recipient(alloc, &mut message, number);
    }
    put(&mut message, b"\r\n\r\n");
    message
}

fn put_recipient(alloc: Global, message: &mut Vec<u8>, number: usize) {
    put(message, before(number));
    put(message, b"r");
    if let Ok(digits) = (number as u64).to_string(alloc) {
        put(message, digits.as_bytes());
    }
    put(message, b"@alfa.example");
}

fn put(message: &mut Vec<u8>, bytes: &[u8]) {
    let _ = message.extend_from_slice(bytes);
}

/// What stands before a recipient: a new line begins with each fortieth.
fn before(number: usize) -> &'static [u8] {
    if number == 0 {
        return b"";
    }
    if number % ON_A_LINE == 0 {
        return b",\r\n ";
    }
    b", "
}

/// Clock calls in which nothing is due.
fn ticks_often(desk: &mut Desk) -> bool {
    for _ in 0..CALLS {
        if !has_no_marks(desk, ticked(QUIET)) {
            return false;
        }
    }
    true
}

/// The clock call in which each pair is warned.
fn warns_all(desk: &mut Desk) -> bool {
    match marks_of(desk, ticked(WARNED)) {
        Some(marks) => marks.len() == OPEN * RECIPIENTS && are_warnings(&marks),
        None => false,
    }
}

fn are_warnings(marks: &[Mark]) -> bool {
    for mark in marks {
        if mark.due != Due::Warning {
            return false;
        }
    }
    true
}

fn ticked(seconds: u64) -> Option<Entry> {
    let moment = Moment::new(seconds)?;
    Some(Entry::Ticked { moment })
}

/// Each entry has the place with which it was taken in, from the first to the last.
fn keeps_places(desk: &Desk) -> bool {
    let last = (OPEN + CALLS) as u64 + 1;
    for number in [0, 1, OPEN as u64, last] {
        if !desk.has_place(number) {
            return false;
        }
    }
    desk.has_no_place(last + 1)
}

/// Whether there is an entry that is a step and has no marks.
fn has_no_marks(desk: &mut Desk, entry: Option<Entry>) -> bool {
    match marks_of(desk, entry) {
        Some(marks) => marks.is_empty(),
        None => false,
    }
}

/// The marks of an entry; none where there is no such entry, or it is no step.
fn marks_of(desk: &mut Desk, entry: Option<Entry>) -> Option<Vec<Mark>> {
    match desk.taken_in(entry?) {
        Ok(marks) => marks,
        Err(_) => None,
    }
}
