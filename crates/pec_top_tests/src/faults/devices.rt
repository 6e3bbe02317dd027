//! A message and a book of its sender, whose input comes byte by byte, is cut everywhere, and fails in each read; and
//! whose output fails in each write.

use crate::input::{FIRST_OUTPUT, first_input};
use crate::running::{Given, Ran, System, ran_afresh};
use pec_top::Status;
use pec_trial::alfa;

/// How many writes the run makes.
const WRITES: u64 = 2;

/// A run over empty disks whose input comes byte by byte.
fn by_bytes(rt: &impl System, input: &[u8], reads: &[u64], writes: &[u64]) -> Ran {
    let given = Given {
        piece: 1,
        reads,
        writes,
        ..Given::of(&["run"], input)
    };
    ran_afresh(rt, &given)
}

#[test]
fn each_read_fails(rt: HostRuntime) {
    assert!(rt; each_read_stops(&rt));
}

/// One read for each byte and one for the end, and no more.
fn each_read_stops(rt: &impl System) -> bool {
    let input = first_input(rt.alloc());
    let reads = (input.len() as u64).saturating_add(1);
    for read in 0..reads {
        if !by_bytes(rt, &input, &[read], &[]).is_front_of(FIRST_OUTPUT, Status::ReadFault) {
            return false;
        }
    }
    by_bytes(rt, &input, &[reads], &[]).is(FIRST_OUTPUT, Status::Done)
}

#[test]
fn each_write_fails(rt: HostRuntime) {
    assert!(rt; each_write_stops(&rt));
}

fn each_write_stops(rt: &impl System) -> bool {
    let input = first_input(rt.alloc());
    for write in 0..WRITES {
        if !by_bytes(rt, &input, &[], &[write]).is_front_of(FIRST_OUTPUT, Status::WriteFault) {
            return false;
        }
    }
    by_bytes(rt, &input, &[], &[WRITES]).is(FIRST_OUTPUT, Status::Done)
}

/// A line for each cut behind the mark: what is written up to so many bytes of it, and the status.
const NOTHING: (&[u8], Status) = (b"", Status::Done);

const NO_SCRIPT: (&[u8], Status) = (b"refused no-script\n", Status::Refused);

const NO_WORD: (&[u8], Status) = (b"refused line 1 unknown-word\n", Status::Refused);

const FEW_WORDS: (&[u8], Status) = (b"refused line 1 arity\n", Status::Refused);

const NO_BASE64: (&[u8], Status) = (b"refused line 1 bad-base64 5\n", Status::Refused);

const NO_HEAD: (&[u8], Status) = (
    b"not-accepted pec.0000000@alfa.example head\n",
    Status::Done,
);

const ACCEPTED: (&[u8], Status) = (b"accepted pec.0000000@alfa.example\n", Status::Done);

const NO_SECOND_WORD: (&[u8], Status) = (
    b"accepted pec.0000000@alfa.example\nrefused line 2 unknown-word\n",
    Status::Refused,
);

const NO_ARGUMENT: (&[u8], Status) = (
    b"accepted pec.0000000@alfa.example\nrefused line 2 arity\n",
    Status::Refused,
);

const NO_ADDRESS: (&[u8], Status) = (
    b"accepted pec.0000000@alfa.example\nrefused line 2 bad-address 1\n",
    Status::Refused,
);

const NO_ACCOUNT: (&[u8], Status) = (
    b"accepted pec.0000000@alfa.example\nno-account\n",
    Status::Done,
);

const ALL: (&[u8], Status) = (FIRST_OUTPUT, Status::Done);

#[test]
fn each_cut_is_judged(rt: HostRuntime) {
    assert!(rt; each_cut_comes(&rt));
}

fn each_cut_comes(rt: &impl System) -> bool {
    let input = first_input(rt.alloc());
    for cut in 0..input.len().saturating_add(1) {
        let (text, status) = wanted(alfa().len(), cut);
        if !by_bytes(rt, input.get(..cut).unwrap_or_default(), &[], &[]).is(text, status) {
            return false;
        }
    }
    true
}

/// What comes of the first bytes, so many, where the directory has this length. The mark `%%` is behind it.
fn wanted(directory: usize, cut: usize) -> (&'static [u8], Status) {
    match cut.checked_sub(directory) {
        None | Some(0..2) => NO_SCRIPT,
        Some(2) => NOTHING,
        Some(behind) => wanted_of_lines(behind.saturating_sub(3)),
    }
}

/// The line of a message has 160 bytes, the last 100 of which are base64.
fn wanted_of_lines(bytes: usize) -> (&'static [u8], Status) {
    match bytes.checked_sub(161) {
        None => wanted_of_message(bytes),
        Some(bytes) => wanted_of_book(bytes),
    }
}

fn wanted_of_message(bytes: usize) -> (&'static [u8], Status) {
    match (bytes, bytes % 4) {
        (0, _) => NOTHING,
        (1..6, _) => NO_WORD,
        (6..60, _) => FEW_WORDS,
        (_, 1..4) => NO_BASE64,
        // the head of the message, and the empty line
        (60..148, _) => NO_HEAD,
        _ => ACCEPTED,
    }
}

/// Of `book alice@alfa.example`, a cut within the domain leaves another one, but not behind its dot.
fn wanted_of_book(bytes: usize) -> (&'static [u8], Status) {
    match bytes {
        0 => ACCEPTED,
        1..4 => NO_SECOND_WORD,
        4 => NO_ARGUMENT,
        5..12 | 16 => NO_ADDRESS,
        12..23 => NO_ACCOUNT,
        _ => ALL,
    }
}
