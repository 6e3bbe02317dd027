//! Words, directories, ends of lines and limits of a run, over memory.

use crate::running::{Given, System, copied, input_of, put, ran_afresh};
use pec_top::Status;
use pec_trial::alfa;
use std::alloc::Global;

const FIRST: &str =
    "submit alfa 1704186000 alice@alfa.example anna@alfa.example {M1}\nbook alice@alfa.example\n";

/// What is written for the first script.
pub(crate) const FIRST_OUTPUT: &[u8] = b"accepted pec.0000000@alfa.example\n\
pec.0000000@alfa.example anna@alfa.example primary 1704186000 - - - open\nbook 1\n";

/// The input of the first script, behind the directory of alfa.
pub(crate) fn first_input(alloc: Global) -> Vec<u8> {
    input_of(alloc, alfa(), FIRST)
}

/// Whether a run over empty disks on these words and this input, in pieces of so many bytes, writes this and ends so.
fn comes(
    rt: &impl System,
    words: &[&str],
    input: &[u8],
    piece: usize,
    output: &[u8],
    status: Status,
) -> bool {
    let given = Given {
        piece,
        ..Given::of(words, input)
    };
    ran_afresh(rt, &given).is(output, status)
}

/// Words that are no form of the program.
static WRONG_WORDS: [&[&str]; 1] = [&["run", "x"]];

/// The tables, by functions without a clause: the proofs of the tests are spared their texts.
fn wrong_words() -> &'static [&'static [&'static str]] {
    &WRONG_WORDS
}

fn inputs() -> &'static [Begun] {
    &BEGUN
}

fn long_inputs() -> &'static [Long] {
    &LONG
}

/// Whatever stands in the input, and whether it can be read or not.
#[test]
fn other_words_are_answered_with_the_usage(rt: HostRuntime) {
    assert!(rt; are_usages(&rt));
}

fn are_usages(rt: &impl System) -> bool {
    let mut right = true;
    for words in wrong_words() {
        right = is_usage(rt, words) && right;
    }
    right
}

fn is_usage(rt: &impl System, words: &[&str]) -> bool {
    let input = first_input(rt.alloc());
    let given = Given {
        piece: 7,
        reads: &[0],
        ..Given::of(words, &input)
    };
    ran_afresh(rt, &given).is(b"usage\n", Status::Usage)
}

/// Words, an input, and what is written for them.
#[derive(Clone, Copy)]
struct Begun {
    words: &'static [&'static str],
    input: &'static [u8],
    output: &'static [u8],
    status: Status,
}

static BEGUN: [Begun; 1] = [Begun {
    words: &["run"],
    input: b"",
    output: b"refused no-script\n",
    status: Status::Refused,
}];

#[test]
fn words_and_directories_come_first(rt: HostRuntime) {
    assert!(rt; are_begun(&rt));
}

fn are_begun(rt: &impl System) -> bool {
    let mut right = true;
    for begun in inputs() {
        right = comes(rt, begun.words, begun.input, 7, begun.output, begun.status) && right;
    }
    right
}

/// So many times a byte between two texts, and what is written for that.
#[derive(Clone, Copy)]
struct Long {
    front: &'static str,
    byte: u8,
    count: usize,
    back: &'static [u8],
    output: &'static [u8],
    status: Status,
}

static LONG: [Long; 6] = [
    Long {
        front: "#",
        byte: b'x',
        count: 1_048_574,
        back: b"\n%%\n",
        output: b"refused directory no-provider\n",
        status: Status::Refused,
    },
    Long {
        front: "#",
        byte: b'x',
        count: 1_048_576,
        back: b"",
        output: b"too-long directory\n",
        status: Status::InputTooLong,
    },
    Long {
        front: "%%",
        byte: b'#',
        count: 67_108_864,
        back: b"\r\nbook anna@alfa.example\n",
        output: b"book 0\n",
        status: Status::Done,
    },
    Long {
        front: "%%",
        byte: b'#',
        count: 67_108_865,
        back: b"\nbook anna@alfa.example\n",
        output: b"too-long line 1\n",
        status: Status::InputTooLong,
    },
    Long {
        front: "%%",
        byte: b'\n',
        count: 999_999,
        back: b"book anna@alfa.example\n",
        output: b"book 0\n",
        status: Status::Done,
    },
    Long {
        front: "%%",
        byte: b'\n',
        count: 999_999,
        back: b"book anna@alfa.example\n\n",
        output: b"book 0\ntoo-long script\n",
        status: Status::InputTooLong,
    },
];

/// Whether an input so long comes as it says: behind `%%` stand the directory of alfa and the mark.
fn is_limited(rt: &impl System, long: &Long) -> bool {
    let alloc = rt.alloc();
    let mut input = front_of(alloc, long.front);
    let middle = vec![in alloc; long.byte; long.count].unwrap_or(Vec::new(alloc));
    put(&mut input, &middle);
    put(&mut input, long.back);
    comes(rt, &["run"], &input, 1_000_000, long.output, long.status)
}

fn front_of(alloc: Global, front: &str) -> Vec<u8> {
    if front == "%%" {
        input_of(alloc, alfa(), "")
    } else {
        copied(alloc, front.as_bytes())
    }
}

#[test]
fn the_limits_of_an_input_are_kept(rt: HostRuntime) {
    assert!(rt; are_limited(&rt));
}

fn are_limited(rt: &impl System) -> bool {
    let mut right = true;
    for long in long_inputs() {
        right = is_limited(rt, long) && right;
    }
    right
}
