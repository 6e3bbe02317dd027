//! Cases: runs of the program, one after another over the disks of one depot, and what each has to write. Where memory
//! is wanting a text lacks a piece, and what comes isn't what has to.

use crate::directories::{Directory, message};
use base64::engine::general_purpose::STANDARD;
use pec_outside::{
    Depot, Door, MemDepot, MemDoor, MemSink, MemSource, MemTicks, Sink, Source, Ticks,
};
use pec_screen::{Screen, Screens};
use pec_top::{Status, run_pec};
use pec_types::Moment;
use std::alloc::Global;
use std::thread::Threads;

/// What a test is handed of the system: threads and memory.
pub(crate) trait System: Threads + Sync + AllocGlobal {}

impl<X: Threads + Sync + AllocGlobal> System for X {}

/// One run: its form, its script, what it has to write, and its status. In a script `{..}` holds a message or its name,
/// and its base64 is written; in an output `I0` to `I2` are the first messages of alfa, `J0` is beta's, `K0` gamma's.
#[derive(Clone, Copy)]
pub(crate) struct Run {
    pub(crate) form: &'static str,
    pub(crate) script: &'static str,
    pub(crate) output: &'static str,
    pub(crate) status: Status,
}

/// Runs in a folder of their own, where the named calls of disks fail: each by its provider's number and its own.
#[derive(Clone, Copy)]
pub(crate) struct Case {
    pub(crate) why: &'static str,
    pub(crate) directory: Directory,
    pub(crate) failing: &'static [(u32, u64)],
    pub(crate) runs: &'static [Run],
}

/// What the first case is about that doesn't come as it says.
pub(crate) fn first_wrong(rt: &impl System, cases: &[Case]) -> Option<&'static str> {
    for case in cases {
        if !comes(rt, case) {
            return Some(case.why);
        }
    }
    None
}

fn comes(rt: &impl System, case: &Case) -> bool {
    let directory = case.directory.text(rt.alloc());
    let mut depot = depot_failing(rt.alloc(), case.failing);
    let mut right = true;
    for run in case.runs {
        right = runs(rt, &mut depot, directory.as_str(), run) && right;
    }
    right
}

/// Whether a run writes what it has to, and ends with its status.
fn runs(rt: &impl System, depot: &mut MemDepot, directory: &str, run: &Run) -> bool {
    let ran = played(rt, depot, directory, run.form, run.script);
    ran.writes(rt.alloc(), run.output, run.status)
}

/// What a run wrote, and its status.
pub(crate) struct Ran {
    pub(crate) text: Vec<u8>,
    pub(crate) status: Status,
}

impl Drop for Ran {
    fn drop(self) {
        let Ran { text: _, status: _ } = self;
    }
}

impl Ran {
    /// Whether it wrote this and ended so.
    pub(crate) fn is(&self, text: &[u8], status: Status) -> bool {
        self.status == status && self.text.as_slice() == text
    }

    /// Whether it ended so, and what it wrote ends in this.
    pub(crate) fn ends(&self, text: &[u8], status: Status) -> bool {
        self.status == status && self.text.ends_with(text)
    }

    /// Whether it ended so, and wrote a front of this.
    pub(crate) fn is_front_of(&self, text: &[u8], status: Status) -> bool {
        self.status == status && text.starts_with(&self.text)
    }

    /// Whether it wrote this output, in which messages have their short names, and ended so.
    pub(crate) fn writes(&self, alloc: Global, output: &str, status: Status) -> bool {
        self.is(written_out(alloc, output).as_bytes(), status)
    }
}

/// What a run is given beside its disks and its door: its words, its input, which comes in pieces of so many bytes, and
/// the numbers of the reads, writes and looks at the clock that fail.
#[derive(Clone, Copy)]
pub(crate) struct Given<'a> {
    pub(crate) words: &'a [&'a str],
    pub(crate) input: &'a [u8],
    pub(crate) piece: usize,
    pub(crate) reads: &'a [u64],
    pub(crate) writes: &'a [u64],
    pub(crate) clock: &'a [u64],
}

impl<'a> Given<'a> {
    /// Words and an input, where nothing fails.
    pub(crate) fn of(words: &'a [&'a str], input: &'a [u8]) -> Given<'a> {
        Given {
            words,
            input,
            piece: 1000,
            reads: &[],
            writes: &[],
            clock: &[],
        }
    }
}

/// Runs the program in this form, over a depot, on a script behind a directory.
pub(crate) fn played<P: Depot>(
    rt: &impl System,
    depot: &mut P,
    directory: &str,
    form: &str,
    script: &str,
) -> Ran {
    let input = input_of(rt.alloc(), directory, script);
    ran_over(rt, depot, &Given::of(&[form], &input))
}

/// Runs the program in the form `run`, over empty disks, on a script behind a directory.
pub(crate) fn played_afresh(rt: &impl System, directory: &str, script: &str) -> Ran {
    let mut depot = depot_failing(rt.alloc(), &[]);
    played(rt, &mut depot, directory, "run", script)
}

/// Runs the program over a depot, without screens and connections.
pub(crate) fn ran_over<P: Depot>(rt: &impl System, depot: &mut P, given: &Given<'_>) -> Ran {
    ran_under(rt, depot, given, Vec::new(rt.alloc()))
}

/// The same over empty disks.
pub(crate) fn ran_afresh(rt: &impl System, given: &Given<'_>) -> Ran {
    let mut depot = depot_failing(rt.alloc(), &[]);
    ran_over(rt, &mut depot, given)
}

/// Runs the program over a depot, with screens, a list for each provider.
pub(crate) fn ran_under<P: Depot>(
    rt: &impl System,
    depot: &mut P,
    given: &Given<'_>,
    screens: Vec<Screens>,
) -> Ran {
    let alloc = rt.alloc();
    let mut door = MemDoor::new(alloc, Vec::new(alloc), Vec::new(alloc), Vec::new(alloc));
    ran_at(rt, depot, &mut door, given, screens)
}

/// The same with spares, of which the last is used first.
pub(crate) fn ran_with_spares<P: Depot>(
    rt: &impl System,
    depot: &mut P,
    given: &Given<'_>,
    screens: Vec<Screens>,
    spares: Vec<Box<dyn Screen>>,
) -> Ran {
    let alloc = rt.alloc();
    let mut door = MemDoor::new(alloc, Vec::new(alloc), Vec::new(alloc), Vec::new(alloc));
    ran_under_all(rt, depot, &mut door, given, screens, spares)
}

/// Runs the program over a depot and at a door, without spares.
pub(crate) fn ran_at<P: Depot>(
    rt: &impl System,
    depot: &mut P,
    door: &mut MemDoor,
    given: &Given<'_>,
    screens: Vec<Screens>,
) -> Ran {
    ran_under_all(rt, depot, door, given, screens, Vec::new(rt.alloc()))
}

fn ran_under_all<P: Depot>(
    rt: &impl System,
    depot: &mut P,
    door: &mut MemDoor,
    given: &Given<'_>,
    screens: Vec<Screens>,
    spares: Vec<Box<dyn Screen>>,
) -> Ran {
    match clock(rt.alloc(), given.clock) {
        Some(ticks) => ran_by(rt, depot, door, ticks, given, screens, spares),
        None => Ran {
            text: Vec::new(rt.alloc()),
            status: Status::NoMemory,
        },
    }
}

fn ran_by<P: Depot>(
    rt: &impl System,
    depot: &mut P,
    door: &mut MemDoor,
    mut ticks: MemTicks,
    given: &Given<'_>,
    screens: Vec<Screens>,
    spares: Vec<Box<dyn Screen>>,
) -> Ran {
    let alloc = rt.alloc();
    let words = strings(alloc, given.words);
    let mut source = source_of(alloc, given);
    let mut sink = MemSink::new(alloc, numbers(alloc, given.writes));
    let status = status_of(
        rt,
        &words,
        &mut source,
        &mut sink,
        depot,
        &mut ticks,
        door,
        screens,
        spares,
    );
    Ran {
        text: copied(alloc, sink.bytes()),
        status,
    }
}

/// The one call of the program, by a function without a clause: the proofs of others are spared its own.
fn status_of<S: Source, W: Sink, P: Depot, T: Ticks, R: Door>(
    rt: &impl System,
    words: &[String],
    source: &mut S,
    sink: &mut W,
    depot: &mut P,
    ticks: &mut T,
    door: &mut R,
    screens: Vec<Screens>,
    spares: Vec<Box<dyn Screen>>,
) -> Status {
    run_pec(
        rt,
        rt.alloc(),
        words,
        source,
        sink,
        depot,
        ticks,
        door,
        screens,
        spares,
    )
}

/// A depot of three empty disks, where these calls fail, each by its provider's number and its own.
pub(crate) fn depot_failing(alloc: Global, failing: &[(u32, u64)]) -> MemDepot {
    let mut disks = Vec::new(alloc);
    for provider in 0..3u32 {
        let _ = disks.push(calls_of(alloc, failing, provider));
    }
    MemDepot::new(alloc, disks, Vec::new(alloc))
}

/// The failing calls of one provider's disk.
fn calls_of(alloc: Global, failing: &[(u32, u64)], provider: u32) -> Vec<u64> {
    let mut calls = Vec::new(alloc);
    for (whose, call) in failing {
        if *whose == provider {
            let _ = calls.push(*call);
        }
    }
    calls
}

/// A clock that begins at 1704186000 and goes on by a second from one look to the next, where these calls fail.
fn clock(alloc: Global, failing: &[u64]) -> Option<MemTicks> {
    let mut moments = Vec::new(alloc);
    for second in 0..10 {
        add_moment(&mut moments, 1_704_186_000 + second);
    }
    if moments.is_empty() {
        return None;
    }
    Some(MemTicks::new(alloc, moments, numbers(alloc, failing)))
}

fn add_moment(moments: &mut Vec<Moment>, seconds: u64) {
    if let Some(moment) = Moment::new(seconds) {
        let _ = moments.push(moment);
    }
}

fn source_of(alloc: Global, given: &Given<'_>) -> MemSource {
    MemSource::new(
        alloc,
        copied(alloc, given.input),
        given.piece.max(1),
        numbers(alloc, given.reads),
    )
}

fn strings(alloc: Global, words: &[&str]) -> Vec<String> {
    let mut strings = Vec::new(alloc);
    for word in words {
        let _ = strings.push(string(alloc, word));
    }
    strings
}

fn string(alloc: Global, text: &str) -> String {
    let mut string = String::new(alloc);
    let _ = string.push_str(text);
    string
}

/// Texts, one behind another.
pub(crate) fn joined(alloc: Global, texts: &[&str]) -> String {
    let mut whole = String::new(alloc);
    for text in texts {
        let _ = whole.push_str(text);
    }
    whole
}

pub(crate) fn copied(alloc: Global, bytes: &[u8]) -> Vec<u8> {
    let mut copy = Vec::new(alloc);
    put(&mut copy, bytes);
    copy
}

pub(crate) fn numbers(alloc: Global, given: &[u64]) -> Vec<u64> {
    let mut numbers = Vec::new(alloc);
    let _ = numbers.extend_from_slice(given);
    numbers
}

/// Adds bytes.
pub(crate) fn put(bytes: &mut Vec<u8>, more: &[u8]) {
    let _ = bytes.extend_from_slice(more);
}

/// The input of a script behind a directory.
pub(crate) fn input_of(alloc: Global, directory: &str, script: &str) -> Vec<u8> {
    let mut input = copied(alloc, directory.as_bytes());
    put(&mut input, b"%%\n");
    for part in script.split('{') {
        add_part(alloc, &mut input, part);
    }
    input
}

/// Adds a part of a script: what stands before `}` is a message or its name, and its base64 is written.
fn add_part(alloc: Global, script: &mut Vec<u8>, part: &str) {
    match part.split_once('}') {
        Some((inside, after)) => {
            add_message(alloc, script, inside);
            put(script, after.as_bytes());
        }
        None => put(script, part.as_bytes()),
    }
}

fn add_message(alloc: Global, script: &mut Vec<u8>, inside: &str) {
    let lines = lines_of(alloc, message(inside));
    let encoded = in_base64(alloc, lines.as_bytes());
    put(script, encoded.as_bytes());
}

pub(crate) fn in_base64(alloc: Global, bytes: &[u8]) -> String {
    STANDARD.encode(alloc, bytes).unwrap_or(String::new(alloc))
}

/// The bytes of a text whose lines end at `|`.
pub(crate) fn bytes_of(alloc: Global, text: &str) -> Vec<u8> {
    copied(alloc, lines_of(alloc, text).as_bytes())
}

/// A text whose lines end at `|`, with its ends of lines.
pub(crate) fn lines_of(alloc: Global, text: &str) -> String {
    replaced(alloc, text, "|", "\r\n")
}

/// A text with a word made another wherever it stands.
pub(crate) fn replaced(alloc: Global, text: &str, word: &str, instead: &str) -> String {
    text.replace(alloc, word, instead)
        .unwrap_or(String::new(alloc))
}

/// Messages by their short names in outputs.
static NAMES: [(&str, &str); 5] = [
    ("I0", "pec.0000000@alfa.example"),
    ("I1", "pec.0000001@alfa.example"),
    ("I2", "pec.0000002@alfa.example"),
    ("J0", "pec.0000000@beta.example"),
    ("K0", "pec.0000000@gamma.example"),
];

/// The table, by a function without a clause: the proofs of others are spared its texts.
fn names() -> &'static [(&'static str, &'static str)] {
    &NAMES
}

/// An output with the names of messages written out.
pub(crate) fn written_out(alloc: Global, output: &str) -> String {
    with_words(alloc, output, names())
}

/// A text with the first of each pair made the second, in the order of the pairs.
pub(crate) fn with_words(alloc: Global, text: &str, words: &[(&str, &str)]) -> String {
    let mut written = string(alloc, text);
    for (word, instead) in words {
        written = replaced(alloc, written.as_str(), word, instead);
    }
    written
}
