//! Runs that serve connections. Worked out by hand. In requests and replies lines end at `|`, and each ends at `^`.

use crate::running::{
    Given, Ran, System, bytes_of, depot_failing, lines_of, numbers, played, put, ran_at,
    written_out,
};
use pec_outside::{MemDepot, MemDoor};
use pec_top::Status;
use pec_trial::alfa;
use std::alloc::Global;

const RUN: &str = "submit alfa 1704186000 alice@alfa.example anna@alfa.example {M1}\n\
     book alice@alfa.example\n";

const HAND_IN: &str = "POST /mail/alice@alfa.example/submit HTTP/1.1|x-key: chiave-alice|\
     x-path: anna@alfa.example|content-length: 73||\
     From: alice@alfa.example|To: anna@alfa.example|Subject: Ciao||Salve|^";

const ACCEPTED: &str =
    "HTTP/1.1 201 Created|content-type: text/plain|content-length: 34|connection: close||\
     accepted I0\n^";

fn hand_in() -> &'static str {
    HAND_IN
}

/// What comes in over the connections, what each is answered, and what has to be written.
type Row = (&'static str, &'static str, &'static str);

/// On empty disks: a message; and a message, and the book behind it.
static FRESH: [Row; 2] = [
    (
        HAND_IN,
        ACCEPTED,
        "http 201\nticked\nalfa sent alfa 1\nround\n",
    ),
    (
        "POST /mail/alice@alfa.example/submit HTTP/1.1|x-key: chiave-alice|\
         x-path: anna@alfa.example|content-length: 73||\
         From: alice@alfa.example|To: anna@alfa.example|Subject: Ciao||Salve|^\
         GET /mail/alice@alfa.example/book HTTP/1.1|x-key: chiave-alice||^",
        "HTTP/1.1 201 Created|content-type: text/plain|content-length: 34|connection: close||\
         accepted I0\n^\
         HTTP/1.1 200 OK|content-type: text/plain|content-length: 80|connection: close||\
         I0 anna@alfa.example primary 1704186000 - - - open\nbook 1\n^",
        "http 201\nticked\nalfa sent alfa 1\nround\n\
         http 200\nticked\nalfa took I0\nalfa decided I0 anna@alfa.example delivered\n\
         alfa sent alfa 3\nround\n",
    ),
];

/// On the disks of a run: the key of another account, and none.
static OPENED: [Row; 2] = [
    (
        "GET /mail/alice@alfa.example/book HTTP/1.1|x-key: chiave-anna||^",
        "HTTP/1.1 403 Forbidden|content-type: text/plain|content-length: 10|connection: close||wrong-key\n^",
        "http 403\nticked\nalfa sent alfa 1\nround\n",
    ),
    (
        "GET /mail/alice@alfa.example/book HTTP/1.1||^",
        "HTTP/1.1 401 Unauthorized|content-type: text/plain|content-length: 7|connection: close||no-key\n^",
        "http 401\nticked\nalfa sent alfa 1\nround\n",
    ),
];

/// The tables, by functions without a clause: the proof of the test is spared their texts.
fn fresh() -> &'static [Row] {
    &FRESH
}

fn opened() -> &'static [Row] {
    &OPENED
}

#[test]
fn connections_are_served(rt: HostRuntime) {
    assert!(rt; are_answered(&rt, "", fresh()));
    assert!(rt; are_answered(&rt, RUN, opened()));
}

fn are_answered(rt: &impl System, script: &str, rows: &[Row]) -> bool {
    let mut right = true;
    for row in rows {
        right = is_answered(rt, script, row) && right;
    }
    right
}

/// Whether the connections of a row come as it says, on the disks of this script.
fn is_answered(rt: &impl System, script: &str, row: &Row) -> bool {
    let alloc = rt.alloc();
    let mut depot = depot_failing(alloc, &[]);
    lay(rt, &mut depot, script);
    let mut door = door(alloc, row.0, &[]);
    let count = if row.0.len() > hand_in().len() {
        "2"
    } else {
        "1"
    };
    let ran = served(rt, &mut depot, &mut door, &["serve", count], alfa());
    ran.writes(alloc, row.2, Status::Done) && is_replied(alloc, &door, row.1)
}

/// Plays a script, and leaves its journals; none where it is empty.
fn lay(rt: &impl System, depot: &mut MemDepot, script: &str) {
    if !script.is_empty() {
        played(rt, depot, alfa(), "run", script);
    }
}

/// Words, and how a run on them ends without a connection.
static WORDS: [(&[&str], &str, Status); 1] = [(&["serve", "0"], "usage\n", Status::Usage)];

fn words() -> &'static [(&'static [&'static str], &'static str, Status)] {
    &WORDS
}

#[test]
fn words_and_directories_are_refused(rt: HostRuntime) {
    assert!(rt; are_refused(&rt));
}

fn are_refused(rt: &impl System) -> bool {
    let mut right = true;
    for (words, output, status) in words() {
        right = is_refused(rt, words, output, *status) && right;
    }
    right
}

fn is_refused(rt: &impl System, words: &[&str], output: &str, status: Status) -> bool {
    let alloc = rt.alloc();
    let mut depot = depot_failing(alloc, &[]);
    let mut door = door(alloc, hand_in(), &[]);
    let ran = served(rt, &mut depot, &mut door, words, "%%\n");
    ran.is(output.as_bytes(), status) && door.replies().is_empty()
}

/// A device whose first call fails, or that of the journal behind the look at the disk; the replies, and the status.
static FAULTS: [(&str, &str, Status); 5] = [
    ("clock", "^", Status::ClockFault),
    ("door", "", Status::DoorFault),
    ("disk", "", Status::StartFault),
    ("journal", "", Status::StartFault),
    ("output", ACCEPTED, Status::WriteFault),
];

fn faults() -> &'static [(&'static str, &'static str, Status)] {
    &FAULTS
}

#[test]
fn a_device_that_fails_ends_the_service(rt: HostRuntime) {
    assert!(rt; are_ended(&rt));
}

fn are_ended(rt: &impl System) -> bool {
    let mut right = true;
    for (device, replies, status) in faults() {
        right = is_ended(rt, device, replies, *status) && right;
    }
    right
}

/// Whether a service where this device is broken gives these replies, writes nothing and ends so.
fn is_ended(rt: &impl System, device: &str, replies: &str, status: Status) -> bool {
    let alloc = rt.alloc();
    let mut depot = depot_failing(alloc, failing_disk(device));
    let mut door = door(alloc, hand_in(), failing(device, "door"));
    let given = Given {
        clock: failing(device, "clock"),
        writes: failing(device, "output"),
        ..Given::of(&["serve", "1"], alfa().as_bytes())
    };
    let ran = ran_at(rt, &mut depot, &mut door, &given, Vec::new(alloc));
    ran.is(b"", status) && is_replied(alloc, &door, replies)
}

/// The calls of a device that fail where this one is broken.
fn failing(broken: &str, device: &str) -> &'static [u64] {
    if broken == device { &[0] } else { &[] }
}

/// The calls of disks that fail where this device is broken.
fn failing_disk(broken: &str) -> &'static [(u32, u64)] {
    match broken {
        "disk" => &[(0, 0)],
        "journal" => &[(0, 2)],
        _ => &[],
    }
}

/// A door at which these requests come in, where these calls fail.
fn door(alloc: Global, requests: &str, failing: &[u64]) -> MemDoor {
    let mut texts = Vec::new(alloc);
    for request in requests.split('^') {
        if !request.is_empty() {
            let _ = texts.push(bytes_of(alloc, request));
        }
    }
    MemDoor::new(alloc, texts, numbers(alloc, failing), Vec::new(alloc))
}

/// Runs words over a directory.
fn served(
    rt: &impl System,
    depot: &mut MemDepot,
    door: &mut MemDoor,
    words: &[&str],
    directory: &str,
) -> Ran {
    let given = Given::of(words, directory.as_bytes());
    ran_at(rt, depot, door, &given, Vec::new(rt.alloc()))
}

/// Whether a door has these replies.
fn is_replied(alloc: Global, door: &MemDoor, wanted: &str) -> bool {
    let wanted = written_out(alloc, wanted);
    let wanted = lines_of(alloc, wanted.as_str());
    let mut all = Vec::new(alloc);
    for reply in door.replies() {
        put(&mut all, reply.bytes());
        put(&mut all, b"^");
    }
    all.as_slice() == wanted.as_bytes()
}
