//! Doors in memory: connections that come in, those that fail, and the replies that stay.
use crate::rows::holds_at;
use crate::texts::{calls, joined, put, says};
use pec_outside::{Door, Failed, MemDoor, Sink, Source, write_all};
use std::alloc::Global;

/// The number of a call that isn't made.
const NEVER: u64 = u64::MAX;

/// At a door with three requests, which are read four bytes at once and answered by two writes.
struct Row {
    /// The call of `accept` that fails.
    accept: u64,
    /// The connection that is broken, and its call that fails. The list of such calls ends with this connection.
    broken: (usize, u64),
    /// What four connections say: what was read, and `.` where it was answered, `!` where it failed, and `-` where none
    /// came in.
    said: &'static str,
    /// The replies, with `!` where closing the connection raised the door's count.
    replies: &'static str,
}

static ROWS: &[Row] = &[
    Row {
        accept: NEVER,
        broken: (0, NEVER),
        said: "uno.secondo.tre.-",
        replies: "ok,ok,ok,",
    },
    // a call of `accept` that fails loses no request
    Row {
        accept: 0,
        broken: (0, NEVER),
        said: "-uno.secondo.tre.",
        replies: "ok,ok,ok,",
    },
    Row {
        accept: 2,
        broken: (0, NEVER),
        said: "uno.secondo.-tre.",
        replies: "ok,ok,ok,",
    },
    // each call of a connection in turn: reads, then writes
    Row {
        accept: NEVER,
        broken: (1, 0),
        said: "uno.!tre.-",
        replies: "ok,!,ok,",
    },
    Row {
        accept: NEVER,
        broken: (1, 1),
        said: "uno.seco!tre.-",
        replies: "ok,!,ok,",
    },
    Row {
        accept: NEVER,
        broken: (1, 2),
        said: "uno.secondo!tre.-",
        replies: "ok,!,ok,",
    },
    Row {
        accept: NEVER,
        broken: (1, 3),
        said: "uno.secondo!tre.-",
        replies: "ok,!,ok,",
    },
    Row {
        accept: NEVER,
        broken: (1, 4),
        said: "uno.secondo!tre.-",
        replies: "ok,o!,ok,",
    },
    // a connection makes no more calls than these
    Row {
        accept: NEVER,
        broken: (1, 5),
        said: "uno.secondo.tre.-",
        replies: "ok,ok,ok,",
    },
    // both at once
    Row {
        accept: 1,
        broken: (2, 0),
        said: "uno.-secondo.!",
        replies: "ok,ok,!,",
    },
];

#[test]
fn a_door_gives_its_requests_and_keeps_the_replies(rt: HostRuntime) {
    for (place, row) in ROWS.iter().enumerate() {
        holds_at(&rt, goes_so(rt.alloc(), row), place as u64, row.said);
    }
}

fn goes_so(alloc: Global, row: &Row) -> bool {
    let mut door = door_of(alloc, row.accept, row.broken);
    says(said_of(alloc, &mut door), row.said.as_bytes()) && has_replies(alloc, &door, row.replies)
}

/// What four connections say.
fn said_of<R: Door>(alloc: Global, door: &mut R) -> Vec<u8> {
    let mut said = Vec::new(alloc);
    for _ in 0..4 {
        serve_next(door, &mut said);
    }
    said
}

fn has_replies(alloc: Global, door: &MemDoor, wanted: &str) -> bool {
    says(replies_of(alloc, door), wanted.as_bytes())
}

fn door_of(alloc: Global, accept: u64, broken: (usize, u64)) -> MemDoor {
    let requests = requests(alloc);
    let lists = lists(alloc, broken.0, broken.1);
    MemDoor::new(alloc, requests, calls(alloc, &[accept]), lists)
}

fn requests(alloc: Global) -> Vec<Vec<u8>> {
    let mut requests = Vec::new(alloc);
    for request in ["uno", "secondo", "tre"] {
        let _ = requests.push(joined(alloc, &[request.as_bytes()]));
    }
    requests
}

/// The calls that fail of connections up to the one that is broken.
fn lists(alloc: Global, broken: usize, call: u64) -> Vec<Vec<u64>> {
    let mut lists = Vec::new(alloc);
    for _ in 0..broken {
        let _ = lists.push(Vec::new(alloc));
    }
    let _ = lists.push(calls(alloc, &[call]));
    lists
}

/// Accepts a connection, talks to it and closes it, through the bound alone.
fn serve_next<R: Door>(door: &mut R, said: &mut Vec<u8>) {
    match door.accept() {
        Ok(mut connection) => {
            let has_talked = talk(&mut connection, said).is_ok();
            door.close(connection);
            put(said, sign(has_talked));
        }
        Err(Failed) => put(said, b"-"),
    }
}

fn sign(has_talked: bool) -> &'static [u8] {
    if has_talked { b"." } else { b"!" }
}

/// Reads all that a connection has, and answers it.
fn talk<C: Source + Sink>(connection: &mut C, said: &mut Vec<u8>) -> Result<(), Failed> {
    let mut room = [0; 4];
    for _ in 0..u64::MAX {
        let count = connection.read(&mut room)?;
        if count == 0 {
            break;
        }
        put(said, &room[..count]);
    }
    write_all(connection, b"o")?;
    write_all(connection, b"k")
}

fn replies_of(alloc: Global, door: &MemDoor) -> Vec<u8> {
    let mut text = Vec::new(alloc);
    for (place, reply) in door.replies().iter().enumerate() {
        put(&mut text, reply.bytes());
        if door.raised().get(place) == Some(&true) {
            put(&mut text, b"!");
        }
        put(&mut text, b",");
    }
    text
}

// Two connections are out at once: replies stand in the order of closing.
#[test]
fn connections_are_closed_in_any_order(rt: HostRuntime) {
    assert!(rt; keeps_the_order_of_closing(rt.alloc()));
}

fn keeps_the_order_of_closing(alloc: Global) -> bool {
    let mut door = door_of(alloc, NEVER, (0, NEVER));
    closes_the_second_first(&mut door) && has_replies(alloc, &door, "two,one,")
}

fn closes_the_second_first<C: Source + Sink + Drop, R: Door<C = C>>(door: &mut R) -> bool {
    match (door.accept(), door.accept()) {
        (Ok(mut first), Ok(mut second)) => {
            let is_written = are_answered(&mut first, &mut second);
            door.close(second);
            door.close(first);
            is_written
        }
        _ => false,
    }
}

fn are_answered<C: Sink>(first: &mut C, second: &mut C) -> bool {
    write_all(second, b"two").is_ok() && write_all(first, b"one").is_ok()
}
