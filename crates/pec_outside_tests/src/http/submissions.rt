//! Submissions: what the desk makes of them, and those that are cut; and items, which are
//! messages.
use super::desk::Mood;
use super::serving::{NEVER, TEXT, answers, is_answered, serve};
use crate::rows::all_hold;
use crate::texts::are_these;
use std::alloc::Global;

const SUBMISSION: &[u8] = b"POST /mail/anna@alfa.example/submit HTTP/1.1\r\nx-key: chiave\r\n\
     x-path: bob@beta.example, carl@beta.example\r\ncontent-length: 5\r\n\r\nSalve";

/// How the desk answers, and what is written.
#[derive(Clone, Copy)]
struct Told {
    mood: Mood,
    kind: &'static str,
    wanted: (u16, &'static str),
}

static SUBMITTED: &[Told] = &[
    Told {
        mood: Mood::Accepts,
        kind: TEXT,
        wanted: (201, "accepted pec.0000007@alfa.example\n"),
    },
    Told {
        mood: Mood::Declines,
        kind: TEXT,
        wanted: (422, "not-accepted pec.0000007@alfa.example forward-path\n"),
    },
    Told {
        mood: Mood::Down,
        kind: TEXT,
        wanted: (503, "down\n"),
    },
    Told {
        mood: Mood::ClockBack,
        kind: TEXT,
        wanted: (409, "clock-back 1704186000\n"),
    },
    Told {
        mood: Mood::Full,
        kind: TEXT,
        wanted: (507, "full\n"),
    },
    Told {
        mood: Mood::JournalFull,
        kind: TEXT,
        wanted: (507, "journal-full\n"),
    },
    Told {
        mood: Mood::DiskFault,
        kind: TEXT,
        wanted: (503, "fault disk\n"),
    },
    Told {
        mood: Mood::NoMemory,
        kind: TEXT,
        wanted: (500, "no-memory\n"),
    },
];

const ITEM: &[u8] = b"GET /mail/anna@alfa.example/items/7 HTTP/1.1\r\nx-key: chiave\r\n\r\n";

static ITEMS: &[Told] = &[
    Told {
        mood: Mood::Accepts,
        kind: "message/rfc822",
        wanted: (200, "From: a@b\r\n\r\nSalve"),
    },
    Told {
        mood: Mood::Down,
        kind: TEXT,
        wanted: (503, "down\n"),
    },
    Told {
        mood: Mood::DiskFault,
        kind: TEXT,
        wanted: (503, "fault disk\n"),
    },
    Told {
        mood: Mood::Changed,
        kind: TEXT,
        wanted: (503, "changed 4\n"),
    },
    Told {
        mood: Mood::NoMemory,
        kind: TEXT,
        wanted: (500, "no-memory\n"),
    },
];

/// The answer of the first row that isn't given to the request; none where each is.
fn first_wrong(alloc: Global, request: &[u8], rows: &[Told]) -> Option<&'static str> {
    for row in rows {
        if !is_told(alloc, request, row) {
            return Some(row.wanted.1);
        }
    }
    None
}

/// Whether the request is answered as the row has it.
fn is_told(alloc: Global, request: &[u8], row: &Told) -> bool {
    is_answered(alloc, row.mood, request, 4096, row.kind, row.wanted)
}

#[test]
fn a_submission_is_answered_by_the_desk(rt: HostRuntime) {
    all_hold(&rt, first_wrong(rt.alloc(), SUBMISSION, SUBMITTED));
}

#[test]
fn an_item_is_a_message(rt: HostRuntime) {
    all_hold(&rt, first_wrong(rt.alloc(), ITEM, ITEMS));
}

#[test]
fn a_submission_reaches_the_desk_once_and_whole(rt: HostRuntime) {
    assert!(rt; answers(rt.alloc(), SUBMISSION, 7, 201, 1));
    assert!(rt; reaches_the_desk(rt.alloc(), SUBMISSION, 2, b"Salve"));
}

/// Whether the desk is handed so many addresses and this message.
fn reaches_the_desk(alloc: Global, request: &[u8], addresses: usize, message: &[u8]) -> bool {
    let exchange = serve(alloc, Mood::Accepts, request, 7, NEVER);
    exchange.desk.addresses == addresses && are_these(exchange.desk.message.as_slice(), message)
}

// A submission that ends too early isn't handed in, wherever it ends.
#[test]
fn each_cut_of_a_submission_is_refused(rt: HostRuntime) {
    assert!(rt; first_cut_taken(rt.alloc(), SUBMISSION).is_none());
}

// The last row before the desk's own answers: a desk that is down isn't asked for a cut submission.
#[test]
fn a_cut_submission_is_refused_before_the_desk_is_asked(rt: HostRuntime) {
    assert!(rt; is_cut_refused(rt.alloc()));
}

fn is_cut_refused(alloc: Global) -> bool {
    let cut = &SUBMISSION[..SUBMISSION.len() - 1];
    is_answered(alloc, Mood::Down, cut, 4096, TEXT, (400, "bad-request\n"))
}

/// After how many bytes the text may be cut first and not be refused; none where it is wherever it is cut.
fn first_cut_taken(alloc: Global, text: &[u8]) -> Option<usize> {
    for end in 0..text.len() {
        if !answers(alloc, &text[..end], 4096, 400, 0) {
            return Some(end);
        }
    }
    None
}
