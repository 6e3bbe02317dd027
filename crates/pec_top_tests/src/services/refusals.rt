//! One request each over a new network: what it is answered, and the lines that are written. Worked out by hand.

use super::answers::comes;
use super::requests::ALICE_SUBMITS;
use super::serving::Service;
use crate::running::System;
use pec_top::Status;

/// What it is about; the request; whether alfa has a screen; the status and the body of the answer; the lines.
struct Row {
    why: &'static str,
    request: &'static str,
    screened: bool,
    status: &'static str,
    body: &'static str,
    lines: &'static str,
}

/// A submission of 86 bytes with the pattern of a virus.
const VIRUS: &str = "POST /mail/alice@alfa.example/submit HTTP/1.1|x-key: chiave-alice|\
     x-path: anna@alfa.example|content-length: 86||\
     From: alice@alfa.example|To: anna@alfa.example|Subject: Ciao||PEC-VIRUS-DI-PROVA|";

static ROWS: [Row; 4] = [
    Row {
        why: "one in which a screen finds its pattern isn't",
        request: VIRUS,
        screened: true,
        status: "422 Unprocessable Entity",
        body: "not-accepted I0 virus\n",
        lines: "http 422\nticked\nround\n",
    },
    Row {
        why: "nor is one for a path that isn't the message's",
        request: "POST /mail/alice@alfa.example/submit HTTP/1.1|x-key: chiave-alice|\
             x-path: bob@beta.example|content-length: 73||\
             From: alice@alfa.example|To: anna@alfa.example|Subject: Ciao||Salve|",
        screened: false,
        status: "422 Unprocessable Entity",
        body: "not-accepted I0 forward-path\n",
        lines: "http 422\nticked\nround\n",
    },
    Row {
        why: "another method",
        request: "DELETE /mail/alice@alfa.example/submit HTTP/1.1|x-key: chiave-alice|\
             x-path: anna@alfa.example|content-length: 73||\
             From: alice@alfa.example|To: anna@alfa.example|Subject: Ciao||Salve|",
        screened: false,
        status: "405 Method Not Allowed",
        body: "method\n",
        lines: "http 405\nticked\nround\n",
    },
    Row {
        why: "a message that is cut by a byte",
        request: "POST /mail/alice@alfa.example/submit HTTP/1.1|x-key: chiave-alice|\
             x-path: anna@alfa.example|content-length: 74||\
             From: alice@alfa.example|To: anna@alfa.example|Subject: Ciao||Salve|",
        screened: false,
        status: "400 Bad Request",
        body: "bad-request\n",
        lines: "http 400\nticked\nround\n",
    },
];

/// The table, by a function without a clause: the proof of the test is spared its texts.
fn rows() -> &'static [Row] {
    &ROWS
}

#[test]
fn a_request_is_answered(rt: HostRuntime) {
    assert_eq!(rt; first_wrong(&rt, rows()), None);
}

/// What the first row is about that doesn't come as it says.
fn first_wrong(rt: &impl System, rows: &[Row]) -> Option<&'static str> {
    for row in rows {
        if !is_answered(rt, row) {
            return Some(row.why);
        }
    }
    None
}

fn is_answered(rt: &impl System, row: &Row) -> bool {
    let meetings = [(row.request, no_calls())];
    let service = Service {
        meetings: &meetings,
        clock: &[],
        door: &[],
        output: &[],
        wanted: "1",
        screened: row.screened,
    };
    let answers = [(row.status, row.body, false)];
    comes(rt, &service, row.lines, &answers, Status::Done)
}

fn no_calls() -> &'static [u64] {
    &[]
}
