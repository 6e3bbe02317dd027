//! Connections that fail, and a clock, a door and an output that do. Worked out by hand.

use super::answers::{Answer, comes};
use super::requests::{ALICE_LOOKS, ALICE_SUBMITS};
use super::serving::{Meeting, Service};
use crate::running::System;
use pec_top::Status;

/// A service, and what comes of it.
struct Case {
    why: &'static str,
    service: Service<'static>,
    lines: &'static str,
    answers: &'static [Answer],
    status: Status,
}

const TWO_LOOKS: &[Meeting] = &[(ALICE_LOOKS, &[]), (ALICE_LOOKS, &[])];

static CASES: [Case; 4] = [
    Case {
        why: "of a connection whose first read fails nothing is asked, and nothing is written to it",
        service: Service {
            meetings: &[(ALICE_SUBMITS, &[0])],
            clock: &[],
            door: &[],
            output: &[],
            wanted: "1",
            screened: false,
        },
        lines: "http read-fault\nticked\nround\n",
        answers: &[("", "", true)],
        status: Status::Done,
    },
    Case {
        why: "what was handed in by one whose first write fails stands",
        service: Service {
            meetings: &[(ALICE_SUBMITS, &[1])],
            clock: &[],
            door: &[],
            output: &[],
            wanted: "1",
            screened: false,
        },
        lines: "http write-fault\nticked\nalfa sent alfa 1\nround\n",
        answers: &[("201 Created", "accepted I0\n", true)],
        status: Status::Done,
    },
    Case {
        why: "the clock fails at the second connection, which is closed unread",
        service: Service {
            meetings: TWO_LOOKS,
            clock: &[1],
            door: &[],
            output: &[],
            wanted: "2",
            screened: false,
        },
        lines: "http 200\nticked\nround\n",
        answers: &[("200 OK", "book 0\n", false), ("", "", false)],
        status: Status::ClockFault,
    },
    Case {
        why: "the door fails at the second connection",
        service: Service {
            meetings: TWO_LOOKS,
            clock: &[],
            door: &[1],
            output: &[],
            wanted: "2",
            screened: false,
        },
        lines: "http 200\nticked\nround\n",
        answers: &[("200 OK", "book 0\n", false)],
        status: Status::DoorFault,
    },
];

/// The table, by a function without a clause: the proof of the test is spared its texts.
fn cases() -> &'static [Case] {
    &CASES
}

#[test]
fn faults_end_or_pass(rt: HostRuntime) {
    assert_eq!(rt; first_wrong(&rt, cases()), None);
}

/// What the first case is about that doesn't come as it says.
fn first_wrong(rt: &impl System, cases: &[Case]) -> Option<&'static str> {
    for case in cases {
        if !comes(rt, &case.service, case.lines, case.answers, case.status) {
            return Some(case.why);
        }
    }
    None
}
