//! Commands and lines that are refused, and journals that aren't taken. All outputs were worked out by hand.

use crate::directories::Directory;
use crate::running::{Case, Run, System, first_wrong, joined, played_afresh};
use pec_top::Status;
use pec_trial::two;
use std::alloc::Global;

const ROW: &str = "submit alfa 1704186000 alice@alfa.example anna@alfa.example {M1}\n";

static FIRST: [Case; 3] = [
    Case {
        why: "a message that breaks a row of the table of admission isn't accepted",
        directory: Directory::Two,
        failing: &[],
        runs: &[Run {
            form: "run",
            script: "submit alfa 1704186000 alice@alfa.example bob@beta.example {M4}\n\
                     submit alfa 1704186000 anna@alfa.example bob@beta.example {M4}\n\
                     submit beta 1704186000 bob@beta.example a@b VG86IGFAYgoK\n\
                     book anna@alfa.example\nmailbox anna@alfa.example\n",
            output: "not-accepted I0 reverse-path\nnot-accepted I1 bcc\nnot-accepted J0 from\nbook 0\n\
                     0 non-acceptance I1 -\nmailbox 1\n",
            status: Status::Done,
        }],
    },
    Case {
        why: "a message that names no sender isn't accepted, and is the first of its provider",
        directory: Directory::Two,
        failing: &[],
        runs: &[Run {
            form: "run",
            script: "submit alfa 1704186000 alice@alfa.example a@b VG86IGFAYgoK\n",
            output: "not-accepted I0 from\n",
            status: Status::Done,
        }],
    },
    Case {
        why: "of an account that is none, a provider that is down and a clock that is behind, the first is told",
        directory: Directory::Two,
        failing: &[],
        runs: &[Run {
            form: "run",
            script: "submit alfa 1704186000 alice@alfa.example anna@alfa.example {M1}\n\
                     tick alfa 1704185999\nsubmit alfa 1704185999 zoe@alfa.example anna@alfa.example {M1}\n\
                     submit alfa 1704185999 alice@alfa.example anna@alfa.example {M1}\ncrash alfa\n\
                     submit alfa 1 zoe@alfa.example anna@alfa.example {M1}\n\
                     submit alfa 1 alice@alfa.example anna@alfa.example {M1}\ntick alfa 1\n\
                     book zoe@alfa.example\nbook alice@alfa.example\nmailbox alice@alfa.example\n\
                     show alice@alfa.example 9\nmailbox bob@beta.example\nround 1704185000\n",
            output: "accepted I0\nclock-back 1704186000\nno-account\nclock-back 1704186000\ncrashed\n\
                     no-account\ndown\ndown\nno-account\ndown\ndown\ndown\nmailbox 0\nalfa down\nround\n",
            status: Status::Done,
        }],
    },
];

static SECOND: [Case; 2] = [
    Case {
        why: "where no frame waits none is lost, repeated or swapped; and who is up isn't restarted",
        directory: Directory::Two,
        failing: &[],
        runs: &[Run {
            form: "run",
            script: "lose alfa beta 0\nrepeat alfa beta 0\nswap alfa beta 0\nrestart alfa\nshow alice@alfa.example 0\n\
                     show zoe@alfa.example 0\n",
            output: "no-frame\nno-frame\nno-frame\nup\nno-item\nno-account\n",
            status: Status::Done,
        }],
    },
    Case {
        why: "a journal isn't made on a disk that holds one, and is opened again",
        directory: Directory::Alfa,
        failing: &[],
        runs: &[
            Run {
                form: "run",
                script: ROW,
                output: "accepted I0\n",
                status: Status::Done,
            },
            Run {
                form: "run",
                script: ROW,
                output: "not-empty alfa\n",
                status: Status::NotEmpty,
            },
            Run {
                form: "resume",
                script: "book alice@alfa.example\n",
                output: "I0 anna@alfa.example primary 1704186000 - - - open\nbook 1\n",
                status: Status::Done,
            },
        ],
    },
];

/// Lines that say no command, and the fault of each. Each fault of each command is a row of
/// tests/vectors/commands.rows.
static LINES: [(&str, &str); 4] = [
    ("round 01", "bad-number 1"),
    ("book bob", "bad-address 1"),
    ("inject alfa beta ???", "bad-base64 3"),
    ("crash gamma", "unknown-provider 1"),
];

/// The tables, by functions without a clause: the proofs of the tests are spared their texts.
fn first() -> &'static [Case] {
    &FIRST
}

fn second() -> &'static [Case] {
    &SECOND
}

fn lines() -> &'static [(&'static str, &'static str)] {
    &LINES
}

#[test]
fn what_is_refused_is_told_by_its_first_cause(rt: HostRuntime) {
    for cases in [first(), second()] {
        assert_eq!(rt; first_wrong(&rt, cases), None);
    }
}

#[test]
fn a_line_that_says_no_command_ends_the_run(rt: HostRuntime) {
    assert!(rt; are_refused(&rt));
}

fn are_refused(rt: &impl System) -> bool {
    let mut right = true;
    for (line, fault) in lines() {
        right = is_refused_for(rt, line, fault) && right;
    }
    right
}

/// Whether a script of this line is refused for this fault, and ends there.
fn is_refused_for(rt: &impl System, line: &str, fault: &str) -> bool {
    let alloc = rt.alloc();
    let script = joined(alloc, &[line, "\nbook alice@alfa.example\n"]);
    let output = joined(alloc, &["refused line 1 ", fault, "\n"]);
    let ran = played_afresh(rt, two(), script.as_str());
    ran.is(output.as_bytes(), Status::Refused)
}

/// Where the limit is 1000, a message of 500 bytes may go to two recipients, and one of 501 bytes may not.
#[test]
fn a_message_counts_once_for_each_recipient(rt: HostRuntime) {
    assert!(rt; is_limited(&rt));
}

fn is_limited(rt: &impl System) -> bool {
    let alloc = rt.alloc();
    let directory = two()
        .replacen(alloc, "name = \"alfa\"", "name = \"alfa\"\nlimit = 1000", 1)
        .unwrap_or(String::new(alloc));
    let smaller = submission_of(alloc, 431);
    let larger = submission_of(alloc, 432);
    let script = joined(alloc, &[smaller.as_str(), larger.as_str()]);
    let ran = played_afresh(rt, directory.as_str(), script.as_str());
    ran.writes(alloc, "accepted I0\nnot-accepted I1 size\n", Status::Done)
}

/// A message of 69 bytes of head and so many of body, to bob and carl.
fn submission_of(alloc: Global, body: u32) -> String {
    let front = "submit alfa 1704186000 alice@alfa.example bob@beta.example,carl@beta.example \
         {From: alice@alfa.example|To: bob@beta.example, carl@beta.example||";
    let body = many(alloc, "x", body);
    joined(alloc, &[front, body.as_str(), "}\n"])
}

/// A text so many times.
fn many(alloc: Global, text: &str, times: u32) -> String {
    let mut whole = String::new(alloc);
    for _ in 0..times {
        let _ = whole.push_str(text);
    }
    whole
}

/// A link holds 64 frames, and the next is refused.
#[test]
fn a_full_link_takes_no_frame(rt: HostRuntime) {
    assert!(rt; is_full(&rt));
}

fn is_full(rt: &impl System) -> bool {
    let alloc = rt.alloc();
    let more = "inject alfa beta {F1}\nrepeat alfa beta 0\nrepeat alfa beta 64\n";
    let first = many(alloc, "inject alfa beta {F1}\n", 64);
    let script = joined(alloc, &[first.as_str(), more]);
    let first = many(alloc, "injected\n", 64);
    let output = joined(alloc, &[first.as_str(), "link-full\nlink-full\nno-frame\n"]);
    let ran = played_afresh(rt, two(), script.as_str());
    ran.is(output.as_bytes(), Status::Done)
}
