//! Frames from outside: what beta makes of each.

use crate::forgery::{framed, true_envelope};
use crate::running::{System, copied, in_base64, joined, played_afresh};
use pec_top::Status;
use pec_trial::two;
use std::alloc::Global;

/// Frames that hold no certified mail, and what comes of each.
const PLAIN: [(&[u8], &[u8]); 6] = [
    (b"", b"injected\nbeta dropped\nround\n"),
    (b"Per: bob@beta.example", b"injected\nbeta dropped\nround\n"),
    (b"Per: x y\r\nA: b\n\n", b"injected\nbeta dropped\nround\n"),
    (
        b"Per: nobody@beta.example\r\nA: b\n\n",
        b"injected\nbeta dropped\nround\n",
    ),
    (
        b"Per: bob@beta.example,bob@beta.example\r\nA: b\n\n",
        b"injected\nbeta anomaly 1\nround\n",
    ),
    (
        b"Per: bob@beta.example,carl@beta.example\r\n",
        b"injected\nbeta anomaly 2\nround\n",
    ),
];

const SUBMISSION: &str = "submit alfa 1704186000 alice@alfa.example bob@beta.example {M2}\n";

const ROUND: &str = "round 1704186001\n";

const ANOMALY: &[u8] =
    b"accepted pec.0000000@alfa.example\ninjected\nalfa sent beta 1\nbeta anomaly 1\nround\n";

#[test]
fn no_frame_from_outside_is_taken(rt: HostRuntime) {
    assert!(rt; come_so(&rt));
    assert!(rt; are_anomalies(&rt));
}

fn come_so(rt: &impl System) -> bool {
    let mut right = true;
    for (frame, output) in &PLAIN {
        right = comes_to(rt, "", frame, output) && right;
    }
    right
}

/// Whether a frame on the link from alfa to beta comes to this behind a submission, or behind nothing.
fn comes_to(rt: &impl System, submission: &str, frame: &[u8], output: &[u8]) -> bool {
    let frame = in_base64(rt.alloc(), frame);
    let lines = [submission, "inject alfa beta ", frame.as_str(), "\n", ROUND];
    let script = joined(rt.alloc(), &lines);
    played_afresh(rt, two(), script.as_str()).is(output, Status::Done)
}

/// The true envelope for bob under another path, with another tag, and cut in the middle.
fn are_anomalies(rt: &impl System) -> bool {
    let envelope = true_envelope(rt);
    let changed = with_another_tag(rt.alloc(), &envelope);
    !envelope.is_empty()
        && is_anomaly(rt, b"Per: carl@beta.example\r\n", &envelope)
        && is_anomaly(rt, b"Per: bob@beta.example\r\n", &changed)
        && is_anomaly(
            rt,
            b"Per: bob@beta.example\r\n",
            &envelope[..envelope.len() / 2],
        )
}

fn is_anomaly(rt: &impl System, path: &[u8], envelope: &[u8]) -> bool {
    let frame = framed(rt.alloc(), path, envelope);
    comes_to(rt, SUBMISSION, &frame, ANOMALY)
}

/// The last character of the tag that isn't `=` is another one.
fn with_another_tag(alloc: Global, envelope: &[u8]) -> Vec<u8> {
    let mut changed = copied(alloc, envelope);
    let end = changed.iter().position(|b| *b == b'=').unwrap_or(0);
    if let Some(last) = changed.get_mut(end.saturating_sub(1)) {
        *last = if *last == b'A' { b'E' } else { b'A' };
    }
    changed
}
