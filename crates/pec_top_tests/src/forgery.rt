//! Frames from outside: a certified message as a forger changes it, and as it is.

use crate::items::last_item;
use crate::running::{System, copied, in_base64, played_afresh, put, with_words};
use pec_top::Status;
use pec_trial::two;
use std::alloc::Global;

const DELIVERED: &str = "submit alfa 1704186000 alice@alfa.example bob@beta.example {M2}\n\
round 1704186001\nround 1704186002\nshow bob@beta.example 0\n";

/// The envelope that bob has in his mailbox once it was delivered; empty where he has none.
pub(crate) fn true_envelope(rt: &impl System) -> Vec<u8> {
    let shown = played_afresh(rt, two(), DELIVERED);
    last_item(rt.alloc(), &shown.text)
}

/// A frame with this line of a path.
pub(crate) fn framed(alloc: Global, path: &[u8], letter: &[u8]) -> Vec<u8> {
    let mut frame = copied(alloc, path);
    put(&mut frame, letter);
    frame
}

/// A whole frame with another bit in the hundredth byte before its end.
fn changed(alloc: Global, frame: &[u8]) -> Vec<u8> {
    let mut changed = copied(alloc, frame);
    if changed.len() > 1000 {
        let at = changed.len() - 100;
        changed[at] ^= 1;
    }
    changed
}

/// A true envelope of which one byte was changed is placed as an anomaly; the true one behind it is taken.
#[test]
fn a_changed_envelope_is_an_anomaly_and_the_true_one_is_taken(rt: HostRuntime) {
    assert!(rt; is_told_apart(&rt));
}

const INJECTIONS: &str = "submit alfa 1704186000 alice@alfa.example bob@beta.example {M2}\n\
inject alfa beta CHANGED-FRAME\ninject alfa beta TRUE-FRAME\nround 1704186002\nmailbox bob@beta.example\n";

const OUTPUT: &str =
    "accepted I0\ninjected\ninjected\nalfa sent beta 1\nbeta anomaly 1\nbeta took I0\n\
beta decided I0 bob@beta.example delivered\nbeta sent alfa 2\nround\n0 anomaly - -\n1 envelope I0 -\nmailbox 2\n";

/// Whether the changed frame and then the true one come so.
fn is_told_apart(rt: &impl System) -> bool {
    let script = script_of(rt);
    let ran = played_afresh(rt, two(), script.as_str());
    ran.writes(rt.alloc(), OUTPUT, Status::Done)
}

/// A script that injects the changed frame and then the true one.
fn script_of(rt: &impl System) -> String {
    let alloc = rt.alloc();
    let frame = framed(alloc, b"Per: bob@beta.example\r\n", &true_envelope(rt));
    let changed = changed(alloc, &frame);
    let changed = in_base64(alloc, &changed);
    let frame = in_base64(alloc, &frame);
    let words = [
        ("CHANGED-FRAME", changed.as_str()),
        ("TRUE-FRAME", frame.as_str()),
    ];
    with_words(alloc, INJECTIONS, &words)
}
