//! Which messages screens look at, and what is refused for what they find. Worked out by hand.

use crate::admission::{Row, cause};
use crate::boxes::{box_of, counter, pair_of};
use crate::rows::holds;
use pec_types::Cause;
use std::alloc::Global;
use std::sync::Arc;
use std::sync::atomic::{AtomicU64, Ordering};

/// A message, the cause for which it isn't accepted under a screen of the patterns `VIRUS` and `WORM`, and how often a
/// box beside it looks.
static LOOKS: &[(Row, u64)] = &[
    (
        (
            "1000",
            "b@b",
            "From: a@a|To: b@b||VIRUS",
            Some(Cause::Virus),
        ),
        1,
    ),
    (
        (
            "1000",
            "b@b",
            "From: a@a|To: b@b|Subject: VIRUS||",
            Some(Cause::Virus),
        ),
        1,
    ), // in the head, too
    (("1000", "b@b", "From: a@a|To: b@b||VIRU S", None), 1),
    (
        (
            "1000",
            "b@b",
            "From: a@a|To: b@b|Bcc: x||VIRUS",
            Some(Cause::Bcc),
        ),
        0,
    ),
    (
        ("1", "b@b", "From: a@a|To: b@b||VIRUS", Some(Cause::Size)),
        0,
    ),
    (("1000", "b@b", "VIRUS", Some(Cause::Head)), 0),
];

#[test]
fn screens_look_at_what_no_earlier_row_refuses(rt: HostRuntime) {
    for row in LOOKS {
        holds(&rt, is_looked_at(rt.alloc(), &row.0, row.1), row.0.2);
    }
}

/// Whether the message of a row isn't accepted for its cause, and the box beside the screen of the pattern looks so
/// often.
fn is_looked_at(alloc: Global, row: &Row, looks: u64) -> bool {
    let Ok(counted) = Arc::new(alloc, AtomicU64::new(0)) else {
        return false;
    };
    match pair_of(
        alloc,
        counter(alloc, &counted),
        box_of(alloc, b"VIRUS", b"WORM"),
    ) {
        Some(mut screens) => {
            cause(alloc, 0, row, &mut screens) == Some(row.3)
                && counted.load(Ordering::SeqCst) == looks
        }
        None => false,
    }
}
