//! What boxes say together, and how one is put into another's place.

use crate::counting::Counting;
use crate::patterns::screen_of;
use crate::rows::{holds, holds_at};
use pec_screen::{ReplaceFault, Screen, Screens};
use std::alloc::Global;
use std::sync::Arc;
use std::sync::atomic::{AtomicU64, Ordering};

type Verdict = Option<(u32, u32)>;

type AnyBox = Box<dyn Screen>;

/// The screens of two boxes with these patterns each.
fn screens_of(alloc: Global, first: [&[u8]; 2], second: [&[u8]; 2]) -> Option<Screens> {
    pair_of(
        alloc,
        box_of(alloc, first[0], first[1]),
        box_of(alloc, second[0], second[1]),
    )
}

/// The screens of two boxes; none where one of them isn't there.
pub fn pair_of(alloc: Global, first: Option<AnyBox>, second: Option<AnyBox>) -> Option<Screens> {
    match (first, second) {
        (Some(first), Some(second)) => match vec![in alloc; first, second] {
            Ok(boxes) => Some(Screens::new(boxes)),
            Err(_) => None,
        },
        _ => None,
    }
}

/// A box of two patterns.
pub fn box_of(alloc: Global, first: &[u8], second: &[u8]) -> Option<AnyBox> {
    match screen_of(alloc, first, second) {
        Some(screen) => match Box::new(alloc, screen) {
            Ok(boxed) => Some(boxed),
            Err(_) => None,
        },
        None => None,
    }
}

/// A box that counts outside how often it looks.
pub fn counter(alloc: Global, looks: &Arc<AtomicU64, Global>) -> Option<AnyBox> {
    match Arc::try_clone(looks) {
        Ok(looks) => match Box::new(alloc, Counting { looks, seen: 0 }) {
            Ok(boxed) => Some(boxed),
            Err(_) => None,
        },
        Err(_) => None,
    }
}

static VERDICTS: &[(&str, Verdict)] = &[
    ("a", Some((0, 1))), // both boxes find; the first one's rule
    ("b", Some((1, 1))), // the second box alone
    ("ab", Some((0, 1))), // each finds another pattern
    ("c", Some((0, 0))),
    ("d", None), // none
];

#[test]
fn the_verdict_is_of_the_first_box_that_finds(rt: HostRuntime) {
    for row in VERDICTS {
        holds(&rt, is_verdict(rt.alloc(), row), row.0);
    }
    holds(&rt, says_nothing_without_boxes(rt.alloc()), "no box");
}

/// Whether a row's verdict is that of two boxes.
fn is_verdict(alloc: Global, row: &(&str, Verdict)) -> bool {
    match screens_of(alloc, [b"c", b"a"], [b"a", b"b"]) {
        Some(mut screens) => judged(&mut screens, row.0.as_bytes()) == row.1,
        None => false,
    }
}

fn says_nothing_without_boxes(alloc: Global) -> bool {
    let mut none = Screens::new(Vec::new(alloc));
    judged(&mut none, b"a").is_none()
}

/// What screens say, without what is promised of it: the tests compare it.
fn judged(screens: &mut Screens, message: &[u8]) -> Verdict {
    screens.judge(message)
}

#[test]
fn every_box_looks_once_also_behind_one_that_found(rt: HostRuntime) {
    assert!(rt; looks_once(rt.alloc()));
}

fn looks_once(alloc: Global) -> bool {
    match Arc::new(alloc, AtomicU64::new(0)) {
        Ok(looks) => match counted_screens(alloc, &looks) {
            Some(mut screens) => are_all_asked(&mut screens, &looks),
            None => false,
        },
        Err(_) => false,
    }
}

fn counted_screens(alloc: Global, looks: &Arc<AtomicU64, Global>) -> Option<Screens> {
    pair_of(alloc, box_of(alloc, b"a", b"b"), counter(alloc, looks))
}

fn are_all_asked(screens: &mut Screens, looks: &AtomicU64) -> bool {
    judged(screens, b"a") == Some((0, 0))
        && looks.load(Ordering::SeqCst) == 1
        && judged(screens, b"c").is_none()
        && looks.load(Ordering::SeqCst) == 2
}

// The place; the verdict on `n`, which the new box alone finds, and on `a` and `b`, each a box's own.
type Place = (usize, Verdict, Verdict, Verdict);

static PLACES: &[Place] = &[
    (0, Some((0, 1)), None, Some((1, 0))),
    (1, Some((1, 1)), Some((0, 0)), None), // the last place
    (2, None, Some((0, 0)), Some((1, 0))), // behind it: all as it was
    (usize::MAX, None, Some((0, 0)), Some((1, 0))),
];

#[test]
fn a_box_takes_the_place_of_one_that_is_no_longer_asked(rt: HostRuntime) {
    for row in PLACES {
        holds_at(&rt, is_taken(rt.alloc(), row), row.0 as u64);
    }
}

/// Whether a new box is taken at a place, and what the boxes say then.
fn is_taken(alloc: Global, row: &Place) -> bool {
    match screens_of(alloc, [b"a", b"-"], [b"b", b"-"]) {
        Some(mut screens) => takes(alloc, &mut screens, row.0) && judge(&mut screens, row),
        None => false,
    }
}

/// Puts a new box into the place. Whether it is taken where the place is one of two, and comes back elsewhere.
fn takes(alloc: Global, screens: &mut Screens, place: usize) -> bool {
    match box_of(alloc, b"m", b"n") {
        Some(next) => takes_box(screens, place, next),
        None => false,
    }
}

fn takes_box(screens: &mut Screens, place: usize, next: AnyBox) -> bool {
    match screens.replace(place, next) {
        Ok(()) => place < 2,
        Err((mut back, fault)) => {
            let found = back.look(b"n");
            2 <= place && fault == ReplaceFault::NoSuchPlace && found == Some(1)
        }
    }
}

fn judge(screens: &mut Screens, wanted: &Place) -> bool {
    judged(screens, b"n") == wanted.1
        && judged(screens, b"a") == wanted.2
        && judged(screens, b"b") == wanted.3
}
