//! What one screen finds, by rows of its patterns and the message.

use crate::rows::holds_at;
use pec_screen::{PatternScreen, Screen};
use pec_types::Text8;
use std::alloc::Global;

/// A screen of two patterns.
pub fn screen_of(alloc: Global, first: &[u8], second: &[u8]) -> Option<PatternScreen> {
    match (text_of(alloc, first), text_of(alloc, second)) {
        (Some(first), Some(second)) => match vec![in alloc; first, second] {
            Ok(patterns) => Some(PatternScreen::new(patterns)),
            Err(_) => None,
        },
        _ => None,
    }
}

fn text_of(alloc: Global, bytes: &[u8]) -> Option<Text8> {
    match Vec::from_slice(alloc, bytes) {
        Ok(bytes) => Some(Text8::of(bytes)),
        Err(_) => None,
    }
}

/// The two patterns, the message; the number that is found.
type Row = (&'static [u8], &'static [u8], &'static [u8], Option<u32>);

static ROWS: &[Row] = &[
    (b"b", b"a", b"cab", Some(0)), // both occur, the second one earlier in the message
];

#[test]
fn a_screen_finds_the_least_number_of_a_pattern_that_occurs(rt: HostRuntime) {
    for (place, row) in ROWS.iter().enumerate() {
        holds_at(&rt, finds(rt.alloc(), row), place as u64);
    }
}

/// Whether a row's number is found, and the look is counted.
fn finds(alloc: Global, row: &Row) -> bool {
    match screen_of(alloc, row.0, row.1) {
        Some(mut screen) => screen.look(row.2) == row.3 && screen.seen() == 1,
        None => false,
    }
}

#[test]
fn each_look_is_counted_also_where_nothing_is_found(rt: HostRuntime) {
    assert!(rt; counts_each_look(rt.alloc()));
}

fn counts_each_look(alloc: Global) -> bool {
    match screen_of(alloc, b"b", b"a") {
        Some(mut screen) => screen.seen() == 0 && finds_twice(&mut screen) && screen.seen() == 3,
        None => false,
    }
}

/// Looks at a message, at one in which nothing is found, and at the first one again.
fn finds_twice(screen: &mut PatternScreen) -> bool {
    screen.look(b"cab") == Some(0) && screen.look(b"c").is_none() && screen.look(b"cab") == Some(0)
}
