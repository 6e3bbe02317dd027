//! Clocks in memory: their moments, and calls that fail.
use crate::rows::holds;
use crate::texts::{calls, put, put_number, says};
use pec_outside::{Failed, MemTicks, Ticks};
use pec_types::Moment;
use std::alloc::Global;

/// The number of a call that isn't made.
const NEVER: u64 = u64::MAX;

/// How many moments a clock has, of 10, 20, 30 in order, the call that fails, and what five calls answer.
type Row = (u64, u64, &'static str);

static ROWS: &[Row] = &[
    (1, NEVER, "10 10 10 10 10 "),
    (2, NEVER, "10 20 20 20 20 "),
    (3, NEVER, "10 20 30 30 30 "),
    // a call that fails passes no moment over
    (3, 0, "- 10 20 30 30 "),
    (3, 2, "10 20 - 30 30 "),
    (3, 4, "10 20 30 30 - "),
];

#[test]
fn a_clock_answers_its_moments_and_then_the_last_again(rt: HostRuntime) {
    for row in ROWS {
        holds(&rt, goes_so(rt.alloc(), row), row.2);
    }
}

fn goes_so(alloc: Global, row: &Row) -> bool {
    match clock_of(alloc, row.0, row.1) {
        Some(mut ticks) => says(said(alloc, &mut ticks), row.2.as_bytes()),
        None => false,
    }
}

/// A clock of so many moments, of which a call fails; none where memory is wanting.
fn clock_of(alloc: Global, count: u64, failing: u64) -> Option<MemTicks> {
    let mut moments = Vec::new(alloc);
    for number in 1..=count.min(3) {
        add_moment(&mut moments, 10 * number);
    }
    if moments.is_empty() {
        return None;
    }
    Some(MemTicks::new(alloc, moments, calls(alloc, &[failing])))
}

fn add_moment(moments: &mut Vec<Moment>, seconds: u64) {
    if let Some(moment) = Moment::new(seconds) {
        let _ = moments.push(moment);
    }
}

/// What five calls of a clock answer, through the bound alone.
fn said<T: Ticks>(alloc: Global, ticks: &mut T) -> Vec<u8> {
    let mut text = Vec::new(alloc);
    for _ in 0..5 {
        match ticks.now() {
            Ok(moment) => put_number(alloc, &mut text, moment.seconds()),
            Err(Failed) => put(&mut text, b"-"),
        }
        put(&mut text, b" ");
    }
    text
}
