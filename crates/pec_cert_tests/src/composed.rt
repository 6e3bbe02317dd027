//! Composed bodies.
use crate::rows::{holds, holds_at};
use crate::texts::{put, put_number, says};
use pec_bodies::{compose, composed_type};
use pec_types::Text8;
use std::alloc::Global;

static BODIES: [(&[&str], &str); 1] = [(
    &["\na", "A: b\r\n\r\n"],
    "--=_pec_0\r\n\na\r\n--=_pec_0\r\nA: b\r\n\r\n\r\n--=_pec_0--\r\n",
)];

#[test]
fn each_part_stands_behind_a_delimiter_and_before_a_line_end(rt: HostRuntime) {
    for (parts, wanted) in &BODIES {
        holds(&rt, are_composed(rt.alloc(), parts, wanted), wanted);
    }
}

/// Whether the parts are composed to this body, by the boundary of number 0.
fn are_composed(alloc: Global, parts: &[&str], wanted: &str) -> bool {
    let all = texts_of(alloc, parts);
    match compose(alloc, &all) {
        Ok((number, body)) => number == 0 && says(body, wanted.as_bytes()),
        Err(_) => false,
    }
}

/// The parts. Where memory is wanting some lack, and what comes isn't what has to.
fn texts_of(alloc: Global, parts: &[&str]) -> Vec<Text8> {
    let mut all = Vec::new(alloc);
    for part in parts {
        let _ = all.push(text_of(alloc, part));
    }
    all
}

fn text_of(alloc: Global, part: &str) -> Text8 {
    let mut bytes = Vec::new(alloc);
    put(&mut bytes, part.as_bytes());
    Text8::of(bytes)
}

// Parts, and the number of their boundary.
static NUMBERS: [(&[&str], u64); 1] = [(&["\nx\n--=_pec_0\ny"], 1)];

#[test]
fn the_boundary_has_the_least_number_that_no_line_takes(rt: HostRuntime) {
    for (parts, wanted) in &NUMBERS {
        holds_at(&rt, have_number(rt.alloc(), parts, *wanted), *wanted, "");
    }
}

fn have_number(alloc: Global, parts: &[&str], wanted: u64) -> bool {
    let all = texts_of(alloc, parts);
    take_number(alloc, &all, wanted)
}

/// Whether this is the number of the boundary of these parts.
fn take_number(alloc: Global, all: &[Text8], wanted: u64) -> bool {
    match compose(alloc, all) {
        Ok((number, _)) => number == wanted,
        Err(_) => false,
    }
}

/// Lines that take the numbers below 20,000, one each.
#[test]
fn many_numbers_may_be_taken(rt: HostRuntime) {
    assert!(rt; are_passed_over(rt.alloc(), 20_000));
}

/// Whether this is the number of the boundary of one part with a line for each number below it.
fn are_passed_over(alloc: Global, most: u64) -> bool {
    let part = Text8::of(lines_below(alloc, most));
    take_number(alloc, &[part], most)
}

fn lines_below(alloc: Global, most: u64) -> Vec<u8> {
    let mut part = Vec::new(alloc);
    put(&mut part, b"\n");
    for number in 0..most {
        put(&mut part, b"--=_pec_");
        put_number(alloc, &mut part, number);
        put(&mut part, b"\n");
    }
    part
}

static TYPES: [(u64, &str); 1] = [(0, "multipart/mixed; boundary=\"=_pec_0\"")];

#[test]
fn the_type_of_a_composed_body_names_its_boundary(rt: HostRuntime) {
    for (number, wanted) in &TYPES {
        holds_at(&rt, is_type(rt.alloc(), *number, wanted), *number, "");
    }
}

fn is_type(alloc: Global, number: u64, wanted: &str) -> bool {
    match composed_type(alloc, number) {
        Ok(value) => says(value, wanted.as_bytes()),
        Err(_) => false,
    }
}
