//! Sources and sinks in memory: pieces of any length, and calls that fail.
use crate::rows::holds_at;
use crate::texts::{are_these, calls, joined};
use pec_outside::{Failed, MemSink, MemSource, Sink, Source, write_all};
use std::alloc::Global;

const TEXT: &[u8] = b"accepted pec.0000000@alfa.example";

#[test]
fn pieces_of_any_length_give_the_whole_text(rt: HostRuntime) {
    for piece in [1, 3, 100] {
        holds_at(
            &rt,
            is_copied(rt.alloc(), piece),
            piece as u64,
            "bytes a piece",
        );
    }
}

fn is_copied(alloc: Global, piece: usize) -> bool {
    let mut input = input_of(alloc, piece, &[]);
    let mut out = output_of(alloc, &[]);
    copies_all(&mut input, &mut out)
}

/// Whether a copy gives the rest of the text.
fn copies_all(input: &mut MemSource, out: &mut MemSink) -> bool {
    copy(input, out).is_ok() && are_these(out.bytes(), TEXT)
}

// A read that fails loses nothing: the second copy goes on where the first one stopped.
#[test]
fn each_read_can_fail_once(rt: HostRuntime) {
    for number in 0..12 {
        holds_at(&rt, fails_at_read(rt.alloc(), number), number, "");
    }
}

fn fails_at_read(alloc: Global, number: u64) -> bool {
    let mut input = input_of(alloc, 3, &[number]);
    let mut out = output_of(alloc, &[]);
    stops_behind(&mut input, &mut out, number) && copies_all(&mut input, &mut out)
}

/// Whether a copy fails behind so many pieces of three bytes.
fn stops_behind(input: &mut MemSource, out: &mut MemSink, pieces: u64) -> bool {
    copy(input, out).is_err()
        && out.bytes().len() as u64 == pieces.saturating_mul(3)
        && TEXT.starts_with(out.bytes())
}

// A write that fails keeps nothing of its piece, and what was written before stays.
#[test]
fn each_write_can_fail_once(rt: HostRuntime) {
    for number in 0..11 {
        holds_at(&rt, fails_at_write(rt.alloc(), number), number, "");
    }
}

fn fails_at_write(alloc: Global, number: u64) -> bool {
    let mut input = input_of(alloc, 3, &[]);
    let mut out = output_of(alloc, &[number]);
    stops_behind(&mut input, &mut out, number) && is_completed(&mut out)
}

/// Whether the text is there once its rest is written.
fn is_completed(out: &mut MemSink) -> bool {
    match TEXT.get(out.bytes().len()..) {
        Some(rest) => write_all(out, rest).is_ok() && are_these(out.bytes(), TEXT),
        None => false,
    }
}

/// A source of the text in pieces of so many bytes, which fails at these reads.
fn input_of(alloc: Global, piece: usize, reads: &[u64]) -> MemSource {
    MemSource::new(
        alloc,
        joined(alloc, &[TEXT]),
        piece.max(1),
        calls(alloc, reads),
    )
}

/// A sink that fails at these writes.
fn output_of(alloc: Global, writes: &[u64]) -> MemSink {
    MemSink::new(alloc, calls(alloc, writes))
}

// Copies what the source still has, through the bounds alone.
fn copy<S: Source, W: Sink>(input: &mut S, out: &mut W) -> Result<(), Failed> {
    let mut room = [0; 8];
    for _ in 0..u64::MAX {
        let count = input.read(&mut room)?;
        if count == 0 {
            break;
        }
        write_all(out, &room[..count])?;
    }
    Ok(())
}
