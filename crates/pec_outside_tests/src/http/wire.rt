//! A connection over bytes in memory, which gives and takes them in pieces, and fails at one of its calls.
ghost use Rattle.std.specs.Prelude.{◌<◌, ◌≤◌, vec_len};
ghost use Rattle.pec_outside.specs.Flow.{as_u64, u64_of};

use crate::texts::joined;
use pec_outside::{Counted, Failed, Sink, Source, Stream};
use std::alloc::Global;

/// It tells its content to tests and not to contracts.
pub struct Wire {
    pub input: Vec<u8>,
    /// How many bytes of it were read.
    pub at: usize,
    pub written: Vec<u8>,
    /// The most bytes of a read or a write.
    pub piece: usize,
    /// How many calls there were, reads and writes together.
    pub calls: u64,
    /// The number of the call that fails, from 0.
    pub failing: u64,
    pub faults: u64,
    ghost within: { at ≤ vec_len input },
    ghost some: { 0 < piece },
}

impl Drop for Wire {
    fn drop(self) {
        let Wire {
            input: _,
            at: _,
            written: _,
            piece: _,
            calls: _,
            failing: _,
            faults: _,
        } = self;
    }
}

impl Wire {
    /// A connection that gives this input and takes what is written in pieces of so many bytes.
    pub fn new(alloc: Global, input: &[u8], piece: usize, failing: u64) -> Wire
        requires { 0 < piece }
    {
        Wire {
            input: joined(alloc, &[input]),
            at: 0,
            written: Vec::new(alloc),
            piece,
            calls: 0,
            failing,
            faults: 0,
        }
    }
}

impl Counted for Wire {
    ghost faults = { λ wire. as_u64 wire.faults };

    ghost counted = { λ wire. u64_of wire.faults };
}

impl Stream for Wire {}

impl Source for Wire {
    fn read(&mut self, room: &mut [u8]) -> Result<usize, Failed> {
        let number = self.calls;
        self.calls = number.saturating_add(1);
        if number == self.failing {
            self.faults = self.faults.saturating_add(1);
            return Err(Failed);
        }
        let rest = &self.input[self.at..];
        let count = self.piece.min(room.len()).min(rest.len());
        room[..count].copy_from_slice(&rest[..count]);
        self.at += count;
        Ok(count)
    }
}

impl Sink for Wire {
    fn write(&mut self, piece: &[u8]) -> Result<usize, Failed> {
        let number = self.calls;
        self.calls = number.saturating_add(1);
        let count = self.piece.min(piece.len());
        if number == self.failing || self.written.extend_from_slice(&piece[..count]).is_err() {
            self.faults = self.faults.saturating_add(1);
            return Err(Failed);
        }
        Ok(count)
    }
}
