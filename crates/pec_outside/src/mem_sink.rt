ghost use Rattle.std.specs.Prelude.{◌≡◌, ◌<◌, ◌≤◌, [], ◌++◌, length, take, Some, IsErr, IfOk, OnOk, OnErr};
ghost use Rattle.pec_outside.specs.Flow.{HasRisen, as_u64, u64_of};
ghost use Rattle.pec_outside.specs.Memory.{SinkState, NextFails, no_calls, answered, faulted};

use crate::calls::Calls;
use crate::counts::Counted;
use crate::streams::{Failed, Sink, Stream};
use std::alloc::Global;
use std::marker::Model;

/// A sink that keeps all that is written to it, and fails where it is told. This project's profile.
pub struct MemSink {
    bytes: Vec<u8>,
    calls: Calls,
}

impl Model for MemSink {
    ghost Value = { SinkState };

    ghost view = { λ sink. record { bytes = sink.bytes.items; calls = sink.calls } };
}

impl Drop for MemSink {
    fn drop(self) {
        let MemSink { bytes: _, calls: _ } = self;
    }
}

impl MemSink {
    /// A sink that holds nothing yet. `failing` are the numbers of the writes that fail, counted from 0. It takes no
    /// memory, and keeps the allocator for what is written.
    pub fn new(alloc: Global, failing: Vec<u64>) -> MemSink
        ensures { result ≡ record { bytes = []; calls = no_calls failing.items } }
    {
        MemSink {
            bytes: Vec::new(alloc),
            calls: Calls::new(failing),
        }
    }

    /// All that was written, in order. It takes no memory.
    pub fn bytes(&self) -> &[u8]
        ensures { result.now ≡ self.now.bytes }
    {
        self.bytes.as_slice()
    }
}

impl Counted for MemSink {
    ghost faults = { λ sink. as_u64 sink.calls.faults };

    ghost counted = { λ sink. u64_of sink.calls.faults };
}

impl Stream for MemSink {
    ghost held = { λ sink. Some sink.bytes };
}

impl Sink for MemSink {
    /// As in the trait. It takes the whole piece. It fails where `failing` names the write; want of memory is a fault
    /// too.
    fn write(&mut self, piece: &[u8]) -> Result<usize, Failed>
        ensures within { IfOk result (λ n. n ≤ length piece.now) }
        ensures some { 0 < length piece.now → IfOk result (λ n. 0 < n) }
        ensures taken { IfOk result (λ n. self.new.bytes ≡ self.old.bytes ++ take n piece.now) }
        ensures err { OnErr result (self.new.bytes ≡ self.old.bytes) }
        ensures later { as_u64 self.old.calls.faults ≤ as_u64 self.new.calls.faults }
        ensures cause { OnErr result (HasRisen (as_u64 self.old.calls.faults) (as_u64 self.new.calls.faults)) }

        // Beyond the trait.
        ensures fails { NextFails self.old.calls → IsErr result }
        ensures count { IfOk result (λ n. n ≡ length piece.now) }
        ensures after { OnOk result
            (self.new ≡ record { bytes = self.old.bytes ++ piece.now; calls = answered self.old.calls }) }
        ensures failed { OnErr result (self.new ≡ record self.old { calls = faulted self.old.calls }) }
    {
        self.calls.begin()?;
        if self.bytes.extend_from_slice(piece).is_err() {
            return Err(self.calls.fault());
        }
        Ok(piece.len())
    }
}
