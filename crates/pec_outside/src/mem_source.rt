ghost use Rattle.std.specs.Prelude.{◌≡◌, ◌<◌, ◌≤◌, min, [], ◌++◌, length, take, drop, Some, IsErr, IfOk, OnErr, ◌↔◌};
ghost use Rattle.pec_outside.specs.Flow.{HasRisen, as_u64, u64_of};
ghost use Rattle.pec_outside.specs.Memory.{SourceState, NextFails, no_calls, answered, faulted};

use crate::calls::Calls;
use crate::counts::Counted;
use crate::streams::{Failed, Source, Stream};
use crate::unread::Unread;
use std::alloc::Global;
use std::marker::Model;

/// A source over bytes in memory, which gives them in pieces and fails where it is told. This project's profile.
pub struct MemSource {
    rest: Unread,
    piece: usize,
    calls: Calls,
}

impl Model for MemSource {
    ghost Value = { SourceState };

    ghost view = { λ source. record { rest = source.rest; piece = source.piece; calls = source.calls } };

    ghost invariant = { λ source. 0 < source.piece };
}

impl Drop for MemSource {
    fn drop(self) {
        let MemSource {
            rest: _,
            piece: _,
            calls: _,
        } = self;
    }
}

impl MemSource {
    /// A source of these bytes that gives at most `piece` of them a read. `failing` are the numbers of the reads that
    /// fail, counted from 0. It is given the allocator as each memory form is, and needs no memory.
    pub fn new(_alloc: Global, bytes: Vec<u8>, piece: usize, failing: Vec<u64>) -> MemSource
        requires { 0 < piece }
        ensures { result ≡ record { rest = bytes.items; piece = piece; calls = no_calls failing.items } }
    {
        MemSource {
            rest: Unread::new(bytes),
            piece,
            calls: Calls::new(failing),
        }
    }
}

impl Counted for MemSource {
    ghost faults = { λ source. as_u64 source.calls.faults };

    ghost counted = { λ source. u64_of source.calls.faults };
}

impl Stream for MemSource {
    ghost left = { λ source. Some source.rest };
}

impl Source for MemSource {
    /// As in the trait. It fails exactly where `failing` names the read, and gives as many bytes as the piece, the room
    /// and the rest allow.
    fn read(&mut self, room: &mut [u8]) -> Result<usize, Failed>
        ensures within { IfOk result (λ n. n ≤ length room.old) }
        ensures taken { IfOk result (λ n. self.old.rest ≡ take n room.new ++ self.new.rest) }
        ensures end { 0 < length room.old → IfOk result (λ n. (n ≡ 0) ↔ (self.old.rest ≡ [])) }
        ensures err { OnErr result (self.new.rest ≡ self.old.rest) }
        ensures later { as_u64 self.old.calls.faults ≤ as_u64 self.new.calls.faults }
        ensures cause { OnErr result (HasRisen (as_u64 self.old.calls.faults) (as_u64 self.new.calls.faults)) }

        // Beyond the trait.
        ensures fails { IsErr result ↔ NextFails self.old.calls }
        ensures count { IfOk result (λ n. n ≡ min self.old.piece (min (length room.old) (length self.old.rest))) }
        ensures given { IfOk result (λ n. room.new ≡ take n self.old.rest ++ drop n room.old) }
        ensures after { IfOk result (λ n.
            self.new ≡ record self.old { rest = drop n self.old.rest; calls = answered self.old.calls }) }
        ensures failed { OnErr result (self.new ≡ record self.old { calls = faulted self.old.calls }) }
        ensures unchanged { OnErr result (room.new ≡ room.old) }
    {
        self.calls.begin()?;
        Ok(self.rest.read(room, self.piece))
    }
}
