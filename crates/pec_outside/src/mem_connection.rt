ghost use Rattle.std.specs.Prelude.{◌≡◌, ◌<◌, ◌≤◌, min, [], ◌++◌, length, take, drop, Some, IsErr, IfOk, OnOk, OnErr, ◌↔◌};
ghost use Rattle.pec_outside.specs.Doors.{ConnectionState, unread};
ghost use Rattle.pec_outside.specs.Flow.{HasRisen, as_u64, u64_of};
ghost use Rattle.pec_outside.specs.Memory.{NextFails, answered, faulted};

use crate::calls::Calls;
use crate::counts::Counted;
use crate::streams::{Failed, Sink, Source, Stream};
use crate::unread::Unread;
use std::alloc::Global;
use std::marker::Model;

/// A connection in memory, of a `MemDoor`. This project's profile.
pub struct MemConnection {
    request: Unread,
    written: Vec<u8>,
    calls: Calls,
}

impl Model for MemConnection {
    ghost Value = { ConnectionState };

    ghost view = { λ connection. record {
      rest = connection.request;
      bytes = connection.written.items;
      calls = connection.calls;
    } };
}

impl Drop for MemConnection {
    fn drop(self) {
        let MemConnection {
            request: _,
            written: _,
            calls: _,
        } = self;
    }
}

impl MemConnection {
    /// A connection over a request. `failing` are the numbers of its reads and writes that fail, counted together from
    /// 0.
    pub(crate) fn new(alloc: Global, request: Vec<u8>, failing: Vec<u64>) -> MemConnection
        ensures { result ≡ unread request.items failing.items }
    {
        MemConnection {
            request: Unread::new(request),
            written: Vec::new(alloc),
            calls: Calls::new(failing),
        }
    }

    /// How many of its calls failed.
    pub(crate) fn faults(&self) -> u64
        ensures { result ≡ self.now.calls.faults }
    {
        self.calls.faults()
    }

    /// What was written to it.
    pub(crate) fn into_written(self) -> Vec<u8>
        ensures { result.items ≡ self.bytes }
    {
        let MemConnection {
            request: _,
            written,
            calls: _,
        } = self;
        written
    }
}

impl Counted for MemConnection {
    ghost faults = { λ connection. as_u64 connection.calls.faults };

    ghost counted = { λ connection. u64_of connection.calls.faults };
}

impl Stream for MemConnection {
    ghost left = { λ connection. Some connection.rest };

    ghost held = { λ connection. Some connection.bytes };
}

impl Source for MemConnection {
    /// As in the trait. It fails exactly where the call is named, and gives as many bytes as the room and the rest
    /// allow.
    fn read(&mut self, room: &mut [u8]) -> Result<usize, Failed>
        ensures within { IfOk result (λ n. n ≤ length room.old) }
        ensures taken { IfOk result (λ n. self.old.rest ≡ take n room.new ++ self.new.rest) }
        ensures end { 0 < length room.old → IfOk result (λ n. (n ≡ 0) ↔ (self.old.rest ≡ [])) }
        ensures err { OnErr result (self.new.rest ≡ self.old.rest) }
        ensures kept { self.new.bytes ≡ self.old.bytes }
        ensures later { as_u64 self.old.calls.faults ≤ as_u64 self.new.calls.faults }
        ensures cause { OnErr result (HasRisen (as_u64 self.old.calls.faults) (as_u64 self.new.calls.faults)) }

        // Beyond the trait.
        ensures fails { IsErr result ↔ NextFails self.old.calls }
        ensures count { IfOk result (λ n. n ≡ min (length room.old) (length self.old.rest)) }
        ensures given { IfOk result (λ n. room.new ≡ take n self.old.rest ++ drop n room.old) }
        ensures after { IfOk result (λ n.
            self.new ≡ record self.old { rest = drop n self.old.rest; calls = answered self.old.calls }) }
        ensures failed { OnErr result (self.new ≡ record self.old { calls = faulted self.old.calls }) }
        ensures unchanged { OnErr result (room.new ≡ room.old) }
    {
        self.calls.begin()?;
        let most = room.len();
        Ok(self.request.read(room, most))
    }
}

impl Sink for MemConnection {
    /// As in the trait. It takes the whole piece. It fails where the call is named; want of memory is a fault too.
    fn write(&mut self, piece: &[u8]) -> Result<usize, Failed>
        ensures within { IfOk result (λ n. n ≤ length piece.now) }
        ensures some { 0 < length piece.now → IfOk result (λ n. 0 < n) }
        ensures taken { IfOk result (λ n. self.new.bytes ≡ self.old.bytes ++ take n piece.now) }
        ensures err { OnErr result (self.new.bytes ≡ self.old.bytes) }
        ensures kept { self.new.rest ≡ self.old.rest }
        ensures later { as_u64 self.old.calls.faults ≤ as_u64 self.new.calls.faults }
        ensures cause { OnErr result (HasRisen (as_u64 self.old.calls.faults) (as_u64 self.new.calls.faults)) }

        // Beyond the trait.
        ensures fails { NextFails self.old.calls → IsErr result }
        ensures count { IfOk result (λ n. n ≡ length piece.now) }
        ensures after { OnOk result
            (self.new ≡ record self.old { bytes = self.old.bytes ++ piece.now; calls = answered self.old.calls }) }
        ensures failed { OnErr result (self.new ≡ record self.old { calls = faulted self.old.calls }) }
    {
        self.calls.begin()?;
        if self.written.extend_from_slice(piece).is_err() {
            return Err(self.calls.fault());
        }
        Ok(piece.len())
    }
}
