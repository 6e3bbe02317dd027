ghost use Rattle.std.specs.Prelude.{◌≡◌, ◌≢◌, ◌+◌, ◌<◌, ◌≤◌, [], ◌∷◌, ◌++◌, map, drop, slice_index_or, Some, IsErr, IfOk, OnOk, OnErr};
ghost use Rattle.pec_outside.specs.DepotSlots.{failing_of};
ghost use Rattle.pec_outside.specs.Doors.{DoorState, next_of, no_replies, reply_of};
ghost use Rattle.pec_outside.specs.Flow.{HasRisen, as_u64, u64_of};
ghost use Rattle.pec_outside.specs.Memory.{NextFails, faulted};

use crate::calls::Calls;
use crate::counts::Counted;
use crate::door::Door;
use crate::mem_connection::MemConnection;
use crate::replies::Replies;
use crate::streams::Failed;
use pec_types::Text8;
use std::alloc::Global;
use std::collections::VecDeque;
use std::marker::Model;

/// A door at which connections come in over requests in memory. This project's profile.
pub struct MemDoor {
    alloc: Global,
    requests: VecDeque<Vec<u8>>,
    broken: VecDeque<Vec<u64>>,
    replies: Replies,
    faulty: u64,
    calls: Calls,
}

impl Model for MemDoor {
    ghost Value = { DoorState };

    ghost view = { λ door. record {
      requests = map (λ request. request.items) door.requests.items;
      broken = failing_of door.broken.items;
      replies = door.replies;
      faulty = door.faulty;
      calls = door.calls;
    } };
}

impl Drop for MemDoor {
    fn drop(self) {
        let MemDoor {
            alloc: _,
            requests: _,
            broken: _,
            replies: _,
            faulty: _,
            calls: _,
        } = self;
    }
}

impl MemDoor {
    /// A door at which a connection comes in over each request, in order. `failing` are the numbers of the calls of
    /// `accept` that fail, counted from 0. Connection i fails at those of its reads and writes, counted together from
    /// 0, that `broken[i]` names, and at none past the end of the list. It takes no memory, and keeps the allocator.
    pub fn new(
        alloc: Global,
        requests: Vec<Vec<u8>>,
        failing: Vec<u64>,
        broken: Vec<Vec<u64>>,
    ) -> MemDoor
        ensures { result ≡ no_replies (map (λ request. request.items) requests.items) (failing_of broken.items) failing.items }
    {
        MemDoor {
            alloc,
            requests: VecDeque::from_vec(requests),
            broken: VecDeque::from_vec(broken),
            replies: Replies::new(alloc),
            faulty: 0,
            calls: Calls::new(failing),
        }
    }

    /// What was written to the connections that were closed, in the order of their closing. It takes no memory.
    pub fn replies(&self) -> &[Text8]
        ensures { result.now ≡ map (λ reply. reply.text) self.now.replies.all }
    {
        self.replies.texts()
    }

    /// For each reply, whether its connection had faults. It takes no memory.
    pub fn raised(&self) -> &[bool]
        ensures { result.now ≡ map (λ reply. reply.raised) self.now.replies.all }
    {
        self.replies.raised()
    }
}

impl Counted for MemDoor {
    ghost faults = { λ door. as_u64 door.calls.faults };

    ghost counted = { λ door. u64_of door.calls.faults };
}

impl Door for MemDoor {
    type C = MemConnection;

    ghost requests = { λ door. Some door.requests };

    ghost replies = { λ door. Some door.replies.all };

    ghost faulty = { λ door. as_u64 door.faulty };

    ghost out = { λ door. door.replies.out };

    ghost faulty_counted = { λ door. u64_of door.faulty };

    /// As in the trait. It makes the room that `close` needs. It fails where `failing` names the call and where no
    /// request is left; want of memory is a fault too.
    fn accept(&mut self) -> Result<MemConnection, Failed>
        ensures fresh { IfOk result (λ connection. as_u64 connection.calls.faults ≡ 0) }
        ensures came { IfOk result (λ connection. self.old.requests ≡ connection.rest ∷ self.new.requests) }
        ensures empty { IfOk result (λ connection. connection.bytes ≡ []) }
        ensures ok { OnOk result (self.new.replies.out ≡ self.old.replies.out + 1) }
        ensures err { OnErr result (self.new.replies.out ≡ self.old.replies.out) }
        ensures lost { OnErr result (self.new.requests ≡ self.old.requests) }
        ensures replies { self.new.replies.all ≡ self.old.replies.all }
        ensures faulty { as_u64 self.new.faulty ≡ as_u64 self.old.faulty }
        ensures later { as_u64 self.old.calls.faults ≤ as_u64 self.new.calls.faults }
        ensures cause { OnErr result (HasRisen (as_u64 self.old.calls.faults) (as_u64 self.new.calls.faults)) }

        // Beyond the trait.
        ensures fails { NextFails self.old.calls → IsErr result }
        ensures after { IfOk result (λ connection. next_of self.old ≡ Some (connection, self.new)) }
        ensures failed { OnErr result (self.new ≡ record self.old { calls = faulted self.old.calls }) }
    {
        self.calls.begin()?;
        if self.requests.is_empty() || self.replies.expect_one().is_err() {
            return Err(self.calls.fault());
        }
        let Some(request) = self.requests.pop_front() else {
            unreachable!()
        };
        let failing = next_failing(self.alloc, &mut self.broken);
        Ok(MemConnection::new(self.alloc, request, failing))
    }

    /// As in the trait.
    fn close(&mut self, connection: MemConnection)
        requires { 0 < self.old.replies.out }
        ensures replies { self.new.replies.all
            ≡ self.old.replies.all ++ reply_of connection.bytes (as_u64 connection.calls.faults) ∷ [] }
        ensures raised { as_u64 connection.calls.faults ≢ 0 → HasRisen (as_u64 self.old.faulty) (as_u64 self.new.faulty) }
        ensures never_falls { as_u64 self.old.faulty ≤ as_u64 self.new.faulty }
        ensures calm { as_u64 connection.calls.faults ≡ 0 → as_u64 self.new.faulty ≡ as_u64 self.old.faulty }
        ensures out { self.old.replies.out ≡ self.new.replies.out + 1 }
        ensures requests { self.new.requests ≡ self.old.requests }
        ensures later { as_u64 self.old.calls.faults ≤ as_u64 self.new.calls.faults }

        // Beyond the trait.
        ensures rest { (self.new.broken ≡ self.old.broken) × (self.new.calls ≡ self.old.calls) }
    {
        let raised = connection.faults() > 0;
        if raised {
            self.faulty = self.faulty.saturating_add(1);
        }
        self.replies
            .put(Text8::of(connection.into_written()), raised);
    }
}

// Which calls of the next connection fail.
fn next_failing(alloc: Global, broken: &mut VecDeque<Vec<u64>>) -> Vec<u64>
    ensures first { result.items ≡ slice_index_or (failing_of broken.old.items) 0 [] }
    ensures rest { failing_of broken.new.items ≡ drop 1 (failing_of broken.old.items) }
{
    match broken.pop_front() {
        Some(failing) => failing,
        None => Vec::new(alloc),
    }
}
