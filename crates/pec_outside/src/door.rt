ghost use Rattle.std.specs.Prelude.{◌≡◌, ◌≢◌, ℕ, ◌+◌, ◌<◌, ◌≤◌, ◌^◌, List, [], Option, Some, IfOk, OnOk, OnErr, IfSome};
ghost use Rattle.pec_outside.specs.Doors.{Reply, in_front, replied};
ghost use Rattle.pec_outside.specs.Flow.{HasRisen};

use crate::counts::Counted;
use crate::streams::{Failed, Sink, Source};

/// Where connections come in. Each has a count of faults of its own. This project's profile.
pub trait Door: Counted {
    type C: Source + Sink;

    // What the connections still to come have to be read, in order. None: the door doesn't tell.
    ghost requests: { Self → Option (List (List ℕ)) };

    // The replies to the connections that were closed, in order. None: the door doesn't tell.
    ghost replies: { Self → Option (List Reply) };

    // How many connections were closed with faults, a count as the one of faults is. Each door tells it.
    ghost faulty: { Self → ℕ };

    // How many connections were accepted and aren't closed.
    ghost out: { Self → ℕ };

    /// Accepts the next connection, which has no faults yet. A call that fails loses none.
    fn accept(&mut self) -> Result<Self::C, Failed>
        ensures fresh { IfOk result (λ connection. Self.C.faults connection ≡ 0) }
        ensures came { IfOk result (λ connection. requests self.old ≡ in_front (Self.C.left connection) (requests self.new)) }
        ensures empty { IfOk result (λ connection. IfSome (replies self.old) (λ _. Self.C.held connection ≡ Some [])) }
        ensures ok { OnOk result (out self.new ≡ out self.old + 1) }
        ensures err { OnErr result (out self.new ≡ out self.old) }
        ensures lost { OnErr result (requests self.new ≡ requests self.old) }
        ensures replies { replies self.new ≡ replies self.old }
        ensures faulty { faulty self.new ≡ faulty self.old }
        ensures later { Self.faults self.old ≤ Self.faults self.new }
        ensures cause { OnErr result (HasRisen (Self.faults self.old) (Self.faults self.new)) };

    /// Takes a connection back that was accepted, answered or not. What was written to it is its reply. It takes no
    /// memory.
    fn close(&mut self, connection: Self::C)
        requires { 0 < out self.old }
        ensures replies { replies self.new
            ≡ replied (replies self.old) (Self.C.held connection) (Self.C.faults connection) }
        ensures raised { Self.C.faults connection ≢ 0 → HasRisen (faulty self.old) (faulty self.new) }
        ensures never_falls { faulty self.old ≤ faulty self.new }
        ensures calm { Self.C.faults connection ≡ 0 → faulty self.new ≡ faulty self.old }
        ensures out { out self.old ≡ out self.new + 1 }
        ensures requests { requests self.new ≡ requests self.old }
        ensures later { Self.faults self.old ≤ Self.faults self.new };

    // The count of connections with faults is a u64.
    ghost faulty_counted: { (door : Self) → faulty door < 2 ^ 64 };
}
