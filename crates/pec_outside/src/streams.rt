ghost use Rattle.std.specs.Prelude.{◌≡◌, ℕ, ◌<◌, ◌≤◌, List, [], length, take, Option, None, IfOk, IfSome, OnErr, ◌↔◌};
ghost use Rattle.pec_outside.specs.Flow.{behind, followed_by, HasRisen};

use crate::counts::Counted;

/// A call of the outside failed, and the count of faults of the object that was called has risen.
#[derive(Clone, Copy, Debug, PartialEq, Eq)]
pub struct Failed;

/// What bytes come from or go to. One object may be read and written, as a connection is: reading it leaves what was
/// written, and writing it what is still to be read. This project's profile.
pub trait Stream: Counted {
    // The bytes still to come. None: the object doesn't tell, or none are read from it.
    ghost left: { Self → Option (List ℕ) } = { λ _. None };

    // The bytes that were taken so far. None: the object doesn't tell, or none are written to it.
    ghost held: { Self → Option (List ℕ) } = { λ _. None };
}

/// Where bytes come from. This project's profile.
pub trait Source: Stream {
    /// Puts the next bytes at the front of `room` and answers how many, which is at most its length.
    /// Where `room` isn't empty that is 0 exactly at the end. What stands behind these bytes in `room`, and all of it
    /// after `Failed`, is open. A read that fails loses no byte.
    fn read(&mut self, room: &mut [u8]) -> Result<usize, Failed>
        ensures within { IfOk result (λ n. n ≤ length room.old) }
        ensures taken { IfOk result (λ n. Self.left self.old ≡ behind (take n room.new) (Self.left self.new)) }
        ensures end { 0 < length room.old → IfOk result (λ n.
            IfSome (Self.left self.old) (λ bytes. (n ≡ 0) ↔ (bytes ≡ []))) }
        ensures err { OnErr result (Self.left self.new ≡ Self.left self.old) }
        ensures kept { Self.held self.new ≡ Self.held self.old }
        ensures later { Self.faults self.old ≤ Self.faults self.new }
        ensures cause { OnErr result (HasRisen (Self.faults self.old) (Self.faults self.new)) };
}

/// Where bytes go. This project's profile.
pub trait Sink: Stream {
    /// Takes a front of `piece` and answers its length, which isn't 0 where `piece` isn't empty.
    /// A write that fails takes nothing.
    fn write(&mut self, piece: &[u8]) -> Result<usize, Failed>
        ensures within { IfOk result (λ n. n ≤ length piece.now) }
        ensures some { 0 < length piece.now → IfOk result (λ n. 0 < n) }
        ensures taken { IfOk result (λ n. Self.held self.new ≡ followed_by (Self.held self.old) (take n piece.now)) }
        ensures err { OnErr result (Self.held self.new ≡ Self.held self.old) }
        ensures kept { Self.left self.new ≡ Self.left self.old }
        ensures later { Self.faults self.old ≤ Self.faults self.new }
        ensures cause { OnErr result (HasRisen (Self.faults self.old) (Self.faults self.new)) };
}
