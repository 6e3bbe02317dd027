ghost use Rattle.std.specs.Prelude.{◌≡◌, ◌+◌, ◌≤◌, ◌↔◌, [], ◌∷◌, ◌++◌, length, IsNone, OnOk, IfOk, OnErr, IfErr};
ghost use Rattle.std.specs.Option.{option_to_list};
ghost use Rattle.pec_link.specs.Ends.{ArePair, AreSettled, waiting_on};

use pec_types::{Frame, NoMemory};
use rtrb::{Consumer, Producer, PushError, RingBuffer};
use std::alloc::Global;
use std::marker::Model;

/// The most frames that wait on a link. This project's profile.
pub const MOST_FRAMES: usize = 64;

/// The end of a link that puts frames. It may be held by another thread than the end that takes them. Contracts see
/// which ring it belongs to, all that was ever put, and how many places it knows to be free.
#[derive(Drop)]
pub struct Putter {
    end: Producer<Frame>,
}

impl Model for Putter {
    ghost use Rattle.std.specs.Prelude.{◌≡◌};
    ghost use Rattle.rtrb.specs.Ring.{sent, known_free, producer_capacity};
    ghost use Rattle.pec_link.specs.Ends.{Putting};
    ghost use Rattle.pec_link.specs.declared.ends.TheConstants.{MOST_FRAMES};

    ghost Value = { Putting };

    ghost view = { λ putter. record {
      ring = record { words = putter.end.end.words; slots = putter.end.end.slots; names = putter.end.end.names; heap = putter.end.end.heap };
      put = sent putter.end;
      free = known_free putter.end;
    } };

    ghost invariant = { λ putter. producer_capacity putter.end ≡ MOST_FRAMES };
}

/// The end of a link that takes frames. Contracts see which ring it belongs to, all that was ever taken, and the frames
/// that it knows to wait, oldest first.
#[derive(Drop)]
pub struct Taker {
    end: Consumer<Frame>,
}

impl Model for Taker {
    ghost use Rattle.rtrb.specs.Ring.{received, known_items};
    ghost use Rattle.pec_link.specs.Ends.{Taking};

    ghost Value = { Taking };

    ghost view = { λ taker. record {
      ring = record { words = taker.end.end.words; slots = taker.end.end.slots; names = taker.end.end.names; heap = taker.end.end.heap };
      taken = received taker.end;
      waiting = known_items taker.end;
    } };
}

/// The two ends of a new link, on which no frame waits.
pub fn new_link(alloc: Global) -> Result<(Putter, Taker), NoMemory>
    ensures settled { IfOk result (λ ends. AreSettled ends.0 ends.1) }
    ensures none { IfOk result (λ ends. ends.1.waiting ≡ []) }
    ensures nothing_put { IfOk result (λ ends. ends.0.put ≡ []) }
{
    let (putter, taker) = RingBuffer::new(alloc, MOST_FRAMES)?;
    Ok((Putter { end: putter }, Taker { end: taker }))
}

/// How many frames wait on the link of these two ends. From then on the putter knows all free places, and the taker all
/// frames that wait. It takes no memory.
pub fn waiting(putter: &mut Putter, taker: &mut Taker) -> usize
    requires { ArePair putter.old taker.old }
    ensures settled { AreSettled putter.new taker.new }
    ensures ring { putter.new.ring ≡ putter.old.ring }
    ensures put { putter.new.put ≡ putter.old.put }
    ensures taken { taker.new.taken ≡ taker.old.taken }
    ensures frames { taker.new.waiting ≡ waiting_on putter.old taker.old }
    ensures count { result ≡ length taker.new.waiting }
{
    putter.end.slots_beside(&mut taker.end);
    taker.end.slots_beside(&mut putter.end)
}

impl Putter {
    /// Puts a frame behind all that was put, or hands it back. It takes no memory.
    pub fn put(&mut self, frame: Frame) -> Result<(), Frame>
        ensures ring { self.new.ring ≡ self.old.ring }
        ensures put { OnOk result (self.new.put ≡ self.old.put ++ frame ∷ []) }
        ensures room { OnOk result (self.old.free ≤ self.new.free + 1) }
        // It comes back only where no place is known to be free: where at least as many frames were put since `waiting`
        // as there were free places then. All that was put is then as before.
        ensures full { OnErr result (self.old.free ≡ 0) }
        ensures back { IfErr result (λ given. given ≡ frame) }
        ensures unchanged { OnErr result (self.new.put ≡ self.old.put) }
    {
        match self.end.push(frame) {
            Ok(()) => Ok(()),
            Err(PushError::Full(frame)) => Err(frame),
        }
    }
}

impl Taker {
    /// Takes the frame that has waited longest; none exactly where none is known to wait: where as many frames were
    /// taken since `waiting` as waited then. It takes no memory.
    pub fn take(&mut self) -> Option<Frame>
        ensures ring { self.new.ring ≡ self.old.ring }
        ensures taken { self.new.taken ≡ self.old.taken ++ option_to_list result }
        ensures waiting { self.old.waiting ≡ option_to_list result ++ self.new.waiting }
        ensures none { IsNone result ↔ (self.old.waiting ≡ []) }
    {
        if self.known() == 0 {
            return None;
        }
        Some(self.end.pop_known())
    }

    /// How many frames are known to wait. It takes no memory.
    pub fn known(&self) -> usize
        ensures { result ≡ length self.now.waiting }
    {
        self.end.cached_slots()
    }
}
