ghost use Rattle.std.specs.Prelude.{◌≡◌, ◌+◌, ◌<◌, ◌≤◌, ◌↔◌, [], ◌∷◌, ◌++◌, length, IsNone, OnOk, IfOk, OnErr, IfErr};
ghost use Rattle.std.specs.Option.{option_to_list};
ghost use Rattle.pec_link.specs.Ends.{ArePair, AreSettled, waiting_on};
ghost use Rattle.pec_link.specs.Links.{repeated, swapped, without};
ghost use Rattle.pec_link.specs.declared.ends.TheConstants.{MOST_FRAMES};
ghost use Rattle.pec_link.specs.declared.faults.LinkFault.TheVariants as faults;

use crate::ends::{MOST_FRAMES, Putter, Taker, new_link, waiting};
use crate::faults::LinkFault;
use crate::turning;
use pec_types::{Frame, NoMemory};
use std::alloc::Global;
use std::marker::Model;

/// Both ends of a link at rest: no frame waits that the taker doesn't know. Contracts see the frames that wait, oldest
/// first, at most 64.
#[derive(Drop)]
pub struct Link {
    putter: Putter,
    taker: Taker,
}

impl Model for Link {
    ghost use Rattle.std.specs.Prelude.{List};
    ghost use Rattle.pec_types.specs.Bytes.{Bytes};
    ghost use Rattle.pec_link.specs.Ends.{AreSettled};

    ghost Value = { List Bytes };

    ghost view = { λ link. link.taker.waiting };

    ghost invariant = { λ link. AreSettled link.putter link.taker };
}

impl Link {
    /// A link on which no frame waits.
    pub fn new(alloc: Global) -> Result<Link, NoMemory>
        ensures { IfOk result (λ link. link ≡ []) }
    {
        let (putter, taker) = new_link(alloc)?;
        Ok(Link { putter, taker })
    }

    /// The link of these two ends. It takes no memory.
    pub fn of(mut putter: Putter, mut taker: Taker) -> Link
        requires { ArePair putter taker }
        ensures { result ≡ waiting_on putter taker }
    {
        waiting(&mut putter, &mut taker);
        Link { putter, taker }
    }

    /// Its two ends, which may go to two threads. Each knows all of the other. It takes no memory.
    pub fn into_ends(self) -> (Putter, Taker)
        ensures settled { AreSettled result.0 result.1 }
        ensures waiting { result.1.waiting ≡ self }
    {
        let Link {
            mut putter,
            mut taker,
        } = self;
        waiting(&mut putter, &mut taker);
        (putter, taker)
    }

    /// Puts a frame behind those that wait, or hands it back. It takes no memory.
    pub fn put(&mut self, frame: Frame) -> Result<(), Frame>
        ensures put { OnOk result (self.new ≡ self.old ++ frame ∷ []) }
        ensures room { OnOk result (length self.old < MOST_FRAMES) }
        // It comes back exactly where 64 frames wait, and the link is as before.
        ensures full { OnErr result (length self.old ≡ MOST_FRAMES) }
        ensures back { IfErr result (λ given. given ≡ frame) }
        ensures unchanged { OnErr result (self.new ≡ self.old) }
    {
        if self.room() == 0 {
            return Err(frame);
        }
        turning::put_last(&mut self.putter, &mut self.taker, frame);
        Ok(())
    }

    /// Takes the frame that has waited longest; none exactly where none waits. It takes no memory.
    pub fn take(&mut self) -> Option<Frame>
        ensures taken { self.old ≡ option_to_list result ++ self.new }
        ensures none { IsNone result ↔ (self.old ≡ []) }
    {
        let frame = self.taker.take();
        waiting(&mut self.putter, &mut self.taker);
        frame
    }

    /// How many more frames the link holds. It takes no memory.
    pub fn room(&self) -> usize
        ensures { result + length self.now ≡ MOST_FRAMES }
    {
        MOST_FRAMES - self.taker.known()
    }

    /// How many frames wait. It takes no memory.
    pub fn waiting(&self) -> usize
        ensures waiting { result ≡ length self.now }
        ensures bounded { result ≤ MOST_FRAMES }
    {
        self.taker.known()
    }

    /// Takes out the frame at a place, counted from 0, and forgets it. `NoFrame` exactly where no frame waits there. It
    /// takes no memory.
    pub fn lose(&mut self, place: usize) -> Result<(), LinkFault>
        ensures lost { OnOk result ((place < length self.old) × (self.new ≡ without place self.old)) }
        ensures no_frame { IfErr result (λ fault. (fault ≡ faults.NoFrame) × (length self.old ≤ place)) }
        ensures unchanged { OnErr result (self.new ≡ self.old) }
    {
        turning::lose(&mut self.putter, &mut self.taker, place)
    }

    /// Exchanges the frame at a place, counted from 0, with the next one. `NoFrame` exactly where one of the two
    /// doesn't wait. It takes no memory.
    pub fn swap(&mut self, place: usize) -> Result<(), LinkFault>
        ensures swapped { OnOk result ((place + 1 < length self.old) × (self.new ≡ swapped place self.old)) }
        ensures no_frame { IfErr result (λ fault. (fault ≡ faults.NoFrame) × (length self.old ≤ place + 1)) }
        ensures unchanged { OnErr result (self.new ≡ self.old) }
    {
        turning::swap(&mut self.putter, &mut self.taker, place)
    }

    /// Puts a copy of the frame at a place, counted from 0, behind those that wait. `NoFrame` exactly where no frame
    /// waits there, and otherwise `Full` exactly where 64 wait.
    pub fn repeat(&mut self, alloc: Global, place: usize) -> Result<(), LinkFault>
        ensures repeated { OnOk result ((place < length self.old) × (length self.old < MOST_FRAMES) × (self.new ≡ repeated place self.old)) }
        ensures no_frame { IfErr result (λ fault. fault ≡ faults.NoFrame → length self.old ≤ place) }
        ensures full { IfErr result (λ fault. fault ≡ faults.Full → (place < length self.old) × (length self.old ≡ MOST_FRAMES)) }
        ensures unchanged { OnErr result (self.new ≡ self.old) }
    {
        turning::repeat(alloc, &mut self.putter, &mut self.taker, place)
    }
}
