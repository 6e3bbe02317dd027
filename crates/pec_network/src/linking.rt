ghost use Rattle.std.specs.Prelude.{◌≡◌, ◌<◌, length};
ghost use Rattle.pec_ledger.specs.Trade.{Trade};
ghost use Rattle.pec_plays.specs.Commands.{Inject, Injected, Lose, Lost, Luck, Repeat, Repeated, Swap, Swapped, played};
ghost use Rattle.pec_network.specs.Network.{sites};
ghost use Rattle.pec_network.specs.Playing.{IsPlayedOnLink};

use crate::network::Network;
use pec_link::LinkFault;
use pec_screen::Judge;
use pec_seal::Sealer;
use pec_types::Frame;
use std::alloc::Global;

/// What may befall the frames on the link from one provider to another, at a place counted from 0. After a refusal all
/// is as it was.
impl<D, S: Sealer, J: Judge> Network<D, S, J> {
    /// Loses a frame. `NoFrame` exactly where none waits at the place. It takes no memory.
    pub fn lose(&mut self, from: u32, to: u32, place: usize) -> Result<(), LinkFault>
        requires from { from < length self.old.kept }
        requires to { to < length self.old.kept }
        ensures plays { (trade : Trade) (luck : Luck) →
            IsPlayedOnLink Lost (played trade luck (sites self.old) (Lose from to place))
            (sites self.old) (sites self.new) result }
        ensures others { self.new ≡ record self.old { waiting = self.new.waiting } }
    {
        self.arrivals[to as usize].lose(from, place)
    }

    /// Puts a copy of a frame behind those that wait. `NoFrame` exactly where none waits at the place, and otherwise
    /// `Full` exactly where 64 wait.
    pub fn repeat(
        &mut self,
        alloc: Global,
        from: u32,
        to: u32,
        place: usize,
    ) -> Result<(), LinkFault>
        requires from { from < length self.old.kept }
        requires to { to < length self.old.kept }
        ensures plays { (trade : Trade) (luck : Luck) →
            IsPlayedOnLink Repeated (played trade luck (sites self.old) (Repeat from to place))
            (sites self.old) (sites self.new) result }
        ensures others { self.new ≡ record self.old { waiting = self.new.waiting } }
    {
        self.arrivals[to as usize].repeat(alloc, from, place)
    }

    /// Exchanges a frame with the next one. `NoFrame` exactly where one of the two doesn't wait. It takes no memory.
    pub fn swap(&mut self, from: u32, to: u32, place: usize) -> Result<(), LinkFault>
        requires from { from < length self.old.kept }
        requires to { to < length self.old.kept }
        ensures plays { (trade : Trade) (luck : Luck) →
            IsPlayedOnLink Swapped (played trade luck (sites self.old) (Swap from to place))
            (sites self.old) (sites self.new) result }
        ensures others { self.new ≡ record self.old { waiting = self.new.waiting } }
    {
        self.arrivals[to as usize].swap(from, place)
    }

    /// Puts a frame from outside behind those that wait. `Full` exactly where 64 wait. It takes no memory.
    pub fn inject(&mut self, from: u32, to: u32, frame: Frame) -> Result<(), LinkFault>
        requires from { from < length self.old.kept }
        requires to { to < length self.old.kept }
        ensures plays { (trade : Trade) (luck : Luck) →
            IsPlayedOnLink Injected (played trade luck (sites self.old) (Inject from to frame))
            (sites self.old) (sites self.new) result }
        ensures others { self.new ≡ record self.old { waiting = self.new.waiting } }
    {
        self.arrivals[to as usize].inject(from, frame)
    }
}
