ghost use Rattle.std.specs.Prelude.{◌≡◌, ℕ, ◌<◌, ◌≤◌, false, length, vec_capacity, vec_len, IfOk, OnOk, IfErr, IsErrOf};
ghost use Rattle.std.specs.List.{insert};
ghost use Rattle.pec_outside.specs.Depots.{Alike, depot_places};
ghost use Rattle.pec_ledger.specs.Ledger.{Journals};
ghost use Rattle.pec_ledger.specs.Network.{is_up};
ghost use Rattle.pec_ledger.specs.Trade.{Trade};
ghost use Rattle.pec_plays.specs.Commands.{Crash, Crashed, Luck, Restart, played};
ghost use Rattle.pec_network.specs.Carrying.{AllCarryOn, NoneFalls};
ghost use Rattle.pec_network.specs.Changing.{ChangesOnly, CrashedAt, HasRisenAt, SameCounts, StandsAt};
ghost use Rattle.pec_network.specs.Network.{sites};
ghost use Rattle.pec_network.specs.Restarting.{IsFit, IsNotRestarted, IsRestarted, IsUpAt};
ghost use Rattle.pec_network.specs.declared.faults.RestartFault.TheVariants as faults;

use crate::faults::RestartFault;
use crate::laws::{few_providers, what_rests_carries_on};
use crate::network::Network;
use pec_outside::{Depot, Disk};
use pec_provider::{House, a_trade_says_what_its_parts_say};
use pec_screen::Judge;
use pec_seal::Sealer;
use std::alloc::Global;

impl<D: Disk, S: Sealer, J: Judge> Network<D, S, J> {
    /// Crashes a provider, by its number: it is down, over the disk that the depot gives for its own. Its interrupted
    /// entry is kept, and the frames that wait for it stay, as do its screens. It takes no memory.
    pub fn crash<P: Depot<D = D>>(&mut self, provider: u32, depot: &mut P)
        requires { provider < length self.old.kept }
        ensures plays { (trade : Trade) (luck : Luck) → played trade luck (sites self.old) (Crash provider)
            ≡ record { answer = Crashed; after = sites self.new } }
        ensures others { ChangesOnly provider self.old self.new }
        ensures looks { self.new.looks ≡ self.old.looks }
        ensures disk { D.tells → CrashedAt D.sight provider self.old.providers self.new.providers }
        ensures carries { D.tells → (trade : Trade) (journals : Journals) →
            AllCarryOn D.sight trade journals self.old.providers self.new.providers }
        ensures counts { SameCounts D.faults self.old.providers self.new.providers }
        ensures home { P.tells → Alike (P.home depot.old) (P.home depot.new) }
        ensures last { Alike (P.last depot.old) (P.last depot.new) }
        ensures later { P.faults depot.old ≤ P.faults depot.new }
    {
        what_rests_carries_on::<D>();
        few_providers(&self.directory);
        let number = provider as usize;
        let crashed = self.providers.remove(number).crash(depot, provider);
        put_back(&mut self.providers, number, crashed);
    }

    /// Opens a provider again, by its number, over the disk that it has: it is up, over its entries with the
    /// interrupted one or without it, and the answer is how many these are. The first of these refusals that applies is
    /// answered, and leaves all as it was: `Up`, `DiskFault`, `NotFit`, `NoMemory`.
    pub fn restart(&mut self, alloc: Global, provider: u32) -> Result<u64, RestartFault>
        requires { provider < length self.old.kept }

        // Over what it stands on it is played as the command, and `NotFit` doesn't come.
        ensures plays { D.tells → StandsAt D.sight provider self.old.providers → IfOk result (λ entries.
            (trade : Trade) → IsRestarted (λ luck. played trade luck (sites self.old) (Restart provider))
            (sites self.old) provider (sites self.new) entries) }
        ensures fit { D.tells → StandsAt D.sight provider self.old.providers → IfErr result IsFit }
        ensures refused { IfErr result (λ fault. (trade : Trade) →
            IsNotRestarted (λ luck. played trade luck (sites self.old) (Restart provider))
            (sites self.old) provider (sites self.new) fault) }

        // Whatever the disk is, the provider was down and is up.
        ensures down { OnOk result (is_up (sites self.old) provider ≡ false) }
        ensures up { IfOk result (IsUpAt provider self.new.providers) }
        ensures others { ChangesOnly provider self.old self.new }
        ensures looks { self.new.looks ≡ self.old.looks }
        ensures carries { D.tells → (trade : Trade) (journals : Journals) →
            AllCarryOn D.sight trade journals self.old.providers self.new.providers }
        ensures disk_fault { IsErrOf result faults.DiskFault →
            HasRisenAt D.faults provider self.old.providers self.new.providers }
        ensures later { NoneFalls D.faults self.old.providers self.new.providers }
    {
        what_rests_carries_on::<D>();
        a_trade_says_what_its_parts_say();
        let number = provider as usize;
        if !self.providers[number].is_down() {
            return Err(RestartFault::Up);
        }
        let house = House {
            directory: &self.directory,
            sealer: &self.sealer,
            me: provider,
        };
        match self.providers.remove(number).restart(alloc, &house) {
            Ok(opened) => {
                let entries = opened.entries();
                put_back(&mut self.providers, number, opened);
                return Ok(entries);
            }
            Err((fault, down)) => {
                put_back(&mut self.providers, number, down);
                return Err(RestartFault::from(fault));
            }
        }
    }
}

/// Puts an element back at the place from which one was taken.
fn put_back<T>(list: &mut Vec<T>, at: usize, element: T)
    requires place { at ≤ vec_len list.old }
    requires room { vec_len list.old < vec_capacity list.old }
    ensures { list.new.items ≡ insert list.old.items at element }
{
    match list.insert(at, element) {
        Ok(()) => (),
        Err(_) => unreachable!(),
    }
}
