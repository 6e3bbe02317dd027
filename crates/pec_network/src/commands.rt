ghost use Rattle.std.specs.Prelude.{◌≡◌, ◌<◌, ◌≤◌, length, slice_index_or};
ghost use Rattle.pec_directory.specs.Directory.{providers_of};
ghost use Rattle.pec_records.specs.Entry.{longest_message, most_addresses};
ghost use Rattle.pec_plays.specs.Commands.{Marks, Submit, Submits, Tick, finds_at};
ghost use Rattle.pec_points.specs.Case.{case_at};
ghost use Rattle.pec_provider.specs.Provider.{ProviderState};
ghost use Rattle.pec_provider.specs.Ticking.{Ticks};
ghost use Rattle.pec_network.specs.Changing.{ConcernsOne};
ghost use Rattle.pec_network.specs.Looking.{OnlyLooks};
ghost use Rattle.pec_network.specs.Network.{sites, world_of};
ghost use Rattle.pec_network.specs.Playing.{IsPlayedOver};

use crate::laws::what_rests_carries_on;
use crate::network::Network;
use pec_outside::Disk;
use pec_provider::House;
use pec_screen::Judge;
use pec_seal::Sealer;
use pec_types::{Address, Mark, Moment, ProviderFault, Steps, Submitted};
use std::alloc::Global;

/// Commands of one provider, by its number in the directory.
impl<D: Disk, S: Sealer, J: Judge> Network<D, S, J> {
    /// Hands a provider a message that an account submits for a forward path, in bytes as it was handed in. The first
    /// of these refusals that applies is answered, and leaves all as it was, but for how often screens have looked:
    /// `NoAccount`, `Down`, `ClockBack`, `Full`, `NoMemory`, `JournalFull`. After `DiskFault` the provider is down. Its
    /// screens look where none of the first four applies and no row of the admission table before theirs does.
    pub fn submit(
        &mut self,
        alloc: Global,
        provider: u32,
        moment: Moment,
        sender: &Address,
        path: &[Address],
        message: &[u8],
    ) -> Result<Submitted, ProviderFault>
        requires provider { provider < length self.old.kept }
        requires path { (0 < length path.now) × (length path.now ≤ most_addresses) }
        requires message { length message.now ≤ longest_message }
        ensures plays { IsPlayedOver S.seals Submits (Submit provider moment sender.now path.now message.now)
            self.old self.new result }
        // Each of the provider's screens has looked once exactly where the message came to them, also where it is
        // refused then; no other has.
        ensures looked { OnlyLooks provider (case_at (providers_of self.old.kept) provider sender.now path.now
            message.now (finds_at (sites self.old) provider message.now)) self.old.looks self.new.looks result }
        // No other provider is touched; the disks carry on; a fault of its disk is told only where that count rose.
        ensures concerns { ConcernsOne D.sight D.faults D.tells S.seals provider self.old self.new result }
    {
        what_rests_carries_on::<D>();
        let house = House {
            directory: &self.directory,
            sealer: &self.sealer,
            me: provider,
        };
        let at = provider as usize;
        let screens = &mut self.judges[at];
        self.providers[at].submit(alloc, &house, moment, sender, path, message, screens)
    }

    /// Has a provider look at the clock: the marks that are due by then are set, and told. The first of these refusals
    /// that applies is answered, and leaves all as it was: `Down`, `ClockBack`, `NoMemory`, `JournalFull`. After
    /// `DiskFault` the provider is down. Each acceptance that is looked up is a step.
    pub fn tick(
        &mut self,
        alloc: Global,
        provider: u32,
        moment: Moment,
        steps: &mut Steps,
    ) -> Result<Vec<Mark>, ProviderFault>
        requires { provider < length self.old.kept }
        ensures plays { IsPlayedOver S.seals (λ marks. Marks marks.items) (Tick provider moment)
            self.old self.new result }
        ensures concerns { ConcernsOne D.sight D.faults D.tells S.seals provider self.old self.new result }
        ensures looks { self.new.looks ≡ self.old.looks }
        // At most two more acceptances are looked up than limits of pairs pass in the call, and as many as pass on Ok.
        ensures looked { (other : ProviderState D) → Ticks (world_of S.seals self.old) provider moment
            (slice_index_or self.old.providers provider other) (slice_index_or self.new.providers provider other)
            steps.old steps.new result }
    {
        what_rests_carries_on::<D>();
        let house = House {
            directory: &self.directory,
            sealer: &self.sealer,
            me: provider,
        };
        self.providers[provider as usize].tick(alloc, &house, moment, steps)
    }
}
