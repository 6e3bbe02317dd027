ghost use Rattle.std.specs.Prelude.{◌≡◌, ◌<◌, length};
ghost use Rattle.std.specs.Option.{unwrap_or};
ghost use Rattle.pec_plays.specs.Commands.{Archive, Archived, Upgrade, Upgraded};
ghost use Rattle.pec_network.specs.Changing.{ConcernsOne};
ghost use Rattle.pec_network.specs.Network.{world_of};
ghost use Rattle.pec_network.specs.Playing.{IsPlayedOver};

use crate::laws::what_rests_carries_on;
use crate::network::Network;
use pec_outside::Disk;
use pec_provider::{House, ProviderFault, a_trade_says_what_its_parts_say};
use pec_screen::Judge;
use pec_seal::Sealer;
use pec_types::{Address, Moment};
use std::alloc::Global;

/// Archives, and journals of version 2. After a refusal all is as it was; after `DiskFault` the provider is down.
impl<D: Disk, S: Sealer, J: Judge> Network<D, S, J> {
    /// Moves the item at a place of an account's mailbox, counted from 0, to the end of the account's archive. The
    /// first of these refusals that applies is answered: `NoAccount`, also where the address is that of no provider;
    /// `Down`, `ClockBack`, `NoItem` where the mailbox has none there, `OldJournal` where the journal is of version 1,
    /// `NoMemory`, `JournalFull`, `DiskFault`.
    pub fn archive(
        &mut self,
        alloc: Global,
        moment: Moment,
        account: &Address,
        place: u32,
    ) -> Result<(), ProviderFault>
        ensures plays { IsPlayedOver S.seals (λ done. Archived) (Archive account.now moment place)
            self.old self.new result }
        // It concerns the provider where the account is at home.
        ensures concerns { ConcernsOne D.sight D.faults D.tells S.seals
            (unwrap_or ((world_of S.seals self.old).home account.now) 0) self.old self.new result }
        ensures same { (self.new.kept ≡ self.old.kept) × (self.new.sealer ≡ self.old.sealer) }
        ensures looks { self.new.looks ≡ self.old.looks }
    {
        a_trade_says_what_its_parts_say();
        what_rests_carries_on::<D>();
        let Some(me) = self.directory.home_of(account) else {
            return Err(ProviderFault::NoAccount);
        };
        let house = House {
            directory: &self.directory,
            sealer: &self.sealer,
            me,
        };
        self.providers[me as usize].archive(alloc, &house, moment, account, place)
    }

    /// Has a provider's journal be of version 2 from now on. The first of these refusals that applies is answered:
    /// `Down`, `ClockBack`, `NoNeed` where it is already, `NoMemory`, `JournalFull`, `DiskFault`.
    pub fn upgrade(
        &mut self,
        alloc: Global,
        provider: u32,
        moment: Moment,
    ) -> Result<(), ProviderFault>
        requires { provider < length self.old.kept }
        ensures plays { IsPlayedOver S.seals (λ done. Upgraded) (Upgrade provider moment) self.old self.new result }
        ensures concerns { ConcernsOne D.sight D.faults D.tells S.seals provider self.old self.new result }
        ensures looks { self.new.looks ≡ self.old.looks }
    {
        what_rests_carries_on::<D>();
        let house = House {
            directory: &self.directory,
            sealer: &self.sealer,
            me: provider,
        };
        self.providers[provider as usize].upgrade(alloc, &house, moment)
    }
}
