ghost use Rattle.std.specs.Prelude.{◌≡◌, ◌<◌, length};
ghost use Rattle.std.specs.Option.{unwrap_or};
ghost use Rattle.pec_ledger.specs.Network.{journal_at};
ghost use Rattle.pec_plays.specs.Commands.{Book, Items as ItemsShown, Lines, Luck, Mailbox, Show, Shown, Vault, VaultShow, Vaults};
ghost use Rattle.pec_plays.specs.Commands.{played};
ghost use Rattle.pec_network.specs.Carrying.{AllStand};
ghost use Rattle.pec_network.specs.Changing.{ConcernsOne};
ghost use Rattle.pec_network.specs.Network.{sites, world_of};
ghost use Rattle.pec_network.specs.Playing.{IsReadOver, IsShown};

use crate::laws::what_rests_carries_on;
use crate::network::Network;
use pec_outside::Disk;
use pec_provider::{House, ProviderFault, a_trade_says_what_its_parts_say, nothing_has_changed};
use pec_screen::Judge;
use pec_seal::Sealer;
use pec_types::{Address, BookLine, ItemLine};
use std::alloc::Global;

/// What an account is shown by its provider. `NoAccount` also where the address is that of no provider; then `Down`.
impl<D, S: Sealer, J: Judge> Network<D, S, J> {
    /// The book of an account: a line for each of its accepted messages and certified recipients.
    pub fn book(&self, alloc: Global, account: &Address) -> Result<Vec<BookLine>, ProviderFault>
        ensures { (luck : Luck) → IsShown (λ lines. Lines lines.items)
            (played (world_of S.seals self.now) luck (sites self.now) (Book account.now)) (sites self.now) result }
    {
        a_trade_says_what_its_parts_say();
        let Some(me) = self.directory.home_of(account) else {
            return Err(ProviderFault::NoAccount);
        };
        let house = House {
            directory: &self.directory,
            sealer: &self.sealer,
            me,
        };
        self.providers[me as usize].book(alloc, &house, account)
    }

    /// The lines of an account's mailbox, in order of placing.
    pub fn mailbox(&self, alloc: Global, account: &Address) -> Result<Vec<ItemLine>, ProviderFault>
        ensures { (luck : Luck) → IsShown (λ lines. ItemsShown lines.items)
            (played (world_of S.seals self.now) luck (sites self.now) (Mailbox account.now))
            (sites self.now) result }
    {
        a_trade_says_what_its_parts_say();
        let Some(me) = self.directory.home_of(account) else {
            return Err(ProviderFault::NoAccount);
        };
        let house = House {
            directory: &self.directory,
            sealer: &self.sealer,
            me,
        };
        self.providers[me as usize].mailbox(alloc, &house, account)
    }

    /// The lines of an account's archive, in order of archiving.
    pub fn vault(&self, alloc: Global, account: &Address) -> Result<Vec<ItemLine>, ProviderFault>
        ensures { (luck : Luck) → IsShown (λ lines. Vaults lines.items)
            (played (world_of S.seals self.now) luck (sites self.now) (Vault account.now))
            (sites self.now) result }
    {
        a_trade_says_what_its_parts_say();
        let Some(me) = self.directory.home_of(account) else {
            return Err(ProviderFault::NoAccount);
        };
        let house = House {
            directory: &self.directory,
            sealer: &self.sealer,
            me,
        };
        self.providers[me as usize].vault(alloc, &house, account)
    }
}

impl<D: Disk, S: Sealer, J: Judge> Network<D, S, J> {
    /// The bytes of the item at a place of an account's mailbox, counted from 0, composed of an entry that is read for
    /// it. Beside the refusals of a mailbox: `NoItem` where the mailbox has none there, before `NoMemory`. After
    /// `DiskFault`, and after `Changed`, where the entry of that number isn't what the item is composed of, the
    /// provider is down.
    pub fn show(
        &mut self,
        alloc: Global,
        account: &Address,
        place: u32,
    ) -> Result<Vec<u8>, ProviderFault>
        // It is played as the command. Over disks that tell what they hold, and on which what is kept stood, the bytes
        // are those of the item, and `Changed` doesn't come.
        ensures shown { IsReadOver (D.tells × AllStand D.sight self.old.providers) S.seals (λ bytes. Shown bytes.items)
            (Show account.now place) self.old self.new result }
        // It concerns the provider where the account is at home.
        ensures concerns { ConcernsOne D.sight D.faults D.tells S.seals
            (unwrap_or ((world_of S.seals self.old).home account.now) 0) self.old self.new result }
        ensures same { (self.new.kept ≡ self.old.kept) × (self.new.sealer ≡ self.old.sealer) }
        ensures looks { self.new.looks ≡ self.old.looks }
    {
        a_trade_says_what_its_parts_say();
        nothing_has_changed();
        what_rests_carries_on::<D>();
        let Some(me) = self.directory.home_of(account) else {
            return Err(ProviderFault::NoAccount);
        };
        let house = House {
            directory: &self.directory,
            sealer: &self.sealer,
            me,
        };
        self.providers[me as usize].item(alloc, &house, account, place)
    }

    /// The bytes of the item at a place of an account's archive, as `show` has those of its mailbox.
    pub fn vault_item(
        &mut self,
        alloc: Global,
        account: &Address,
        place: u32,
    ) -> Result<Vec<u8>, ProviderFault>
        ensures shown { IsReadOver (D.tells × AllStand D.sight self.old.providers) S.seals (λ bytes. Shown bytes.items)
            (VaultShow account.now place) self.old self.new result }
        ensures concerns { ConcernsOne D.sight D.faults D.tells S.seals
            (unwrap_or ((world_of S.seals self.old).home account.now) 0) self.old self.new result }
        ensures same { (self.new.kept ≡ self.old.kept) × (self.new.sealer ≡ self.old.sealer) }
        ensures looks { self.new.looks ≡ self.old.looks }
    {
        a_trade_says_what_its_parts_say();
        nothing_has_changed();
        what_rests_carries_on::<D>();
        let Some(me) = self.directory.home_of(account) else {
            return Err(ProviderFault::NoAccount);
        };
        let house = House {
            directory: &self.directory,
            sealer: &self.sealer,
            me,
        };
        self.providers[me as usize].vault_item(alloc, &house, account, place)
    }
}

/// Figures.
impl<D, S: Sealer, J: Judge> Network<D, S, J> {
    /// How many entries the journal of a provider has, by its number, also while it is down. It takes no memory.
    pub fn entries(&self, provider: u32) -> u64
        requires { provider < length self.now.kept }
        ensures { result ≡ length (journal_at (sites self.now) provider) }
    {
        a_trade_says_what_its_parts_say();
        self.providers[provider as usize].entries()
    }
}
