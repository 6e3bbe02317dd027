ghost use Rattle.std.specs.Prelude.{◌≡◌, ℕ, ◌<◌, ◌≤◌, ◌==◌, List, false, length, nat_lt, Some, IsErrOf, OnOk};
ghost use Rattle.pec_types.specs.declared.moments.TheConstants.{END_OF_TIME};
ghost use Rattle.pec_types.specs.declared.turns.ProviderFault.TheVariants as faults;
ghost use Rattle.pec_outside.specs.Flow.{HasRisen};
ghost use Rattle.pec_directory.specs.Directory.{Kept};
ghost use Rattle.pec_ledger.specs.Ledger.{Journals};
ghost use Rattle.pec_ledger.specs.Lookups.{mailbox};
ghost use Rattle.pec_ledger.specs.OfDirectory.{IsOf};
ghost use Rattle.pec_ledger.specs.Steps.{half};
ghost use Rattle.pec_ledger.specs.Trade.{Trade};
ghost use Rattle.pec_plays.specs.Commands.{Archived, Upgrade, Upgraded, account_home, archived, played};
ghost use Rattle.pec_seal.specs.Seals.{Seals};
ghost use Rattle.pec_reception.specs.OfTrades.{world_at};
ghost use Rattle.pec_chronicle.specs.Carrying.{CarriesOn};
ghost use Rattle.pec_provider.specs.Archiving.{Archives, Raises};
ghost use Rattle.pec_provider.specs.Following.{MayFollow};
ghost use Rattle.pec_provider.specs.Playing.{Plays};
ghost use Rattle.pec_provider.specs.Provider.{Runs, RunsIn, desk_of};

use crate::provider::Provider;
use pec_outside::Disk;
use pec_reception::{House, a_house_is_a_trade};
use pec_records::Entry;
use pec_seal::Sealer;
use pec_shelf::Draft;
use pec_stock::stands_still;
use pec_types::{Address, Moment, ProviderFault, Steps};
use std::alloc::Global;

impl<D: Disk> Provider<D> {
    /// Moves the item at a place of an account's mailbox, counted from 0, into its archive, where it becomes the last;
    /// later items of the mailbox move one place down. The first of these refusals that applies is answered:
    /// `NoAccount`, `Down`, `ClockBack`, `NoItem`; `OldJournal` exactly where the journal is of version 1; `NoMemory`,
    /// `JournalFull`, `DiskFault`.
    pub fn archive<S: Sealer>(
        &mut self,
        alloc: Global,
        house: &House<'_, S>,
        moment: Moment,
        account: &Address,
        place: u32,
    ) -> Result<(), ProviderFault>
        requires { RunsIn house.now self.old }

        // It is played as the command, where the address is an account of this provider.
        ensures plays { Plays (λ done. Archived) (λ luck sites. archived (world_at house.now) luck sites
            (account_home (world_at house.now) account.now (Some house.now.me)) moment account.now place)
            house.now.me (desk_of self.old) (desk_of self.new) result }
        ensures owed { self.new.owed ≡ self.old.owed }
        ensures runs { RunsIn house.now self.new }
        ensures carries { D.tells → (journals : Journals) → CarriesOn D.sight
            (MayFollow (world_at house.now) journals house.now.me) self.old.chronicle self.new.chronicle }
        ensures disk_fault { IsErrOf result faults.DiskFault → HasRisen (D.faults self.old.chronicle.disk)
            (D.faults self.new.chronicle.disk) }
        ensures later { D.faults self.old.chronicle.disk ≤ D.faults self.new.chronicle.disk }
    {
        a_house_is_a_trade(house);
        stands_still(&self.chronicle);
        self.archives(house, moment, account, place)?;
        let account = account.copy(alloc)?;
        let entry = Draft::plain(Entry::Archived {
            moment,
            account,
            place,
        });
        self.append(alloc, house, entry, &mut Steps::new())?;
        Ok(())
    }

    /// Raises its journal to version 2, which has archives. The first of these refusals that applies is answered:
    /// `Down`, `ClockBack`; `NoNeed` exactly where the journal is of version 2; `NoMemory`, `JournalFull`, `DiskFault`.
    pub fn upgrade<S: Sealer>(
        &mut self,
        alloc: Global,
        house: &House<'_, S>,
        moment: Moment,
    ) -> Result<(), ProviderFault>
        requires { RunsIn house.now self.old }
        ensures plays { Plays (λ done. Upgraded) (λ luck sites. played (world_at house.now) luck sites
            (Upgrade house.now.me moment)) house.now.me (desk_of self.old) (desk_of self.new) result }
        ensures owed { self.new.owed ≡ self.old.owed }
        ensures runs { RunsIn house.now self.new }
        ensures carries { D.tells → (journals : Journals) → CarriesOn D.sight
            (MayFollow (world_at house.now) journals house.now.me) self.old.chronicle self.new.chronicle }
        ensures disk_fault { IsErrOf result faults.DiskFault → HasRisen (D.faults self.old.chronicle.disk)
            (D.faults self.new.chronicle.disk) }
        ensures later { D.faults self.old.chronicle.disk ≤ D.faults self.new.chronicle.disk }
    {
        a_house_is_a_trade(house);
        stands_still(&self.chronicle);
        self.raises(house, moment)?;
        let entry = Draft::plain(Entry::Upgraded { moment });
        self.append(alloc, house, entry, &mut Steps::new())?;
        Ok(())
    }
}

impl<D> Provider<D> {
    /// Whether the item at a place of an account's mailbox may be archived, and why not.
    fn archives<S: Sealer>(
        &self,
        house: &House<'_, S>,
        moment: Moment,
        account: &Address,
        place: u32,
    ) -> Result<(), ProviderFault>
        requires { RunsIn house.now self.now }
        ensures archives { Archives (world_at house.now) house.now.me moment account.now place
            (desk_of self.now) result }
        ensures up { OnOk result (self.now.chronicle.down ≡ false) }
        ensures no_disk_fault { IsErrOf result faults.DiskFault → ⊥ }
        ensures in_range { moment < END_OF_TIME }
    {
        a_house_is_a_trade(house);
        if !house.directory.is_account_of(house.me, account) {
            return Err(ProviderFault::NoAccount);
        }
        self.at_work(moment)?;
        if !self.has_item(account, place) {
            return Err(ProviderFault::NoItem);
        }
        if !self.is_of_version(2) {
            return Err(ProviderFault::OldJournal);
        }
        Ok(())
    }

    /// Whether its journal may be raised, and why not.
    fn raises<S: Sealer>(&self, house: &House<'_, S>, moment: Moment) -> Result<(), ProviderFault>
        requires { RunsIn house.now self.now }
        ensures raises { Raises (world_at house.now) house.now.me moment (desk_of self.now) result }
        ensures up { OnOk result (self.now.chronicle.down ≡ false) }
        ensures no_disk_fault { IsErrOf result faults.DiskFault → ⊥ }
        ensures in_range { moment < END_OF_TIME }
    {
        a_house_is_a_trade(house);
        self.at_work(moment)?;
        if !self.is_of_version(1) {
            return Err(ProviderFault::NoNeed);
        }
        Ok(())
    }

    /// Whether an account's mailbox has an item at a place.
    fn has_item(&self, account: &Address, place: u32) -> bool
        ensures { (kept : List Kept) (seals : Seals) (me : ℕ) (trade : Trade) → Runs kept seals me self.now
            → IsOf kept trade → result
            ≡ nat_lt place (length (mailbox (half trade me self.now.chronicle.entries) account.now)) }
    {
        self.shelf.posted(account, place).is_some()
    }

    /// Whether its journal is of a version.
    fn is_of_version(&self, version: u64) -> bool
        ensures { (kept : List Kept) (seals : Seals) (me : ℕ) (trade : Trade) → Runs kept seals me self.now
            → IsOf kept trade → result ≡ ((half trade me self.now.chronicle.entries).version == version) }
    {
        self.shelf.version() == version
    }
}
