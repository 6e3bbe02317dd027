ghost use Rattle.std.specs.Prelude.{◌≡◌, ℕ, ◌<◌, ◌≤◌, List, length, not, true, false, Some, option_map, slice_get};
ghost use Rattle.std.specs.Prelude.{IfErr, IfOk, IsErrOf, IsSome, OnOk};
ghost use Rattle.pec_types.specs.declared.turns.ProviderFault.TheVariants as faults;
ghost use Rattle.pec_outside.specs.Flow.{HasRisen};
ghost use Rattle.pec_directory.specs.Directory.{Kept};
ghost use Rattle.pec_ledger.specs.Books.{archive_lines, book, mailbox_lines};
ghost use Rattle.pec_ledger.specs.Lookups.{archive, mailbox};
ghost use Rattle.pec_ledger.specs.OfDirectory.{IsOf};
ghost use Rattle.pec_ledger.specs.Steps.{half};
ghost use Rattle.pec_ledger.specs.Trade.{Trade};
ghost use Rattle.pec_seal.specs.Seals.{Seals};
ghost use Rattle.pec_reception.specs.OfTrades.{world_at};
ghost use Rattle.pec_chronicle.specs.Carrying.{CarriesOn, NothingMay};
ghost use Rattle.pec_chronicle.specs.Chronicle.{Stands};
ghost use Rattle.pec_provider.specs.Keeping.{kept_at};
ghost use Rattle.pec_provider.specs.Playing.{IsUnasked, IsUnshown, item_at, text_at, vault_item_at};
ghost use Rattle.pec_provider.specs.Provider.{Runs, RunsIn, desk_of};
ghost use Rattle.pec_provider.specs.Reading.{IsUntold, ItemIsChanged, OnChanged, PostedIsChanged, Reads, ShownBy, VaultItemIsChanged};

use crate::composing::{bytes_of, read_at};
use crate::provider::Provider;
use pec_ledger::{a_taken_message_has_its_envelope, boxes_hold_what_was_placed};
use pec_outgoing::needed_item;
use pec_outside::Disk;
use pec_reception::{House, a_house_is_a_trade};
use pec_records::Entry;
use pec_seal::Sealer;
use pec_shelf::{PostedRow, Shelf};
use pec_stock::stands_still;
use pec_types::{Address, BookLine, ItemLine, ProviderFault};
use std::alloc::Global;

/// What an account is shown. The first of these refusals that applies is answered: `NoAccount`, `Down`, `NoItem`
/// where an item is asked for, `NoMemory`, and `DiskFault` or `Changed` where its entry is read.
impl<D> Provider<D> {
    /// Its book: a line for each of its accepted messages and certified recipients, in order of number and recipients.
    pub fn book<S: Sealer>(
        &self,
        _alloc: Global,
        house: &House<'_, S>,
        account: &Address,
    ) -> Result<Vec<BookLine>, ProviderFault>
        requires { RunsIn house.now self.now }
        ensures lines { (trade : Trade) → IsOf house.now.directory.now trade → IfOk result (λ lines. lines.items
            ≡ book trade house.now.me (half trade house.now.me self.now.chronicle.entries) account.now) }
        ensures asked { (trade : Trade) → IsOf house.now.directory.now trade
            → OnOk result ((trade.is_account house.now.me account.now ≡ true) × (self.now.chronicle.down ≡ false)) }
        ensures refused { (trade : Trade) → IsOf house.now.directory.now trade
            → IfErr result (IsUnasked (trade.is_account house.now.me account.now) (not self.now.chronicle.down)) }
    {
        self.asked(house, account)?;
        let lines = self.shelf.book(account)?;
        Ok(lines)
    }

    /// The lines of its mailbox, in order of placing.
    pub fn mailbox<S: Sealer>(
        &self,
        _alloc: Global,
        house: &House<'_, S>,
        account: &Address,
    ) -> Result<Vec<ItemLine>, ProviderFault>
        requires { RunsIn house.now self.now }
        ensures lines { (trade : Trade) → IsOf house.now.directory.now trade → IfOk result (λ lines. lines.items
            ≡ mailbox_lines (half trade house.now.me self.now.chronicle.entries) account.now) }
        ensures asked { (trade : Trade) → IsOf house.now.directory.now trade
            → OnOk result ((trade.is_account house.now.me account.now ≡ true) × (self.now.chronicle.down ≡ false)) }
        ensures refused { (trade : Trade) → IsOf house.now.directory.now trade
            → IfErr result (IsUnasked (trade.is_account house.now.me account.now) (not self.now.chronicle.down)) }
    {
        self.asked(house, account)?;
        let lines = self.shelf.items(account)?;
        Ok(lines)
    }

    /// The lines of its archive, in the order in which the items were moved there.
    pub fn vault<S: Sealer>(
        &self,
        _alloc: Global,
        house: &House<'_, S>,
        account: &Address,
    ) -> Result<Vec<ItemLine>, ProviderFault>
        requires { RunsIn house.now self.now }
        ensures lines { (trade : Trade) → IsOf house.now.directory.now trade → IfOk result (λ lines. lines.items
            ≡ archive_lines (half trade house.now.me self.now.chronicle.entries) account.now) }
        ensures asked { (trade : Trade) → IsOf house.now.directory.now trade
            → OnOk result ((trade.is_account house.now.me account.now ≡ true) × (self.now.chronicle.down ≡ false)) }
        ensures refused { (trade : Trade) → IsOf house.now.directory.now trade
            → IfErr result (IsUnasked (trade.is_account house.now.me account.now) (not self.now.chronicle.down)) }
    {
        self.asked(house, account)?;
        let lines = self.shelf.vault(account)?;
        Ok(lines)
    }

    /// Whether an account of the provider may ask, while it is up.
    fn asked<S: Sealer>(&self, house: &House<'_, S>, account: &Address) -> Result<(), ProviderFault>
        ensures asked { (trade : Trade) → IsOf house.now.directory.now trade
            → OnOk result ((trade.is_account house.now.me account.now ≡ true) × (self.now.chronicle.down ≡ false)) }
        ensures refused { (trade : Trade) → IsOf house.now.directory.now trade
            → IfErr result (IsUnasked (trade.is_account house.now.me account.now) (not self.now.chronicle.down)) }
    {
        if !house.directory.is_account_of(house.me, account) {
            return Err(ProviderFault::NoAccount);
        }
        if self.is_down() {
            return Err(ProviderFault::Down);
        }
        Ok(())
    }
}

impl<D: Disk> Provider<D> {
    /// The bytes of the item at a place of an account's mailbox, counted from 0, composed of a durable entry, which
    /// is read for it. An item of which the provider may compose nothing has no byte. `NoItem` comes where the
    /// mailbox has no item there, and `Changed` with the number of an entry that isn't what the item is composed of.
    /// After that, and after `DiskFault`, the provider is down, and else it is as it was.
    pub fn item<S: Sealer>(
        &mut self,
        alloc: Global,
        house: &House<'_, S>,
        account: &Address,
        place: u32,
    ) -> Result<Vec<u8>, ProviderFault>
        requires runs { RunsIn house.now self.old }

        // Over a disk that tells what it holds, and on which what is kept stands, they are the item's.
        ensures shown { D.tells → Stands D.sight self.old.chronicle → IfOk result (λ bytes.
            item_at (world_at house.now) house.now.me self.old.chronicle.entries account.now place ≡ Some bytes.items) }
        // Over any disk they are composed of the entry that was read, which is what the item is composed of.
        ensures given { IfOk result (λ bytes. ShownBy (D.tells × Stands D.sight self.old.chronicle)
            (world_at house.now) house.now.me self.old.chronicle.entries
            (slice_get (mailbox (half (world_at house.now) house.now.me self.old.chronicle.entries) account.now) place)
            bytes.items) }
        ensures some { OnOk result
            (IsSome (item_at (world_at house.now) house.now.me self.old.chronicle.entries account.now place)) }
        ensures asked { (trade : Trade) → IsOf house.now.directory.now trade
            → OnOk result ((trade.is_account house.now.me account.now ≡ true) × (self.old.chronicle.down ≡ false)) }
        ensures refused { IfErr result (IsUnshown
            ((world_at house.now).is_account house.now.me account.now) (not self.old.chronicle.down)
            (item_at (world_at house.now) house.now.me self.old.chronicle.entries account.now place)) }
        ensures changed { D.tells → Stands D.sight self.old.chronicle → IfErr result (OnChanged
            (ItemIsChanged (world_at house.now) house.now.me self.old.chronicle.entries account.now place)) }
        ensures reads { Reads (desk_of self.old) (desk_of self.new) result }
        ensures owed { self.new.owed ≡ self.old.owed }
        ensures runs { RunsIn house.now self.new }
        ensures carries { D.tells → CarriesOn D.sight NothingMay self.old.chronicle self.new.chronicle }
        ensures disk_fault { IsErrOf result faults.DiskFault → HasRisen (D.faults self.old.chronicle.disk)
            (D.faults self.new.chronicle.disk) }
        ensures later { D.faults self.old.chronicle.disk ≤ D.faults self.new.chronicle.disk }
    {
        self.shown_at(alloc, house, Keeping::Mailbox, account, place)
    }

    /// The bytes of the item at a place of an account's archive, counted from 0, as `item` gives those of its mailbox.
    pub fn vault_item<S: Sealer>(
        &mut self,
        alloc: Global,
        house: &House<'_, S>,
        account: &Address,
        place: u32,
    ) -> Result<Vec<u8>, ProviderFault>
        requires runs { RunsIn house.now self.old }

        // Over a disk that tells what it holds, and on which what is kept stands, they are the item's.
        ensures shown { D.tells → Stands D.sight self.old.chronicle → IfOk result (λ bytes.
            vault_item_at (world_at house.now) house.now.me self.old.chronicle.entries account.now place
            ≡ Some bytes.items) }
        // Over any disk they are composed of the entry that was read, which is what the item is composed of.
        ensures given { IfOk result (λ bytes. ShownBy (D.tells × Stands D.sight self.old.chronicle)
            (world_at house.now) house.now.me self.old.chronicle.entries
            (slice_get (archive (half (world_at house.now) house.now.me self.old.chronicle.entries) account.now) place)
            bytes.items) }
        ensures some { OnOk result
            (IsSome (vault_item_at (world_at house.now) house.now.me self.old.chronicle.entries account.now place)) }
        ensures asked { (trade : Trade) → IsOf house.now.directory.now trade
            → OnOk result ((trade.is_account house.now.me account.now ≡ true) × (self.old.chronicle.down ≡ false)) }
        ensures refused { IfErr result (IsUnshown
            ((world_at house.now).is_account house.now.me account.now) (not self.old.chronicle.down)
            (vault_item_at (world_at house.now) house.now.me self.old.chronicle.entries account.now place)) }
        ensures changed { D.tells → Stands D.sight self.old.chronicle → IfErr result (OnChanged
            (VaultItemIsChanged (world_at house.now) house.now.me self.old.chronicle.entries account.now place)) }
        ensures reads { Reads (desk_of self.old) (desk_of self.new) result }
        ensures owed { self.new.owed ≡ self.old.owed }
        ensures runs { RunsIn house.now self.new }
        ensures carries { D.tells → CarriesOn D.sight NothingMay self.old.chronicle self.new.chronicle }
        ensures disk_fault { IsErrOf result faults.DiskFault → HasRisen (D.faults self.old.chronicle.disk)
            (D.faults self.new.chronicle.disk) }
        ensures later { D.faults self.old.chronicle.disk ≤ D.faults self.new.chronicle.disk }
    {
        self.shown_at(alloc, house, Keeping::Archive, account, place)
    }

    /// The bytes of the item at a place of an account's mailbox, or of its archive.
    fn shown_at<S: Sealer>(
        &mut self,
        alloc: Global,
        house: &House<'_, S>,
        keeping: Keeping,
        account: &Address,
        place: u32,
    ) -> Result<Vec<u8>, ProviderFault>
        requires runs { RunsIn house.now self.old }
        ensures shown { D.tells → Stands D.sight self.old.chronicle → IfOk result (λ bytes.
            text_at (world_at house.now) house.now.me self.old.chronicle.entries (kept_at keeping
            (half (world_at house.now) house.now.me self.old.chronicle.entries) account.now place) ≡ Some bytes.items) }
        ensures given { IfOk result (λ bytes. ShownBy (D.tells × Stands D.sight self.old.chronicle)
            (world_at house.now) house.now.me self.old.chronicle.entries (kept_at keeping
            (half (world_at house.now) house.now.me self.old.chronicle.entries) account.now place) bytes.items) }
        ensures some { OnOk result (IsSome
            (text_at (world_at house.now) house.now.me self.old.chronicle.entries (kept_at keeping
            (half (world_at house.now) house.now.me self.old.chronicle.entries) account.now place))) }
        ensures asked { (trade : Trade) → IsOf house.now.directory.now trade
            → OnOk result ((trade.is_account house.now.me account.now ≡ true) × (self.old.chronicle.down ≡ false)) }
        ensures refused { IfErr result (IsUnshown
            ((world_at house.now).is_account house.now.me account.now) (not self.old.chronicle.down)
            (text_at (world_at house.now) house.now.me self.old.chronicle.entries (kept_at keeping
            (half (world_at house.now) house.now.me self.old.chronicle.entries) account.now place))) }
        ensures changed { D.tells → Stands D.sight self.old.chronicle → IfErr result (OnChanged
            (PostedIsChanged (world_at house.now) house.now.me self.old.chronicle.entries (kept_at keeping
            (half (world_at house.now) house.now.me self.old.chronicle.entries) account.now place))) }
        ensures reads { Reads (desk_of self.old) (desk_of self.new) result }
        ensures owed { self.new.owed ≡ self.old.owed }
        ensures runs { RunsIn house.now self.new }
        ensures carries { D.tells → CarriesOn D.sight NothingMay self.old.chronicle self.new.chronicle }
        ensures disk_fault { IsErrOf result faults.DiskFault → HasRisen (D.faults self.old.chronicle.disk)
            (D.faults self.new.chronicle.disk) }
        ensures later { D.faults self.old.chronicle.disk ≤ D.faults self.new.chronicle.disk }
    {
        a_house_is_a_trade(house);
        a_taken_message_has_its_envelope();
        boxes_hold_what_was_placed();
        stands_still(&self.chronicle);
        self.asked(house, account)?;
        let Some(posted) = kept_at(&self.shelf, keeping, account, place) else {
            return Err(ProviderFault::NoItem);
        };
        let Some(number) = needed_item(&self.shelf, posted) else {
            return Err(ProviderFault::NoItem);
        };
        bytes_of(
            alloc,
            house,
            &mut self.chronicle,
            &self.shelf,
            posted,
            number,
        )
    }

    /// The entry of a number, from 0, which is read. The first of these refusals that applies is answered: `Down`;
    /// `NoItem` exactly where its journal has no more entries than the number; `NoMemory`, `DiskFault`, or `Changed`
    /// with the number where the bytes there are no entry. After the last two the provider is down, and else it is as
    /// it was.
    pub fn entry(&mut self, alloc: Global, number: u64) -> Result<Entry, ProviderFault>
        // Over a disk that tells what it holds, and on which what is kept stands, it is that entry, and isn't told as
        // changed.
        ensures kept { D.tells → Stands D.sight self.old.chronicle → (kept : List Kept) (seals : Seals) (me : ℕ)
            → Runs kept seals me self.old → IfOk result (λ entry. slice_get self.old.chronicle.entries number ≡ Some entry) }
        ensures unchanged { D.tells → Stands D.sight self.old.chronicle → (kept : List Kept) (seals : Seals) (me : ℕ)
            (trade : Trade) → Runs kept seals me self.old → IsOf kept trade
            → (changed : ℕ) → IsErrOf result (faults.Changed changed) → ⊥ }
        ensures found { (kept : List Kept) (seals : Seals) (me : ℕ) (trade : Trade) → Runs kept seals me self.old
            → IsOf kept trade → OnOk result (number < length self.old.chronicle.entries) }
        ensures refused { (kept : List Kept) (seals : Seals) (me : ℕ) (trade : Trade) → Runs kept seals me self.old
            → IsOf kept trade
            → IfErr result (IsUntold (not self.old.chronicle.down) (length self.old.chronicle.entries) number) }
        ensures reads { (kept : List Kept) (seals : Seals) (me : ℕ) → Runs kept seals me self.old
            → Reads (desk_of self.old) (desk_of self.new) result }
        ensures owed { self.new.owed ≡ self.old.owed }
        ensures runs { (kept : List Kept) (seals : Seals) (me : ℕ) → Runs kept seals me self.old
            → Runs kept seals me self.new }
        ensures carries { D.tells → CarriesOn D.sight NothingMay self.old.chronicle self.new.chronicle }
        ensures disk_fault { IsErrOf result faults.DiskFault → HasRisen (D.faults self.old.chronicle.disk)
            (D.faults self.new.chronicle.disk) }
        ensures later { D.faults self.old.chronicle.disk ≤ D.faults self.new.chronicle.disk }
    {
        stands_still(&self.chronicle);
        if self.is_down() {
            return Err(ProviderFault::Down);
        }
        let Some(place) = self.shelf.place(number) else {
            return Err(ProviderFault::NoItem);
        };
        read_at(alloc, &mut self.chronicle, number, place)
    }
}

/// Where an item of an account is kept.
#[derive(Clone, Copy)]
pub(crate) enum Keeping {
    Mailbox,
    Archive,
}

/// The item at a place of an account's mailbox, or of its archive, counted from 0.
fn kept_at<'a>(
    shelf: &'a Shelf,
    keeping: Keeping,
    account: &Address,
    place: u32,
) -> Option<&'a PostedRow>
    ensures { option_map (λ row. row.now) result ≡ kept_at keeping shelf.now.half account.now place }
{
    match keeping {
        Keeping::Mailbox => shelf.posted(account, place),
        Keeping::Archive => shelf.vault_posted(account, place),
    }
}
