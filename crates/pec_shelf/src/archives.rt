//! Versions and archives: when a journal may be upgraded and an item archived, and what an entry adds that archives one.

ghost use Rattle.std.specs.Prelude.{◌≡◌, ◌↔◌, ℕ, ◌<◌, length, IfOk, IsTrue};
ghost use Rattle.pec_directory.specs.Directory.{is_account_of, providers_of};
ghost use Rattle.pec_records.specs.declared.entries.Entry.TheVariants as entries;
ghost use Rattle.pec_ledger.specs.Lookups.{mailbox};
ghost use Rattle.pec_ledger.specs.Own.{Own};
ghost use Rattle.pec_ledger.specs.Trade.{Trade};
ghost use Rattle.pec_shelf.specs.Prepared.{AreRows};
ghost use Rattle.pec_shelf.specs.Settled.{settled};

use crate::moves::MoveRow;
use crate::ready::Ready;
use crate::shelf::Shelf;
use pec_directory::Directory;
use pec_types::{Address, NoMemory};

/// Upgraded: the journal is of version 1. It takes no memory.
pub(crate) fn may_upgrade(shelf: &Shelf) -> bool
    ensures { (trade : Trade) (moment : ℕ) → IsTrue result
        ↔ Own trade shelf.now.me shelf.now.half (entries.Upgraded moment) }
{
    shelf.version() == 1
}

/// Archived: the journal is of version 2, and an item stands at the place of the mailbox of an account of the provider.
/// It takes no memory.
pub(crate) fn may_archive(
    shelf: &Shelf,
    directory: &Directory,
    account: &Address,
    place: u32,
) -> bool
    ensures { (trade : Trade) (moment : ℕ) → IsTrue result
        ↔ Own (settled directory.now trade) shelf.now.me shelf.now.half (entries.Archived moment account.now place) }
{
    if !is_of_version_two(shelf) {
        return false;
    }
    if !is_account(shelf, directory, account) {
        return false;
    }
    stands(shelf, account, place)
}

/// The journal is of version 2.
fn is_of_version_two(shelf: &Shelf) -> bool
    ensures { IsTrue result ↔ (shelf.now.half.version ≡ 2) }
{
    shelf.version() == 2
}

/// The address is an account of the provider.
fn is_account(shelf: &Shelf, directory: &Directory, account: &Address) -> bool
    ensures { result ≡ is_account_of (providers_of directory.now) shelf.now.me account.now }
{
    directory.is_account_of(shelf.me, account)
}

/// An item stands at the place of an account's mailbox.
fn stands(shelf: &Shelf, account: &Address, place: u32) -> bool
    ensures { IsTrue result ↔ (place < length (mailbox shelf.now.half account.now)) }
{
    shelf.posted(account, place).is_some()
}

/// Archived: the item at a place of an account's mailbox is moved.
pub(crate) fn archived(shelf: &Shelf, account: &Address, place: u32) -> Result<Ready, NoMemory>
    ensures { (trade : Trade) (moment : ℕ)
        → IfOk result (AreRows trade shelf.now.me shelf.now.half (entries.Archived moment account.now place)) }
{
    let account = account.copy(shelf.alloc)?;
    Ok(Ready::nothing(shelf.alloc).with_move(MoveRow { account, place }))
}
