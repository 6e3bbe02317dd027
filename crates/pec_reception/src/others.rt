ghost use Rattle.std.specs.Prelude.{◌≡◌, ◌≤◌, ◌+◌, ◌&&◌, List, [], ◌∷◌, ◌++◌, filter, length, not, IfOk, OnOk};
ghost use Rattle.std.specs.List.{list_any};
ghost use Rattle.std.specs.Str.{bytes_eq};
ghost use Rattle.pec_types.specs.Bytes.{Bytes};
ghost use Rattle.pec_records.specs.declared.entries.Entry.{Entry as SomeEntry};
ghost use Rattle.pec_ledger.specs.Lookups.{has_room};
ghost use Rattle.pec_ledger.specs.OfDirectory.{IsOf};
ghost use Rattle.pec_ledger.specs.Steps.{half};
ghost use Rattle.pec_ledger.specs.Trade.{Trade};
ghost use Rattle.pec_plays.specs.Reception.{each_once, otherwise};
ghost use Rattle.pec_seal.specs.Seals.{Seals};
ghost use Rattle.pec_trade.specs.TradeOf.{trade_of};
ghost use Rattle.pec_reception.specs.Shows.{IsLimited, Shows};
ghost use Rattle.pec_reception.specs.Views.{IsWithin, framed_shown};

use crate::framed::Framed;
use crate::received::Received;
use pec_directory::Directory;
use pec_records::Entry;
use pec_shelf::{Draft, Shelf, is_among};
use pec_types::{Address, Event, Items, Moment, NoMemory, Text8};
use std::alloc::Global;

/// What is done with a frame that holds no letter for this provider: its message becomes an anomaly of the accounts
/// in the path that have room; it is dropped where none has.
pub(crate) fn otherwise(
    alloc: Global,
    directory: &Directory,
    shelf: &Shelf,
    moment: Moment,
    framed: &Framed<'_>,
) -> Result<Received, NoMemory>
    requires within { IsWithin (framed_shown framed.now) }
    ensures exact { (seals : Seals) (journal : List SomeEntry) →
        let trade = trade_of directory.now seals in
        shelf.now.half ≡ half trade shelf.now.me journal
        → IfOk result (λ received. Shows received
        (otherwise trade shelf.now.me moment journal (framed_shown framed.now))) }
    ensures limits { IfOk result IsLimited }
{
    let accounts = accounts_with_room(alloc, directory, shelf, framed.path.as_slice())?;
    if accounts.is_empty() {
        return Ok(Received::passes(Event::Dropped, None));
    }
    let count = accounts.len() as u32;
    let message = Vec::from_slice(alloc, framed.message)?;
    let entry = Draft::plain(Entry::Anomaly {
        moment,
        accounts: Items::of(accounts),
        message: Text8::of(message),
    });
    Ok(Received::enters(entry, Event::Anomaly(count), None))
}

/// The accounts of a path that have room, each once, in the order in which they first stand there.
fn accounts_with_room(
    alloc: Global,
    directory: &Directory,
    shelf: &Shelf,
    path: &[Address],
) -> Result<Vec<Address>, NoMemory>
    ensures accounts { (trade : Trade) → IsOf directory.now trade
        → IfOk result (λ accounts. accounts.items
        ≡ filter (has_room trade shelf.now.me shelf.now.half) (each_once bytes_eq path.now)) }
    ensures few { IfOk result (λ accounts. length accounts.items ≤ length path.now) }
{
    let mut accounts = Vec::new(alloc);
    for address in path {
        add(alloc, directory, shelf, &mut accounts, address)?;
    }
    Ok(accounts)
}

/// Adds an address that is an account with room, where it isn't among those that were found.
fn add(
    alloc: Global,
    directory: &Directory,
    shelf: &Shelf,
    accounts: &mut Vec<Address>,
    address: &Address,
) -> Result<(), NoMemory>
    ensures accounts { (trade : Trade) → IsOf directory.now trade
        → OnOk result (accounts.new.items ≡ accounts.old.items ++ filter
        (λ (account : Bytes). not (list_any (bytes_eq account) accounts.old.items)
        && has_room trade shelf.now.me shelf.now.half account)
        (address.now ∷ [])) }
    ensures few { OnOk result (length accounts.new.items ≤ length accounts.old.items + 1) }
{
    if is_among(address, accounts.as_slice()) {
        return Ok(());
    }
    if !shelf.has_room(directory, address) {
        return Ok(());
    }
    accounts.push(address.copy(alloc)?)?;
    Ok(())
}
