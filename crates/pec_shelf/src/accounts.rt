ghost use Rattle.std.specs.Prelude.{◌≡◌, ◌↔◌, All, Contains, IsTrue};
ghost use Rattle.std.specs.List.{list_all, list_any};
ghost use Rattle.std.specs.Str.{bytes_eq};
ghost use Rattle.pec_directory.specs.Directory.{providers_of};
ghost use Rattle.pec_ledger.specs.Along.{AllDiffer};
ghost use Rattle.pec_ledger.specs.Lookups.{has_room};
ghost use Rattle.pec_ledger.specs.OfDirectory.{quota_of};
ghost use Rattle.pec_ledger.specs.Own.{MayDecide, decision_at};
ghost use Rattle.pec_ledger.specs.Trade.{Trade};
ghost use Rattle.pec_shelf.specs.Settled.{all_differ, has_room_at, settled};

use crate::shelf::Shelf;
use pec_directory::Directory;
use pec_types::{Address, Decision, Refusal};

/// How many items an account may have, none where the address is no account. It takes no memory.
#[tactic(auto, unfolding(pec_ledger::specs::OfDirectory::quota_of))]
pub fn quota(directory: &Directory, address: &Address) -> u64
    ensures { result ≡ quota_of (providers_of directory.now) address.now }
{
    match directory.account(address) {
        Some(account) => account.quota(),
        None => 0,
    }
}

/// What is decided for a recipient.
#[tactic(auto, unfolding(pec_ledger::specs::Own::decision_at))]
fn decision_at(shelf: &Shelf, directory: &Directory, recipient: &Address) -> Decision
    ensures { (trade : Trade) → result ≡ decision_at (settled directory.now trade) shelf.now.me shelf.now.half recipient.now }
{
    if !directory.is_account_of(shelf.me, recipient) {
        return Decision::Refused(Refusal::NoMailbox);
    }
    if quota(directory, recipient) <= shelf.counted(recipient) {
        return Decision::Refused(Refusal::MailboxFull);
    }
    Decision::Placed
}

/// Whether this may be decided for a recipient: what the table says, or a virus where the recipient is an account.
pub(crate) fn may_decide(
    shelf: &Shelf,
    directory: &Directory,
    recipient: &Address,
    decision: Decision,
) -> bool
    ensures { (trade : Trade) → IsTrue result
        ↔ MayDecide (settled directory.now trade) shelf.now.me shelf.now.half recipient.now decision }
{
    if decision == decision_at(shelf, directory, recipient) {
        return true;
    }
    decision == Decision::Refused(Refusal::Virus) && directory.is_account_of(shelf.me, recipient)
}

/// An account of the provider has room.
pub(crate) fn has_room(shelf: &Shelf, directory: &Directory, account: &Address) -> bool
    ensures { result ≡ has_room_at (providers_of directory.now) shelf.now.me shelf.now.half account.now }
{
    directory.is_account_of(shelf.me, account) && shelf.counted(account) < quota(directory, account)
}

/// Every one of these accounts has room.
pub(crate) fn have_room(shelf: &Shelf, directory: &Directory, accounts: &[Address]) -> bool
    ensures { (trade : Trade) → IsTrue result
        ↔ All (λ account. IsTrue (has_room (settled directory.now trade) shelf.now.me shelf.now.half account)) accounts.now }
{
    all_have_room(shelf, directory, accounts)
}

fn all_have_room(shelf: &Shelf, directory: &Directory, accounts: &[Address]) -> bool
    ensures { result ≡ list_all (has_room_at (providers_of directory.now) shelf.now.me shelf.now.half) accounts.now }
{
    for account in accounts {
        if !has_room(shelf, directory, account) {
            return false;
        }
    }
    true
}

/// No two of the addresses are equal.
pub(crate) fn differ(addresses: &[Address]) -> bool
    ensures { IsTrue result ↔ AllDiffer addresses.now }
{
    all_differ(addresses)
}

fn all_differ(addresses: &[Address]) -> bool
    ensures { result ≡ all_differ addresses.now }
{
    let mut rest = addresses;
    while let [address, behind @ ..] = rest {
        if is_among(address, behind) {
            return false;
        }
        rest = behind;
    }
    true
}

/// Whether the address is one of these. It takes no memory.
pub fn is_among(address: &Address, addresses: &[Address]) -> bool
    ensures any { result ≡ list_any (bytes_eq address.now) addresses.now }
    ensures among { IsTrue result ↔ Contains addresses.now address.now }
{
    stands_in(address, addresses)
}

fn stands_in(address: &Address, addresses: &[Address]) -> bool
    ensures { result ≡ list_any (bytes_eq address.now) addresses.now }
{
    for other in addresses {
        if is_same(address, other) {
            return true;
        }
    }
    false
}

fn is_same(address: &Address, other: &Address) -> bool
    ensures { result ≡ bytes_eq address.now other.now }
{
    address.bytes() == other.bytes()
}
