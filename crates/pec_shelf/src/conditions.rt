//! When the provider's own half lets an entry follow, one function for each kind. None of these takes memory but
//! `is_start`.

ghost use Rattle.std.specs.Prelude.{◌≡◌, ◌↔◌, ℕ, ◌<◌, length, IfOk, IsTrue};
ghost use Rattle.pec_types.specs.Bytes.{Bytes};
ghost use Rattle.pec_types.specs.declared.messages.Cause.{Cause as SomeCause};
ghost use Rattle.pec_types.specs.declared.messages.Decision.{Decision as SomeDecision};
ghost use Rattle.pec_types.specs.declared.messages.TheConstants.{MESSAGES};
ghost use Rattle.pec_directory.specs.Directory.{is_account_of, providers_of};
ghost use Rattle.pec_records.specs.declared.entries.Entry.TheVariants as entries;
ghost use Rattle.pec_ledger.specs.OfDirectory.{facts_in, recipients_named};
ghost use Rattle.pec_ledger.specs.Own.{IsTakenPair, Own};
ghost use Rattle.pec_ledger.specs.Pairs.{pair_of};
ghost use Rattle.pec_ledger.specs.Trade.{Trade};
ghost use Rattle.pec_shelf.specs.Drafts.{facts_read, is_from};
ghost use Rattle.pec_shelf.specs.Seen.{IsFor};
ghost use Rattle.pec_shelf.specs.Settled.{settled};

use crate::accounts::{differ, have_room, is_among, may_decide};
use crate::drafts::Read;
use crate::reading::{are_some_here, is_provider};
use crate::shelf::Shelf;
use pec_directory::Directory;
use pec_types::{Address, Decision, MESSAGES, MsgId, NoMemory};

/// How many addresses a message's facts, or a path, may have.
const MOST_ADDRESSES: usize = 1_000;

/// Start, of either version: the first entry, with the provider's number and the directory's digest.
pub(crate) fn is_start(
    shelf: &Shelf,
    directory: &Directory,
    provider: u32,
    digest: &[u8; 32],
) -> Result<bool, NoMemory>
    ensures { (trade : Trade) → IfOk result (λ own. IsTrue own
        ↔ Own (settled directory.now trade) shelf.now.me shelf.now.half (entries.Start provider digest.now)) }
{
    if shelf.entries != 0 || provider != shelf.me {
        return Ok(false);
    }
    let own = directory.digest(shelf.alloc)?;
    Ok(digest.as_slice() == own.as_slice())
}

/// Accepted: an account that may submit one more message is the sender of its facts, which have at most 1,000
/// recipients.
pub(crate) fn may_accept(
    shelf: &Shelf,
    directory: &Directory,
    sender: &Address,
    read: &Read,
) -> bool
    ensures { (trade : Trade) (moment : ℕ) (message : Bytes) → read.now ≡ facts_read (facts_in message) → IsTrue result
        ↔ Own (settled directory.now trade) shelf.now.me shelf.now.half (entries.Accepted moment sender.now message) }
{
    if !may_submit(shelf, directory, sender) {
        return false;
    }
    is_from(sender, read)
}

/// Whether an address is an account of the provider, and there may be one more message.
fn may_submit(shelf: &Shelf, directory: &Directory, sender: &Address) -> bool
    ensures { IsTrue result ↔ ((length shelf.now.half.messages < MESSAGES)
        × IsTrue (is_account_of (providers_of directory.now) shelf.now.me sender.now)) }
{
    if shelf.submitted() >= MESSAGES {
        return false;
    }
    directory.is_account_of(shelf.me, sender)
}

/// Whether facts were read, of this sender and with at most 1,000 recipients.
fn is_from(sender: &Address, read: &Read) -> bool
    ensures { result ≡ is_from sender.now read.now }
{
    match read {
        Read::Facts(facts) => {
            facts.sender.bytes() == sender.bytes()
                && facts.recipients.as_slice().len() <= MOST_ADDRESSES
        }
        _ => false,
    }
}

/// NotAccepted: an account that may submit one more message, and the path has 1 to 1,000 addresses.
pub(crate) fn may_refuse(
    shelf: &Shelf,
    directory: &Directory,
    sender: &Address,
    path: &[Address],
) -> bool
    ensures { (trade : Trade) (moment : ℕ) (cause : SomeCause) (message : Bytes) → IsTrue result
        ↔ Own (settled directory.now trade) shelf.now.me shelf.now.half
        (entries.NotAccepted moment sender.now cause path.now message) }
{
    if !may_submit(shelf, directory, sender) {
        return false;
    }
    !path.is_empty() && path.len() <= MOST_ADDRESSES
}

/// Took: the id is of a provider of the directory and was not taken, and some address of the envelope's `To` and `Cc`
/// is at home here.
pub(crate) fn may_take(shelf: &Shelf, directory: &Directory, id: MsgId, named: &[Address]) -> bool
    ensures { (trade : Trade) (moment : ℕ) (message : Bytes) → named.now ≡ recipients_named message → IsTrue result
        ↔ Own (settled directory.now trade) shelf.now.me shelf.now.half (entries.Took moment id message) }
{
    if !is_provider(directory, id.provider) || shelf.taken(id).is_some() {
        return false;
    }
    are_some_here(directory, shelf.me(), named)
}

/// Decided: the pair was taken here and isn't decided, and the decision is the one of the table, or a virus for an
/// account.
pub(crate) fn may_decide_on(
    shelf: &Shelf,
    directory: &Directory,
    id: MsgId,
    recipient: &Address,
    decision: Decision,
) -> bool
    ensures { (trade : Trade) (moment : ℕ) → IsTrue result
        ↔ Own (settled directory.now trade) shelf.now.me shelf.now.half (entries.Decided moment id recipient.now decision) }
{
    if !is_taken(shelf, id, recipient) {
        return false;
    }
    if shelf.fate(id, recipient).is_some() {
        return false;
    }
    may_decide(shelf, directory, recipient, decision)
}

/// Whether a pair was taken here.
fn is_taken(shelf: &Shelf, id: MsgId, recipient: &Address) -> bool
    ensures { (trade : Trade) → IsTrue result ↔ IsTakenPair trade shelf.now.me shelf.now.half (pair_of id recipient.now) }
{
    match shelf.taken(id) {
        Some(row) => is_among(recipient, row.recipients()),
        None => false,
    }
}

/// Charged: an accepted message of this provider, with pairs at the other one, which hasn't charged it.
pub(crate) fn may_charge(shelf: &Shelf, id: MsgId, by: u32) -> bool
    ensures { (trade : Trade) (moment : ℕ) → IsFor trade shelf.now → IsTrue result
        ↔ Own trade shelf.now.me shelf.now.half (entries.Charged moment id by) }
{
    if id.provider != shelf.me || shelf.charge(id, by).is_some() {
        return false;
    }
    shelf.has_pairs(id.number, by)
}

/// Learned: a pair of an accepted message of this provider, whose outcome isn't known.
pub(crate) fn may_learn(shelf: &Shelf, id: MsgId, recipient: &Address) -> bool
    ensures { (trade : Trade) (moment : ℕ) (decision : SomeDecision) (decided : ℕ) (message : Bytes) → IsFor trade shelf.now
        → IsTrue result
        ↔ Own trade shelf.now.me shelf.now.half (entries.Learned moment id recipient.now decision decided message) }
{
    if id.provider != shelf.me || shelf.known(id, recipient).is_some() {
        return false;
    }
    shelf.has_pair(id.number, recipient)
}

/// Acked: decided here, and not acknowledged.
pub(crate) fn may_acknowledge(shelf: &Shelf, id: MsgId, recipient: &Address) -> bool
    ensures { (trade : Trade) (moment : ℕ) → IsTrue result
        ↔ Own trade shelf.now.me shelf.now.half (entries.Acked moment id recipient.now) }
{
    if shelf.fate(id, recipient).is_none() {
        return false;
    }
    !shelf.is_acked(id, recipient)
}

/// Anomaly: one or more different accounts, each with room.
pub(crate) fn may_place_anomaly(shelf: &Shelf, directory: &Directory, accounts: &[Address]) -> bool
    ensures { (trade : Trade) (moment : ℕ) (message : Bytes) → IsTrue result
        ↔ Own (settled directory.now trade) shelf.now.me shelf.now.half (entries.Anomaly moment accounts.now message) }
{
    if accounts.is_empty() {
        return false;
    }
    if !differ(accounts) {
        return false;
    }
    have_room(shelf, directory, accounts)
}
