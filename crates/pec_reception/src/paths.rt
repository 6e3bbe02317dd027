ghost use Rattle.std.specs.Prelude.{◌≡◌, [], ◌∷◌, ◌&&◌, length, nat_lt, unwrap_or};
ghost use Rattle.pec_directory.specs.Directory.{providers_of};
ghost use Rattle.pec_receipts.specs.Receipts.{receipts_at};
ghost use Rattle.pec_ledger.specs.Lookups.{accepted_at};
ghost use Rattle.pec_plays.specs.Reception.{is_outcome_path, same_path};
ghost use Rattle.pec_seal.specs.Seals.{Seals};
ghost use Rattle.pec_trade.specs.TradeOf.{trade_of};

use pec_directory::Directory;
use pec_shelf::Shelf;
use pec_types::{Address, Decision, MsgId, Refusal};

/// The path is this list, and there is somebody in it.
pub(crate) fn is_for(path: &[Address], them: &[Address]) -> bool
    ensures { result ≡ (same_path path.now them.now && nat_lt 0 (length them.now)) }
{
    is_path(path, them) && !them.is_empty()
}

/// The two paths are the same addresses in the same order.
fn is_path(path: &[Address], other: &[Address]) -> bool
    ensures { result ≡ same_path path.now other.now }
{
    let mut rest = path;
    let mut others = other;
    while let [address, behind @ ..] = rest {
        let [next, further @ ..] = others else {
            return false;
        };
        if address.bytes() != next.bytes() {
            return false;
        }
        rest = behind;
        others = further;
    }
    others.is_empty()
}

/// The path is the address for receipts of the provider of a number.
#[tactic(auto, unfolding(pec_receipts::specs::Receipts::receipts_at))]
pub(crate) fn is_to_receipts(directory: &Directory, number: u32, path: &[Address]) -> bool
    ensures { result ≡ same_path path.now (unwrap_or (receipts_at (providers_of directory.now) number) [] ∷ []) }
{
    match directory.provider(number) {
        Some(provider) => is_alone(path, provider.receipts().bytes()),
        None => is_alone(path, b""),
    }
}

/// The path is the one along which an outcome of an accepted message goes: to the account that submitted it, or for a
/// virus to the address for receipts of its provider.
pub(crate) fn is_to_addressee(
    directory: &Directory,
    shelf: &Shelf,
    id: MsgId,
    decision: Decision,
    path: &[Address],
) -> bool
    ensures { (seals : Seals)
        → result ≡ is_outcome_path (trade_of directory.now seals) id decision path.now (accepted_at shelf.now.half id.number) }
{
    let Some(row) = shelf.message(id.number) else {
        return false;
    };
    if row.facts().is_none() {
        return false;
    }
    match decision {
        Decision::Placed => is_alone(path, row.sender().bytes()),
        Decision::Refused(Refusal::NoMailbox) => is_alone(path, row.sender().bytes()),
        Decision::Refused(Refusal::MailboxFull) => is_alone(path, row.sender().bytes()),
        Decision::Refused(Refusal::Virus) => is_to_receipts(directory, id.provider, path),
    }
}

/// The path is this address alone.
fn is_alone(path: &[Address], address: &[u8]) -> bool
    ensures { result ≡ same_path path.now (address.now ∷ []) }
{
    let [one, behind @ ..] = path else {
        return false;
    };
    if one.bytes() != address {
        return false;
    }
    behind.is_empty()
}
