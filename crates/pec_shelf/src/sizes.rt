ghost use Rattle.std.specs.Prelude.{◌≡◌, ◌+◌, ◌^◌, ◌<◌, ◌≤◌, length, IfSome};
ghost use Rattle.std.specs.List.{flat_map};
ghost use Rattle.pec_ledger.specs.Steps.{size_of};
ghost use Rattle.pec_records.specs.Entry.{address_field};

use pec_records::Entry;
use pec_types::{Address, Text8};

/// How many bytes longer an entry makes its journal, where 64 bits can tell it.
#[tactic(auto, using(crate::proofs::SizeLemmas::start_size, crate::proofs::SizeLemmas::accepted_size, crate::proofs::SizeLemmas::refused_size, crate::proofs::SizeLemmas::took_size, crate::proofs::SizeLemmas::decided_size, crate::proofs::SizeLemmas::charged_size, crate::proofs::SizeLemmas::learned_size, crate::proofs::SizeLemmas::acked_size, crate::proofs::SizeLemmas::ticked_size, crate::proofs::SizeLemmas::anomaly_size, crate::proofs::SizeLemmas::start_two_size, crate::proofs::SizeLemmas::upgraded_size, crate::proofs::SizeLemmas::archived_size))]
pub(crate) fn size_of(entry: &Entry) -> Option<u64>
    ensures { IfSome result (λ size. size ≡ size_of entry.now) }
{
    match entry {
        Entry::Start { digest, .. } => Some(10 + digest.as_slice().len() as u64),
        Entry::Accepted {
            sender,
            message,
            ..
        } => Some(20 + address_bytes(sender) + message_bytes(message)),
        Entry::NotAccepted {
            sender,
            path,
            message,
            ..
        } => {
            let path = addresses_bytes(path.as_slice())?;
            let size = path.checked_add(25 + address_bytes(sender) + message_bytes(message))?;
            Some(size)
        }
        Entry::Took { message, .. } => Some(30 + message_bytes(message)),
        Entry::Decided { recipient, .. } => Some(29 + address_bytes(recipient)),
        Entry::Charged { .. } => Some(30),
        Entry::Learned {
            recipient,
            message,
            ..
        } => Some(41 + address_bytes(recipient) + message_bytes(message)),
        Entry::Acked { recipient, .. } => Some(28 + address_bytes(recipient)),
        Entry::Ticked { .. } => Some(14),
        Entry::Anomaly {
            accounts,
            message,
            ..
        } => {
            let accounts = addresses_bytes(accounts.as_slice())?;
            let size = accounts.checked_add(22 + message_bytes(message))?;
            Some(size)
        }
        Entry::StartTwo { digest, .. } => Some(10 + digest.as_slice().len() as u64),
        Entry::Upgraded { .. } => Some(14),
        Entry::Archived { account, .. } => Some(20 + address_bytes(account)),
    }
}

fn address_bytes(address: &Address) -> u64
    ensures bytes { result ≡ length address.now }
    ensures short { result ≤ 254 }
{
    address.bytes().len() as u64
}

fn message_bytes(message: &Text8) -> u64
    ensures bytes { result ≡ length message.now }
    ensures below { result < 2 ^ 63 }
{
    message.bytes().len() as u64
}

/// The bytes of addresses, each with its length.
fn addresses_bytes(addresses: &[Address]) -> Option<u64>
    ensures { IfSome result (λ bytes. bytes ≡ length (flat_map address_field addresses.now)) }
{
    let mut bytes: u64 = 0;
    for address in addresses {
        bytes = plus(bytes, 2 + address_bytes(address))?;
    }
    Some(bytes)
}

fn plus(a: u64, b: u64) -> Option<u64>
    ensures { IfSome result (λ sum. sum ≡ a + b) }
{
    a.checked_add(b)
}
