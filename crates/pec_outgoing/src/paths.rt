ghost use Rattle.std.specs.Prelude.{◌≡◌, ◌<◌, [], ◌∷◌, filter, length, map, unwrap_or, IfOk};
ghost use Rattle.pec_directory.specs.Directory.{home_of, is_number, providers_of};
ghost use Rattle.pec_ledger.specs.Lookups.{is_home};
ghost use Rattle.pec_outgoing.specs.Needs.{is_among};
ghost use Rattle.pec_receipts.specs.Receipts.{receipts_at};
ghost use Rattle.pec_types.specs.Bytes.{Bytes};
ghost use Rattle.pec_types.specs.declared.messages.Recipient.{Recipient as SomeRecipient};

use pec_directory::Directory;
use pec_types::{Address, NoMemory, Recipient};
use std::alloc::Global;

/// Whether an address is at home at a provider. It takes no memory.
pub(crate) fn is_at_home(directory: &Directory, provider: u32, address: &Address) -> bool
    ensures here { result ≡ is_home provider (home_of (providers_of directory.now) address.now) }
    ensures number { result ≡ is_number provider (home_of (providers_of directory.now) address.now) }
{
    match directory.home_of(address) {
        Some(home) => provider == home,
        None => false,
    }
}

/// Whether one of these recipients has this address. It takes no memory.
pub(crate) fn is_among(recipients: &[Recipient], address: &Address) -> bool
    ensures { result ≡ is_among recipients.now address.now }
{
    recipients
        .iter()
        .any(|recipient| address.bytes() == recipient.address.bytes())
}

/// The addresses of those recipients that are at home at a provider.
pub(crate) fn addresses_at(
    alloc: Global,
    directory: &Directory,
    provider: u32,
    recipients: &[Recipient],
) -> Result<Vec<Address>, NoMemory>
    ensures { IfOk result (λ path. path.items
        ≡ filter (λ (address : Bytes). is_home provider (home_of (providers_of directory.now) address))
        (map (λ (recipient : SomeRecipient). recipient.address) recipients.now)) }
{
    let mut path = Vec::new(alloc);
    for recipient in recipients {
        if is_at_home(directory, provider, &recipient.address) {
            path.push(recipient.address.copy(alloc)?)?;
        }
    }
    Ok(path)
}

/// The path of one address.
pub(crate) fn path_to(alloc: Global, address: &Address) -> Result<Vec<Address>, NoMemory>
    ensures { IfOk result (λ path. path.items ≡ address.now ∷ []) }
{
    let copy = address.copy(alloc)?;
    let mut path = Vec::new(alloc);
    path.push(copy)?;
    Ok(path)
}

/// The address to which receipts for a provider of the directory go. It takes no memory.
#[tactic(auto, unfolding(pec_receipts::specs::Receipts::receipts_at))]
pub(crate) fn receipts_at(directory: &Directory, provider: u32) -> &Address
    requires { provider < length directory.now }
    ensures { result.now ≡ unwrap_or (receipts_at (providers_of directory.now) provider) [] }
{
    let Some(provider) = directory.provider(provider) else {
        unreachable!();
    };
    provider.receipts()
}
