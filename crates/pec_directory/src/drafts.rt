ghost use Rattle.std.specs.Prelude.{◌≡◌, ◌||◌, ◌<◌, codes, length, take};
ghost use Rattle.std.specs.List.{list_any};
ghost use Rattle.std.specs.Str.{bytes_eq};
ghost use Rattle.pec_index.specs.Entries.{value_at};
ghost use Rattle.pec_types.specs.AddressReading.{domain_of};
ghost use Rattle.pec_directory.specs.Directory.{Kept, Provider as Shown, providers_of};
ghost use Rattle.pec_directory.specs.Indexes.{is_here};
ghost use Rattle.pec_directory.specs.Walk.{is_named, is_service, takes_receipts};

use crate::providers::Provider;
use pec_index::Index;
use pec_types::Address;

/// The providers of a directory that were read so far, with the provider of each domain and the number of all accounts.
#[derive(Drop)]
pub(crate) struct Draft {
    pub(crate) providers: Vec<Provider>,
    pub(crate) homes: Index<u32>,
    pub(crate) accounts: usize,
}

/// Whether one of the providers has the name.
#[tactic(auto, using(crate::proofs::WalkLemmas::any_said))]
pub(crate) fn is_named(name: &[u8], providers: &[Provider]) -> bool
    ensures { result ≡ is_named name.now (providers_of providers.now) }
{
    has_name(name, providers)
}

fn has_name(name: &[u8], providers: &[Provider]) -> bool
    ensures { result ≡ list_any (λ (kept : Kept). bytes_eq name.now kept.provider.name) providers.now }
{
    providers
        .iter()
        .any(|provider| name == provider.name().bytes())
}

/// Whether the address is in a domain of the provider of this number.
pub(crate) fn is_here(homes: &Index<u32>, number: u32, address: &Address) -> bool
    ensures { result ≡ is_here number (value_at (domain_of address.now) homes.now) }
{
    match homes.get(address.domain()) {
        None => false,
        Some(home) => *home == number,
    }
}

/// Whether receipts of one of these providers, or those that go here, go to the address, or providers write from it.
pub(crate) fn is_reserved(providers: &[Provider], receipts: &Address, address: &Address) -> bool
    ensures { result
        ≡ (takes_receipts (providers_of providers.now) receipts.now address.now || is_service address.now) }
{
    takes_receipts(providers, receipts, address) || is_service(address.bytes())
}

fn takes_receipts(providers: &[Provider], receipts: &Address, address: &Address) -> bool
    ensures { result ≡ takes_receipts (providers_of providers.now) receipts.now address.now }
{
    address.bytes() == receipts.bytes() || are_receipts(providers, address.bytes())
}

/// Whether receipts of one of these providers go to the address.
#[tactic(auto, using(crate::proofs::WalkLemmas::any_said))]
fn are_receipts(providers: &[Provider], address: &[u8]) -> bool
    ensures { result
        ≡ list_any (λ (provider : Shown). bytes_eq address.now provider.receipts) (providers_of providers.now) }
{
    has_receipts(providers, address)
}

fn has_receipts(providers: &[Provider], address: &[u8]) -> bool
    ensures { result ≡ list_any (λ (kept : Kept). bytes_eq address.now kept.provider.receipts) providers.now }
{
    providers
        .iter()
        .any(|provider| address == provider.receipts().bytes())
}

/// Whether the address is one that providers write from.
fn is_service(address: &[u8]) -> bool
    ensures { result ≡ is_service address.now }
{
    address.starts_with(b"posta-certificata@")
}
