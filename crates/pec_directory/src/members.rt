ghost use Rattle.std.specs.Prelude.{◌≡◌, ◌+◌, ◌≤◌, nat_le, false, ◌++◌, ◌∷◌, [], length, IfOk};
ghost use Rattle.toml.specs.View.{items_view, view};
ghost use Rattle.pec_types.specs.Answers.{Gives, OrNoMemory};
ghost use Rattle.pec_directory.specs.Directory.{Account as Shown, accounts_of};
ghost use Rattle.pec_directory.specs.Drafts.{IsOpen, read_so_far};
ghost use Rattle.pec_directory.specs.Indexes.{HasAccounts, HasDomains};
ghost use Rattle.pec_directory.specs.Views.{fields_shown};
ghost use Rattle.pec_directory.specs.Walk.{account_in, accounts_from, is_outside, is_taken, most_accounts};
ghost use Rattle.pec_directory.specs.declared.faults.DirectoryFault.TheVariants as faults;

use crate::accounts::Account;
use crate::drafts::{Draft, is_here, is_reserved};
use crate::faults::{DirectoryFault, Field};
use crate::fields::{key_at, quota_at, text_at};
use crate::own_fields::Fields;
use crate::places::Place;
use pec_index::Index;
use pec_types::{Address, NoMemory};
use std::alloc::Global;
use toml::Value;

/// The greatest number of accounts of a directory.
const MOST_ACCOUNTS: usize = 10_000;

/// The accounts of the provider with these fields, behind those that were read, or the fault of the first that isn't
/// right.
pub(crate) fn read_accounts(
    alloc: Global,
    draft: &Draft,
    places: &mut Index<Place>,
    fields: &Fields,
    values: &[Value],
) -> Result<Vec<Account>, DirectoryFault>
    requires open { IsOpen draft.now }
    requires domains { HasDomains draft.now.homes (read_so_far draft.now) fields.now.domains.items }
    requires accounts { HasAccounts places.old (read_so_far draft.now) [] }
    ensures answer { Gives faults.NoMemory (λ all. all.items) result
        (accounts_from (read_so_far draft.now) (fields_shown fields.now) [] (items_view values.now)) }
    ensures accounts { IfOk result (λ all. HasAccounts places.new (read_so_far draft.now) all.items) }
    ensures few { IfOk result (λ all. draft.now.accounts + length all.items ≤ most_accounts) }
{
    let mut all = Vec::new(alloc);
    for value in values {
        let account = read_account(alloc, draft, places, fields, all.as_slice(), value)?;
        all.push(account)?;
    }
    Ok(all)
}

/// The next account, behind these of its provider.
#[tactic(auto, unfolding(crate::specs::Walk::account_in))]
fn read_account(
    alloc: Global,
    draft: &Draft,
    places: &mut Index<Place>,
    fields: &Fields,
    before: &[Account],
    value: &Value,
) -> Result<Account, DirectoryFault>
    requires open { IsOpen draft.now }
    requires few { draft.now.accounts + length before.now ≤ most_accounts }
    requires domains { HasDomains draft.now.homes (read_so_far draft.now) fields.now.domains.items }
    requires accounts { HasAccounts places.old (read_so_far draft.now) before.now }
    ensures answer { OrNoMemory faults.NoMemory result
        (account_in (read_so_far draft.now) (fields_shown fields.now) before.now (view value.now)) }
    ensures accounts { IfOk result (λ account.
        HasAccounts places.new (read_so_far draft.now) (before.now ++ account ∷ [])) }
    ensures few { IfOk result (λ account. draft.now.accounts + (length before.now + 1) ≤ most_accounts) }
{
    let provider = draft.providers.len() as u32;
    let account = before.len() as u32 + 1;
    let Some(text) = text_at("address", value) else {
        return Err(DirectoryFault::BadField(provider, Field::Address));
    };
    let Some(quota) = quota_at(value) else {
        return Err(DirectoryFault::BadField(provider, Field::Quota));
    };
    let Some(key) = key_at(alloc, value)? else {
        return Err(DirectoryFault::BadField(provider, Field::Key));
    };
    let Some(address) = Address::find(alloc, text.as_bytes())? else {
        return Err(DirectoryFault::BadAddress(provider, account));
    };
    if is_outside(draft, fields, &address) {
        return Err(DirectoryFault::AccountOutside(provider, account));
    }
    if is_taken(alloc, draft, places, fields, before, &address)? {
        return Err(DirectoryFault::AccountTwice(provider, account));
    }
    if is_full(draft, before) {
        return Err(DirectoryFault::TooMany);
    }
    Ok(Account::new(address, quota, key))
}

/// Whether the address is in none of the provider's domains.
pub(crate) fn is_outside(draft: &Draft, fields: &Fields, address: &Address) -> bool
    requires open { IsOpen draft.now }
    requires domains { HasDomains draft.now.homes (read_so_far draft.now) fields.now.domains.items }
    ensures { result ≡ is_outside fields.now.domains.items address.now }
{
    !is_here(&draft.homes, draft.providers.len() as u32, address)
}

/// Whether the next account may not have the address. It is one of the directory's from then on.
fn is_taken(
    alloc: Global,
    draft: &Draft,
    places: &mut Index<Place>,
    fields: &Fields,
    before: &[Account],
    address: &Address,
) -> Result<bool, NoMemory>
    requires { HasAccounts places.old (read_so_far draft.now) before.now }
    ensures taken { IfOk result (λ taken.
        taken ≡ is_taken (read_so_far draft.now) fields.now.receipts before.now address.now) }
    ensures put { IfOk result (λ taken. taken ≡ false → (account : Shown) → account.address ≡ address.now
        → HasAccounts places.new (read_so_far draft.now) (before.now ++ account ∷ [])) }
{
    if is_reserved(draft.providers.as_slice(), &fields.receipts, address) {
        return Ok(true);
    }
    let place = Place {
        provider: draft.providers.len(),
        account: before.len(),
    };
    let added = places.add(alloc, address.bytes(), place)?;
    Ok(!added)
}

/// Whether the directory has as many accounts as it may have.
fn is_full(draft: &Draft, before: &[Account]) -> bool
    requires open { IsOpen draft.now }
    requires few { draft.now.accounts + length before.now ≤ most_accounts }
    ensures { result ≡ nat_le most_accounts (length (accounts_of (read_so_far draft.now)) + length before.now) }
{
    draft.accounts + before.len() >= MOST_ACCOUNTS
}
