ghost use Rattle.std.specs.Prelude.{◌≡◌, ◌++◌, ◌∷◌, [], codes, map, IfOk, OnOk};
ghost use Rattle.std.specs.Fmt.{decimal};
ghost use Rattle.std.specs.List.{flat_map};
ghost use Rattle.pec_directory.specs.Directory.{providers_of};
ghost use Rattle.pec_ldif.specs.Writing.{account_dn, account_record, account_records, attribute_line, is_coded, ldif_text, provider_back, provider_dn, provider_front, provider_record, provider_records, record_text, said, value_said};

use crate::lines::begins_with;
use base64::engine::general_purpose::STANDARD;
use pec_directory::{Account, Directory, Provider};
use pec_types::{NoMemory, Text};
use std::alloc::{AllocError, Global};

/// The text of a directory in LDIF (RFC 2849): `version: 1`, and for each provider and each of its accounts an empty
/// line and a record. A value that begins with `:` or `<` is written in base64. This project's profile.
#[tactic(auto, unfolding(crate::specs::Writing::ldif_text))]
pub fn ldif_of(alloc: Global, directory: &Directory) -> Result<Vec<u8>, NoMemory>
    ensures { IfOk result (λ text. text.items ≡ ldif_text (providers_of directory.now)) }
{
    let mut text = Vec::from_slice(alloc, b"version: 1\n")?;
    for number in 0..directory.count() {
        let Some(provider) = directory.provider(number) else {
            unreachable!();
        };
        add_provider(alloc, &mut text, number, provider)?;
    }
    Ok(text)
}

/// Adds the records of a provider and of its accounts.
fn add_provider(
    alloc: Global,
    text: &mut Vec<u8>,
    number: u32,
    provider: &Provider,
) -> Result<(), NoMemory>
    ensures { OnOk result (text.new.items
        ≡ text.old.items ++ flat_map record_text (provider_records number provider.now.provider)) }
{
    add_record(alloc, text, number, provider)?;
    add_accounts(alloc, text, number, provider.accounts())?;
    Ok(())
}

/// Adds the record of a provider.
fn add_record(
    alloc: Global,
    text: &mut Vec<u8>,
    number: u32,
    provider: &Provider,
) -> Result<(), NoMemory>
    ensures { OnOk result
        (text.new.items ≡ text.old.items ++ record_text (provider_record number provider.now.provider)) }
{
    add_front(alloc, text, number, provider)?;
    add_domains(alloc, text, provider.domains())?;
    add_back(alloc, text, provider)?;
    Ok(())
}

/// Adds the lines of a provider's record before its domains.
fn add_front(
    alloc: Global,
    text: &mut Vec<u8>,
    number: u32,
    provider: &Provider,
) -> Result<(), NoMemory>
    ensures { OnOk result
        (text.new.items ≡ text.old.items ++ record_text (provider_front number provider.now.provider)) }
{
    let name = provider_dn(alloc, number)?;
    add_head(alloc, text, &name, b"pecProvider")?;
    add_attribute(alloc, text, b"pecName", provider.name().bytes())?;
    add_attribute(alloc, text, b"mailReceipt", provider.receipts().bytes())?;
    Ok(())
}

/// Adds the lines of a provider's domains.
fn add_domains(alloc: Global, text: &mut Vec<u8>, domains: &[Text]) -> Result<(), NoMemory>
    ensures { OnOk result (text.new.items
        ≡ text.old.items ++ flat_map attribute_line (map (λ domain. said (codes "managedDomains") domain) domains.now)) }
{
    for domain in domains {
        add_attribute(alloc, text, b"managedDomains", domain.bytes())?;
    }
    Ok(())
}

/// Adds the lines of a provider's record behind its domains.
fn add_back(alloc: Global, text: &mut Vec<u8>, provider: &Provider) -> Result<(), NoMemory>
    ensures { OnOk result
        (text.new.items ≡ text.old.items ++ flat_map attribute_line (provider_back provider.now.provider)) }
{
    let key = hex::encode(alloc, provider.key())?;
    add_attribute(alloc, text, b"pecKey", key.as_bytes())?;
    add_attribute(alloc, text, b"pecZone", provider.rule().bytes())?;
    add_number(alloc, text, b"pecLimit", provider.limit())?;
    Ok(())
}

/// Adds the records of a provider's accounts.
fn add_accounts(
    alloc: Global,
    text: &mut Vec<u8>,
    number: u32,
    accounts: &[Account],
) -> Result<(), NoMemory>
    ensures { OnOk result
        (text.new.items ≡ text.old.items ++ flat_map record_text (account_records number 1 accounts.now)) }
{
    let mut at = 1;
    for account in accounts {
        add_account(alloc, text, number, at, account)?;
        at += 1;
    }
    Ok(())
}

/// Adds the record of an account.
fn add_account(
    alloc: Global,
    text: &mut Vec<u8>,
    number: u32,
    at: usize,
    account: &Account,
) -> Result<(), NoMemory>
    ensures { OnOk result (text.new.items ≡ text.old.items ++ record_text (account_record number at account.now)) }
{
    let name = account_dn(alloc, number, at)?;
    add_head(alloc, text, &name, b"pecAccount")?;
    add_attribute(alloc, text, b"pecAddress", account.address().bytes())?;
    add_number(alloc, text, b"pecQuota", account.quota())?;
    add_attribute(alloc, text, b"pecKey", account.key().bytes())?;
    Ok(())
}

/// Adds an empty line, and the first two lines of a record: its name and its class.
fn add_head(alloc: Global, text: &mut Vec<u8>, name: &[u8], class: &[u8]) -> Result<(), NoMemory>
    ensures { OnOk result (text.new.items ≡ text.old.items
        ++ record_text (said (codes "dn") name.now ∷ said (codes "objectClass") class.now ∷ [])) }
{
    text.extend_from_slice(b"\n")?;
    add_attribute(alloc, text, b"dn", name)?;
    add_attribute(alloc, text, b"objectClass", class)?;
    Ok(())
}

fn provider_dn(alloc: Global, number: u32) -> Result<Vec<u8>, AllocError>
    ensures { IfOk result (λ name. name.items ≡ provider_dn number) }
{
    let mut name = Vec::from_slice(alloc, b"cn=")?;
    let mut buffer = itoa::Buffer::new();
    name.extend_from_slice(buffer.format(number).as_bytes())?;
    Ok(name)
}

fn account_dn(alloc: Global, number: u32, at: usize) -> Result<Vec<u8>, AllocError>
    ensures { IfOk result (λ name. name.items ≡ account_dn number at) }
{
    let mut name = provider_dn(alloc, number)?;
    name.extend_from_slice(b".")?;
    let mut buffer = itoa::Buffer::new();
    name.extend_from_slice(buffer.format(at).as_bytes())?;
    Ok(name)
}

/// Adds the line of a number.
fn add_number(alloc: Global, text: &mut Vec<u8>, name: &[u8], number: u64) -> Result<(), NoMemory>
    ensures { OnOk result
        (text.new.items ≡ text.old.items ++ flat_map attribute_line (said name.now (decimal number) ∷ [])) }
{
    let mut buffer = itoa::Buffer::new();
    add_attribute(alloc, text, name, buffer.format(number).as_bytes())?;
    Ok(())
}

/// Adds a line.
fn add_attribute(
    alloc: Global,
    text: &mut Vec<u8>,
    name: &[u8],
    value: &[u8],
) -> Result<(), NoMemory>
    ensures { OnOk result
        (text.new.items ≡ text.old.items ++ flat_map attribute_line (said name.now value.now ∷ [])) }
{
    text.extend_from_slice(name)?;
    add_value(alloc, text, value)?;
    text.extend_from_slice(b"\n")?;
    Ok(())
}

/// Adds what stands behind a name.
fn add_value(alloc: Global, text: &mut Vec<u8>, value: &[u8]) -> Result<(), NoMemory>
    ensures { OnOk result (text.new.items ≡ text.old.items ++ value_said value.now) }
{
    if is_coded(value) {
        let code = STANDARD.encode(alloc, value)?;
        text.extend_from_slice(b":: ")?;
        text.extend_from_slice(code.as_bytes())?;
        return Ok(());
    }
    text.extend_from_slice(b": ")?;
    text.extend_from_slice(value)?;
    Ok(())
}

/// Whether a value may not stand plain.
fn is_coded(value: &[u8]) -> bool
    ensures { result ≡ is_coded value.now }
{
    begins_with(value, b':') || begins_with(value, b'<')
}
