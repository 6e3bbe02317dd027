ghost use Rattle.std.specs.Prelude.{◌≡◌, ◌++◌, List, codes, IfOk, OnOk};
ghost use Rattle.std.specs.Fmt.{decimal};
ghost use Rattle.std.specs.List.{flat_map};
ghost use Rattle.pec_directory.specs.Canonical.{account_line, account_value, back_of, digest_of, domain_line, front_of, line_of, provider_text};
ghost use Rattle.pec_directory.specs.Directory.{Kept, providers_of};
ghost use Rattle.pec_directory.specs.Feeding.{Fed};

use crate::accounts::Account;
use crate::providers::Provider;
use pec_types::{NoMemory, Text};
use sha2::{Digest, Sha256};
use std::alloc::{AllocError, Global};

/// SHA-256 of the canonical text of these providers, to which it is fed line by line.
pub(crate) fn digest(alloc: Global, providers: &[Provider]) -> Result<[u8; 32], NoMemory>
    ensures { IfOk result (λ digest. digest ≡ digest_of (providers_of providers.now)) }
{
    let mut hasher = Sha256::new();
    feed_providers(alloc, &mut hasher, providers)?;
    Ok(hasher.finalize())
}

fn feed_providers(
    alloc: Global,
    hasher: &mut Sha256,
    providers: &[Provider],
) -> Result<(), NoMemory>
    ensures { OnOk result
        (Fed hasher.old hasher.new (flat_map (λ (kept : Kept). provider_text kept.provider) providers.now)) }
{
    for provider in providers {
        feed_provider(alloc, hasher, provider)?;
    }
    Ok(())
}

fn feed_provider(alloc: Global, hasher: &mut Sha256, provider: &Provider) -> Result<(), NoMemory>
    ensures { OnOk result (Fed hasher.old hasher.new (provider_text provider.now.provider)) }
{
    feed_front(hasher, provider);
    feed_domains(hasher, provider.domains());
    feed_back(alloc, hasher, provider)?;
    feed_accounts(alloc, hasher, provider.accounts())?;
    Ok(())
}

fn feed_front(hasher: &mut Sha256, provider: &Provider)
    ensures { Fed hasher.old hasher.new (front_of provider.now.provider) }
{
    feed_line(hasher, b"provider", provider.name().bytes());
    feed_line(hasher, b"receipts", provider.receipts().bytes());
}

fn feed_domains(hasher: &mut Sha256, domains: &[Text])
    ensures { Fed hasher.old hasher.new (flat_map domain_line domains.now) }
{
    for domain in domains {
        feed_line(hasher, b"domain", domain.bytes());
    }
}

fn feed_back(alloc: Global, hasher: &mut Sha256, provider: &Provider) -> Result<(), NoMemory>
    ensures { OnOk result (Fed hasher.old hasher.new (back_of provider.now.provider)) }
{
    let key = hex::encode(alloc, provider.key())?;
    feed_line(hasher, b"key", key.as_bytes());
    feed_line(hasher, b"zone", provider.rule().bytes());
    let mut buffer = itoa::Buffer::new();
    feed_line(hasher, b"limit", buffer.format(provider.limit()).as_bytes());
    Ok(())
}

fn feed_accounts(alloc: Global, hasher: &mut Sha256, accounts: &[Account]) -> Result<(), NoMemory>
    ensures { OnOk result (Fed hasher.old hasher.new (flat_map account_line accounts.now)) }
{
    for account in accounts {
        let value = account_value(alloc, account)?;
        feed_line(hasher, b"account", value.as_slice());
    }
    Ok(())
}

/// `ADDRESS QUOTA KEY`
fn account_value(alloc: Global, account: &Account) -> Result<Vec<u8>, AllocError>
    ensures { IfOk result (λ value. value.items ≡ account_value account.now) }
{
    let mut value = Vec::from_slice(alloc, account.address().bytes())?;
    value.extend_from_slice(b" ")?;
    let mut buffer = itoa::Buffer::new();
    value.extend_from_slice(buffer.format(account.quota()).as_bytes())?;
    value.extend_from_slice(b" ")?;
    value.extend_from_slice(account.key().bytes())?;
    Ok(value)
}

/// Feeds `WORD VALUE` and LF.
fn feed_line(hasher: &mut Sha256, word: &[u8], value: &[u8])
    ensures { Fed hasher.old hasher.new (line_of word.now value.now) }
{
    feed(hasher, word);
    feed(hasher, b" ");
    feed(hasher, value);
    feed(hasher, b"\n");
}

fn feed(hasher: &mut Sha256, piece: &[u8])
    ensures { Fed hasher.old hasher.new piece.now }
{
    hasher.update(piece);
}
