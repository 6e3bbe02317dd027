//! What is looked up in a directory. Expected values are read off the directory's text by hand.
use crate::directories::{address_of, directory, first_alone};
use pec_cert::Zone;
use pec_directory::{Account, Directory, Provider};
use pec_types::Text;
use std::alloc::Global;

/// An account: its address, its quota and its key.
type Entry = (&'static [u8], u64, &'static [u8]);

fn is_entry(account: &Account, wanted: &Entry) -> bool {
    account.address().bytes() == wanted.0
        && account.quota() == wanted.1
        && account.key().bytes() == wanted.2
}

fn is_found(account: Option<&Account>, wanted: Option<Entry>) -> bool {
    match account {
        Some(account) => match wanted {
            Some(entry) => is_entry(account, &entry),
            None => false,
        },
        None => wanted.is_none(),
    }
}

fn are_entries(accounts: &[Account], wanted: &[Entry]) -> bool {
    for (account, entry) in accounts.iter().zip(wanted) {
        if !is_entry(account, entry) {
            return false;
        }
    }
    accounts.len() == wanted.len()
}

/// An address, its home, and its account.
#[derive(Clone, Copy)]
struct Place {
    address: &'static [u8],
    home: Option<u32>,
    account: Option<Entry>,
}

const PLACES: [Place; 5] = [
    // in capitals
    Place {
        address: b"Alice@alfa.example",
        home: Some(0),
        account: Some((b"alice@alfa.example", 100, b"chiave-alice")),
    },
    Place {
        address: b"Carl@Beta.example",
        home: Some(1),
        account: Some((b"carl@beta.example", 1, b"chiave-carl")),
    },
    // no account
    Place {
        address: b"nobody@beta.example",
        home: Some(1),
        account: None,
    },
    // in the second domain
    Place {
        address: b"alice@due.example",
        home: Some(0),
        account: None,
    },
    // in nobody's domain
    Place {
        address: b"x@posta.example",
        home: None,
        account: None,
    },
];

// In the directory of the first provider alone.
const PLACES_OF_FIRST: [Place; 2] = [
    Place {
        address: b"anna@alfa.example",
        home: Some(0),
        account: Some((b"anna@alfa.example", 100, b"chiave-anna")),
    },
    Place {
        address: b"bob@beta.example",
        home: None,
        account: None,
    },
];

#[test]
fn an_address_has_a_home_and_may_be_an_account(rt: HostRuntime) {
    for row in &PLACES {
        assert!(rt; is_placed(rt.alloc(), false, row));
    }
}

#[test]
fn a_directory_of_one_provider_has_no_other_home(rt: HostRuntime) {
    for row in &PLACES_OF_FIRST {
        assert!(rt; is_placed(rt.alloc(), true, row));
    }
}

/// Whether it is so in the directory of both providers, or of the first alone.
fn is_placed(alloc: Global, alone: bool, row: &Place) -> bool {
    match one_of(alloc, alone) {
        Some(directory) => is_placed_in(alloc, &directory, row),
        None => false,
    }
}

fn one_of(alloc: Global, alone: bool) -> Option<Directory> {
    if alone {
        first_alone(alloc)
    } else {
        directory(alloc)
    }
}

fn is_placed_in(alloc: Global, directory: &Directory, row: &Place) -> bool {
    match address_of(alloc, row.address) {
        Some(address) => {
            directory.home_of(&address) == row.home
                && is_found(directory.account(&address), row.account)
        }
        None => false,
    }
}

/// An address, whether it is certified, the provider whose account it is, and whether it is the second one's.
#[derive(Clone, Copy)]
struct Standing {
    address: &'static [u8],
    certified: bool,
    home: Option<u32>,
    at_beta: bool,
}

const STANDINGS: [Standing; 5] = [
    Standing {
        address: b"alice@alfa.example",
        certified: true,
        home: Some(0),
        at_beta: false,
    },
    Standing {
        address: b"bob@beta.example",
        certified: true,
        home: Some(1),
        at_beta: true,
    },
    // certified, and no account
    Standing {
        address: b"nobody@beta.example",
        certified: true,
        home: None,
        at_beta: false,
    },
    Standing {
        address: b"alice@due.example",
        certified: true,
        home: None,
        at_beta: false,
    },
    // external
    Standing {
        address: b"x@posta.example",
        certified: false,
        home: None,
        at_beta: false,
    },
];

#[test]
fn certified_addresses_and_accounts_are_told_apart(rt: HostRuntime) {
    for row in &STANDINGS {
        assert!(rt; is_standing(rt.alloc(), row));
    }
}

fn is_standing(alloc: Global, row: &Standing) -> bool {
    let Some(directory) = directory(alloc) else {
        return false;
    };
    match address_of(alloc, row.address) {
        Some(address) => {
            directory.is_certified(&address) == row.certified
                && directory.account_home(&address) == row.home
                && directory.is_account_of(1, &address) == row.at_beta
        }
        None => false,
    }
}

// Names, and the numbers of their providers, of which there are two. A capital is another byte.
const NAMES: [(&[u8], Option<u32>); 3] = [(b"alfa", Some(0)), (b"beta", Some(1)), (b"Beta", None)];

#[test]
fn a_name_is_one_providers(rt: HostRuntime) {
    for (name, number) in &NAMES {
        assert!(rt; is_named(rt.alloc(), false, 2, name, *number));
    }
    assert!(rt; is_named(rt.alloc(), true, 1, b"beta", None));
}

/// Whether the directory has so many providers, and the name is that of this one.
fn is_named(alloc: Global, alone: bool, count: u32, name: &[u8], number: Option<u32>) -> bool {
    match one_of(alloc, alone) {
        Some(directory) => {
            directory.count() == count
                && directory.provider(count).is_none()
                && directory.named(name) == number
        }
        None => false,
    }
}

// Texts, and the providers and the numbers of the messages that they name.
const TEXTS: [(&[u8], Option<(u32, u64)>); 11] = [
    (b"pec.0000000@alfa.example", Some((0, 0))),
    (b"pec.0000042@beta.example", Some((1, 42))),
    // the last number, and the first that no message has
    (b"pec.0999999@beta.example", Some((1, 999_999))),
    (b"pec.1000000@beta.example", None),
    // a provider's second domain, and nobody's domain
    (b"pec.0000000@due.example", None),
    (b"pec.0000000@posta.example", None),
    // six digits, eight, and a byte that is no digit but worth ten
    (b"pec.000000@alfa.example", None),
    (b"pec.00000000@alfa.example", None),
    (b"pec.000000:@alfa.example", None),
    // a capital, and too short for a number
    (b"Pec.0000000@alfa.example", None),
    (b"pec.000", None),
];

#[test]
fn a_text_names_a_message_where_it_is_printed_so(rt: HostRuntime) {
    for (text, named) in &TEXTS {
        assert!(rt; names(rt.alloc(), text, *named));
    }
}

fn names(alloc: Global, text: &[u8], named: Option<(u32, u64)>) -> bool {
    let Some(directory) = directory(alloc) else {
        return false;
    };
    match directory.id_of(alloc, text) {
        Ok(Some(id)) => named == Some((id.provider, id.number)),
        Ok(None) => named.is_none(),
        Err(_) => false,
    }
}

/// What the text says of a provider, but for its key and zone.
#[derive(Clone, Copy)]
struct Shown {
    number: u32,
    name: &'static [u8],
    receipts: &'static [u8],
    /// The first domain, and all of them.
    first: &'static [u8],
    domains: &'static [&'static [u8]],
    accounts: &'static [Entry],
}

const PROVIDERS: [Shown; 2] = [
    Shown {
        number: 0,
        name: b"alfa",
        receipts: b"ricevute@alfa.example",
        first: b"alfa.example",
        domains: &[b"alfa.example", b"due.example"],
        accounts: &[
            (b"alice@alfa.example", 100, b"chiave-alice"),
            (b"anna@alfa.example", 100, b"chiave-anna"),
        ],
    },
    Shown {
        number: 1,
        name: b"beta",
        receipts: b"ricevute@beta.example",
        first: b"beta.example",
        domains: &[b"beta.example"],
        accounts: &[
            (b"bob@beta.example", 100, b"chiave-bob"),
            (b"carl@beta.example", 1, b"chiave-carl"),
        ],
    },
];

#[test]
fn a_provider_is_shown_as_its_text_says(rt: HostRuntime) {
    for row in &PROVIDERS {
        assert!(rt; is_shown(rt.alloc(), row));
    }
}

fn is_shown(alloc: Global, row: &Shown) -> bool {
    match directory(alloc) {
        Some(directory) => {
            has_domain(&directory, row.number, row.first)
                && is_provider(directory.provider(row.number), row)
        }
        None => false,
    }
}

/// Whether this is the provider's first domain; that of a third provider is empty.
fn has_domain(directory: &Directory, number: u32, first: &[u8]) -> bool {
    directory.first_domain(number) == first && directory.first_domain(2).is_empty()
}

fn is_provider(provider: Option<&Provider>, row: &Shown) -> bool {
    match provider {
        Some(provider) => {
            has_texts(provider, row)
                && are_domains(provider.domains(), row.domains)
                && are_entries(provider.accounts(), row.accounts)
        }
        None => false,
    }
}

fn has_texts(provider: &Provider, row: &Shown) -> bool {
    provider.name().bytes() == row.name
        && provider.receipts().bytes() == row.receipts
        && provider.rule().bytes() == b"CET-1CEST,M3.5.0,M10.5.0/3".as_slice()
        && provider.limit() == 31_457_280
}

fn are_domains(domains: &[Text], wanted: &[&[u8]]) -> bool {
    for (domain, bytes) in domains.iter().zip(wanted) {
        if domain.bytes() != *bytes {
            return false;
        }
    }
    domains.len() == wanted.len()
}

#[test]
fn keys_and_zones_are_kept(rt: HostRuntime) {
    assert!(rt; keeps_key_and_zone(rt.alloc()));
}

fn keeps_key_and_zone(alloc: Global) -> bool {
    match directory(alloc) {
        Some(directory) => match directory.provider(1) {
            Some(beta) => has_key_and_zone(beta),
            None => false,
        },
        None => false,
    }
}

const KEY: [u8; 16] = [
    0x10, 0x11, 0x12, 0x13, 0x14, 0x15, 0x16, 0x17, 0x18, 0x19, 0x1a, 0x1b, 0x1c, 0x1d, 0x1e, 0x1f,
];

fn has_key_and_zone(beta: &Provider) -> bool {
    beta.key() == KEY.as_slice() && Zone::read(beta.rule()) == Ok(*beta.zone())
}

// As `sha256sum` (GNU coreutils) gives it for the canonical text, written out by hand.
#[test]
fn a_digest_is_that_of_the_canonical_text(rt: HostRuntime) {
    assert!(rt; has_digest(rt.alloc(), DIGEST));
}

const DIGEST: &str = "650ac76bf12687978cc1a9683ba637c59fc4f5e104ec183beebd4ed60987180b";

fn has_digest(alloc: Global, wanted: &str) -> bool {
    match digest(alloc) {
        Some(digest) => digest.as_str() == wanted,
        None => false,
    }
}

fn digest(alloc: Global) -> Option<String> {
    let directory = directory(alloc)?;
    match directory.digest(alloc) {
        Ok(digest) => hex::encode(alloc, digest).ok(),
        Err(_) => None,
    }
}
