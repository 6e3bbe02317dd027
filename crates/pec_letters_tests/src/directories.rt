//! The directories that the tests look things up in, and the most accounts that one may have.
use crate::texts::put;
use pec_directory::{Directory, DirectoryFault};
use pec_trial::{alfa, two, two_with_due};
use pec_types::Address;
use std::alloc::Global;

/// The directory of both providers, the first with a second domain.
pub(crate) fn directory(alloc: Global) -> Option<Directory> {
    match two_with_due(alloc) {
        Ok(text) => Directory::read(alloc, text.as_str()).ok(),
        Err(_) => None,
    }
}

/// The directory of the first provider alone.
pub(crate) fn first_alone(alloc: Global) -> Option<Directory> {
    Directory::read(alloc, alfa()).ok()
}

/// A directory of the first provider with so many accounts, and of the second one with its two.
fn crowd(alloc: Global, accounts: u32) -> String {
    let mut text = String::new(alloc);
    put(&mut text, without_accounts());
    for number in 0..accounts {
        put_account(alloc, &mut text, number);
    }
    put(&mut text, second_alone());
    text
}

fn without_accounts() -> &'static str {
    match alfa().split_once("[[provider.account]]") {
        Some((provider, _)) => provider,
        None => "",
    }
}

fn second_alone() -> &'static str {
    match two().strip_prefix(alfa()) {
        Some(second) => second,
        None => "",
    }
}

fn put_account(alloc: Global, text: &mut String, number: u32) {
    put(text, "[[provider.account]]\naddress = \"u");
    put_number(alloc, text, number);
    put(text, "@alfa.example\"\nquota = 1\nkey = \"k\"\n");
}

fn put_number(alloc: Global, text: &mut String, number: u32) {
    if let Ok(digits) = number.to_string(alloc) {
        put(text, digits.as_str());
    }
}

pub(crate) fn address_of(alloc: Global, text: &[u8]) -> Option<Address> {
    Address::read(alloc, text).ok()
}

// The last two accounts of these directories are at their second provider.
#[test]
fn ten_thousand_accounts_are_taken(rt: HostRuntime) {
    assert!(rt; is_crowd_read_as(rt.alloc(), 9_998, None));
}

#[test]
fn one_account_more_is_too_many(rt: HostRuntime) {
    assert!(rt; is_crowd_read_as(rt.alloc(), 9_999, Some(DirectoryFault::TooMany)));
}

fn is_crowd_read_as(alloc: Global, accounts: u32, wanted: Option<DirectoryFault>) -> bool {
    match Directory::read(alloc, crowd(alloc, accounts).as_str()) {
        Ok(_) => wanted.is_none(),
        Err(fault) => wanted == Some(fault),
    }
}
