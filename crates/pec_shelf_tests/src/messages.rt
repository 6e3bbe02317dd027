//! Who is named in the messages of the tests, and where they are at home: the accounts of the two providers' directory.

use crate::steps::Message;

/// No message has more recipients.
pub(crate) const MOST: usize = 4;

/// The provider of an address, of those in whose domains it may stand.
pub(crate) fn home(address: &str) -> Option<u32> {
    if address.ends_with("@alfa.example") {
        return Some(0);
    }
    if address.ends_with("@beta.example") {
        return Some(1);
    }
    None
}

static ACCOUNTS: [&str; 4] = [
    "alice@alfa.example",
    "anna@alfa.example",
    "bob@beta.example",
    "carl@beta.example",
];

pub(crate) fn is_account_of(provider: u32, address: &str) -> bool {
    if home(address) != Some(provider) {
        return false;
    }
    for account in accounts() {
        if *account == address {
            return true;
        }
    }
    false
}

fn accounts() -> &'static [&'static str] {
    &ACCOUNTS
}

/// The recipient at a place: those of `To`, and then those of `Cc`.
pub(crate) fn recipient(message: Message, place: usize) -> Option<&'static str> {
    let primaries = count(message.to);
    if place < primaries {
        return nth(message.to, place);
    }
    nth(message.cc, place - primaries)
}

pub(crate) fn class(message: Message, place: usize) -> &'static str {
    if place < count(message.to) {
        "primary"
    } else {
        "copy"
    }
}

fn count(list: &str) -> usize {
    if list.is_empty() {
        return 0;
    }
    list.split(',').count()
}

fn nth(list: &'static str, place: usize) -> Option<&'static str> {
    if list.is_empty() {
        return None;
    }
    list.split(',').nth(place)
}

/// Whether a message is for an address.
pub(crate) fn is_named(message: Message, address: &str) -> bool {
    for place in 0..MOST {
        let Some(other) = recipient(message, place) else {
            return false;
        };
        if other == address {
            return true;
        }
    }
    false
}

/// Whether a message is for somebody at a provider.
pub(crate) fn goes_to(message: Message, provider: u32) -> bool {
    for place in 0..MOST {
        let Some(address) = recipient(message, place) else {
            return false;
        };
        if home(address) == Some(provider) {
            return true;
        }
    }
    false
}
