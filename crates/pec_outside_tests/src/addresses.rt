//! Addresses: which texts are none, and what one keeps.
use crate::rows::holds;
use crate::texts::{are_these, joined};
use pec_types::{Address, AddressFault};
use std::alloc::Global;

/// A text, and its fault; none where it is an address.
type Row = (&'static str, Option<AddressFault>);

static TEXTS: &[Row] = &[
    ("", Some(AddressFault::Empty)),
    ("a", Some(AddressFault::NoAt)),
    ("@", Some(AddressFault::BadLocal(0))),
    (".a@b", Some(AddressFault::BadLocal(0))),
    ("a.@b", Some(AddressFault::BadLocal(2))),
    ("a..b@c", Some(AddressFault::BadLocal(2))),
    ("a b@c", Some(AddressFault::BadLocal(1))),
    ("a@-b", Some(AddressFault::BadDomain(2))),
    ("a@", Some(AddressFault::BadDomain(2))),
    ("a@b.", Some(AddressFault::BadDomain(4))),
    ("a@b@c", Some(AddressFault::BadDomain(3))),
    ("a@b-", Some(AddressFault::BadDomain(4))),
    // a label of 63 bytes, one of 64, and one whose byte 63 is a hyphen
    (
        "a@bbbbbbbbbbbbbbbbbbbbbbbbbbbbbbbbbbbbbbbbbbbbbbbbbbbbbbbbbbbbbbb",
        None,
    ),
    (
        "a@bbbbbbbbbbbbbbbbbbbbbbbbbbbbbbbbbbbbbbbbbbbbbbbbbbbbbbbbbbbbbbbb",
        Some(AddressFault::BadDomain(65)),
    ),
    (
        "a@bbbbbbbbbbbbbbbbbbbbbbbbbbbbbbbbbbbbbbbbbbbbbbbbbbbbbbbbbbbbbb-b",
        Some(AddressFault::BadDomain(64)),
    ),
    ("a{}~!.b-1@x-1.it", None),
];

#[test]
fn a_text_has_its_first_fault(rt: HostRuntime) {
    for row in TEXTS {
        holds(&rt, has_fault(rt.alloc(), row), row.0);
    }
}

fn has_fault(alloc: Global, row: &Row) -> bool {
    Address::read(alloc, row.0.as_bytes()).err() == row.1
}

#[test]
fn capitals_become_small_letters(rt: HostRuntime) {
    assert!(rt; is_read_as(rt.alloc(), b"Alice@Alfa.Example", b"alice@alfa.example"));
}

/// Whether the text is read as this address at alfa.example, and so is its copy.
fn is_read_as(alloc: Global, text: &[u8], wanted: &[u8]) -> bool {
    match Address::read(alloc, text) {
        Ok(read) => are_these(read.bytes(), wanted) && is_copied_as(alloc, &read, wanted),
        Err(_) => false,
    }
}

fn is_copied_as(alloc: Global, read: &Address, wanted: &[u8]) -> bool {
    match read.copy(alloc) {
        Ok(copied) => is_at_alfa(&copied, wanted),
        Err(_) => false,
    }
}

fn is_at_alfa(address: &Address, wanted: &[u8]) -> bool {
    are_these(address.bytes(), wanted) && are_these(address.domain(), b"alfa.example")
}

// What stands behind 252 letters, and the fault of that text.
static ENDS: &[Row] = &[("@b", None), ("@bb", Some(AddressFault::TooLong))];

#[test]
fn an_address_has_at_most_254_bytes(rt: HostRuntime) {
    for row in ENDS {
        holds(&rt, has_long_fault(rt.alloc(), row), row.0);
    }
}

fn has_long_fault(alloc: Global, row: &Row) -> bool {
    let text = joined(alloc, &[&[b'a'; 252], row.0.as_bytes()]);
    Address::read(alloc, &text).err() == row.1
}
