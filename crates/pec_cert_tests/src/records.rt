//! Entries and their bytes, which were written out by hand. The other kinds are vectors of tests/vectors/entries.rows.
ghost use Rattle.std.specs.Prelude.{IfSome};
ghost use Rattle.pec_records.specs.Entry.{HasCounts};

use crate::texts::{are_these, is_text, put};
use pec_records::{Entry, decode, encode};
use pec_types::{Address, Moment};
use std::alloc::Global;

const TICKED: &[u8] = b"\x08\0\0\0\0\x65\x93\xd0\x90";

const ARCHIVED: &[u8] = b"\x0c\0\0\0\0\x65\x93\xd0\x90\0\x11anna@alfa.example\0\0\0\0";

#[test]
fn an_entry_is_its_bytes(rt: HostRuntime) {
    assert!(rt; is_its_bytes(rt.alloc(), ticked(), TICKED));
    assert!(rt; is_its_bytes(rt.alloc(), archived(rt.alloc()), ARCHIVED));
}

fn ticked() -> Option<Entry>
    ensures { IfSome result HasCounts }
{
    let moment = Moment::new(1_704_186_000)?;
    Some(Entry::Ticked { moment })
}

fn archived(alloc: Global) -> Option<Entry>
    ensures { IfSome result HasCounts }
{
    let moment = Moment::new(1_704_186_000)?;
    let account = address(alloc, b"anna@alfa.example")?;
    Some(Entry::Archived {
        moment,
        account,
        place: 0,
    })
}

fn address(alloc: Global, text: &[u8]) -> Option<Address> {
    Address::read(alloc, text).ok()
}

/// Whether the entry has these bytes, and the entry that is read from them has them too.
fn is_its_bytes(alloc: Global, entry: Option<Entry>, bytes: &[u8]) -> bool
    requires { IfSome entry HasCounts }
{
    match entry {
        Some(entry) => is_text(encode(alloc, &entry).ok(), bytes) && is_read_again(alloc, bytes),
        None => false,
    }
}

fn is_read_again(alloc: Global, bytes: &[u8]) -> bool {
    match decode(alloc, bytes) {
        Ok(entry) => is_text(encode(alloc, &entry).ok(), bytes),
        Err(_) => false,
    }
}

// A path of 1,001 addresses, and an address of 254 bytes.
#[test]
fn long_lists_and_addresses_are_read(rt: HostRuntime) {
    assert!(rt; is_long_list(rt.alloc(), &long_bytes(rt.alloc())));
}

fn is_long_list(alloc: Global, bytes: &[u8]) -> bool {
    match decode(alloc, bytes) {
        Ok(entry) => is_long(&entry),
        Err(_) => false,
    }
}

fn is_long(entry: &Entry) -> bool {
    match entry {
        Entry::Anomaly {
            accounts,
            message,
            ..
        } => are_long(accounts.as_slice()) && are_these(message.bytes(), b"!"),
        _ => false,
    }
}

fn are_long(accounts: &[Address]) -> bool {
    match accounts.last() {
        Some(last) => accounts.len() == 1001 && last.bytes().len() == 254,
        None => false,
    }
}

fn long_bytes(alloc: Global) -> Vec<u8> {
    let mut bytes = Vec::new(alloc);
    put(&mut bytes, b"\x09\0\0\0\0\x65\x93\xd0\x90\0\0\x03\xe9");
    for _ in 0..1000 {
        put(&mut bytes, b"\x00\x03a@b");
    }
    put(&mut bytes, b"\x00\xfe");
    put(&mut bytes, &[b'a'; 252]);
    put(&mut bytes, b"@b\x00\x00\x00\x01!");
    bytes
}
