//! Texts of LDIF that are one directory, and what is written of a directory. Expected texts were worked by hand in what
//! docs/formats.md says, and their base64 by another program.
use crate::texts::{is_text, is_value};
use pec_directory::Directory;
use pec_ldif::{directory_of, ldif_of};
use std::alloc::Global;

const TOML: &str = "[[provider]]\n\
    name = \"alfa\"\n\
    mailReceipt = \"ricevute@alfa.example\"\n\
    managedDomains = [\"alfa.example\"]\n\
    key = \"000102030405060708090a0b0c0d0e0f\"\n\
    zone = \"CET-1CEST,M3.5.0,M10.5.0/3\"\n\
    [[provider.account]]\n\
    address = \"alice@alfa.example\"\n\
    quota = 100\n\
    key = \"chiave-alice\"\n\
    [[provider.account]]\n\
    address = \"anna@alfa.example\"\n\
    quota = 100\n\
    key = \"chiave-anna\"\n\
    ";

// What is written of it.
const LDIF: &str = "version: 1\n\
    \n\
    dn: cn=0\n\
    objectClass: pecProvider\n\
    pecName: alfa\n\
    mailReceipt: ricevute@alfa.example\n\
    managedDomains: alfa.example\n\
    pecKey: 000102030405060708090a0b0c0d0e0f\n\
    pecZone: CET-1CEST,M3.5.0,M10.5.0/3\n\
    pecLimit: 31457280\n\
    \n\
    dn: cn=0.1\n\
    objectClass: pecAccount\n\
    pecAddress: alice@alfa.example\n\
    pecQuota: 100\n\
    pecKey: chiave-alice\n\
    \n\
    dn: cn=0.2\n\
    objectClass: pecAccount\n\
    pecAddress: anna@alfa.example\n\
    pecQuota: 100\n\
    pecKey: chiave-anna\n\
    ";

// A zone and a key that may not stand plain, two domains, of which one has capitals, and a provider without accounts.
const OTHER_TOML: &str = "[[provider]]\n\
    name = \"alfa\"\n\
    mailReceipt = \"r@a.x\"\n\
    managedDomains = [\"a.x\", \"B.x\"]\n\
    key = \"00000000000000000000000000000000\"\n\
    zone = \"<+03>-3\"\n\
    limit = 7\n\
    [[provider.account]]\n\
    address = \"u@b.x\"\n\
    quota = 0\n\
    key = \":k\"\n\
    [[provider]]\n\
    name = \"beta\"\n\
    mailReceipt = \"r@c.x\"\n\
    managedDomains = [\"c.x\"]\n\
    key = \"ffffffffffffffffffffffffffffffff\"\n\
    zone = \"UTC0\"\n\
    ";

const OTHER_LDIF: &str = "version: 1\n\
    \n\
    dn: cn=0\n\
    objectClass: pecProvider\n\
    pecName: alfa\n\
    mailReceipt: r@a.x\n\
    managedDomains: a.x\n\
    managedDomains: b.x\n\
    pecKey: 00000000000000000000000000000000\n\
    pecZone:: PCswMz4tMw==\n\
    pecLimit: 7\n\
    \n\
    dn: cn=0.1\n\
    objectClass: pecAccount\n\
    pecAddress: u@b.x\n\
    pecQuota: 0\n\
    pecKey:: Oms=\n\
    \n\
    dn: cn=1\n\
    objectClass: pecProvider\n\
    pecName: beta\n\
    mailReceipt: r@c.x\n\
    managedDomains: c.x\n\
    pecKey: ffffffffffffffffffffffffffffffff\n\
    pecZone: UTC0\n\
    pecLimit: 31457280\n\
    ";

/// The texts, by functions without a clause: the proofs of the tests are spared them.
fn written_text() -> &'static str {
    LDIF
}

fn ldif() -> &'static [u8] {
    LDIF.as_bytes()
}

fn other_toml() -> &'static str {
    OTHER_TOML
}

fn other_ldif() -> &'static [u8] {
    OTHER_LDIF.as_bytes()
}

/// What is written of the directory that a text of TOML is.
fn written(alloc: Global, text: &str) -> Option<Vec<u8>> {
    match Directory::read(alloc, text) {
        Ok(directory) => ldif_of(alloc, &directory).ok(),
        Err(_) => None,
    }
}

/// What is written of the directory that a text of LDIF is.
fn rewritten(alloc: Global, text: &[u8]) -> Option<Vec<u8>> {
    match directory_of(alloc, text) {
        Ok(directory) => ldif_of(alloc, &directory).ok(),
        Err(_) => None,
    }
}

#[test]
fn a_directory_is_written_as_records(rt: HostRuntime) {
    assert!(rt; is_text(written(rt.alloc(), TOML), ldif()));
    assert!(rt; is_text(written(rt.alloc(), other_toml()), other_ldif()));
    assert!(rt; is_text(rewritten(rt.alloc(), other_ldif()), other_ldif()));
}

#[test]
fn a_provider_has_the_rule_of_the_directory(rt: HostRuntime) {
    assert!(rt; has_rules(rt.alloc()));
}

fn has_rules(alloc: Global) -> bool {
    match Directory::read(alloc, other_toml()) {
        Ok(directory) => are_rules(&directory),
        Err(_) => false,
    }
}

fn are_rules(directory: &Directory) -> bool {
    is_value(directory.rule(0), b"<+03>-3")
        && is_value(directory.rule(1), b"UTC0")
        && directory.rule(2).is_none()
}
