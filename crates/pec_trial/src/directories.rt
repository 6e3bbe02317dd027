//! The directory and the messages of the tests.

use std::alloc::{AllocError, Global};

/// The providers `alfa`, of alice and anna, and `beta`, of bob and of carl, who has room for one message.
const TWO: &str = r#"[[provider]]
name = "alfa"
mailReceipt = "ricevute@alfa.example"
managedDomains = ["alfa.example"]
key = "000102030405060708090a0b0c0d0e0f"
zone = "CET-1CEST,M3.5.0,M10.5.0/3"
[[provider.account]]
address = "alice@alfa.example"
quota = 100
key = "chiave-alice"
[[provider.account]]
address = "anna@alfa.example"
quota = 100
key = "chiave-anna"
[[provider]]
name = "beta"
mailReceipt = "ricevute@beta.example"
managedDomains = ["beta.example"]
key = "101112131415161718191a1b1c1d1e1f"
zone = "CET-1CEST,M3.5.0,M10.5.0/3"
[[provider.account]]
address = "bob@beta.example"
quota = 100
key = "chiave-bob"
[[provider.account]]
address = "carl@beta.example"
quota = 1
key = "chiave-carl"
"#;

/// The same, by a function without a clause: the proofs of others are spared its text.
pub fn two() -> &'static str {
    TWO
}

/// The same, where `alfa` has a second domain, `due.example`.
pub fn two_with_due(alloc: Global) -> Result<String, AllocError> {
    two().replace(
        alloc,
        "[\"alfa.example\"]",
        "[\"alfa.example\", \"due.example\"]",
    )
}

/// The provider `alfa` alone.
pub fn alfa() -> &'static str {
    match two().split_once("[[provider]]\nname = \"beta\"") {
        Some((alfa, _)) => alfa,
        None => two(),
    }
}

/// Messages and frames by their names; `|` stands for the end of a line.
static TEXTS: [(&str, &str); 17] = [
    // messages of alice and one of bob
    (
        "to-anna",
        "From: alice@alfa.example|To: anna@alfa.example|Subject: Ciao||Salve|",
    ),
    (
        "to-bob",
        "From: alice@alfa.example|To: bob@beta.example|Subject: Ciao||Salve|",
    ),
    (
        "to-carl",
        "From: alice@alfa.example|To: carl@beta.example|Subject: Ciao||Salve|",
    ),
    (
        "to-both",
        "From: alice@alfa.example|To: bob@beta.example|Cc: bob@beta.example, carl@beta.example||Salve|",
    ),
    (
        "to-outside",
        "From: alice@alfa.example|To: bob@beta.example, x@posta.example||Salve|",
    ),
    (
        "to-nobody",
        "From: alice@alfa.example|To: nobody@beta.example||Salve|",
    ),
    (
        "to-alice",
        "From: bob@beta.example|To: alice@alfa.example||Salve|",
    ),
    // with a blind copy, which isn't accepted
    (
        "blind",
        "From: alice@alfa.example|To: bob@beta.example|Bcc: carl@beta.example||Salve|",
    ),
    // frames that hold no certified mail
    ("for-bob", "Per: bob@beta.example|From: x@y.example||ciao|"),
    (
        "for-carl",
        "Per: carl@beta.example|From: x@y.example||ciao|",
    ),
    (
        "for-both",
        "Per: carl@beta.example,bob@beta.example,bob@beta.example,x@y.example|ciao|",
    ),
    (
        "for-nobody",
        "Per: nobody@beta.example|From: x@y.example||ciao|",
    ),
    // and what is no frame
    ("no-path", "From: x@y.example||ciao|"),
    ("no-line", "Per: bob@beta.example"),
    ("no-address", "Per: |From: x@y.example||ciao|"),
    ("bad-address", "Per: bob|From: x@y.example||ciao|"),
    ("nothing", ""),
];

/// The table, by a function without a clause: the proofs of others are spared its texts.
fn texts() -> &'static [(&'static str, &'static str)] {
    &TEXTS
}

/// The bytes of the message or frame of a name; of no name, nothing.
pub fn text_of(alloc: Global, name: &str) -> Result<Vec<u8>, AllocError> {
    for (one, text) in texts() {
        if *one == name {
            return ended(alloc, text);
        }
    }
    Ok(Vec::new(alloc))
}

/// A text with its ends of lines.
fn ended(alloc: Global, text: &str) -> Result<Vec<u8>, AllocError> {
    let text = text.replace(alloc, "|", "\r\n")?;
    Vec::from_slice(alloc, text.as_bytes())
}
