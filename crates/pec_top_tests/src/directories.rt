//! Directories and messages of the tests.

use crate::running::joined;
use pec_trial::{alfa, two};
use std::alloc::Global;

/// A directory of the tests. Tables name it, and are spared its text.
#[derive(Clone, Copy)]
pub(crate) enum Directory {
    Alfa,
    Two,
}

impl Directory {
    pub(crate) fn text(self, alloc: Global) -> String {
        match self {
            Directory::Alfa => joined(alloc, &[alfa()]),
            Directory::Two => joined(alloc, &[two()]),
        }
    }
}

/// Messages and frames by their names.
static MESSAGES: [(&str, &str); 5] = [
    (
        "M1",
        "From: alice@alfa.example|To: anna@alfa.example|Subject: Ciao||Salve|",
    ),
    (
        "M2",
        "From: alice@alfa.example|To: bob@beta.example|Subject: Ciao||Salve|",
    ),
    (
        "M3",
        "From: alice@alfa.example|To: carl@beta.example|Subject: Ciao||Salve|",
    ),
    (
        "M4",
        "From: anna@alfa.example|To: bob@beta.example|Bcc: carl@beta.example||",
    ),
    ("F1", "Per: bob@beta.example|From: x@y.example||ciao|"),
];

/// The tables and texts, by functions without a clause: the proofs of others are spared them.
fn messages() -> &'static [(&'static str, &'static str)] {
    &MESSAGES
}

/// The message of this name, or the text itself.
pub(crate) fn message(name: &str) -> &str {
    for (one, text) in messages() {
        if *one == name {
            return text;
        }
    }
    name
}
