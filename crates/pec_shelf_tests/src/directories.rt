//! Directories of the tests.

/// The provider `alfa` alone, with one account.
const ONE: &str = r#"[[provider]]
name = "alfa"
mailReceipt = "ricevute@alfa.example"
managedDomains = ["alfa.example"]
key = "000102030405060708090a0b0c0d0e0f"
zone = "CET-1CEST,M3.5.0,M10.5.0/3"
[[provider.account]]
address = "alice@alfa.example"
quota = 100
key = "chiave-alice"
"#;

/// The same, by a function without a clause: the proofs of others are spared its text.
pub(crate) fn one() -> &'static str {
    ONE
}
