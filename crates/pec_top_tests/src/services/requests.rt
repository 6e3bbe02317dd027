//! Requests of the tests. A `|` stands for the end of a line.

/// Alice hands a message of 73 bytes for anna in.
pub(crate) const ALICE_SUBMITS: &str =
    "POST /mail/alice@alfa.example/submit HTTP/1.1|x-key: chiave-alice|\
     x-path: anna@alfa.example|content-length: 73||\
     From: alice@alfa.example|To: anna@alfa.example|Subject: Ciao||Salve|";

/// Alice asks for her book.
pub(crate) const ALICE_LOOKS: &str =
    "GET /mail/alice@alfa.example/book HTTP/1.1|x-key: chiave-alice||";
