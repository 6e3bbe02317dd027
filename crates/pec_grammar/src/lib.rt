//! Exact readers of texts with one spelling. A text is read from left to right; where it can't be read, the answer is
//! the very first byte with which no right text goes on. `specs/Grammar.antt` has the grammars, and `proofs/` the law
//! that reading each of them is exact.
#![tactic(auto)]

mod cursors;
mod numbers;
mod words;

pub use cursors::{Cursor, ReadError, Stop};
pub use numbers::{number, raw};
pub use words::{exactly, one_of, word};
