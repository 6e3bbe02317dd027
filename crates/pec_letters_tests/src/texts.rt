//! Texts that are put together. One for which memory is wanting lacks a piece, so that it isn't what has to come.
use std::alloc::Global;

/// Puts words behind others.
pub(crate) fn put(text: &mut String, words: &str) {
    let _ = text.push_str(words);
}

/// The pieces, one behind the other.
pub(crate) fn joined(alloc: Global, pieces: &[&str]) -> String {
    let mut text = String::new(alloc);
    for piece in pieces {
        put(&mut text, piece);
    }
    text
}

/// A text with other words for some.
pub(crate) fn replaced(alloc: Global, text: &str, words: &str, instead: &str) -> String {
    match text.replace(alloc, words, instead) {
        Ok(text) => text,
        Err(_) => String::new(alloc),
    }
}

/// A text as it is sent: its lines end with CRLF.
pub(crate) fn written(alloc: Global, text: &str) -> String {
    replaced(alloc, text, "\n", "\r\n")
}
