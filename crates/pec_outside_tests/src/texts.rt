//! Texts that are put together, and lists. One for which memory is wanting lacks a piece, so that it isn't what has to
//! come.
use std::alloc::Global;

/// The pieces, one behind the other.
pub(crate) fn joined(alloc: Global, pieces: &[&[u8]]) -> Vec<u8> {
    let mut text = Vec::new(alloc);
    for piece in pieces {
        put(&mut text, piece);
    }
    text
}

/// Puts bytes behind others.
pub(crate) fn put(text: &mut Vec<u8>, bytes: &[u8]) {
    let _ = text.extend_from_slice(bytes);
}

/// Puts the digits of a number behind other bytes.
pub(crate) fn put_number(alloc: Global, text: &mut Vec<u8>, number: u64) {
    if let Ok(digits) = number.to_string(alloc) {
        put(text, digits.as_bytes());
    }
}

/// Whether bytes are these.
pub(crate) fn are_these(bytes: &[u8], wanted: &[u8]) -> bool {
    *bytes == *wanted
}

/// Whether a text that was made is this one.
pub(crate) fn says(text: Vec<u8>, wanted: &[u8]) -> bool {
    are_these(text.as_slice(), wanted)
}

/// The numbers of calls that fail.
pub(crate) fn calls(alloc: Global, failing: &[u64]) -> Vec<u64> {
    let mut calls = Vec::new(alloc);
    let _ = calls.extend_from_slice(failing);
    calls
}
