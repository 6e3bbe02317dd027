//! Answers of a network in words of the tests' own.

use pec_link::LinkFault;

/// The word of what a command on a link came to.
pub(crate) fn link_word(answer: Result<(), LinkFault>) -> &'static [u8] {
    match answer {
        Ok(()) => b"done",
        Err(LinkFault::NoFrame) => b"no-frame",
        Err(LinkFault::Full) => b"full",
        Err(LinkFault::NoMemory) => b"no-memory",
    }
}
