//! The words that the operating system tells a program.
use pec_files::words;
use std::alloc::Global;
use std::env::{Env, FillError};

/// A program with one word behind its name, which nobody may ask for.
#[derive(Drop)]
struct OneWord(&'static [u8]);

impl Env for OneWord {
    fn arg(&self, place: usize, room: &mut [u8]) -> Result<usize, FillError> {
        if place != 1 {
            return Err(FillError::NotPresent);
        }
        let Some(front) = room.get_mut(..self.0.len()) else {
            return Err(FillError::TooLong);
        };
        front.copy_from_slice(self.0);
        Ok(self.0.len())
    }

    fn var(&self, _name: &str, _room: &mut [u8]) -> Result<usize, FillError> {
        Err(FillError::NotPresent)
    }

    fn var_at(&self, _place: usize, _room: &mut [u8]) -> Result<usize, FillError> {
        Err(FillError::NotPresent)
    }
}

/// Two words that aren't UTF-8, one of more bytes than the first room, and two forms: what the system has, and what
/// is read.
static WORDS: [(&'static [u8], &'static str); 5] = [
    (b"run\xff", "run\u{fffd}"),
    (b"\xffrun", "\u{fffd}run"),
    (
        b"runrunrunrunrunrunrunrunrunrunrunrunrunrunrunrunrunrunrunrunrunrunrunr",
        "runrunrunrunrunrunrunrunrunrunrunrunrunrunrunrunrunrunrunrunrunrunrunr",
    ),
    (b"run", "run"),
    (b"serve", "serve"),
];

#[test]
fn words_are_read_as_they_are(rt: HostRuntime) {
    assert!(rt; are_read(rt.alloc()));
}

fn are_read(alloc: Global) -> bool {
    for (word, wanted) in &WORDS {
        if !is_read(alloc, word, wanted) {
            return false;
        }
    }
    true
}

fn is_read(alloc: Global, word: &'static [u8], wanted: &str) -> bool {
    match words(&OneWord(word), alloc) {
        Ok(words) => is_alone(&words, wanted),
        Err(_) => false,
    }
}

fn is_alone(words: &[String], wanted: &str) -> bool {
    match words {
        [word] => word.as_str() == wanted,
        _ => false,
    }
}
