//! The program's words, as the operating system tells them.

use std::alloc::{AllocError, Global};
use std::env::{Env, FillError};

/// How often the room for a word is doubled: from 64 bytes past every size that there is.
const DOUBLINGS: u32 = 58;

/// The words behind the program's own name, which isn't read. In a word that isn't UTF-8 each wrong piece becomes
/// U+FFFD, so such a word is no form of the program. `AllocError` comes where memory runs out. No clause says what the
/// words are, as no contract says what the system holds. This project's profile.
pub fn words<R: Env>(rt: &R, alloc: Global) -> Result<Vec<String>, AllocError> {
    let mut words = Vec::new(alloc);
    for place in 1..usize::MAX {
        let Some(word) = word(rt, alloc, place)? else {
            return Ok(words);
        };
        words.push(word)?;
    }
    Ok(words)
}

fn word<R: Env>(rt: &R, alloc: Global, place: usize) -> Result<Option<String>, AllocError> {
    let mut room = vec![in alloc; 0u8; 64]?;
    for _ in 0..DOUBLINGS {
        match rt.arg(place, &mut room) {
            Ok(size) => {
                let word = String::from_utf8_lossy(alloc, &room[..size])?;
                return Ok(Some(word));
            }
            Err(FillError::NotPresent) => return Ok(None),
            Err(FillError::TooLong) => {
                let size = room.len().saturating_mul(2);
                room.resize(size, 0)?;
            }
        }
    }
    Err(AllocError)
}
