//! What calls come to, as words.

use crate::reading::line_at;
use crate::words::{Told, add, add_number};
use pec_types::{Frame, NoMemory, ProviderFault, Turn};
use std::alloc::{AllocError, Global};
use std::test::Fail;

/// One word.
pub fn told_word(alloc: Global, word: &[u8]) -> Result<Vec<u8>, Fail> {
    Ok(Vec::from_slice(alloc, word)?)
}

/// What a call came to, or why it didn't.
pub fn told<T: Told + Drop>(
    alloc: Global,
    answer: Result<T, ProviderFault>,
) -> Result<Vec<u8>, Fail> {
    match answer {
        Ok(one) => text_of_one(alloc, &one),
        Err(fault) => text_of_one(alloc, &fault),
    }
}

/// The same of a list, as `told_list`.
pub fn told_all<T: Told + Drop>(
    alloc: Global,
    answer: Result<Vec<T>, ProviderFault>,
    name: &[u8],
) -> Result<Vec<u8>, Fail> {
    match answer {
        Ok(list) => told_list(alloc, &list, name),
        Err(fault) => text_of_one(alloc, &fault),
    }
}

fn text_of_one<T: Told>(alloc: Global, one: &T) -> Result<Vec<u8>, Fail> {
    let mut words = Vec::new(alloc);
    one.add_to(alloc, &mut words)?;
    Ok(words)
}

/// What stands in a list, with a comma behind each, how many they are, and their name.
pub fn told_list<T: Told>(alloc: Global, list: &[T], name: &[u8]) -> Result<Vec<u8>, Fail> {
    let mut words = Vec::new(alloc);
    add_each(alloc, &mut words, list)?;
    add_number(alloc, &mut words, list.len() as u64)?;
    add(&mut words, name)?;
    Ok(words)
}

fn add_each<T: Told>(alloc: Global, words: &mut Vec<u8>, list: &[T]) -> Result<(), AllocError> {
    for one in list {
        one.add_to(alloc, words)?;
        words.push(b',')?;
    }
    Ok(())
}

/// The line of an item behind its seal.
pub fn told_item(alloc: Global, answer: Result<Vec<u8>, ProviderFault>) -> Result<Vec<u8>, Fail> {
    match answer {
        Ok(bytes) => told_word(alloc, line_at(&bytes, 1)),
        Err(fault) => text_of_one(alloc, &fault),
    }
}

/// A frame is told by the line behind the seal of its letter.
impl Told for Frame {
    fn add_to(&self, _: Global, words: &mut Vec<u8>) -> Result<(), AllocError> {
        add(words, line_at(self.bytes(), 2))
    }
}

/// The turns of a round, with a bar between two.
pub fn told_turns(alloc: Global, answer: Result<Vec<Turn>, NoMemory>) -> Result<Vec<u8>, Fail> {
    let turns = answer?;
    let mut words = Vec::new(alloc);
    add_turns(alloc, &mut words, &turns)?;
    Ok(words)
}

fn add_turns(alloc: Global, words: &mut Vec<u8>, turns: &[Turn]) -> Result<(), AllocError> {
    for turn in turns {
        if !words.is_empty() {
            add(words, b"|")?;
        }
        add_turn(alloc, words, turn)?;
    }
    Ok(())
}

/// Adds one turn: its provider, each event, to whom how many frames were put, a comma behind each, and why it ended.
fn add_turn(alloc: Global, words: &mut Vec<u8>, turn: &Turn) -> Result<(), AllocError> {
    add_number(alloc, words, u64::from(turn.provider))?;
    add_each(alloc, words, turn.events.as_slice())?;
    add_sent(alloc, words, turn.sent.as_slice())?;
    match turn.ended {
        Some(fault) => {
            add(words, b"ended")?;
            fault.add_to(alloc, words)
        }
        None => Ok(()),
    }
}

fn add_sent(alloc: Global, words: &mut Vec<u8>, sent: &[(u32, u32)]) -> Result<(), AllocError> {
    for (to, count) in sent {
        add(words, b"sent")?;
        add_number(alloc, words, u64::from(*to))?;
        add_number(alloc, words, u64::from(*count))?;
        words.push(b',')?;
    }
    Ok(())
}
