//! Words of a line, and what they stand for.

ghost use Rattle.std.specs.Prelude.{◌<◌, ◌≤◌, length, IfOk};
ghost use Rattle.pec_records.specs.Entry.{most_addresses};

use pec_types::{Address, Moment};
use std::alloc::Global;
use std::test::Fail;

/// The most addresses that a path of the tests has.
const MOST: usize = 1000;

/// The word at a place of a line, from 0; empty behind the last.
pub fn word(line: &str, place: usize) -> &str {
    match line.split(' ').nth(place) {
        Some(word) => word,
        None => "",
    }
}

/// The words of a line from a place on.
pub fn behind(line: &str, place: usize) -> &str {
    match line.splitn(place.saturating_add(1), ' ').nth(place) {
        Some(rest) => rest,
        None => "",
    }
}

pub fn number(line: &str, place: usize) -> Result<u64, Fail> {
    match word(line, place).parse::<u64>() {
        Ok(number) => Ok(number),
        Err(_) => Err("no number".into()),
    }
}

pub fn small(line: &str, place: usize) -> Result<u32, Fail> {
    match word(line, place).parse::<u32>() {
        Ok(number) => Ok(number),
        Err(_) => Err("no small number".into()),
    }
}

/// The moment at a place of a line.
pub fn moment_of(line: &str, place: usize) -> Result<Moment, Fail> {
    match Moment::new(number(line, place)?) {
        Some(moment) => Ok(moment),
        None => Err("no moment".into()),
    }
}

/// The address at a place of a line.
pub fn account_at(alloc: Global, line: &str, place: usize) -> Result<Address, Fail> {
    Ok(Address::read(alloc, word(line, place).as_bytes())?)
}

/// The addresses of a list, with a comma between two.
pub(crate) fn addresses_of(alloc: Global, list: &str) -> Result<Vec<Address>, Fail>
    ensures { IfOk result (λ addresses. (0 < length addresses.items) × (length addresses.items ≤ most_addresses)) }
{
    let mut addresses = Vec::new(alloc);
    for text in list.split(',') {
        addresses.push(Address::read(alloc, text.as_bytes())?)?;
    }
    if addresses.is_empty() || addresses.len() > MOST {
        return Err("no path".into());
    }
    Ok(addresses)
}

/// The line at a place of a text, from 0, without its end; empty behind the last.
pub(crate) fn line_at(text: &[u8], place: usize) -> &[u8] {
    let Some(line) = text.split(|b| *b == b'\n').nth(place) else {
        return &[];
    };
    match line.strip_suffix(b"\r".as_slice()) {
        Some(line) => line,
        None => line,
    }
}
