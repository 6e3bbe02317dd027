ghost use Rattle.std.specs.Prelude.{◌≡◌, IfOk};
ghost use Rattle.pec_types.specs.AddressSteps.{further};
ghost use Rattle.pec_grammar.specs.Dependent.{times_at};
ghost use Rattle.pec_grammar.specs.Grammar.{byte_at};
ghost use Rattle.pec_grammar.specs.Reading.{standing, Gives, MayGive};
ghost use Rattle.pec_types.specs.declared.scanning.Stand.TheVariants as stands;
ghost use Rattle.pec_records.specs.EntryReading.{can_fill, can_go_on, stand_behind, rest_at, length_at};
ghost use Rattle.pec_records.specs.EntryReading.{address_at, addresses_at};

use crate::fields::read_number_32;
use pec_grammar::{Cursor, ReadError, Stop, exactly};
use pec_types::{Address, Items, NoMemory, Stand, lower_addresses_pass};
use std::alloc::Global;

/// Reads a count and so many addresses.
#[tactic(auto, unfolding(crate::specs::EntryReading::addresses_at))]
pub(crate) fn read_addresses(
    alloc: Global,
    at: Cursor<'_>,
) -> Result<(Items<Address>, Cursor<'_>), ReadError<'_>>
    ensures { MayGive (λ x. (x.0, standing x.1)) result (addresses_at (standing at.entry)) }
{
    let (count, at) = read_number_32(at)?;
    let (addresses, at) = so_many_addresses(alloc, at, count)?;
    Ok((Items::of(addresses), at))
}

/// Reads so many addresses. Nothing is reserved for what isn't there.
fn so_many_addresses(
    alloc: Global,
    at: Cursor<'_>,
    count: u32,
) -> Result<(Vec<Address>, Cursor<'_>), ReadError<'_>>
    ensures { MayGive (λ x. (x.0.items, standing x.1)) result (times_at address_at count (standing at.entry)) }
{
    let mut addresses = Vec::new(alloc);
    let mut at = at;
    let mut left = count;
    while left > 0 {
        left -= 1;
        let (address, after) = read_address(alloc, at)?;
        addresses.push(address)?;
        at = after;
    }
    Ok((addresses, at))
}

/// Reads an address: its length, and as many bytes as can be an address.
#[tactic(auto, unfolding(crate::specs::EntryReading::address_at))]
pub(crate) fn read_address(
    alloc: Global,
    at: Cursor<'_>,
) -> Result<(Address, Cursor<'_>), ReadError<'_>>
    ensures { MayGive (λ x. (x.0, standing x.1)) result (address_at (standing at.entry)) }
{
    let (length, after_length) = address_length(at)?;
    let (bytes, after) = address_bytes(alloc, after_length, length)?;
    lower_addresses_pass();
    match Address::of_lower(alloc, bytes) {
        Ok(address) => Ok((address, after)),
        Err(NoMemory) => Err(ReadError::NoMemory),
    }
}

/// Reads a length that an address can have, in two bytes.
#[tactic(auto, unfolding(crate::specs::EntryReading::length_at, pec_grammar::specs::Grammar::word_at, pec_grammar::specs::Grammar::byte_at))]
fn address_length(at: Cursor<'_>) -> Result<(u8, Cursor<'_>), Stop<'_>>
    ensures { Gives (λ x. (x.0, standing x.1)) result (length_at (standing at.entry)) }
{
    let at = exactly(at, 0)?;
    let [length, rest @ ..] = at.rest else {
        return Err(at.stop());
    };
    if *length <= 2 || 255 <= *length {
        return Err(at.stop());
    }
    let farthest = at.farthest;
    Ok((*length, Cursor { rest, farthest }))
}

/// Reads an address of so many bytes.
fn address_bytes(
    alloc: Global,
    at: Cursor<'_>,
    length: u8,
) -> Result<(Vec<u8>, Cursor<'_>), ReadError<'_>>
    ensures { MayGive (λ x. (x.0.items, standing x.1)) result (rest_at stands.AtomBegins length (standing at.entry)) }
{
    let mut bytes = Vec::new(alloc);
    let mut stand = Stand::AtomBegins;
    let mut at = at;
    let mut left = length;
    while left > 0 {
        left -= 1;
        let (b, next, after) = address_byte(at, stand, left)?;
        bytes.push(b)?;
        stand = next;
        at = after;
    }
    Ok((bytes, at))
}

/// Reads a byte with which an address goes on that ends so many bytes behind it, and says where a reader then stands.
#[tactic(auto, unfolding(pec_grammar::specs::Grammar::byte_at))]
fn address_byte(at: Cursor<'_>, stand: Stand, left: u8) -> Result<(u8, Stand, Cursor<'_>), Stop<'_>>
    ensures gives { Gives (λ x. (x.0, standing x.2)) result (byte_at (can_go_on stand left) (standing at.entry)) }
    ensures next { IfOk result (λ x. x.1 ≡ stand_behind stand (further stand x.0)) }
{
    let [b, rest @ ..] = at.rest else {
        return Err(at.stop());
    };
    let Some(next) = stand.further(*b) else {
        return Err(at.stop());
    };
    if !can_be_filled(next, left) {
        return Err(at.stop());
    }
    let farthest = at.farthest;
    Ok((*b, next, Cursor { rest, farthest }))
}

/// Whether exactly so many bytes can lead from here to an address's end.
fn can_be_filled(stand: Stand, left: u8) -> bool
    ensures { result ≡ can_fill stand left }
{
    match stand {
        Stand::AtomBegins => left > 2,
        Stand::InAtom => left > 1,
        Stand::LabelBegins => left > 0,
        Stand::BehindLetter(room) => left != 1 || room > 0,
        Stand::BehindHyphen(room) => left > 0 && room > 0 && (left != 2 || room > 1),
    }
}
