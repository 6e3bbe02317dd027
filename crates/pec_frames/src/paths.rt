ghost use Rattle.std.specs.Prelude.{◌≡◌, ◌+◌, ◌∷◌, ◌<◌, ◌^◌, false, length, IfSome};
ghost use Rattle.std.specs.List.{slice_split};
ghost use Rattle.std.specs.Option.{option_map};
ghost use Rattle.pec_types.specs.Answers.{Gives, OrNoMemory};
ghost use Rattle.pec_types.specs.AddressReading.{address_of};
ghost use Rattle.pec_frames.specs.FramesReading.{comma_at, feed_from, is_comma, path_of, read_entry};
ghost use Rattle.pec_frames.specs.Entries.{entries_behind, size_behind};
ghost use Rattle.pec_frames.specs.declared.faults.FrameFault.TheVariants as faults;

use crate::MOST_ADDRESSES;
use crate::faults::FrameFault;
use pec_types::{Address, AddressFault};
use std::alloc::Global;

/// The addresses of a path that stands at a place.
#[tactic(auto, unfolding(crate::specs::FramesReading::path_of))]
pub(crate) fn read_path(
    alloc: Global,
    line: &[u8],
    start: usize,
) -> Result<Vec<Address>, FrameFault>
    requires { start + length line.now < 2 ^ 63 }
    ensures { Gives faults.NoMemory (λ path. path.items) result (path_of start line.now) }
{
    let mut addresses = Vec::new(alloc);
    let mut place = start;
    let mut rest = Some(line);
    while let Some(text) = rest {
        if addresses.len() == MOST_ADDRESSES {
            return Err(FrameFault::BadPath(place));
        }
        let (entry, behind) = first_entry(text);
        let address = read_entry(alloc, entry, place)?;
        addresses.push(address)?;
        place += entry.len() + 1;
        rest = behind;
    }
    Ok(addresses)
}

fn read_entry(alloc: Global, entry: &[u8], place: usize) -> Result<Address, FrameFault>
    ensures { OrNoMemory faults.NoMemory result (read_entry place (address_of entry.now)) }
{
    match Address::read(alloc, entry) {
        Ok(address) => Ok(address),
        Err(AddressFault::NoMemory) => Err(FrameFault::NoMemory),
        Err(_) => Err(FrameFault::BadPath(place)),
    }
}

/// What stands before the first comma, and what is behind it, where there is one.
fn first_entry(text: &[u8]) -> (&[u8], Option<&[u8]>)
    ensures entries { slice_split is_comma text.now ≡ result.0.now ∷ entries_behind (option_map (λ behind. behind.now) result.1) }
    ensures size { length text.now ≡ size_behind (length result.0.now) (option_map (λ behind. behind.now) result.1) }
{
    match comma(text) {
        Some(at) => (&text[..at], Some(&text[at + 1..])),
        None => (text, None),
    }
}

/// The place of the first comma.
fn comma(text: &[u8]) -> Option<usize>
    ensures value { result ≡ comma_at text.now }
    ensures below { IfSome result (λ at. at < length text.now) }
{
    for (i, b) in text.iter().enumerate() {
        if *b == b',' {
            return Some(i);
        }
    }
    None
}

/// The place of the first line feed behind a carriage return.
pub(crate) fn line_feed(text: &[u8]) -> Option<usize>
    ensures value { result ≡ feed_from false text.now }
    ensures below { IfSome result (λ at. at < length text.now) }
{
    let mut returned = false;
    for (i, b) in text.iter().enumerate() {
        if returned && *b == b'\n' {
            return Some(i);
        }
        returned = *b == b'\r';
    }
    None
}
