ghost use Rattle.std.specs.Prelude.{◌≡◌, ◌≤◌, List, count_by, length, option_map, IfOk};
ghost use Rattle.pec_directory.specs.Directory.{named, providers_of};
ghost use Rattle.pec_types.specs.Answers.{Gives, OrNoMemory};
ghost use Rattle.pec_types.specs.Bytes.{Bytes, space};
ghost use Rattle.pec_script.specs.LinesReading.{address_in, message_of, moment_of, next_of, or_fault, place_of};
ghost use Rattle.pec_script.specs.declared.faults.LineFault.TheVariants as faults;
ghost use Rattle.pec_words.specs.Cuts.{is_at, parts_behind};
ghost use Rattle.pec_words.specs.Paths.{path_of};

use crate::faults::LineFault;
use crate::numbers::{moment_of, place_of};
use base64::DecodeAllocError;
use base64::engine::general_purpose::STANDARD;
use pec_directory::Directory;
use pec_types::{Address, Items, Moment, NoMemory, Text8};
use pec_words::cut;
use std::alloc::Global;

// Each of these calls reads the text of one argument; its number, from 1, is for the fault.

/// The provider that is named.
#[tactic(auto, unfolding(crate::specs::LinesReading::or_fault))]
pub(crate) fn read_provider(
    directory: &Directory,
    text: &[u8],
    number: u8,
) -> Result<u32, LineFault>
    ensures { OrNoMemory faults.NoMemory result (or_fault (faults.UnknownProvider number) (named (providers_of directory.now) text.now)) }
{
    match directory.named(text) {
        Some(provider) => Ok(provider),
        None => Err(LineFault::UnknownProvider(number)),
    }
}

/// A moment.
#[tactic(auto, unfolding(crate::specs::LinesReading::or_fault))]
pub(crate) fn read_moment(text: &[u8], number: u8) -> Result<Moment, LineFault>
    ensures { OrNoMemory faults.NoMemory result (or_fault (faults.BadNumber number) (moment_of text.now)) }
{
    match moment_of(text) {
        Some(moment) => Ok(moment),
        None => Err(LineFault::BadNumber(number)),
    }
}

/// A place, from 0.
#[tactic(auto, unfolding(crate::specs::LinesReading::or_fault))]
pub(crate) fn read_place(text: &[u8], number: u8) -> Result<u32, LineFault>
    ensures { OrNoMemory faults.NoMemory result (or_fault (faults.BadNumber number) (place_of text.now)) }
{
    match place_of(text) {
        Some(place) => Ok(place),
        None => Err(LineFault::BadNumber(number)),
    }
}

/// An address.
#[tactic(auto, unfolding(crate::specs::LinesReading::address_in, crate::specs::LinesReading::or_fault))]
pub(crate) fn read_address(alloc: Global, text: &[u8], number: u8) -> Result<Address, LineFault>
    ensures { OrNoMemory faults.NoMemory result (or_fault (faults.BadAddress number) (address_in text.now)) }
{
    match Address::find(alloc, text)? {
        Some(address) => Ok(address),
        None => Err(LineFault::BadAddress(number)),
    }
}

/// The addresses of a path.
#[tactic(auto, unfolding(crate::specs::LinesReading::or_fault))]
pub(crate) fn read_path(alloc: Global, text: &[u8], number: u8) -> Result<Items<Address>, LineFault>
    ensures { OrNoMemory faults.NoMemory result (or_fault (faults.BadAddress number) (path_of text.now)) }
{
    match pec_words::read_path(alloc, text)? {
        Some(path) => Ok(Items::of(path)),
        None => Err(LineFault::BadAddress(number)),
    }
}

/// Bytes in base64, decoded.
#[tactic(auto, unfolding(crate::specs::LinesReading::or_fault))]
pub(crate) fn read_bytes(alloc: Global, text: &[u8], number: u8) -> Result<Text8, LineFault>
    ensures { OrNoMemory faults.NoMemory result (or_fault (faults.BadBase64 number) (message_of text.now)) }
{
    match decoded(alloc, text)? {
        Some(bytes) => Ok(Text8::of(bytes)),
        None => Err(LineFault::BadBase64(number)),
    }
}

/// The next of the words that are left, and those behind it.
#[tactic(auto, unfolding(crate::specs::LinesReading::next_of))]
pub(crate) fn next_word(rest: Option<&[u8]>) -> Result<(&[u8], Option<&[u8]>), LineFault>
    ensures { Gives {Y = Bytes × List Bytes} faults.NoMemory (λ next. (next.0.now, parts_behind space (option_map (λ text. text.now) next.1))) result
        (next_of (parts_behind space (option_map (λ text. text.now) rest.entry))) }
{
    match rest {
        Some(text) => Ok(cut(text, b' ')),
        None => Err(LineFault::Arity),
    }
}

#[tactic(auto, unfolding(crate::specs::LinesReading::message_of))]
fn decoded(alloc: Global, text: &[u8]) -> Result<Option<Vec<u8>>, NoMemory>
    ensures { IfOk result (λ found. option_map (λ bytes. bytes.items) found ≡ message_of text.now) }
{
    match STANDARD.decode(alloc, text) {
        Ok(bytes) => Ok(Some(bytes)),
        Err(DecodeAllocError::DecodeError(_)) => Ok(None),
        Err(DecodeAllocError::OutOfMemory) => Err(NoMemory),
    }
}

/// How many words are left.
#[tactic(auto, using(crate::proofs::RowLemmas::parts_count))]
pub(crate) fn count_words(rest: Option<&[u8]>) -> usize
    ensures { result ≡ length (parts_behind space (option_map (λ text. text.now) rest.entry)) }
{
    match rest {
        Some(text) => count_spaces(text) + 1,
        None => 0,
    }
}

fn count_spaces(text: &[u8]) -> usize
    ensures spaces { result ≡ count_by (is_at space) text.now }
    ensures few { result ≤ length text.now }
{
    text.iter().filter(|b| **b == b' ').count()
}
