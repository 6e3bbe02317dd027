ghost use Rattle.std.specs.Prelude.{◌≡◌, ℕ, ◌<◌, List, ◌++◌, Option, None, Some, option_map, IfSome, IfOk, length, take, position};
ghost use Rattle.pec_seal.specs.Seals.{line_text, tag_text};
ghost use Rattle.pec_seal.specs.Opening.{first_line, line_at, tag_at, HasTagBytes};
ghost use Rattle.pec_seal.specs.Views.{line_shown};

use base64::engine::general_purpose::STANDARD;
use pec_types::{NoMemory, first_unprintable};
use std::alloc::Global;

const FIELD: &[u8] = b"X-Sigillo: ";

const SEPARATOR: &[u8] = b"; ";

const LINE_END: &[u8] = b"\r\n";

/// A text with a seal line at its front: the name and the tag of the line, and the bytes behind it.
#[derive(Clone, Copy)]
pub(crate) struct Line<'a> {
    pub name: &'a [u8],
    pub tag: [u8; 32],
    pub bytes: &'a [u8],
}

/// The seal line with this name and tag, with room for so many bytes behind it.
pub(crate) fn write_line(
    alloc: Global,
    name: &[u8],
    tag: &[u8; 32],
    behind: usize,
) -> Result<Vec<u8>, NoMemory>
    ensures { IfOk result (λ line. (rest : List ℕ)
        → line.items ++ rest ≡ line_text (record { name = name.now; tag = tag.now; bytes = rest })) }
{
    let mut line = Vec::with_capacity(alloc, room_for(name, behind))?;
    line.extend_from_slice(FIELD)?;
    line.extend_from_slice(name)?;
    line.extend_from_slice(SEPARATOR)?;
    line.extend_from_slice(&encoded(tag))?;
    line.extend_from_slice(LINE_END)?;
    Ok(line)
}

/// How much room is made for a line and what stands behind it. A wrong guess would cost time alone.
fn room_for(name: &[u8], behind: usize) -> usize {
    let own = FIELD.len() + SEPARATOR.len() + LINE_END.len() + 44;
    name.len().saturating_add(behind).saturating_add(own)
}

/// The seal line at the front of a text, and what stands behind it.
#[tactic(auto, unfolding(crate::specs::Opening::line_at, pec_types::specs::Bytes::after_front))]
pub(crate) fn read_line(text: &[u8]) -> Option<Line<'_>>
    ensures value { option_map line_shown result ≡ line_at text.now }
    ensures bytes { HasTagBytes text.now }
{
    let (line, bytes) = first_line(text)?;
    let seal = line.strip_prefix(FIELD)?;
    let (front, characters) = seal.split_last_chunk::<44>()?;
    let name = front.strip_suffix(SEPARATOR)?;
    let tag = decoded(characters)?;
    Some(Line { name, tag, bytes })
}

/// The printable bytes at the front of a text, which CR and LF end, and what stands behind these.
#[tactic(auto, unfolding(crate::specs::Opening::first_line, pec_types::specs::Bytes::after_front))]
fn first_line(text: &[u8]) -> Option<(&[u8], &[u8])>
    ensures { option_map (λ cut. (cut.0.now, cut.1.now)) result ≡ first_line text.now }
{
    let end = first_unprintable(text)?;
    let bytes = text[end..].strip_prefix(LINE_END)?;
    Some((&text[..end], bytes))
}

/// The tag that 44 characters of base64 stand for.
#[tactic(auto, unfolding(crate::specs::Opening::tag_at))]
fn decoded(characters: &[u8; 44]) -> Option<[u8; 32]>
    ensures { result ≡ tag_at characters.now }
{
    let mut room = [0; 33];
    let Ok(32) = STANDARD.decode_slice_unchecked(characters, &mut room) else {
        return None;
    };
    room.first_chunk::<32>().copied()
}

/// The 44 characters of a tag.
#[tactic(auto, unfolding(crate::specs::Seals::tag_text))]
fn encoded(tag: &[u8; 32]) -> [u8; 44]
    ensures { result ≡ tag_text tag.now }
{
    let mut characters = [0; 44];
    let Ok(_) = STANDARD.encode_slice(tag, &mut characters) else {
        unreachable!();
    };
    characters
}
