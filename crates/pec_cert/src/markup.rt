ghost use Rattle.std.specs.Prelude.{◌≡◌, ◌≤◌, IfOk, length};
ghost use Rattle.std.specs.List.{prefix_len};
ghost use Rattle.pec_types.specs.Text.{AllPrintable};
ghost use Rattle.pec_grammar.specs.Grammar.{byte_at, many_at, optional_at};
ghost use Rattle.pec_grammar.specs.Reading.{standing, Gives, MayGive};
ghost use Rattle.pec_cert.specs.LinesReading.{is_plain, char_at, content_at, element_at};

use pec_grammar::{Cursor, ReadError, Stop, one_of, word};
use pec_types::{NoMemory, Text};
use std::alloc::{AllocError, Global};

/// Reads a byte that stands for itself.
#[tactic(auto, unfolding(pec_grammar::specs::Grammar::byte_at))]
fn plain(at: Cursor<'_>) -> Result<(u8, Cursor<'_>), Stop<'_>>
    ensures { Gives (λ x. (x.0, standing x.1)) result (byte_at is_plain (standing at.entry)) }
{
    let [b, rest @ ..] = at.rest else {
        return Err(at.stop());
    };
    if !is_plain(*b) {
        return Err(at.stop());
    }
    let farthest = at.farthest;
    Ok((*b, Cursor { rest, farthest }))
}

/// Whether a byte stands for itself.
fn is_plain(b: u8) -> bool
    ensures { result ≡ is_plain b }
{
    !(b < 0x20 || 0x7e < b || b == b'&' || b == b'<' || b == b'>' || b == b'"')
}

/// How many bytes that stand for themselves a text begins with.
pub(crate) fn plain_front(text: &[u8]) -> usize
    ensures value { result ≡ prefix_len is_plain text.now }
    ensures within { result ≤ length text.now }
{
    for (i, b) in text.iter().enumerate() {
        if !is_plain(*b) {
            return i;
        }
    }
    text.len()
}

/// Reads a byte of a text: one that stands for itself, or one of the four escapes.
#[tactic(auto, unfolding(crate::specs::LinesReading::char_at))]
fn character(at: Cursor<'_>) -> Result<(u8, Cursor<'_>), Stop<'_>>
    ensures { Gives (λ x. (x.0, standing x.1)) result (char_at (standing at.entry)) }
{
    let stop = match plain(at) {
        Ok(taken) => return Ok(taken),
        Err(stop) => stop,
    };
    let table: [(&[u8], u8); 4] = [
        (b"&amp;", b'&'),
        (b"&lt;", b'<'),
        (b"&gt;", b'>'),
        (b"&quot;", b'"'),
    ];
    let (b, after) = one_of(at.tried(stop), &table)?;
    Ok((b, after))
}

/// Reads a text up to the first byte that no text has there. One without an escape is copied at once.
fn text(alloc: Global, at: Cursor<'_>) -> Result<(Text, Cursor<'_>), ReadError<'_>>
    ensures { MayGive (λ x. (x.0, standing x.1)) result (many_at char_at (standing at.entry)) }
{
    let front = plain_front(at.rest);
    let behind = Cursor {
        rest: &at.rest[front..],
        farthest: at.farthest,
    };
    let Err(stop) = character(behind) else {
        return escaped_text(alloc, at);
    };
    let text = printable(alloc, &at.rest[..front])?;
    Ok((text, behind.tried(stop)))
}

/// Reads a text byte by byte, up to the first one that no text has there.
fn escaped_text(alloc: Global, at: Cursor<'_>) -> Result<(Text, Cursor<'_>), ReadError<'_>>
    ensures { MayGive (λ x. (x.0, standing x.1)) result (many_at char_at (standing at.entry)) }
{
    let mut bytes = Vec::new(alloc);
    let mut at = at;
    'bytes: loop {
        let (b, after) = match character(at) {
            Ok(taken) => taken,
            Err(stop) => {
                let text = printable(alloc, bytes.as_slice())?;
                return Ok((text, at.tried(stop)));
            }
        };
        bytes.push(b)?;
        at = after;
    }
}

// The text of bytes that are all printable.
fn printable(alloc: Global, bytes: &[u8]) -> Result<Text, AllocError>
    requires { AllPrintable bytes.now }
    ensures { IfOk result (λ text. text ≡ bytes.now) }
{
    match Text::of_printable(alloc, bytes) {
        Ok(text) => Ok(text),
        Err(NoMemory) => Err(AllocError),
    }
}

/// Reads a text and the closing tag behind it.
#[tactic(auto, unfolding(crate::specs::LinesReading::content_at))]
pub(crate) fn content<'a>(
    alloc: Global,
    at: Cursor<'a>,
    end_tag: &[u8],
) -> Result<(Text, Cursor<'a>), ReadError<'a>>
    ensures { MayGive (λ x. (x.0, standing x.1)) result (content_at end_tag.now (standing at.entry)) }
{
    let (text, at) = text(alloc, at)?;
    let at = word(at, end_tag)?;
    Ok((text, at))
}

/// Reads an element with its two tags.
#[tactic(auto, unfolding(crate::specs::LinesReading::element_at))]
pub(crate) fn element<'a>(
    alloc: Global,
    at: Cursor<'a>,
    start_tag: &[u8],
    end_tag: &[u8],
) -> Result<(Text, Cursor<'a>), ReadError<'a>>
    ensures { MayGive (λ x. (x.0, standing x.1)) result (element_at start_tag.now end_tag.now (standing at.entry)) }
{
    let at = word(at, start_tag)?;
    let (text, at) = content(alloc, at, end_tag)?;
    Ok((text, at))
}

/// Reads an element that may be absent.
pub(crate) fn optional_element<'a>(
    alloc: Global,
    at: Cursor<'a>,
    start_tag: &[u8],
    end_tag: &[u8],
) -> Result<(Option<Text>, Cursor<'a>), ReadError<'a>>
    ensures { MayGive (λ x. (x.0, standing x.1)) result (optional_at (element_at start_tag.now end_tag.now)
        (standing at.entry)) }
{
    match element(alloc, at, start_tag, end_tag) {
        Ok((text, after)) => Ok((Some(text), after)),
        Err(ReadError::Stop(stop)) => Ok((None, at.tried(stop))),
        Err(ReadError::NoMemory) => Err(ReadError::NoMemory),
    }
}
