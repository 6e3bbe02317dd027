//! The values of a text that doesn't have the shape of a certification text, up to the first wrong one. A text is looked
//! at from its start again, part by part; each part gives what is behind it.

ghost use Rattle.std.specs.Prelude.{◌≡◌, Ok, codes, length, IfOk};
ghost use Rattle.pec_grammar.specs.Reading.{standing, Gives};
ghost use Rattle.pec_cert.specs.Checking.{Looks};
ghost use Rattle.pec_cert.specs.Front.{absent_or, address_part, date_part, delivered_part, front_part, heading_part, line_part, names_part, often, opening_at, opening_part, received_part, recipient_part, sender_part, tag_part, tagged_part, values_part, wish_part, wrong_in};
ghost use Rattle.pec_cert.specs.Shown.{before_part};
ghost use Rattle.pec_cert.specs.declared.stamps.Shown.{Shown as ShownTo};
ghost use Rattle.pec_cert.specs.declared.wrong.Halt.TheVariants as halts;

use crate::dates::{Part, stamp_of};
use crate::digits::shown;
use crate::faults::CertFault;
use crate::markup::{content, element};
use crate::shape::{class, front, wish};
use crate::values::lower_address;
use pec_grammar::{Cursor, ReadError, Stop, word};
use pec_types::{NoMemory, an_address_is_told_exactly};
use std::alloc::Global;

/// Why a look at a text is over.
#[derive(Clone, Copy)]
pub(crate) enum Halt {
    NoMemory,
    /// Certification texts don't go on so.
    Stop,
    /// A value is wrong.
    Wrong(CertFault),
}

impl From<NoMemory> for Halt {
    ghost from_gives = { λ _ halt. halt ≡ halts.NoMemory };

    fn from(_: NoMemory) -> Self {
        Halt::NoMemory
    }
}

/// The fault of the first wrong value that stands in a text and all before which goes on as certification texts do,
/// `None` where there is none.
#[tactic(auto, unfolding(crate::specs::Front::wrong_in))]
pub(crate) fn wrong_value(alloc: Global, text: &[u8]) -> Result<Option<CertFault>, NoMemory>
    ensures { IfOk result (λ found. found ≡ wrong_in text.now) }
{
    match values(alloc, text.len(), text) {
        Ok(_) => Ok(None),
        Err(Halt::Stop) => Ok(None),
        Err(Halt::Wrong(fault)) => Ok(Some(fault)),
        Err(Halt::NoMemory) => Err(NoMemory),
    }
}

/// Looks at all values of a text of this size.
#[tactic(auto, unfolding(crate::specs::Front::values_part))]
fn values<'a>(alloc: Global, size: usize, text: &'a [u8]) -> Result<&'a [u8], Halt>
    ensures { Looks result ((values_part size).look text.now) }
{
    let behind = sender(alloc, size, text)?;
    let behind = recipient(alloc, size, behind)?;
    let behind = other_recipients(alloc, size, behind)?;
    let behind = heading(alloc, behind)?;
    let behind = date(size, behind)?;
    let behind = names(alloc, behind)?;
    let behind = delivered_if_there(alloc, size, behind)?;
    let behind = all_received(alloc, size, behind)?;
    Ok(behind)
}

/// The lines up to that of the sender.
#[tactic(auto, unfolding(crate::specs::Front::sender_part))]
fn sender<'a>(alloc: Global, size: usize, text: &'a [u8]) -> Result<&'a [u8], Halt>
    ensures { Looks result ((sender_part size).look text.now) }
{
    let behind = first_lines(text)?;
    let behind = tag(behind, b"<mittente>")?;
    let behind = line(alloc, size, behind, b"/mittente>\r\n")?;
    Ok(behind)
}

#[tactic(auto, unfolding(crate::specs::Front::recipient_part))]
fn recipient<'a>(alloc: Global, size: usize, text: &'a [u8]) -> Result<&'a [u8], Halt>
    ensures { Looks result ((recipient_part size).look text.now) }
{
    let behind = opening(text)?;
    let behind = line(alloc, size, behind, b"/destinatari>\r\n")?;
    Ok(behind)
}

fn other_recipients<'a>(alloc: Global, size: usize, text: &'a [u8]) -> Result<&'a [u8], Halt>
    ensures { Looks result ((often (recipient_part size)).look text.now) }
{
    an_address_is_told_exactly();
    let mut rest = text;
    'others: loop {
        rest = match recipient(alloc, size, rest) {
            Ok(behind) => behind,
            Err(Halt::Stop) => return Ok(rest),
            Err(Halt::Wrong(fault)) => return Err(Halt::Wrong(fault)),
            Err(Halt::NoMemory) => return Err(Halt::NoMemory),
        };
    }
}

/// The lines from the recipients to the date.
#[tactic(auto, unfolding(crate::specs::Front::heading_part))]
fn heading(alloc: Global, text: &[u8]) -> Result<&[u8], Halt>
    ensures { Looks result (heading_part.look text.now) }
{
    let subject = tagged(alloc, text, b"<risposte>", b"</risposte>\r\n")?;
    let end = tagged_if_there(alloc, subject, b"<oggetto>", b"</oggetto>\r\n")?;
    let provider = tag(end, b"</intestazione>\r\n<dati>\r\n")?;
    let date = tagged(
        alloc,
        provider,
        b"<gestore-emittente>",
        b"</gestore-emittente>\r\n",
    )?;
    Ok(date)
}

/// The lines of the date.
fn date(size: usize, text: &[u8]) -> Result<&[u8], Halt>
    ensures { Looks result ((date_part size).look text.now) }
{
    let (shown, at) = match shown(Cursor::new(text)) {
        Ok(taken) => taken,
        Err(_) => return Err(Halt::Stop),
    };
    match stamp_of(shown) {
        Ok(_) => Ok(at.rest),
        Err(part) => {
            let left = text.len().saturating_sub(length_before(part));
            let place = size.saturating_sub(left);
            Err(Halt::Wrong(CertFault::BadDate(place)))
        }
    }
}

/// How many bytes of a date stand before a part of it.
fn length_before(part: Part) -> usize
    ensures { (shown : ShownTo) → result ≡ length (before_part (codes "<data zona=\"") shown part) }
{
    match part {
        Part::Zone => 12,
        Part::Day => 29,
        Part::Time => 55,
    }
}

/// The lines from the date to the addresses behind it.
#[tactic(auto, unfolding(crate::specs::Front::names_part))]
fn names(alloc: Global, text: &[u8]) -> Result<&[u8], Halt>
    ensures { Looks result (names_part.look text.now) }
{
    let behind = tagged(alloc, text, b"<identificativo>", b"</identificativo>\r\n")?;
    let behind = tagged_if_there(alloc, behind, b"<msgid>", b"</msgid>\r\n")?;
    let behind = wish_if_there(behind);
    Ok(behind)
}

fn delivered_if_there<'a>(alloc: Global, size: usize, text: &'a [u8]) -> Result<&'a [u8], Halt>
    ensures { Looks result ((absent_or (delivered_part size)).look text.now) }
{
    match delivered(alloc, size, text) {
        Ok(behind) => Ok(behind),
        Err(Halt::Stop) => Ok(text),
        Err(halt) => Err(halt),
    }
}

#[tactic(auto, unfolding(crate::specs::Front::delivered_part))]
fn delivered<'a>(alloc: Global, size: usize, text: &'a [u8]) -> Result<&'a [u8], Halt>
    ensures { Looks result ((delivered_part size).look text.now) }
{
    let behind = tag(text, b"<consegna>")?;
    let behind = line(alloc, size, behind, b"/consegna>\r\n")?;
    Ok(behind)
}

fn all_received<'a>(alloc: Global, size: usize, text: &'a [u8]) -> Result<&'a [u8], Halt>
    ensures { Looks result ((often (received_part size)).look text.now) }
{
    an_address_is_told_exactly();
    let mut rest = text;
    'others: loop {
        rest = match received(alloc, size, rest) {
            Ok(behind) => behind,
            Err(Halt::Stop) => return Ok(rest),
            Err(Halt::Wrong(fault)) => return Err(Halt::Wrong(fault)),
            Err(Halt::NoMemory) => return Err(Halt::NoMemory),
        };
    }
}

#[tactic(auto, unfolding(crate::specs::Front::received_part))]
fn received<'a>(alloc: Global, size: usize, text: &'a [u8]) -> Result<&'a [u8], Halt>
    ensures { Looks result ((received_part size).look text.now) }
{
    let behind = tag(text, b"<ricezione>")?;
    let behind = line(alloc, size, behind, b"/ricezione>\r\n")?;
    Ok(behind)
}

/// An address, and the tag behind it but for its first byte.
fn line<'a>(alloc: Global, size: usize, text: &'a [u8], end_tag: &[u8]) -> Result<&'a [u8], Halt>
    ensures { Looks result ((line_part size end_tag.now).look text.now) }
{
    let behind = address(alloc, size, text)?;
    let behind = tag(behind, end_tag)?;
    Ok(behind)
}

/// An address, up to the first byte of the tag behind it.
fn address<'a>(alloc: Global, size: usize, text: &'a [u8]) -> Result<&'a [u8], Halt>
    ensures { Looks result ((address_part size).look text.now) }
{
    an_address_is_told_exactly();
    let (bytes, at) = match content(alloc, Cursor::new(text), b"<") {
        Ok(taken) => taken,
        Err(ReadError::Stop(_)) => return Err(Halt::Stop),
        Err(ReadError::NoMemory) => return Err(Halt::NoMemory),
    };
    match lower_address(alloc, bytes.bytes())? {
        Some(_) => Ok(at.rest),
        None => {
            let place = size.saturating_sub(text.len());
            Err(Halt::Wrong(CertFault::BadAddress(place)))
        }
    }
}

fn tagged<'a>(
    alloc: Global,
    text: &'a [u8],
    start_tag: &[u8],
    end_tag: &[u8],
) -> Result<&'a [u8], Halt>
    ensures { Looks result ((tagged_part start_tag.now end_tag.now).look text.now) }
{
    match element(alloc, Cursor::new(text), start_tag, end_tag) {
        Ok((_, at)) => Ok(at.rest),
        Err(ReadError::Stop(_)) => Err(Halt::Stop),
        Err(ReadError::NoMemory) => Err(Halt::NoMemory),
    }
}

fn tagged_if_there<'a>(
    alloc: Global,
    text: &'a [u8],
    start_tag: &[u8],
    end_tag: &[u8],
) -> Result<&'a [u8], Halt>
    ensures { Looks result ((absent_or (tagged_part start_tag.now end_tag.now)).look text.now) }
{
    match tagged(alloc, text, start_tag, end_tag) {
        Ok(behind) => Ok(behind),
        Err(Halt::Stop) => Ok(text),
        Err(halt) => Err(halt),
    }
}

fn tag<'a>(text: &'a [u8], bytes: &[u8]) -> Result<&'a [u8], Halt>
    ensures { Looks result ((tag_part bytes.now).look text.now) }
{
    match word(Cursor::new(text), bytes) {
        Ok(at) => Ok(at.rest),
        Err(_) => Err(Halt::Stop),
    }
}

fn first_lines(text: &[u8]) -> Result<&[u8], Halt>
    ensures { Looks result (front_part.look text.now) }
{
    match front(Cursor::new(text)) {
        Ok((_, at)) => Ok(at.rest),
        Err(_) => Err(Halt::Stop),
    }
}

fn wish_if_there(text: &[u8]) -> &[u8]
    ensures { (absent_or wish_part).look text.now ≡ Ok result.now }
{
    match wish(Cursor::new(text)) {
        Ok((_, at)) => at.rest,
        Err(_) => text,
    }
}

fn opening(text: &[u8]) -> Result<&[u8], Halt>
    ensures { Looks result (opening_part.look text.now) }
{
    match opening_tag(Cursor::new(text)) {
        Ok((_, at)) => Ok(at.rest),
        Err(_) => Err(Halt::Stop),
    }
}

/// The tag in front of a recipient's address.
#[tactic(auto, unfolding(crate::specs::Front::opening_at))]
fn opening_tag(at: Cursor<'_>) -> Result<(bool, Cursor<'_>), Stop<'_>>
    ensures { Gives (λ x. (x.0, standing x.1)) result (opening_at (standing at.entry)) }
{
    let at = word(at, b"<destinatari tipo=\"")?;
    let (certified, at) = class(at)?;
    let at = word(at, b"\">")?;
    Ok((certified, at))
}
