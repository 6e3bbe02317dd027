ghost use Rattle.std.specs.Prelude.{◌≡◌, ◌++◌, OnOk, IfOk, codes, map, option_map};
ghost use Rattle.pec_types.specs.Words.{wish_word};
ghost use Rattle.pec_heads.specs.WrittenHeads.{field, field_text, head_text};
ghost use Rattle.pec_cert.specs.HeaderDate.{header_date_of};
ghost use Rattle.pec_letter_parts.specs.Headings.{address_field, angled, heading_fields, marking_name, marks_of, multipart_fields, names_of, optional_field, parties_of, virus_field};
ghost use Rattle.pec_letter_parts.specs.Views.{heading_shown};

use pec_bodies::composed_type;
use pec_cert::{Stamp, header_date};
use pec_heads::{put_addresses, put_field};
use pec_types::{Address, NoMemory, Wish};
use std::alloc::{AllocError, Global};

/// Which field says what a letter is.
#[derive(Clone, Copy, Debug, PartialEq, Eq)]
pub enum Marking {
    /// `X-Trasporto`: an envelope of one kind or the other.
    Transport,
    /// `X-Ricevuta`: a receipt or a notice.
    Receipt,
    /// `X-Riscontro`: the acknowledgement of an outcome.
    Reply,
}

impl Marking {
    /// The field's name. It takes no memory.
    pub fn name(self) -> &'static [u8]
        ensures { result.now ≡ marking_name self }
    {
        match self {
            Marking::Transport => b"X-Trasporto",
            Marking::Receipt => b"X-Ricevuta",
            Marking::Reply => b"X-Riscontro",
        }
    }
}

/// What stands in the head of a letter, field by field, in the order of the fields. What is absent makes no field, and
/// neither does a list without addresses.
#[derive(Clone, Copy)]
pub struct Heading<'a> {
    pub marking: Marking,
    pub kind: &'a [u8],
    /// Whether a screen found a virus: `X-VerificaSicurezza`.
    pub virus: bool,
    /// `X-TipoRicevuta`.
    pub wish: Option<Wish>,
    /// `Message-ID`, without its angle brackets.
    pub name: &'a [u8],
    /// `X-Riferimento-Message-ID`, as it is to stand.
    pub reference: Option<&'a [u8]>,
    /// `Date`, on the clock of the provider that composes the letter.
    pub stamp: Stamp,
    pub from: &'a [u8],
    /// `Reply-To`.
    pub reply: Option<&'a [u8]>,
    pub to: &'a [&'a Address],
    /// `Cc`.
    pub copies: &'a [&'a Address],
    pub subject: &'a [u8],
}

/// Puts the fields of a head, from the one that says what the letter is to the subject.
#[tactic(auto, unfolding(crate::specs::Headings::heading_fields))]
pub fn put_heading(alloc: Global, out: &mut Vec<u8>, heading: &Heading<'_>) -> Result<(), NoMemory>
    ensures { OnOk result (out.new.items ≡ out.old.items ++ head_text (heading_fields (heading_shown heading.now))) }
{
    put_marks(out, heading)?;
    put_names(alloc, out, heading)?;
    put_parties(out, heading)?;
    put_field(out, b"Subject", heading.subject)?;
    Ok(())
}

fn put_marks(out: &mut Vec<u8>, heading: &Heading<'_>) -> Result<(), NoMemory>
    ensures { OnOk result (out.new.items ≡ out.old.items ++ head_text (marks_of (heading_shown heading.now))) }
{
    put_field(out, heading.marking.name(), heading.kind)?;
    put_virus(out, heading.virus)?;
    put_wish(out, heading.wish)?;
    Ok(())
}

fn put_virus(out: &mut Vec<u8>, virus: bool) -> Result<(), NoMemory>
    ensures { OnOk result (out.new.items ≡ out.old.items ++ head_text (virus_field virus)) }
{
    if virus {
        put_field(out, b"X-VerificaSicurezza", b"errore")?;
    }
    Ok(())
}

fn put_wish(out: &mut Vec<u8>, wish: Option<Wish>) -> Result<(), NoMemory>
    ensures { OnOk result (out.new.items ≡ out.old.items ++ head_text (optional_field (codes "X-TipoRicevuta") (option_map wish_word wish))) }
{
    if let Some(wish) = wish {
        put_field(out, b"X-TipoRicevuta", wish.word())?;
    }
    Ok(())
}

fn put_names(alloc: Global, out: &mut Vec<u8>, heading: &Heading<'_>) -> Result<(), NoMemory>
    ensures { OnOk result (out.new.items ≡ out.old.items ++ head_text (names_of (heading_shown heading.now))) }
{
    put_name(alloc, out, heading.name)?;
    put_optional(out, b"X-Riferimento-Message-ID", heading.reference)?;
    put_date(alloc, out, heading.stamp)?;
    Ok(())
}

fn put_name(alloc: Global, out: &mut Vec<u8>, name: &[u8]) -> Result<(), NoMemory>
    ensures { OnOk result (out.new.items ≡ out.old.items ++ field_text (field (codes "Message-ID") (angled name.now))) }
{
    let name = angled(alloc, name)?;
    put_field(out, b"Message-ID", name.as_slice())?;
    Ok(())
}

fn put_date(alloc: Global, out: &mut Vec<u8>, stamp: Stamp) -> Result<(), NoMemory>
    ensures { OnOk result (out.new.items ≡ out.old.items ++ field_text (field (codes "Date") (header_date_of stamp))) }
{
    let date = header_date(alloc, stamp)?;
    put_field(out, b"Date", date.as_slice())?;
    Ok(())
}

fn put_parties(out: &mut Vec<u8>, heading: &Heading<'_>) -> Result<(), NoMemory>
    ensures { OnOk result (out.new.items ≡ out.old.items ++ head_text (parties_of (heading_shown heading.now))) }
{
    put_field(out, b"From", heading.from)?;
    put_optional(out, b"Reply-To", heading.reply)?;
    put_list(out, b"To", heading.to)?;
    put_list(out, b"Cc", heading.copies)?;
    Ok(())
}

fn put_optional(out: &mut Vec<u8>, name: &[u8], value: Option<&[u8]>) -> Result<(), NoMemory>
    ensures { OnOk result (out.new.items ≡ out.old.items ++ head_text (optional_field name.now (option_map (λ text. text.now) value.entry))) }
{
    if let Some(value) = value {
        put_field(out, name, value)?;
    }
    Ok(())
}

fn put_list(out: &mut Vec<u8>, name: &[u8], addresses: &[&Address]) -> Result<(), NoMemory>
    ensures { OnOk result (out.new.items ≡ out.old.items ++ head_text (address_field name.now (map (λ address. address.now) addresses.now))) }
{
    if !addresses.is_empty() {
        put_addresses(out, name, addresses)?;
    }
    Ok(())
}

/// Puts the fields of a multipart, with the boundary of this number.
#[tactic(auto, unfolding(crate::specs::Headings::multipart_fields))]
pub(crate) fn put_multipart(alloc: Global, out: &mut Vec<u8>, number: u64) -> Result<(), NoMemory>
    ensures { OnOk result (out.new.items ≡ out.old.items ++ head_text (multipart_fields number)) }
{
    let value = composed_type(alloc, number)?;
    put_field(out, b"MIME-Version", b"1.0")?;
    put_field(out, b"Content-Type", value.as_slice())?;
    Ok(())
}

/// A name in angle brackets.
pub(crate) fn angled(alloc: Global, name: &[u8]) -> Result<Vec<u8>, AllocError>
    ensures { IfOk result (λ text. text.items ≡ angled name.now) }
{
    let mut text = Vec::with_capacity(alloc, name.len().saturating_add(2))?;
    text.extend_from_slice(b"<")?;
    text.extend_from_slice(name)?;
    text.extend_from_slice(b">")?;
    Ok(text)
}
