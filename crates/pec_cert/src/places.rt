//! The places of values in a text, by what stands before them.

ghost use Rattle.std.specs.Prelude.{◌≡◌, ◌++◌, ◌≤◌, codes, length, map, take, OnOk, IfOk};
ghost use Rattle.std.specs.List.{flat_map};
ghost use Rattle.pec_cert.specs.Certificate.{before_recipients, before_shown, before_delivered, before_received};
ghost use Rattle.pec_cert.specs.Lines.{front_text, addressee_opening, addressee_text};
ghost use Rattle.pec_cert.specs.Markup.{opening, element};
ghost use Rattle.pec_cert.specs.Shown.{HasDigits, before_part};

use crate::dates::Part;
use crate::lines::{Addressee, Lines};
use crate::writing::{
    put_addressee, put_addressee_opening, put_beginning, put_day, put_element, put_front,
    put_middle, put_names, put_optional, put_shown, put_zone,
};
use pec_types::Text;
use std::alloc::{AllocError, Global};

pub(crate) fn sender_place(alloc: Global, lines: &Lines) -> Result<usize, AllocError>
    ensures { IfOk result (λ place. place ≡ length (front_text lines.now.kind lines.now.error
        ++ opening (codes "mittente"))) }
{
    let mut front = Vec::new(alloc);
    put_front(&mut front, lines.kind, lines.error)?;
    front.extend_from_slice(b"<mittente>")?;
    Ok(front.len())
}

/// The place of the recipient with this number, counted from 0.
pub(crate) fn recipient_place(
    alloc: Global,
    lines: &Lines,
    number: usize,
    certified: bool,
) -> Result<usize, AllocError>
    requires { number ≤ length lines.now.recipients }
    ensures { IfOk result (λ place. place ≡ length ((before_recipients lines.now
        ++ flat_map addressee_text (take number lines.now.recipients)) ++ addressee_opening certified)) }
{
    let mut front = Vec::new(alloc);
    put_beginning(&mut front, lines.kind, lines.error, lines.sender.bytes())?;
    put_addressees(&mut front, &lines.recipients.as_slice()[..number])?;
    put_addressee_opening(&mut front, certified)?;
    Ok(front.len())
}

/// The place of a part of what is shown of the moment.
pub(crate) fn shown_place(alloc: Global, lines: &Lines, part: Part) -> Result<usize, AllocError>
    requires { HasDigits lines.now.shown }
    ensures { IfOk result (λ place. place ≡ length (before_part
        (before_shown lines.now ++ codes "<data zona=\"") lines.now.shown part)) }
{
    let mut front = Vec::new(alloc);
    put_before_shown(&mut front, lines)?;
    front.extend_from_slice(b"<data zona=\"")?;
    put_before_part(&mut front, lines, part)?;
    Ok(front.len())
}

fn put_before_part(out: &mut Vec<u8>, lines: &Lines, part: Part) -> Result<(), AllocError>
    requires { HasDigits lines.now.shown }
    ensures { OnOk result (out.new.items ≡ before_part out.old.items lines.now.shown part) }
{
    if let Part::Zone = part {
        return Ok(());
    }
    put_zone(out, lines.shown.zone)?;
    out.extend_from_slice(b"\">\r\n<giorno>")?;
    if let Part::Day = part {
        return Ok(());
    }
    put_day(out, lines.shown.day)?;
    out.extend_from_slice(b"</giorno>\r\n<ora>")?;
    Ok(())
}

pub(crate) fn delivered_place(alloc: Global, lines: &Lines) -> Result<usize, AllocError>
    requires { HasDigits lines.now.shown }
    ensures { IfOk result (λ place. place ≡ length (before_delivered lines.now ++ opening (codes "consegna"))) }
{
    let mut front = Vec::new(alloc);
    put_before_delivered(&mut front, lines)?;
    front.extend_from_slice(b"<consegna>")?;
    Ok(front.len())
}

/// The place of the address of that number that was received, counted from 0.
pub(crate) fn received_place(
    alloc: Global,
    lines: &Lines,
    number: usize,
) -> Result<usize, AllocError>
    requires number { number ≤ length lines.now.received }
    requires digits { HasDigits lines.now.shown }
    ensures { IfOk result (λ place. place ≡ length ((before_received lines.now
        ++ flat_map (element (codes "ricezione")) (take number lines.now.received)) ++ opening (codes "ricezione"))) }
{
    let mut front = Vec::new(alloc);
    put_before_delivered(&mut front, lines)?;
    put_optional(
        &mut front,
        b"<consegna>",
        &lines.delivered,
        b"</consegna>\r\n",
    )?;
    put_texts(&mut front, &lines.received.as_slice()[..number])?;
    front.extend_from_slice(b"<ricezione>")?;
    Ok(front.len())
}

fn put_before_shown(out: &mut Vec<u8>, lines: &Lines) -> Result<(), AllocError>
    ensures { OnOk result (out.new.items ≡ out.old.items ++ before_shown lines.now) }
{
    put_beginning(out, lines.kind, lines.error, lines.sender.bytes())?;
    put_addressees(out, lines.recipients.as_slice())?;
    put_middle(out, &lines.reply, &lines.subject, &lines.provider)?;
    Ok(())
}

fn put_before_delivered(out: &mut Vec<u8>, lines: &Lines) -> Result<(), AllocError>
    requires { HasDigits lines.now.shown }
    ensures { OnOk result (out.new.items ≡ out.old.items ++ before_delivered lines.now) }
{
    put_before_shown(out, lines)?;
    put_shown(out, lines.shown)?;
    put_names(out, &lines.id, &lines.reference, lines.wish)?;
    Ok(())
}

fn put_addressees(out: &mut Vec<u8>, addressees: &[Addressee]) -> Result<(), AllocError>
    ensures { OnOk result (out.new.items ≡ out.old.items ++ flat_map addressee_text addressees.now) }
{
    for r in addressees {
        put_addressee(out, r.certified, r.address.bytes())?;
    }
    Ok(())
}

fn put_texts(out: &mut Vec<u8>, received: &[Text]) -> Result<(), AllocError>
    ensures { OnOk result (out.new.items ≡ out.old.items ++ flat_map (element (codes "ricezione")) received.now) }
{
    for address in received {
        put_element(out, b"<ricezione>", address.bytes(), b"</ricezione>\r\n")?;
    }
    Ok(())
}
