ghost use Rattle.std.specs.Prelude.{◌≡◌, ◌++◌, ◌<◌, length, map, codes, OnOk, IfOk, IfSome};
ghost use Rattle.std.specs.List.{flat_map, AllByRecursion};
ghost use Rattle.pec_types.specs.Address.{IsLowerAddress};
ghost use Rattle.pec_types.specs.Text.{AllPrintable};
ghost use Rattle.pec_grammar.specs.Grammar.{optional_text};
ghost use Rattle.pec_cert.specs.Certificate.{addressee, IsCert};
ghost use Rattle.pec_cert.specs.CertificateReading.{cert_text};
ghost use Rattle.pec_cert.specs.declared.certificates.CertRecipient.{CertRecipient};
ghost use Rattle.pec_cert.specs.Lines.{kind_word, error_word, class_word, front_text, addressee_opening, addressee_text, shown_text, wish_text};
ghost use Rattle.pec_cert.specs.Markup.{escape, two_digits, four_digits, opening, closing, element};
ghost use Rattle.pec_cert.specs.Shown.{sign_word, zone_text, day_text, time_text, HasDigits};

use crate::certificates::{CertData, CertError, CertKind, CertRecipient};
use crate::markup::plain_front;
use crate::stamps::{Shown, ShownDay, ShownTime, ShownZone};
use pec_types::{Address, NoMemory, Text, Wish};
use std::alloc::{AllocError, Global};

/// The text of a certificate that has a recipient.
pub fn write(alloc: Global, cert: &CertData) -> Result<Vec<u8>, NoMemory>
    requires { 0 < length cert.now.recipients }
    ensures text { IfOk result (λ text. IsCert cert.now text.items) }
    // The same as a function of the certificate, for definitions that build on it.
    ensures exact { IfOk result (λ text. text.items ≡ cert_text cert.now) }
{
    let text = write_text(alloc, cert)?;
    Ok(text)
}

fn write_text(alloc: Global, cert: &CertData) -> Result<Vec<u8>, AllocError>
    requires { 0 < length cert.now.recipients }
    ensures { IfOk result (λ text. IsCert cert.now text.items) }
{
    let mut out = Vec::with_capacity(alloc, room_for(cert))?;
    put_beginning(&mut out, cert.kind, cert.error, cert.sender.bytes())?;
    put_recipients(&mut out, cert.recipients.as_slice())?;
    put_middle(&mut out, &cert.reply, &cert.subject, &cert.provider)?;
    put_shown(&mut out, cert.stamp.shown())?;
    put_names(&mut out, &cert.id, &cert.reference, cert.wish)?;
    put_delivered(&mut out, &cert.delivered)?;
    put_received(&mut out, cert.received.as_slice())?;
    put_optional(
        &mut out,
        b"<errore-esteso>",
        &cert.detail,
        b"</errore-esteso>\r\n",
    )?;
    out.extend_from_slice(b"</dati>\r\n</postacert>\r\n")?;
    Ok(out)
}

/// How much room is made for a certificate's text. A wrong guess would cost time alone.
fn room_for(cert: &CertData) -> usize {
    let subject = match &cert.subject {
        Some(subject) => subject.bytes().len(),
        None => 0,
    };
    let addresses = cert
        .recipients
        .as_slice()
        .len()
        .saturating_add(cert.received.as_slice().len());
    addresses
        .saturating_mul(128)
        .saturating_add(subject)
        .saturating_add(896)
}

/// Puts the first four lines.
pub(crate) fn put_beginning(
    out: &mut Vec<u8>,
    kind: CertKind,
    error: CertError,
    sender: &[u8],
) -> Result<(), AllocError>
    ensures { OnOk result (out.new.items ≡ out.old.items ++ (front_text kind error
        ++ element (codes "mittente") sender.now)) }
{
    put_front(out, kind, error)?;
    put_element(out, b"<mittente>", sender, b"</mittente>\r\n")?;
    Ok(())
}

/// Puts the first three lines.
pub(crate) fn put_front(
    out: &mut Vec<u8>,
    kind: CertKind,
    error: CertError,
) -> Result<(), AllocError>
    ensures { OnOk result (out.new.items ≡ out.old.items ++ front_text kind error) }
{
    out.extend_from_slice(b"<?xml version=\"1.0\" encoding=\"UTF-8\"?>\r\n<postacert tipo=\"")?;
    out.extend_from_slice(word_of_kind(kind))?;
    out.extend_from_slice(b"\" errore=\"")?;
    out.extend_from_slice(word_of_error(error))?;
    out.extend_from_slice(b"\">\r\n<intestazione>\r\n")?;
    Ok(())
}

fn word_of_kind(kind: CertKind) -> &'static [u8]
    ensures { result.now ≡ kind_word kind }
{
    match kind {
        CertKind::Acceptance => b"accettazione",
        CertKind::NonAcceptance => b"non-accettazione",
        CertKind::Charge => b"presa-in-carico",
        CertKind::Delivery => b"avvenuta-consegna",
        CertKind::Envelope => b"posta-certificata",
        CertKind::DeliveryError => b"errore-consegna",
        CertKind::DelayNotice => b"preavviso-errore-consegna",
        CertKind::VirusDetection => b"rilevazione-virus",
    }
}

fn word_of_error(error: CertError) -> &'static [u8]
    ensures { result.now ≡ error_word error }
{
    match error {
        CertError::Nothing => b"nessuno",
        CertError::NoRecipient => b"no-dest",
        CertError::NoDomain => b"no-dominio",
        CertError::Virus => b"virus",
        CertError::Other => b"altro",
    }
}

fn put_recipients(out: &mut Vec<u8>, recipients: &[CertRecipient]) -> Result<(), AllocError>
    ensures lines { OnOk result (out.new.items ≡ out.old.items
        ++ flat_map addressee_text (map addressee recipients.now)) }
    ensures lower { OnOk result (AllByRecursion (λ (r : CertRecipient). IsLowerAddress r.address) recipients.now) }
{
    for r in recipients {
        put_addressee(out, r.certified, r.address.bytes())?;
    }
    Ok(())
}

/// Puts the line of a recipient.
pub(crate) fn put_addressee(
    out: &mut Vec<u8>,
    certified: bool,
    address: &[u8],
) -> Result<(), AllocError>
    ensures { OnOk result (out.new.items ≡ out.old.items ++ (addressee_opening certified
        ++ (flat_map escape address.now ++ closing (codes "destinatari")))) }
{
    put_addressee_opening(out, certified)?;
    put_text(out, address)?;
    out.extend_from_slice(b"</destinatari>\r\n")?;
    Ok(())
}

pub(crate) fn put_addressee_opening(out: &mut Vec<u8>, certified: bool) -> Result<(), AllocError>
    ensures { OnOk result (out.new.items ≡ out.old.items ++ addressee_opening certified) }
{
    out.extend_from_slice(b"<destinatari tipo=\"")?;
    out.extend_from_slice(word_of_class(certified))?;
    out.extend_from_slice(b"\">")?;
    Ok(())
}

fn word_of_class(certified: bool) -> &'static [u8]
    ensures { result.now ≡ class_word certified }
{
    if certified {
        b"certificato"
    } else {
        b"esterno"
    }
}

/// Puts the lines from the recipients to the moment.
pub(crate) fn put_middle(
    out: &mut Vec<u8>,
    reply: &Text,
    subject: &Option<Text>,
    provider: &Text,
) -> Result<(), AllocError>
    ensures lines { OnOk result (out.new.items ≡ out.old.items
        ++ (element (codes "risposte") reply.now ++ (optional_text (element (codes "oggetto")) subject.now
        ++ (codes "</intestazione>\r\n<dati>\r\n" ++ element (codes "gestore-emittente") provider.now)))) }
    ensures printable { OnOk result (AllPrintable reply.now × IfSome subject.now AllPrintable
        × AllPrintable provider.now) }
{
    put_element(out, b"<risposte>", reply.bytes(), b"</risposte>\r\n")?;
    put_optional(out, b"<oggetto>", subject, b"</oggetto>\r\n")?;
    out.extend_from_slice(b"</intestazione>\r\n<dati>\r\n")?;
    put_element(
        out,
        b"<gestore-emittente>",
        provider.bytes(),
        b"</gestore-emittente>\r\n",
    )?;
    Ok(())
}

/// Puts the lines of a moment.
pub(crate) fn put_shown(out: &mut Vec<u8>, shown: Shown) -> Result<(), AllocError>
    requires { HasDigits shown }
    ensures { OnOk result (out.new.items ≡ out.old.items ++ shown_text shown) }
{
    out.extend_from_slice(b"<data zona=\"")?;
    put_zone(out, shown.zone)?;
    out.extend_from_slice(b"\">\r\n<giorno>")?;
    put_day(out, shown.day)?;
    out.extend_from_slice(b"</giorno>\r\n<ora>")?;
    put_time(out, shown.time)?;
    out.extend_from_slice(b"</ora>\r\n</data>\r\n")?;
    Ok(())
}

pub(crate) fn put_zone(out: &mut Vec<u8>, zone: ShownZone) -> Result<(), AllocError>
    requires { (zone.hours < 100) × (zone.minutes < 100) }
    ensures { OnOk result (out.new.items ≡ out.old.items ++ zone_text zone) }
{
    out.push(if zone.ahead { b'+' } else { b'-' })?;
    put_two_digits(out, zone.hours)?;
    put_two_digits(out, zone.minutes)?;
    Ok(())
}

pub(crate) fn put_day(out: &mut Vec<u8>, day: ShownDay) -> Result<(), AllocError>
    requires { (day.day < 100) × (day.month < 100) × (day.year < 10000) }
    ensures { OnOk result (out.new.items ≡ out.old.items ++ day_text day) }
{
    put_two_digits(out, day.day)?;
    out.push(b'/')?;
    put_two_digits(out, day.month)?;
    out.push(b'/')?;
    put_four_digits(out, day.year)?;
    Ok(())
}

pub(crate) fn put_time(out: &mut Vec<u8>, time: ShownTime) -> Result<(), AllocError>
    requires { (time.hour < 100) × (time.minute < 100) × (time.second < 100) }
    ensures { OnOk result (out.new.items ≡ out.old.items ++ time_text time) }
{
    put_two_digits(out, time.hour)?;
    out.push(b':')?;
    put_two_digits(out, time.minute)?;
    out.push(b':')?;
    put_two_digits(out, time.second)?;
    Ok(())
}

pub(crate) fn put_four_digits(out: &mut Vec<u8>, number: u16) -> Result<(), AllocError>
    requires { number < 10000 }
    ensures { OnOk result (out.new.items ≡ out.old.items ++ four_digits number) }
{
    put_two_digits(out, (number / 100) as u8)?;
    put_two_digits(out, (number % 100) as u8)?;
    Ok(())
}

pub(crate) fn put_two_digits(out: &mut Vec<u8>, number: u8) -> Result<(), AllocError>
    requires { number < 100 }
    ensures { OnOk result (out.new.items ≡ out.old.items ++ two_digits number) }
{
    out.push(number / 10 + b'0')?;
    out.push(number % 10 + b'0')?;
    Ok(())
}

/// Puts the lines that name a message, and its wish.
pub(crate) fn put_names(
    out: &mut Vec<u8>,
    id: &Text,
    reference: &Option<Text>,
    wish: Option<Wish>,
) -> Result<(), AllocError>
    ensures lines { OnOk result (out.new.items ≡ out.old.items
        ++ (element (codes "identificativo") id.now ++ (optional_text (element (codes "msgid")) reference.now
        ++ optional_text wish_text wish))) }
    ensures printable { OnOk result (AllPrintable id.now × IfSome reference.now AllPrintable) }
{
    put_element(
        out,
        b"<identificativo>",
        id.bytes(),
        b"</identificativo>\r\n",
    )?;
    put_optional(out, b"<msgid>", reference, b"</msgid>\r\n")?;
    put_wish(out, wish)?;
    Ok(())
}

fn put_wish(out: &mut Vec<u8>, wish: Option<Wish>) -> Result<(), AllocError>
    ensures { OnOk result (out.new.items ≡ out.old.items ++ optional_text wish_text wish) }
{
    let Some(wish) = wish else {
        return Ok(());
    };
    out.extend_from_slice(b"<ricevuta tipo=\"")?;
    out.extend_from_slice(wish.word())?;
    out.extend_from_slice(b"\"/>\r\n")?;
    Ok(())
}

fn put_delivered(out: &mut Vec<u8>, delivered: &Option<Address>) -> Result<(), AllocError>
    ensures line { OnOk result (out.new.items ≡ out.old.items
        ++ optional_text (element (codes "consegna")) delivered.now) }
    ensures lower { OnOk result (IfSome delivered.now IsLowerAddress) }
{
    let Some(address) = delivered else {
        return Ok(());
    };
    put_element(out, b"<consegna>", address.bytes(), b"</consegna>\r\n")?;
    Ok(())
}

fn put_received(out: &mut Vec<u8>, received: &[Address]) -> Result<(), AllocError>
    ensures lines { OnOk result (out.new.items ≡ out.old.items ++ flat_map (element (codes "ricezione")) received.now) }
    ensures lower { OnOk result (AllByRecursion IsLowerAddress received.now) }
{
    for address in received {
        put_element(out, b"<ricezione>", address.bytes(), b"</ricezione>\r\n")?;
    }
    Ok(())
}

/// Puts an element that may be absent.
pub(crate) fn put_optional(
    out: &mut Vec<u8>,
    start_tag: &[u8],
    text: &Option<Text>,
    end_tag: &[u8],
) -> Result<(), AllocError>
    ensures line { OnOk result (out.new.items ≡ out.old.items ++ optional_text (λ bytes. start_tag.now
        ++ (flat_map escape bytes ++ end_tag.now)) text.now) }
    ensures printable { OnOk result (IfSome text.now AllPrintable) }
{
    let Some(text) = text else {
        return Ok(());
    };
    put_element(out, start_tag, text.bytes(), end_tag)?;
    Ok(())
}

/// Puts an element with its two tags.
pub(crate) fn put_element(
    out: &mut Vec<u8>,
    start_tag: &[u8],
    text: &[u8],
    end_tag: &[u8],
) -> Result<(), AllocError>
    ensures { OnOk result (out.new.items ≡ out.old.items ++ (start_tag.now ++ (flat_map escape text.now
        ++ end_tag.now))) }
{
    out.extend_from_slice(start_tag)?;
    put_text(out, text)?;
    out.extend_from_slice(end_tag)?;
    Ok(())
}

fn put_text(out: &mut Vec<u8>, text: &[u8]) -> Result<(), AllocError>
    ensures { OnOk result (out.new.items ≡ out.old.items ++ flat_map escape text.now) }
{
    let front = plain_front(text);
    out.extend_from_slice(&text[..front])?;
    put_escaped(out, &text[front..])?;
    Ok(())
}

/// Puts a text byte by byte.
fn put_escaped(out: &mut Vec<u8>, text: &[u8]) -> Result<(), AllocError>
    ensures { OnOk result (out.new.items ≡ out.old.items ++ flat_map escape text.now) }
{
    for b in text {
        put_byte(out, *b)?;
    }
    Ok(())
}

fn put_byte(out: &mut Vec<u8>, b: u8) -> Result<(), AllocError>
    ensures { OnOk result (out.new.items ≡ out.old.items ++ escape b) }
{
    match b {
        b'&' => out.extend_from_slice(b"&amp;")?,
        b'<' => out.extend_from_slice(b"&lt;")?,
        b'>' => out.extend_from_slice(b"&gt;")?,
        b'"' => out.extend_from_slice(b"&quot;")?,
        _ => out.push(b)?,
    }
    Ok(())
}
