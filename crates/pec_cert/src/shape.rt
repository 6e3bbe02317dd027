ghost use Rattle.std.specs.Prelude.{◌≡◌};
ghost use Rattle.pec_grammar.specs.Grammar.{choice_at, many_at, several_at, optional_at};
ghost use Rattle.pec_grammar.specs.Reading.{standing, Gives, MayGive};
ghost use Rattle.pec_cert.specs.LinesReading.{kind_table, error_table, class_table, wish_table, front_at, addressee_at, wish_at, received_at, heading_at, issue_at, closing_at, lines_at};

use crate::certificates::{CertError, CertKind};
use crate::digits::shown;
use crate::lines::{Addressee, Closing, Heading, Issue, Lines};
use crate::markup::{content, element, optional_element};
use pec_grammar::{Cursor, ReadError, Stop, one_of, word};
use pec_types::{Items, Text, Wish};
use std::alloc::Global;

/// Reads the lines of a certification text, where an address is any text and a date any digits.
#[tactic(auto, unfolding(crate::specs::LinesReading::lines_at))]
pub(crate) fn lines(alloc: Global, at: Cursor<'_>) -> Result<(Lines, Cursor<'_>), ReadError<'_>>
    ensures { MayGive (λ x. (x.0, standing x.1)) result (lines_at (standing at.entry)) }
{
    let (heading, at) = heading(alloc, at)?;
    let (issue, at) = issue(alloc, at)?;
    let (closing, at) = closing(alloc, at)?;
    let lines = Lines {
        kind: heading.kind,
        error: heading.error,
        sender: heading.sender,
        recipients: heading.recipients,
        reply: heading.reply,
        subject: heading.subject,
        provider: issue.provider,
        shown: issue.shown,
        id: issue.id,
        reference: issue.reference,
        wish: closing.wish,
        delivered: closing.delivered,
        received: closing.received,
        detail: closing.detail,
    };
    Ok((lines, at))
}

/// Reads the lines up to those of the data.
#[tactic(auto, unfolding(crate::specs::LinesReading::heading_at))]
fn heading(alloc: Global, at: Cursor<'_>) -> Result<(Heading, Cursor<'_>), ReadError<'_>>
    ensures { MayGive (λ x. (x.0, standing x.1)) result (heading_at (standing at.entry)) }
{
    let ((kind, error), at) = front(at)?;
    let (sender, at) = element(alloc, at, b"<mittente>", b"</mittente>\r\n")?;
    let (recipients, at) = addressees(alloc, at)?;
    let (reply, at) = element(alloc, at, b"<risposte>", b"</risposte>\r\n")?;
    let (subject, at) = optional_element(alloc, at, b"<oggetto>", b"</oggetto>\r\n")?;
    let at = word(at, b"</intestazione>\r\n<dati>\r\n")?;
    let heading = Heading {
        kind,
        error,
        sender,
        recipients,
        reply,
        subject,
    };
    Ok((heading, at))
}

/// Reads the lines of the data that say who certifies, when, and what.
#[tactic(auto, unfolding(crate::specs::LinesReading::issue_at))]
fn issue(alloc: Global, at: Cursor<'_>) -> Result<(Issue, Cursor<'_>), ReadError<'_>>
    ensures { MayGive (λ x. (x.0, standing x.1)) result (issue_at (standing at.entry)) }
{
    let (provider, at) = element(
        alloc,
        at,
        b"<gestore-emittente>",
        b"</gestore-emittente>\r\n",
    )?;
    let (shown, at) = shown(at)?;
    let (id, at) = element(alloc, at, b"<identificativo>", b"</identificativo>\r\n")?;
    let (reference, at) = optional_element(alloc, at, b"<msgid>", b"</msgid>\r\n")?;
    let issue = Issue {
        provider,
        shown,
        id,
        reference,
    };
    Ok((issue, at))
}

/// Reads the lines of the data behind these, up to the end.
#[tactic(auto, unfolding(crate::specs::LinesReading::closing_at))]
fn closing(alloc: Global, at: Cursor<'_>) -> Result<(Closing, Cursor<'_>), ReadError<'_>>
    ensures { MayGive (λ x. (x.0, standing x.1)) result (closing_at (standing at.entry)) }
{
    let (wish, at) = optional_wish(at)?;
    let (delivered, at) = optional_element(alloc, at, b"<consegna>", b"</consegna>\r\n")?;
    let (received, at) = all_received(alloc, at)?;
    let (detail, at) = optional_element(alloc, at, b"<errore-esteso>", b"</errore-esteso>\r\n")?;
    let at = word(at, b"</dati>\r\n</postacert>\r\n")?;
    let closing = Closing {
        wish,
        delivered,
        received,
        detail,
    };
    Ok((closing, at))
}

/// Reads the first three lines.
#[tactic(auto, unfolding(crate::specs::LinesReading::front_at))]
pub(crate) fn front(at: Cursor<'_>) -> Result<((CertKind, CertError), Cursor<'_>), Stop<'_>>
    ensures { Gives (λ x. (x.0, standing x.1)) result (front_at (standing at.entry)) }
{
    let at = word(
        at,
        b"<?xml version=\"1.0\" encoding=\"UTF-8\"?>\r\n<postacert tipo=\"",
    )?;
    let (kind, at) = kind(at)?;
    let at = word(at, b"\" errore=\"")?;
    let (error, at) = error(at)?;
    let at = word(at, b"\">\r\n<intestazione>\r\n")?;
    Ok(((kind, error), at))
}

fn kind(at: Cursor<'_>) -> Result<(CertKind, Cursor<'_>), Stop<'_>>
    ensures { Gives (λ x. (x.0, standing x.1)) result (choice_at kind_table (standing at.entry)) }
{
    let table: [(&[u8], CertKind); 8] = [
        (b"accettazione", CertKind::Acceptance),
        (b"non-accettazione", CertKind::NonAcceptance),
        (b"presa-in-carico", CertKind::Charge),
        (b"avvenuta-consegna", CertKind::Delivery),
        (b"posta-certificata", CertKind::Envelope),
        (b"errore-consegna", CertKind::DeliveryError),
        (b"preavviso-errore-consegna", CertKind::DelayNotice),
        (b"rilevazione-virus", CertKind::VirusDetection),
    ];
    let (kind, at) = one_of(at, &table)?;
    Ok((kind, at))
}

fn error(at: Cursor<'_>) -> Result<(CertError, Cursor<'_>), Stop<'_>>
    ensures { Gives (λ x. (x.0, standing x.1)) result (choice_at error_table (standing at.entry)) }
{
    let table: [(&[u8], CertError); 5] = [
        (b"nessuno", CertError::Nothing),
        (b"no-dest", CertError::NoRecipient),
        (b"no-dominio", CertError::NoDomain),
        (b"virus", CertError::Virus),
        (b"altro", CertError::Other),
    ];
    let (error, at) = one_of(at, &table)?;
    Ok((error, at))
}

/// Reads the lines of the recipients, of which there is at least one.
fn addressees(
    alloc: Global,
    at: Cursor<'_>,
) -> Result<(Items<Addressee>, Cursor<'_>), ReadError<'_>>
    ensures { MayGive (λ x. (x.0, standing x.1)) result (several_at addressee_at (standing at.entry)) }
{
    let (first, at) = addressee(alloc, at)?;
    let mut all = Vec::new(alloc);
    all.push(first)?;
    let mut at = at;
    'others: loop {
        let (next, after) = match addressee(alloc, at) {
            Ok(taken) => taken,
            Err(ReadError::Stop(stop)) => return Ok((Items::of(all), at.tried(stop))),
            Err(ReadError::NoMemory) => return Err(ReadError::NoMemory),
        };
        all.push(next)?;
        at = after;
    }
}

#[tactic(auto, unfolding(crate::specs::LinesReading::addressee_at))]
fn addressee(alloc: Global, at: Cursor<'_>) -> Result<(Addressee, Cursor<'_>), ReadError<'_>>
    ensures { MayGive (λ x. (x.0, standing x.1)) result (addressee_at (standing at.entry)) }
{
    let at = word(at, b"<destinatari tipo=\"")?;
    let (certified, at) = class(at)?;
    let at = word(at, b"\">")?;
    let (address, at) = content(alloc, at, b"</destinatari>\r\n")?;
    Ok((Addressee { certified, address }, at))
}

pub(crate) fn class(at: Cursor<'_>) -> Result<(bool, Cursor<'_>), Stop<'_>>
    ensures { Gives (λ x. (x.0, standing x.1)) result (choice_at class_table (standing at.entry)) }
{
    let table: [(&[u8], bool); 2] = [(b"certificato", true), (b"esterno", false)];
    let (certified, at) = one_of(at, &table)?;
    Ok((certified, at))
}

#[tactic(auto, unfolding(crate::specs::LinesReading::wish_at))]
pub(crate) fn wish(at: Cursor<'_>) -> Result<(Wish, Cursor<'_>), Stop<'_>>
    ensures { Gives (λ x. (x.0, standing x.1)) result (wish_at (standing at.entry)) }
{
    let at = word(at, b"<ricevuta tipo=\"")?;
    let (wish, at) = wish_word(at)?;
    let at = word(at, b"\"/>\r\n")?;
    Ok((wish, at))
}

fn wish_word(at: Cursor<'_>) -> Result<(Wish, Cursor<'_>), Stop<'_>>
    ensures { Gives (λ x. (x.0, standing x.1)) result (choice_at wish_table (standing at.entry)) }
{
    let table: [(&[u8], Wish); 3] = [
        (b"completa", Wish::Full),
        (b"breve", Wish::Brief),
        (b"sintetica", Wish::Concise),
    ];
    let (wish, at) = one_of(at, &table)?;
    Ok((wish, at))
}

fn optional_wish(at: Cursor<'_>) -> Result<(Option<Wish>, Cursor<'_>), Stop<'_>>
    ensures { Gives (λ x. (x.0, standing x.1)) result (optional_at wish_at (standing at.entry)) }
{
    match wish(at) {
        Ok((wish, after)) => Ok((Some(wish), after)),
        Err(stop) => Ok((None, at.tried(stop))),
    }
}

/// Reads the lines of the recipients that a provider took charge of, if there are any.
fn all_received(alloc: Global, at: Cursor<'_>) -> Result<(Items<Text>, Cursor<'_>), ReadError<'_>>
    ensures { MayGive (λ x. (x.0, standing x.1)) result (many_at received_at (standing at.entry)) }
{
    let mut all = Vec::new(alloc);
    let mut at = at;
    'others: loop {
        let (next, after) = match received(alloc, at) {
            Ok(taken) => taken,
            Err(ReadError::Stop(stop)) => return Ok((Items::of(all), at.tried(stop))),
            Err(ReadError::NoMemory) => return Err(ReadError::NoMemory),
        };
        all.push(next)?;
        at = after;
    }
}

#[tactic(auto, unfolding(crate::specs::LinesReading::received_at))]
fn received(alloc: Global, at: Cursor<'_>) -> Result<(Text, Cursor<'_>), ReadError<'_>>
    ensures { MayGive (λ x. (x.0, standing x.1)) result (received_at (standing at.entry)) }
{
    let (address, at) = element(alloc, at, b"<ricezione>", b"</ricezione>\r\n")?;
    Ok((address, at))
}
