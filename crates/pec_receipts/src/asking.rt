ghost use Rattle.std.specs.Prelude.{◌≡◌, ◌==◌, ◌&&◌, Some, find, map};
ghost use Rattle.std.specs.List.{list_any};
ghost use Rattle.std.specs.Option.{option_map};
ghost use Rattle.pec_directory.specs.Directory.{providers_of};
ghost use Rattle.pec_letter_parts.specs.Views.{letter_shown};
ghost use Rattle.pec_letter_facts.specs.Questions.{marking_of};
ghost use Rattle.pec_types.specs.declared.receipts.Kind.TheVariants as kinds;
ghost use Rattle.pec_receipts.specs.Seen.{are_recipients, error_number, is_certified_one, is_delivered, is_detail, is_marked, is_of, is_one, is_receipted, is_sealed, is_wished, kind_number, kind_of, says};
ghost use Rattle.pec_receipts.specs.Views.{row_shown, said_shown};

use crate::kinds::{About, Row, Said, row_of};
use pec_cert::{CertError, CertKind, CertRecipient};
use pec_directory::Directory;
use pec_heads::Head;
use pec_letter_facts::{are_typed, is_sealed_by_issuer, is_wish_marked, marking};
use pec_letter_parts::{Letter, Marking};
use pec_types::{Address, Cause, Kind, MsgId, Refusal, Text, Wish};

/// The kinds without a cause.
const OTHER_KINDS: [Kind; 11] = [
    Kind::Acceptance,
    Kind::Charge,
    Kind::Delivery,
    Kind::DeliveryError(Refusal::NoMailbox),
    Kind::DeliveryError(Refusal::MailboxFull),
    Kind::DeliveryError(Refusal::Virus),
    Kind::VirusFound,
    Kind::Warning,
    Kind::Notice,
    Kind::LateNotice,
    Kind::Ack,
];

/// The kind of which a letter is. It takes no memory.
#[tactic(auto, unfolding(crate::specs::Seen::kind_of))]
pub(crate) fn kind_of(letter: &Letter<'_>) -> Option<Kind>
    ensures { result ≡ kind_of (letter_shown letter.now) }
{
    refused_kind(Cause::all(), letter).or(first_kind(&OTHER_KINDS, letter))
}

/// The kind of a notice for the first of these causes for which a letter is one.
fn refused_kind(causes: &[Cause], letter: &Letter<'_>) -> Option<Kind>
    ensures { result ≡ find (is_of (letter_shown letter.now)) (map kinds.NonAcceptance causes.now) }
{
    for cause in causes {
        let kind = Kind::NonAcceptance(*cause);
        if is_of(letter, kind) {
            return Some(kind);
        }
    }
    None
}

/// The first of these kinds of which a letter is.
fn first_kind(kinds: &[Kind], letter: &Letter<'_>) -> Option<Kind>
    ensures { result ≡ find (is_of (letter_shown letter.now)) kinds.now }
{
    for kind in kinds {
        if is_of(letter, *kind) {
            return Some(*kind);
        }
    }
    None
}

fn is_of(letter: &Letter<'_>, kind: Kind) -> bool
    ensures { result ≡ is_of (letter_shown letter.now) kind }
{
    says(letter, row_of(kind).said)
}

/// Whether the word of the head, the kind, the error and its words are those of a row.
#[tactic(auto, unfolding(crate::specs::Seen::says))]
fn says(letter: &Letter<'_>, said: Option<Said>) -> bool
    ensures { result ≡ says (letter_shown letter.now) (option_map said_shown said) }
{
    let Some(said) = said else {
        return false;
    };
    // The head is looked at last: that takes longest.
    if !certifies(letter, &said) {
        return false;
    }
    is_marked(&letter.head, said.word)
}

/// Whether the kind, the error and its words are those of a row.
fn certifies(letter: &Letter<'_>, said: &Said) -> bool
    ensures { result ≡ (kind_number letter.now.cert.kind == kind_number said.now.kind
        && error_number letter.now.cert.error == error_number said.now.error
        && is_detail (option_map (λ text. text.now) said.now.detail) letter.now.cert.detail) }
{
    kind_number(letter.cert.kind) == kind_number(said.kind)
        && error_number(letter.cert.error) == error_number(said.error)
        && is_detail(said.detail, &letter.cert.detail)
}

/// Whether a head says that it is a receipt's, by this word.
fn is_marked(head: &Head, word: &[u8]) -> bool
    ensures { result ≡ is_marked word.now (marking_of head.now) }
{
    match marking(head) {
        Some((what, kind)) => is_receipted(what) && kind == word,
        None => false,
    }
}

fn is_receipted(what: Marking) -> bool
    ensures { result ≡ is_receipted what }
{
    match what {
        Marking::Receipt => true,
        Marking::Transport | Marking::Reply => false,
    }
}

fn kind_number(kind: CertKind) -> u8
    ensures { result ≡ kind_number kind }
{
    match kind {
        CertKind::Acceptance => 0,
        CertKind::NonAcceptance => 1,
        CertKind::Charge => 2,
        CertKind::Delivery => 3,
        CertKind::Envelope => 4,
        CertKind::DeliveryError => 5,
        CertKind::DelayNotice => 6,
        CertKind::VirusDetection => 7,
    }
}

fn error_number(error: CertError) -> u8
    ensures { result ≡ error_number error }
{
    match error {
        CertError::Nothing => 0,
        CertError::NoRecipient => 1,
        CertError::NoDomain => 2,
        CertError::Virus => 3,
        CertError::Other => 4,
    }
}

fn is_detail(wanted: Option<&[u8]>, detail: &Option<Text>) -> bool
    ensures { result ≡ is_detail (option_map (λ text. text.now) wanted.entry) detail.now }
{
    match wanted {
        Some(wanted) => has_words(detail, wanted),
        None => detail.is_none(),
    }
}

fn has_words(detail: &Option<Text>, wanted: &[u8]) -> bool
    ensures { result ≡ is_detail (Some wanted.now) detail.now }
{
    match detail {
        Some(detail) => detail.bytes() == wanted,
        None => false,
    }
}

/// Whether the provider that sealed the letter is its issuer, and that of the message where no other may compose the
/// kind.
#[tactic(auto, unfolding(crate::specs::Seen::is_sealed))]
pub(crate) fn is_sealed(directory: &Directory, id: MsgId, row: &Row, letter: &Letter<'_>) -> bool
    ensures { result ≡ is_sealed (providers_of directory.now) id (row_shown row.now) (letter_shown letter.now) }
{
    is_sealed_by_issuer(directory, letter) && (row.elsewhere || letter.sealer == id.provider)
}

/// Whether the recipients have their right types, and the one that the letter is about is one of them.
#[tactic(auto, unfolding(crate::specs::Seen::are_recipients))]
pub(crate) fn are_recipients(directory: &Directory, row: &Row, letter: &Letter<'_>) -> bool
    ensures { result ≡ are_recipients (providers_of directory.now) (row_shown row.now) (letter_shown letter.now) }
{
    are_typed(directory, letter)
        && is_delivered(
            row.about,
            letter.cert.recipients.as_slice(),
            &letter.cert.delivered,
        )
}

#[tactic(auto, unfolding(crate::specs::Seen::is_delivered))]
fn is_delivered(about: About, recipients: &[CertRecipient], delivered: &Option<Address>) -> bool
    ensures { result ≡ is_delivered about recipients.now delivered.now }
{
    match about {
        About::Message => delivered.is_none(),
        About::Provider => delivered.is_none(),
        About::Recipient => is_one(recipients, delivered),
    }
}

fn is_one(recipients: &[CertRecipient], delivered: &Option<Address>) -> bool
    ensures { result ≡ is_one recipients.now delivered.now }
{
    match delivered {
        Some(address) => is_among(recipients, address),
        None => false,
    }
}

fn is_among(recipients: &[CertRecipient], address: &Address) -> bool
    ensures { result ≡ list_any (is_certified_one address.now) recipients.now }
{
    recipients.iter().any(|recipient| recipient.certified
        && recipient.address.bytes() == address.bytes())
}

/// Whether a wish is certified exactly where the kind has one, and is that of the head where the kind has it there.
pub(crate) fn is_wished(row: &Row, letter: &Letter<'_>) -> bool
    ensures { result ≡ is_wished (row_shown row.now).said letter.now.cert.wish letter.now.head }
{
    wish_agrees(row.said, letter.cert.wish, &letter.head)
}

#[tactic(auto, unfolding(crate::specs::Seen::is_wished))]
fn wish_agrees(said: Option<Said>, wish: Option<Wish>, head: &Head) -> bool
    ensures { result ≡ is_wished (option_map said_shown said) wish head.now }
{
    match said {
        Some(said) => wish_said(said, wish, head),
        None => true,
    }
}

#[tactic(auto, unfolding(crate::specs::Seen::is_wished))]
fn wish_said(said: Said, wish: Option<Wish>, head: &Head) -> bool
    ensures { result ≡ is_wished (Some (said_shown said)) wish head.now }
{
    let Some(wish) = wish else {
        return !said.wish;
    };
    if !said.wish {
        return false;
    }
    if said.delivers {
        return is_wish_marked(wish, head);
    }
    true
}
