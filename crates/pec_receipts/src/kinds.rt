ghost use Rattle.std.specs.Prelude.{◌≡◌};
ghost use Rattle.pec_receipts.specs.Kinds.{all_well, cause_error, delayed, is_virus, refusal_error, refused, row_of, to_sender, virus_found};
ghost use Rattle.pec_receipts.specs.Views.{row_shown, said_shown};

use pec_cert::{CertError, CertKind};
use pec_types::{Cause, Kind, Refusal};

/// What a receipt is about, beside the message.
#[derive(Clone, Copy, Debug, PartialEq, Eq)]
pub(crate) enum About {
    Message,
    /// The provider that composes it.
    Provider,
    /// One recipient.
    Recipient,
}

/// Who gets a receipt: the sender, or the address for receipts of the message's provider or of the recipient's.
#[derive(Clone, Copy, Debug, PartialEq, Eq)]
pub(crate) enum Addressee {
    Sender,
    MessageProvider,
    RecipientProvider,
}

/// What a receipt certifies and says.
#[derive(Clone, Copy)]
pub(crate) struct Said {
    /// The word of `X-Ricevuta`.
    pub(crate) word: &'static [u8],
    pub(crate) kind: CertKind,
    pub(crate) error: CertError,
    /// Whether the head says that a virus was found.
    pub(crate) flagged: bool,
    /// Whether the wish is certified.
    pub(crate) wish: bool,
    /// Whether the message may stand in it.
    pub(crate) delivers: bool,
    /// The error in words.
    pub(crate) detail: Option<&'static [u8]>,
    /// The phrase for people up to whom it names.
    pub(crate) phrase: &'static [u8],
    /// How it goes on behind that.
    pub(crate) behind: &'static [u8],
    /// Whether the error in words follows.
    pub(crate) explains: bool,
}

/// A row of the table of kinds.
#[derive(Clone, Copy)]
pub(crate) struct Row {
    pub(crate) tag: &'static [u8],
    pub(crate) prefix: &'static [u8],
    pub(crate) about: About,
    pub(crate) to: Addressee,
    /// Whether a reader takes it of another provider than the message's too.
    pub(crate) elsewhere: bool,
    /// Nothing for an acknowledgement.
    pub(crate) said: Option<Said>,
}

const DELAYED: &[u8] = b"AVVISO DI MANCATA CONSEGNA PER SUPERAMENTO TEMPO MASSIMO: ";

/// The row of a kind. It takes no memory.
#[tactic(auto, unfolding(crate::specs::Kinds::row_of))]
pub(crate) fn row_of(kind: Kind) -> Row
    ensures { row_shown result ≡ row_of kind }
{
    match kind {
        Kind::Acceptance => {
            let said = all_well(
                b"accettazione",
                CertKind::Acceptance,
                true,
                false,
                b"Il messaggio e' stato accettato",
            );
            to_sender(b"acc", b"ACCETTAZIONE: ", About::Message, false, said)
        }
        Kind::NonAcceptance(cause) => {
            let said = refused(
                b"non-accettazione",
                CertKind::NonAcceptance,
                cause_error(cause),
                cause.word(),
                b"Il messaggio non e' stato accettato",
            );
            to_sender(
                b"nac",
                b"AVVISO DI NON ACCETTAZIONE: ",
                About::Message,
                false,
                said,
            )
        }
        Kind::Charge => {
            let said = all_well(
                b"presa-in-carico",
                CertKind::Charge,
                false,
                false,
                b"Il messaggio e' stato preso in carico da ",
            );
            Row {
                tag: b"pic",
                prefix: b"PRESA IN CARICO: ",
                about: About::Provider,
                to: Addressee::MessageProvider,
                elsewhere: true,
                said: Some(said),
            }
        }
        Kind::Delivery => {
            let said = all_well(
                b"avvenuta-consegna",
                CertKind::Delivery,
                true,
                true,
                b"Il messaggio e' stato consegnato a ",
            );
            to_sender(b"avc", b"CONSEGNA: ", About::Recipient, true, said)
        }
        Kind::DeliveryError(refusal) => {
            let said = refused(
                b"errore-consegna",
                CertKind::DeliveryError,
                refusal_error(refusal),
                refusal.word(),
                b"Il messaggio non e' stato consegnato a ",
            );
            to_sender(
                b"err",
                b"AVVISO DI MANCATA CONSEGNA: ",
                About::Recipient,
                true,
                said,
            )
        }
        Kind::VirusFound => Row {
            tag: b"vir",
            prefix: b"PROBLEMA DI SICUREZZA: ",
            about: About::Recipient,
            to: Addressee::MessageProvider,
            elsewhere: true,
            said: Some(virus_found()),
        },
        Kind::Warning => {
            let said = delayed(b"12 ore", b"Entro 12 ore non vi e' notizia di consegna a ");
            to_sender(b"pre", DELAYED, About::Recipient, false, said)
        }
        Kind::Notice => {
            let said = delayed(b"24 ore", b"Entro 24 ore non vi e' notizia di consegna a ");
            to_sender(b"man", DELAYED, About::Recipient, false, said)
        }
        Kind::LateNotice => {
            let said = delayed(
                b"oltre 24 ore",
                b"Oltre 24 ore non vi e' notizia di consegna a ",
            );
            to_sender(b"man", DELAYED, About::Recipient, false, said)
        }
        Kind::Ack => Row {
            tag: b"ris",
            prefix: b"RISCONTRO",
            about: About::Recipient,
            to: Addressee::RecipientProvider,
            elsewhere: true,
            said: None,
        },
    }
}

/// A row of what goes to the sender.
fn to_sender(
    tag: &'static [u8],
    prefix: &'static [u8],
    about: About,
    elsewhere: bool,
    said: Said,
) -> Row
    ensures { row_shown result ≡ to_sender tag.now prefix.now about elsewhere (said_shown said) }
{
    Row {
        tag,
        prefix,
        about,
        to: Addressee::Sender,
        elsewhere,
        said: Some(said),
    }
}

/// Nothing went wrong, and nothing is added.
fn all_well(
    word: &'static [u8],
    kind: CertKind,
    wish: bool,
    delivers: bool,
    phrase: &'static [u8],
) -> Said
    ensures { said_shown result ≡ all_well word.now kind wish delivers phrase.now }
{
    Said {
        word,
        kind,
        error: CertError::Nothing,
        flagged: false,
        wish,
        delivers,
        detail: None,
        phrase,
        behind: b"",
        explains: false,
    }
}

/// Something went wrong, and the phrase goes on with it.
fn refused(
    word: &'static [u8],
    kind: CertKind,
    error: CertError,
    detail: &'static [u8],
    phrase: &'static [u8],
) -> Said
    ensures { said_shown result ≡ refused word.now kind error detail.now phrase.now }
{
    Said {
        word,
        kind,
        error,
        flagged: is_virus(error),
        wish: false,
        delivers: false,
        detail: Some(detail),
        phrase,
        behind: b"",
        explains: true,
    }
}

/// Nothing is known within a time.
fn delayed(detail: &'static [u8], phrase: &'static [u8]) -> Said
    ensures { said_shown result ≡ delayed detail.now phrase.now }
{
    Said {
        word: b"preavviso-errore-consegna",
        kind: CertKind::DelayNotice,
        error: CertError::Other,
        flagged: false,
        wish: false,
        delivers: false,
        detail: Some(detail),
        phrase,
        behind: b"",
        explains: false,
    }
}

/// A screen of the recipient's provider found a rule.
fn virus_found() -> Said
    ensures { said_shown result ≡ virus_found }
{
    Said {
        word: b"rilevazione-virus",
        kind: CertKind::VirusDetection,
        error: CertError::Virus,
        flagged: false,
        wish: false,
        delivers: false,
        detail: Some(Refusal::Virus.word()),
        phrase: b"Il messaggio per ",
        behind: b" contiene un virus",
        explains: false,
    }
}

fn is_virus(error: CertError) -> bool
    ensures { result ≡ is_virus error }
{
    match error {
        CertError::Virus => true,
        CertError::Nothing | CertError::NoRecipient | CertError::NoDomain | CertError::Other =>
            false,
    }
}

fn cause_error(cause: Cause) -> CertError
    ensures { result ≡ cause_error cause }
{
    match cause {
        Cause::Virus => CertError::Virus,
        _ => CertError::Other,
    }
}

fn refusal_error(refusal: Refusal) -> CertError
    ensures { result ≡ refusal_error refusal }
{
    match refusal {
        Refusal::NoMailbox => CertError::NoRecipient,
        Refusal::MailboxFull => CertError::Other,
        Refusal::Virus => CertError::Virus,
    }
}
