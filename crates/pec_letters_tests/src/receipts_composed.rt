//! Receipts, notices and acknowledgements of every kind, byte by byte, and read back.
use crate::houses::{House, sealed};
use crate::receipt_texts::{Form, MESSAGE, SHORT, WHOLE};
use crate::texts::{replaced, written};
use pec_directory::Directory;
use pec_heads::Head;
use pec_receipts::{Kind, Receipt, ReceiptView, compose, read};
use pec_seal::Sealer;
use pec_types::{Address, Cause, Facts, Moment, MsgId, Refusal};
use std::alloc::Global;

const BOB: &str = "bob@beta.example";

const CARL: &str = "carl@beta.example";

const VIRUS: &str = "X-VerificaSicurezza: errore\n";

/// A kind, who composes it, whom it names, what it is composed as, and the words in that text.
type Row = (Kind, u32, &'static str, Form, [&'static str; 3]);

static ROWS: [Row; 19] = [
    (Kind::Acceptance, 0, "", Form::Acceptance, ["", "", ""]),
    (
        Kind::NonAcceptance(Cause::Head),
        0,
        "",
        Form::Refusal,
        ["altro", "head", ""],
    ),
    (
        Kind::NonAcceptance(Cause::From),
        0,
        "",
        Form::Refusal,
        ["altro", "from", ""],
    ),
    (
        Kind::NonAcceptance(Cause::To),
        0,
        "",
        Form::Refusal,
        ["altro", "to", ""],
    ),
    (
        Kind::NonAcceptance(Cause::ReversePath),
        0,
        "",
        Form::Refusal,
        ["altro", "reverse-path", ""],
    ),
    (
        Kind::NonAcceptance(Cause::ForwardPath),
        0,
        "",
        Form::Refusal,
        ["altro", "forward-path", ""],
    ),
    (
        Kind::NonAcceptance(Cause::Bcc),
        0,
        "",
        Form::Refusal,
        ["altro", "bcc", ""],
    ),
    (
        Kind::NonAcceptance(Cause::Size),
        0,
        "",
        Form::Refusal,
        ["altro", "size", ""],
    ),
    (
        Kind::NonAcceptance(Cause::Virus),
        0,
        "",
        Form::Refusal,
        ["virus", "virus", VIRUS],
    ),
    (Kind::Charge, 1, "", Form::Charge, ["", "", ""]),
    (
        Kind::Delivery,
        1,
        BOB,
        Form::Delivery,
        ["completa", WHOLE, "0"],
    ),
    (
        Kind::DeliveryError(Refusal::NoMailbox),
        1,
        BOB,
        Form::Error,
        ["no-dest", "no-mailbox", ""],
    ),
    (
        Kind::DeliveryError(Refusal::MailboxFull),
        1,
        BOB,
        Form::Error,
        ["altro", "mailbox-full", ""],
    ),
    (
        Kind::DeliveryError(Refusal::Virus),
        1,
        BOB,
        Form::Error,
        ["virus", "virus", VIRUS],
    ),
    (Kind::VirusFound, 1, BOB, Form::VirusNotice, ["", "", ""]),
    (
        Kind::Warning,
        0,
        BOB,
        Form::Delay,
        ["pre", "Entro 12 ore", "12 ore"],
    ),
    (
        Kind::Notice,
        0,
        BOB,
        Form::Delay,
        ["man", "Entro 24 ore", "24 ore"],
    ),
    (
        Kind::LateNotice,
        0,
        BOB,
        Form::Delay,
        ["man", "Oltre 24 ore", "oltre 24 ore"],
    ),
    (Kind::Ack, 0, BOB, Form::Acknowledgement, ["", "", ""]),
];

/// Delivery receipts of a primary recipient and of a copy, for each wish.
static DELIVERIES: [Row; 6] = [
    (
        Kind::Delivery,
        1,
        BOB,
        Form::Delivery,
        ["completa", WHOLE, "0"],
    ),
    (
        Kind::Delivery,
        1,
        CARL,
        Form::Delivery,
        ["completa", "", "2"],
    ),
    (
        Kind::Delivery,
        1,
        BOB,
        Form::Delivery,
        ["sintetica", "", "0"],
    ),
    (
        Kind::Delivery,
        1,
        CARL,
        Form::Delivery,
        ["sintetica", "", "2"],
    ),
    (
        Kind::Delivery,
        1,
        BOB,
        Form::Delivery,
        ["breve", SHORT, "0"],
    ),
    (
        Kind::Delivery,
        1,
        CARL,
        Form::Delivery,
        ["breve", SHORT, "2"],
    ),
];

/// The tables and the message, by functions without a clause: the proofs of the tests are then spared their texts.
fn rows() -> &'static [Row] {
    &ROWS
}

fn deliveries() -> &'static [Row] {
    &DELIVERIES
}

fn message() -> &'static str {
    MESSAGE
}

#[test]
fn every_kind_is_composed_and_read_back(rt: HostRuntime) {
    for row in rows() {
        assert!(rt; is_composed(rt.alloc(), row, "completa"));
    }
}

#[test]
fn a_delivery_receipt_has_of_the_message_what_was_wished(rt: HostRuntime) {
    for row in deliveries() {
        assert!(rt; is_composed(rt.alloc(), row, row.4[0]));
    }
}

/// Whether the receipt of a row is composed as its text, and read as what it was composed of. The message has the wish
/// of this word.
fn is_composed(alloc: Global, row: &Row, wish: &str) -> bool {
    match House::of(alloc, "gamma.example") {
        Some(house) => is_composed_in(alloc, &house, row, original(alloc, wish).as_bytes()),
        None => false,
    }
}

fn is_composed_in(alloc: Global, house: &House, row: &Row, original: &[u8]) -> bool {
    match receipt(alloc, row.0, row.1, row.2, original) {
        Some(receipt) => is_letter(alloc, house, row, &receipt, original),
        None => false,
    }
}

fn is_letter(alloc: Global, house: &House, row: &Row, receipt: &Receipt, original: &[u8]) -> bool {
    let letter = composed(alloc, house, receipt, original);
    let wanted = wanted(alloc, house, row);
    letter.as_slice() == wanted.as_slice() && is_read(alloc, house, receipt, &letter)
}

/// The message as it was handed in, with the wish of this word.
fn original(alloc: Global, wish: &str) -> String {
    let text = replaced(alloc, message(), "completa", wish);
    written(alloc, text.as_str())
}

/// The letter of a receipt; no byte where it may not be given.
fn composed(alloc: Global, house: &House, receipt: &Receipt, original: &[u8]) -> Vec<u8> {
    if !receipt.can_be_given(&house.directory) || house.sealer.name(receipt.by).is_none() {
        return Vec::new(alloc);
    }
    match compose(alloc, &house.sealer, &house.directory, receipt, original) {
        Ok(letter) => letter,
        Err(_) => Vec::new(alloc),
    }
}

/// The letter of a row, as its provider sealed it.
fn wanted(alloc: Global, house: &House, row: &Row) -> Vec<u8> {
    let text = row.3.worded(alloc, row.2, &row.4);
    sealed(alloc, house, row.1, text.as_str())
}

/// Whether a letter is read as what this receipt says.
fn is_read(alloc: Global, house: &House, receipt: &Receipt, letter: &[u8]) -> bool {
    match read(alloc, &house.sealer, &house.directory, letter) {
        Ok(view) => says(&view, receipt),
        Err(_) => false,
    }
}

fn says(view: &ReceiptView, receipt: &Receipt) -> bool {
    view.kind == receipt.kind
        && view.id == receipt.id
        && view.by == receipt.by
        && view.moment == receipt.moment
        && is_same(&view.recipient, &receipt.recipient)
}

fn is_same(one: &Option<Address>, other: &Option<Address>) -> bool {
    match (one, other) {
        (Some(one), Some(other)) => one.bytes() == other.bytes(),
        (None, None) => true,
        _ => false,
    }
}

/// A kind, by whom, and of which recipient.
type Gift = (Kind, u32, &'static str);

/// What may not be given: kinds with and without a recipient, an external and a strange recipient, a provider that
/// isn't there, and another provider than the message's.
static NOT_GIVEN: [Gift; 10] = [
    (Kind::Acceptance, 0, BOB),
    (Kind::Charge, 1, BOB),
    (Kind::Delivery, 1, ""),
    (Kind::Delivery, 1, "x@y.example"),
    (Kind::Delivery, 1, "alice@alfa.example"),
    (Kind::Delivery, 3, BOB),
    (Kind::VirusFound, 1, ""),
    (Kind::VirusFound, 1, "x@y.example"),
    (Kind::Acceptance, 1, ""),
    (Kind::Notice, 1, BOB),
];

#[test]
fn no_receipt_is_given_by_or_of_one_whom_it_does_not_concern(rt: HostRuntime) {
    for gift in &NOT_GIVEN {
        assert!(rt; is_not_given(rt.alloc(), gift));
    }
}

fn is_not_given(alloc: Global, gift: &Gift) -> bool {
    match House::of(alloc, "gamma.example") {
        Some(house) => is_refused(alloc, &house.directory, gift),
        None => false,
    }
}

fn is_refused(alloc: Global, directory: &Directory, gift: &Gift) -> bool {
    match receipt(alloc, gift.0, gift.1, gift.2, message().as_bytes()) {
        Some(receipt) => !receipt.can_be_given(directory),
        None => false,
    }
}

/// What a provider is to say of the message of this text; none where that can't be.
fn receipt(
    alloc: Global,
    kind: Kind,
    by: u32,
    recipient: &str,
    original: &[u8],
) -> Option<Receipt> {
    let moment = Moment::new(1_704_186_060)?;
    let id = MsgId {
        provider: 0,
        number: 1_234,
    };
    let facts = facts_of(alloc, original)?;
    match Address::find(alloc, recipient.as_bytes()) {
        Ok(recipient) => Some(Receipt {
            kind,
            id,
            by,
            moment,
            facts,
            recipient,
        }),
        Err(_) => None,
    }
}

fn facts_of(alloc: Global, original: &[u8]) -> Option<Facts> {
    match Head::read(alloc, original) {
        Ok((head, _)) => head.facts(alloc).ok()?,
        Err(_) => None,
    }
}
