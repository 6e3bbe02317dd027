//! Letters that are genuine, and letters that another provider had to seal.

use crate::houses::House;
use crate::letters::{Saved, certified, letter_of};
use pec_check::{CheckFault, Report, SavedKind};
use pec_types::{Address, Kind, MsgId, Refusal};
use std::alloc::Global;

const BOB: &str = "bob@beta.example";

const CARL: &str = "carl@beta.example";

/// Genuine letters, and of which kind they are.
static GENUINE: [(Saved, SavedKind); 12] = [
    (("envelope", 0, ""), SavedKind::Envelope),
    (("acceptance", 0, ""), SavedKind::Receipt(Kind::Acceptance)),
    (("charge", 1, ""), SavedKind::Receipt(Kind::Charge)),
    (("delivery", 1, BOB), SavedKind::Receipt(Kind::Delivery)),
    (
        ("no-mailbox", 1, CARL),
        SavedKind::Receipt(Kind::DeliveryError(Refusal::NoMailbox)),
    ),
    (
        ("mailbox-full", 1, CARL),
        SavedKind::Receipt(Kind::DeliveryError(Refusal::MailboxFull)),
    ),
    // that a virus was found, the message's provider says
    (
        ("virus", 0, BOB),
        SavedKind::Receipt(Kind::DeliveryError(Refusal::Virus)),
    ),
    // and the recipient's, to that one
    (
        ("virus-found", 1, BOB),
        SavedKind::Receipt(Kind::VirusFound),
    ),
    (("warning", 0, BOB), SavedKind::Receipt(Kind::Warning)),
    // any provider acknowledges
    (("acknowledgement", 0, BOB), SavedKind::Receipt(Kind::Ack)),
    (("acknowledgement", 1, BOB), SavedKind::Receipt(Kind::Ack)),
    (("charge", 0, ""), SavedKind::Receipt(Kind::Charge)),
];

/// Letters that are right in all but the provider that sealed them, and which had to.
static WRONG: [(Saved, u32); 5] = [
    (("delivery", 0, BOB), 1),
    (("no-mailbox", 0, BOB), 1),
    (("mailbox-full", 0, CARL), 1),
    (("virus", 1, BOB), 0),
    (("virus-found", 0, BOB), 1),
];

#[test]
fn a_genuine_letter_says_what_it_certifies(rt: HostRuntime) {
    for (saved, kind) in &GENUINE {
        assert!(rt;
            is_genuine(rt.alloc(), saved, *kind),
            "{} {}",
            saved.0,
            saved.1
        );
    }
}

#[test]
fn another_provider_had_to_seal_it(rt: HostRuntime) {
    for (saved, due) in &WRONG {
        assert!(rt; is_due(rt.alloc(), saved, *due), "{} {}", saved.0, saved.1);
    }
}

fn is_due(alloc: Global, saved: &Saved, due: u32) -> bool {
    match House::new(alloc) {
        Some(house) => {
            house.check_letter(alloc, saved).err() == Some(CheckFault::WrongProvider(due))
        }
        None => false,
    }
}

fn is_genuine(alloc: Global, saved: &Saved, kind: SavedKind) -> bool {
    match House::new(alloc) {
        Some(house) => is_genuine_at(alloc, &house, saved, kind),
        None => false,
    }
}

fn is_genuine_at(alloc: Global, house: &House, saved: &Saved, kind: SavedKind) -> bool {
    let letter = letter_of(alloc, saved);
    match house.check_sealed(alloc, saved.1, letter.as_str()) {
        Ok(report) => says(&report, saved, kind) && has_certificate(&report, letter.as_str()),
        Err(_) => false,
    }
}

/// Whether a report is of this letter and of the message.
fn says(report: &Report, saved: &Saved, kind: SavedKind) -> bool {
    let message = MsgId {
        provider: 0,
        number: 1_234,
    };
    report.kind == kind
        && report.id == message
        && report.by == saved.1
        && report.moment.seconds() == 1_704_186_060
        && names(&report.recipient, saved.2)
}

fn names(recipient: &Option<Address>, wanted: &str) -> bool {
    match recipient {
        Some(address) => address.bytes() == wanted.as_bytes(),
        None => wanted.is_empty(),
    }
}

fn has_certificate(report: &Report, letter: &str) -> bool {
    let wanted = certified(letter);
    match &report.cert {
        Some(text) => text.bytes() == wanted.as_bytes(),
        None => wanted.is_empty(),
    }
}
