//! What genuine letters prove together.

use crate::houses::House;
use crate::letters::Saved;
use pec_check::{Dossier, Finding};
use pec_types::{Decision, Refusal};
use std::alloc::Global;

const BOB: &str = "bob@beta.example";

const CARL: &str = "carl@beta.example";

const DELIVERED: Option<Decision> = Some(Decision::Placed);

const VIRUS: Option<Decision> = Some(Decision::Refused(Refusal::Virus));

const FULL: Option<Decision> = Some(Decision::Refused(Refusal::MailboxFull));

/// Genuine letters, and the findings: recipients, and what is found of each.
type Case = (
    &'static [Saved],
    &'static [(&'static str, Option<Decision>)],
);

static CASES: [Case; 8] = [
    (&[], &[]),
    // what tells no decision
    (
        &[
            ("envelope", 0, ""),
            ("acceptance", 0, ""),
            ("charge", 1, ""),
            ("warning", 0, BOB),
            ("acknowledgement", 0, BOB),
        ],
        &[],
    ),
    // the same twice, and another recipient
    (
        &[
            ("mailbox-full", 1, CARL),
            ("delivery", 1, BOB),
            ("mailbox-full", 1, CARL),
            ("delivery", 1, BOB),
        ],
        &[(CARL, FULL), (BOB, DELIVERED)],
    ),
    // two that contradict each other
    (
        &[("delivery", 1, BOB), ("mailbox-full", 1, BOB)],
        &[(BOB, None)],
    ),
    // which a third doesn't settle
    (
        &[
            ("delivery", 1, BOB),
            ("mailbox-full", 1, BOB),
            ("delivery", 1, BOB),
        ],
        &[(BOB, None)],
    ),
    // two refusals that aren't the same one
    (
        &[
            ("delivery", 1, CARL),
            ("no-mailbox", 1, BOB),
            ("virus", 0, BOB),
        ],
        &[(CARL, DELIVERED), (BOB, None)],
    ),
    // a virus, as the recipient's provider and then the message's tell it
    (
        &[("virus-found", 1, BOB), ("virus", 0, BOB)],
        &[(BOB, VIRUS)],
    ),
    // and a delivery beside it
    (
        &[("virus-found", 1, CARL), ("delivery", 1, CARL)],
        &[(CARL, None)],
    ),
];

#[test]
fn letters_prove_what_all_of_them_tell(rt: HostRuntime) {
    for (place, (saved, wanted)) in CASES.iter().enumerate() {
        assert!(rt; finds(rt.alloc(), saved, wanted), "case {place}");
    }
}

fn finds(alloc: Global, saved: &[Saved], wanted: &[(&str, Option<Decision>)]) -> bool {
    match House::new(alloc) {
        Some(house) => finds_at(alloc, &house, saved, wanted),
        None => false,
    }
}

fn finds_at(
    alloc: Global,
    house: &House,
    saved: &[Saved],
    wanted: &[(&str, Option<Decision>)],
) -> bool {
    let mut dossier = Dossier::new(alloc);
    are_added(alloc, house, &mut dossier, saved) && has_lines(&dossier, wanted)
}

/// Adds what letters say. Whether all of them are genuine.
fn are_added(alloc: Global, house: &House, dossier: &mut Dossier, saved: &[Saved]) -> bool {
    for one in saved {
        if !is_added(alloc, house, dossier, one) {
            return false;
        }
    }
    true
}

fn is_added(alloc: Global, house: &House, dossier: &mut Dossier, saved: &Saved) -> bool {
    match house.check_letter(alloc, saved) {
        Ok(report) => dossier.add(&report).is_ok(),
        Err(_) => false,
    }
}

fn has_lines(dossier: &Dossier, wanted: &[(&str, Option<Decision>)]) -> bool {
    match dossier.lines() {
        Ok(lines) => are_found(&lines, wanted),
        Err(_) => false,
    }
}

fn are_found(lines: &[Finding], wanted: &[(&str, Option<Decision>)]) -> bool {
    if lines.len() != wanted.len() {
        return false;
    }
    for (line, (recipient, decision)) in lines.iter().zip(wanted) {
        if line.recipient.bytes() != recipient.as_bytes() || line.decision != *decision {
            return false;
        }
    }
    true
}
