//! Messages that a provider doesn't accept for what its screens find, over whole runs. Worked out by hand.

use crate::items::{holds, last_item};
use crate::running::{Given, Ran, System, depot_failing, input_of, ran_under};
use pec_screen::{PatternScreen, Screen, Screens};
use pec_top::Status;
use pec_trial::two;
use pec_types::Text8;
use std::alloc::{AllocError, Global};

/// Which of the first two providers have a screen of the pattern, the others' lists being empty; how many lists are
/// handed in; the script, and what it has to write.
type Row = (&'static [usize], usize, &'static str, &'static str);

const FROM_ALICE: &str = "submit alfa 1704186000 alice@alfa.example bob@beta.example \
     {From: alice@alfa.example|To: bob@beta.example|Subject: Ciao||PEC-VIRUS-DI-PROVA|}\n";

const WITH_BCC: &str = "submit alfa 1704186000 alice@alfa.example bob@beta.example \
     {From: alice@alfa.example|To: bob@beta.example|Bcc: x||PEC-VIRUS-DI-PROVA|}\n";

static ROWS: [Row; 3] = [
    (&[0], 1, FROM_ALICE, "not-accepted I0 virus\n"),
    (&[], 0, FROM_ALICE, "accepted I0\n"), // no lists
    (&[0], 2, WITH_BCC, "not-accepted I0 bcc\n"),
];

/// The table, by a function without a clause: the proof of the test is spared its texts.
fn rows() -> &'static [Row] {
    &ROWS
}

#[test]
fn a_message_is_refused_by_the_screens_of_its_provider(rt: HostRuntime) {
    assert!(rt; are_right(&rt));
}

fn are_right(rt: &impl System) -> bool {
    let mut right = true;
    for row in rows() {
        right = is_right(rt, row) && right;
    }
    right
}

fn is_right(rt: &impl System, row: &Row) -> bool {
    screened(rt, row.0, row.1, row.2).writes(rt.alloc(), row.3, Status::Done)
}

#[test]
fn the_notice_says_that_a_virus_was_found(rt: HostRuntime) {
    assert!(rt; is_told(&rt));
}

const SHOWN: &str = "submit alfa 1704186000 alice@alfa.example bob@beta.example \
     {From: alice@alfa.example|To: bob@beta.example|Subject: Ciao||PEC-VIRUS-DI-PROVA|}\n\
     show alice@alfa.example 0\n";

fn is_told(rt: &impl System) -> bool {
    let alloc = rt.alloc();
    let ran = screened(rt, &[0], 1, SHOWN);
    let notice = last_item(alloc, &ran.text);
    holds(alloc, &notice, "|X-VerificaSicurezza: errore|", true)
}

/// Runs a script with so many lists of screens, where the named ones have one of the pattern.
fn screened(rt: &impl System, named: &[usize], lists: usize, script: &str) -> Ran {
    let alloc = rt.alloc();
    let input = input_of(alloc, two(), script);
    let mut depot = depot_failing(alloc, &[]);
    let screens = screens_of(alloc, named, lists);
    ran_under(rt, &mut depot, &Given::of(&["run"], &input), screens)
}

/// So many lists of screens, where the named ones have one of the pattern.
pub(crate) fn screens_of(alloc: Global, named: &[usize], lists: usize) -> Vec<Screens> {
    let mut screens = Vec::new(alloc);
    for place in 0..lists {
        if let Ok(list) = list(alloc, named.contains(&place)) {
            let _ = screens.push(list);
        }
    }
    screens
}

/// A list with one screen of the pattern, or with none.
fn list(alloc: Global, has_one: bool) -> Result<Screens, AllocError> {
    let mut boxes: Vec<Box<dyn Screen>> = Vec::new(alloc);
    if has_one {
        boxes.push(Box::new(alloc, screen_of(alloc, b"PEC-VIRUS-DI-PROVA")?)?)?;
    }
    Ok(Screens::new(boxes))
}

/// A screen of one pattern.
pub(crate) fn screen_of(alloc: Global, pattern: &[u8]) -> Result<PatternScreen, AllocError> {
    let pattern = Text8::of(Vec::from_slice(alloc, pattern)?);
    Ok(PatternScreen::new(vec![in alloc; pattern]?))
}
