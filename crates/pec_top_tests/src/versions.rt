//! Journals of version 1, which a Start begins, and how they are raised. All outputs were worked out by hand.

use crate::running::{System, depot_failing, played};
use pec_outside::{Depot, MemDepot};
use pec_top::Status;
use pec_trial::{journal_of, two};
use std::test::Fail;

/// What alfa's and beta's journals hold as tests write them; and scripts that are resumed on them, one behind another,
/// each with what it has to write.
#[derive(Clone, Copy)]
struct Case {
    why: &'static str,
    alfa: &'static str,
    beta: &'static str,
    runs: &'static [(&'static str, &'static str)],
}

const HANDED_IN: &str = "start 0\naccepted 1704186000 alice@alfa.example to-anna";

static CASES: [Case; 1] = [Case {
    why: "a journal is raised, and an item is archived then; a crash takes neither away",
    alfa: HANDED_IN,
    beta: "start-two 1",
    runs: &[(
        "archive alice@alfa.example 1704186000 0\nupgrade alfa 1704186000\n\
             archive alice@alfa.example 1704186000 0\ncrash alfa\nrestart alfa\n\
             mailbox alice@alfa.example\nvault alice@alfa.example\nupgrade alfa 1704186000\n",
        "old-journal\nupgraded\narchived\ncrashed\nrestarted 4\n\
             mailbox 0\n0 acceptance I0 -\nvault 1\nno-need\n",
    )],
}];

/// The tables, by functions without a clause: the proofs of the tests are spared their texts.
fn cases() -> &'static [Case] {
    &CASES
}

#[test]
fn journals_of_both_versions_are_resumed(rt: HostRuntime) -> Result<(), Fail> {
    assert_eq!(rt; first_wrong(&rt)?, None);
    Ok(())
}

/// What the first case is about that doesn't come as it says.
fn first_wrong(rt: &impl System) -> Result<Option<&'static str>, Fail> {
    for case in cases() {
        if !comes(rt, case)? {
            return Ok(Some(case.why));
        }
    }
    Ok(None)
}

fn comes(rt: &impl System, case: &Case) -> Result<bool, Fail> {
    let mut depot = depot_of(rt, case.alfa, case.beta)?;
    let mut right = true;
    for (script, output) in case.runs {
        let ran = played(rt, &mut depot, two(), "resume", script);
        right = ran.writes(rt.alloc(), output, Status::Done) && right;
    }
    Ok(right)
}

/// Disks with these journals.
fn depot_of(rt: &impl System, alfa: &str, beta: &str) -> Result<MemDepot, Fail> {
    let mut depot = depot_failing(rt.alloc(), &[]);
    depot.keep(0, journal_of(rt.alloc(), alfa)?);
    depot.keep(1, journal_of(rt.alloc(), beta)?);
    Ok(depot)
}
