//! What the screens of the recipient's provider find, and screens that are replaced, over whole runs. All outputs were
//! worked out by hand.

use crate::running::{Given, Ran, System, depot_failing, input_of, ran_with_spares};
use crate::screens::{screen_of, screens_of};
use pec_outside::MemDepot;
use pec_screen::Screen;
use pec_top::Status;
use pec_trial::two;
use std::alloc::{AllocError, Global};

/// Which of the first two providers have a screen of the pattern, the patterns of the spares, of which the last is used
/// first, the script, and what it has to write.
type Row = (
    &'static [usize],
    &'static [&'static str],
    &'static str,
    &'static str,
);

const TO_BOB: &str = "submit alfa 1704186000 alice@alfa.example bob@beta.example \
     {From: alice@alfa.example|To: bob@beta.example|Subject: Ciao||PEC-VIRUS-DI-PROVA|}\n\
     round 1704186001\nround 1704186002\nround 1704186003\n\
     mailbox alice@alfa.example\nmailbox bob@beta.example\n";

const TO_BOB_TOLD: &str = "accepted I0\nalfa sent beta 1\nround\nalfa sent beta 1\nbeta took I0\n\
     beta decided I0 bob@beta.example virus\nbeta sent alfa 2\nround\n\
     alfa charged I0 beta\nalfa learned I0 bob@beta.example virus\nalfa sent beta 1\n\
     beta repeat envelope I0\nbeta sent alfa 2\nround\n\
     0 acceptance I0 -\n1 delivery-error I0 bob@beta.example\nmailbox 2\nmailbox 0\n";

static FOUND: [Row; 1] = [(&[1], &[], TO_BOB, TO_BOB_TOLD)];

const REPLACED: &str = "screen beta 1\nscreen beta 0\nscreen beta 0\n\
     submit alfa 1704186000 alice@alfa.example bob@beta.example \
     {From: alice@alfa.example|To: bob@beta.example|Subject: Ciao||PEC-VIRUS-DI-PROVA|}\n\
     round 1704186001\nround 1704186002\n";

const REPLACED_TOLD: &str =
    "no-screen\nscreened\nno-spare\naccepted I0\nalfa sent beta 1\nround\nalfa sent beta 1\n\
     beta took I0\nbeta decided I0 bob@beta.example delivered\nbeta sent alfa 2\nround\n";

static SWAPPED: [Row; 1] = [(&[1], &["zzz"], REPLACED, REPLACED_TOLD)];

/// The tables, by functions without a clause: the proofs of the tests are spared their texts.
fn found() -> &'static [Row] {
    &FOUND
}

fn swapped() -> &'static [Row] {
    &SWAPPED
}

#[test]
fn the_recipients_provider_refuses_what_its_screens_find(rt: HostRuntime) {
    assert_eq!(rt; first_wrong(&rt, found()), None);
}

#[test]
fn the_last_spare_takes_the_place_of_a_screen(rt: HostRuntime) {
    assert_eq!(rt; first_wrong(&rt, swapped()), None);
}

/// The place of the first row that doesn't come as it says.
fn first_wrong(rt: &impl System, rows: &[Row]) -> Option<usize> {
    for (place, row) in rows.iter().enumerate() {
        if !screened(rt, row.0, row.1, row.2).writes(rt.alloc(), row.3, Status::Done) {
            return Some(place);
        }
    }
    None
}

/// Runs a script over empty disks, where the named providers of two have one screen of the pattern.
fn screened(rt: &impl System, named: &[usize], spares: &[&str], script: &str) -> Ran {
    let mut depot = depot_failing(rt.alloc(), &[]);
    screened_over(rt, &mut depot, named, spares, ("run", script))
}

/// The same over these disks, in a form.
fn screened_over(
    rt: &impl System,
    depot: &mut MemDepot,
    named: &[usize],
    spares: &[&str],
    form: (&str, &str),
) -> Ran {
    let alloc = rt.alloc();
    let input = input_of(alloc, two(), form.1);
    let screens = screens_of(alloc, named, 2);
    let spares = spares_of(alloc, spares).unwrap_or(Vec::new(alloc));
    ran_with_spares(rt, depot, &Given::of(&[form.0], &input), screens, spares)
}

/// Spares of one pattern each.
fn spares_of(alloc: Global, patterns: &[&str]) -> Result<Vec<Box<dyn Screen>>, AllocError> {
    let mut spares: Vec<Box<dyn Screen>> = Vec::new(alloc);
    for pattern in patterns {
        spares.push(Box::new(alloc, screen_of(alloc, pattern.as_bytes())?)?)?;
    }
    Ok(spares)
}
