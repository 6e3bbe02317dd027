//! Networks that begin on empty disks or over journals, and those that don't: depots that fail at each place, journals
//! that are missing, and journals of others.

use crate::cases::{depot_failing, wrong_line};
use crate::digests::digest_of;
use crate::net::{Outcome, begun, played};
use pec_network::{Form, Network, NotFit, StartFault};
use pec_outside::{Depot, MemDepot, MemDisk};
use pec_screen::PatternScreen;
use pec_seal::HmacSealer;
use pec_trial::{journal_of, two};
use std::alloc::Global;
use std::test::Fail;
use std::thread::Threads;

/// What lies on the disks of a depot, which disk is out, which calls fail, and what the beginning comes to. The entries
/// of a journal stand in a line each; `-` is an empty disk.
#[derive(Clone, Copy)]
struct Start {
    why: &'static str,
    form: Form,
    first: &'static str,
    second: &'static str,
    out: Option<u32>,
    failing: &'static [(u32, u64)],
    fault: Option<StartFault>,
}

static MAKING: [Start; 3] = [
    Start {
        why: "journals are made on empty disks",
        form: Form::Make,
        first: "-",
        second: "-",
        out: None,
        failing: &[],
        fault: None,
    },
    Start {
        why: "and not on one that holds a journal",
        form: Form::Make,
        first: "start 0",
        second: "-",
        out: None,
        failing: &[],
        fault: Some(StartFault::NotEmpty(0)),
    },
    Start {
        why: "nor on the second",
        form: Form::Make,
        first: "-",
        second: "start 1",
        out: None,
        failing: &[],
        fault: Some(StartFault::NotEmpty(1)),
    },
];

static OPENING: [Start; 6] = [
    Start {
        why: "journals are opened",
        form: Form::Open,
        first: "start 0\naccepted 5 alice@alfa.example to-bob\nticked 6",
        second: "start 1\nticked 7",
        out: None,
        failing: &[],
        fault: None,
    },
    Start {
        why: "an empty disk isn't opened",
        form: Form::Open,
        first: "-",
        second: "-",
        out: None,
        failing: &[],
        fault: Some(StartFault::NotFit(0, NotFit::Journal(0))),
    },
    Start {
        why: "nor is the second",
        form: Form::Open,
        first: "start 0",
        second: "-",
        out: None,
        failing: &[],
        fault: Some(StartFault::NotFit(1, NotFit::Journal(0))),
    },
    Start {
        why: "nor are journals that were exchanged",
        form: Form::Open,
        first: "start 1",
        second: "start 0",
        out: None,
        failing: &[],
        fault: Some(StartFault::NotFit(0, NotFit::BadEntry(0))),
    },
    Start {
        why: "nor is one with a step too many",
        form: Form::Open,
        first: "start 0\nticked 5",
        second: "start 1\nticked 5\nticked 4",
        out: None,
        failing: &[],
        fault: Some(StartFault::NotFit(1, NotFit::BadEntry(2))),
    },
    Start {
        why: "nor is one with bytes that are no entry",
        form: Form::Open,
        first: "start 0\njunk",
        second: "-",
        out: None,
        failing: &[],
        fault: Some(StartFault::NotFit(0, NotFit::BadEntry(1))),
    },
];

static OUT: [Start; 5] = [
    Start {
        why: "a depot that doesn't hand out the first disk is told",
        form: Form::Make,
        first: "-",
        second: "-",
        out: Some(0),
        failing: &[],
        fault: Some(StartFault::DiskFault(0)),
    },
    Start {
        why: "and the second",
        form: Form::Make,
        first: "-",
        second: "-",
        out: Some(1),
        failing: &[],
        fault: Some(StartFault::DiskFault(1)),
    },
    Start {
        why: "where journals are opened, too",
        form: Form::Open,
        first: "start 0",
        second: "start 1",
        out: Some(1),
        failing: &[],
        fault: Some(StartFault::DiskFault(1)),
    },
    Start {
        why: "the first disk that comes to nothing is told",
        form: Form::Open,
        first: "-",
        second: "start 1",
        out: Some(1),
        failing: &[],
        fault: Some(StartFault::NotFit(0, NotFit::Journal(0))),
    },
    Start {
        why: "and no other is asked for",
        form: Form::Make,
        first: "start 0",
        second: "-",
        out: None,
        failing: &[(1, 0)],
        fault: Some(StartFault::NotEmpty(0)),
    },
];

/// The tables, by functions without a clause: the proof of the test is spared their texts.
fn making() -> &'static [Start] {
    &MAKING
}

fn opening() -> &'static [Start] {
    &OPENING
}

fn out() -> &'static [Start] {
    &OUT
}

/// What a beginning comes to, and how many disks the depot has at home behind it.
#[derive(Clone, Copy, PartialEq, Eq)]
struct Beginning {
    fault: Option<StartFault>,
    at_home: u32,
}

#[test]
fn a_network_begins_or_tells_which_disk_came_to_nothing(rt: HostRuntime) -> Result<(), Fail> {
    for starts in [making(), opening(), out()] {
        let wrong = first_wrong_start(rt.alloc(), starts)?;
        assert_eq!(rt; wrong, None);
    }
    Ok(())
}

/// What the first beginning is about that doesn't come as it says.
fn first_wrong_start(alloc: Global, starts: &[Start]) -> Result<Option<&'static str>, Fail> {
    for start in starts {
        if !is_right(alloc, start)? {
            return Ok(Some(start.why));
        }
    }
    Ok(None)
}

fn is_right(alloc: Global, start: &Start) -> Result<bool, Fail> {
    let depot = laid(alloc, start)?;
    let wanted = Beginning {
        fault: start.fault,
        at_home: if start.out.is_some() { 1 } else { 2 },
    };
    Ok(begun_over(alloc, start.form, depot) == wanted)
}

/// A depot with the journals on its disks, and without the disk that is out.
fn laid(alloc: Global, start: &Start) -> Result<MemDepot, Fail> {
    let mut depot = depot_failing(alloc, start.failing, &[]);
    lay_at(alloc, &mut depot, 0, start.first)?;
    lay_at(alloc, &mut depot, 1, start.second)?;
    if let Some(provider) = start.out {
        let _ = depot.disk(provider.min(1));
    }
    Ok(depot)
}

/// Puts a journal on a provider's disk.
fn lay_at(alloc: Global, depot: &mut MemDepot, provider: u32, entries: &str) -> Result<(), Fail> {
    if entries != "-" {
        let disk = journal_of(alloc, entries)?;
        depot.keep(provider.min(1), disk);
    }
    Ok(())
}

/// Begins a network over a depot, and ends it.
fn begun_over(alloc: Global, form: Form, mut depot: MemDepot) -> Beginning {
    let fault = ended(begun(alloc, form, &mut depot), &mut depot);
    Beginning {
        fault,
        at_home: at_home(&mut depot),
    }
}

/// Ends a network that began; or why it didn't.
fn ended(
    begun: Result<Network<MemDisk, HmacSealer, PatternScreen>, StartFault>,
    depot: &mut MemDepot,
) -> Option<StartFault> {
    match begun {
        Ok(network) => {
            network.close(depot);
            None
        }
        Err(fault) => Some(fault),
    }
}

/// How many of the two disks the depot hands out.
fn at_home(depot: &mut MemDepot) -> u32 {
    let mut count = 0;
    for provider in 0..2u32 {
        if depot.disk(provider).is_ok() {
            count = if count == 0 { 1 } else { 2 };
        }
    }
    count
}

/// A journal is made by three calls of its disk, and its Start is appended by four.
#[test]
fn a_disk_that_fails_at_any_call_of_the_beginning_is_told(rt: HostRuntime) {
    for provider in 0..2u32 {
        for call in 0..7u64 {
            assert!(rt; is_told(rt.alloc(), provider, call));
        }
    }
}

/// Whether a beginning over empty disks is told where a call of a provider's disk fails.
fn is_told(alloc: Global, provider: u32, call: u64) -> bool {
    let depot = depot_failing(alloc, &[(provider, call)], &[]);
    let wanted = Beginning {
        fault: Some(StartFault::DiskFault(provider)),
        at_home: 2,
    };
    begun_over(alloc, Form::Make, depot) == wanted
}

/// A network that ends and is resumed over its disks has what it had.
#[test]
fn a_network_is_resumed_with_what_it_had(rt: HostRuntime) -> Result<(), Fail> {
    let wrong = wrong_behind(&rt, rt.alloc())?;
    assert!(rt; wrong.is_none(), "{wrong:?}");
    Ok(())
}

/// The first calls of each disk, by its provider, behind its entries and the read for the letter that was put.
static FIRST_CALLS: [(u32, u64); 2] = [(0, 12), (1, 7)];

#[test]
fn a_disk_that_fails_as_its_journal_is_opened_is_told(rt: HostRuntime) -> Result<(), Fail> {
    for (provider, call) in &FIRST_CALLS {
        let fault = refused(&rt, rt.alloc(), (*provider, *call))?;
        assert!(rt; fault == Some(StartFault::DiskFault(*provider)));
    }
    Ok(())
}

/// The first wrong line of a script that is played in two networks, one over the disks of the other.
fn wrong_behind<X: Threads + Sync>(rt: &X, alloc: Global) -> Result<Option<String>, Fail> {
    let depot = depot_behind(rt, alloc, &[])?;
    wrong_line(played(rt, alloc, Form::Open, depot, BEHIND)?)
}

/// Why the network isn't resumed where a call of a disk fails.
fn refused<X: Threads + Sync>(
    rt: &X,
    alloc: Global,
    failing: (u32, u64),
) -> Result<Option<StartFault>, Fail> {
    let depot = depot_behind(rt, alloc, &[failing])?;
    Ok(begun_over(alloc, Form::Open, depot).fault)
}

/// The disks that a network leaves, of which these calls fail.
fn depot_behind<X: Threads + Sync>(
    rt: &X,
    alloc: Global,
    failing: &[(u32, u64)],
) -> Result<MemDepot, Fail> {
    let depot = depot_failing(alloc, failing, &[]);
    left(played(rt, alloc, Form::Make, depot, BEFORE)?)
}

/// The disks that a network leaves that began and answered each line as it says.
fn left(played: Outcome) -> Result<MemDepot, Fail> {
    let (fault, wrong, depot) = played.parts();
    if fault.is_some() || wrong.is_some() {
        Err("a wrong answer before the end".into())
    } else {
        Ok(depot)
    }
}

const BEFORE: &str = "
submit 0 1704186000 alice@alfa.example bob@beta.example to-bob -> accepted 0/0
round 1704186001 -> 0 sent 1 1, | 1
";

/// The frame that was on its way is gone, and is put again.
const BEHIND: &str = "
lose 0 1 0 -> no-frame
entries 0 -> 2
entries 1 -> 1
book alice@alfa.example -> 0/0 bob@beta.example primary 1704186000 - - - open, 1 rows
submit 0 1704185999 alice@alfa.example bob@beta.example to-bob -> clock-back 1704186000
round 1704186002 -> 0 sent 1 1, | 1
round 1704186003 -> 0 sent 1 1, | 1 took 0/0, decided 0/0 bob@beta.example delivered, sent 0 2,
";

/// A journal that was made with another directory is told by both digests.
#[test]
fn journals_of_another_directory_are_not_resumed(rt: HostRuntime) -> Result<(), Fail> {
    let fault = fault_of_another(rt.alloc())?;
    assert!(rt; is_of_another(rt.alloc(), fault));
    Ok(())
}

/// Whether a fault is that the second journal is of another directory, with both digests.
fn is_of_another(alloc: Global, fault: Option<StartFault>) -> bool {
    match digest_of(alloc, two()) {
        Some(given) => {
            let wanted = NotFit::OtherDirectory([7; 32], given);
            fault == Some(StartFault::NotFit(1, wanted))
        }
        None => false,
    }
}

/// Why journals aren't resumed of which the second was made with another directory.
fn fault_of_another(alloc: Global) -> Result<Option<StartFault>, Fail> {
    let mut depot = depot_failing(alloc, &[], &[]);
    lay_at(alloc, &mut depot, 0, "start 0")?;
    lay_at(alloc, &mut depot, 1, "start-of-another 1")?;
    Ok(begun_over(alloc, Form::Open, depot).fault)
}
