//! A message within alfa to its end, where each call of alfa's disk fails in turn. It starts again then, in the same
//! run or in another one over its disk.

use crate::running::{Ran, System, depot_failing, joined, played};
use pec_outside::{Depot, MemDepot};
use pec_top::Status;
use pec_trial::alfa;

/// From alice to anna, to its end.
pub(crate) const FIRST: &str = "submit alfa 1704186000 alice@alfa.example anna@alfa.example {M1}\n\
round 1704186001\nround 1704186002\nround 1704186003\nround 1704186004\nround 1704186005\n\
book alice@alfa.example\nmailbox alice@alfa.example\nmailbox anna@alfa.example\n";

pub(crate) const AGAIN: &str = "restart alfa\n\
round 1704186006\nround 1704186007\nround 1704186008\nround 1704186009\nround 1704186010\nround 1704186011\n\
round 1704186012\nround 1704186013\nmailbox alice@alfa.example\nmailbox anna@alfa.example\n";

pub(crate) const DELIVERED: &[u8] = b"0 acceptance pec.0000000@alfa.example -\n\
1 delivery pec.0000000@alfa.example anna@alfa.example\nmailbox 2\n\
0 envelope pec.0000000@alfa.example -\nmailbox 1\n";

/// Where the message isn't in the journal.
const NOTHING: &[u8] = b"fault disk\n\
alfa down\nround\nalfa down\nround\nalfa down\nround\nalfa down\nround\nalfa down\nround\ndown\ndown\ndown\n\
restarted 1\nround\nround\nround\nround\nround\nround\nround\nround\nmailbox 0\nmailbox 0\n";

/// The same of the lines behind the first ones, in a run of their own.
const NOTHING_RESUMED: &[u8] =
    b"up\nround\nround\nround\nround\nround\nround\nround\nround\nmailbox 0\nmailbox 0\n";

/// Alfa's journal has seven entries then. It is made by three calls of its disk, and an entry is appended by four; an
/// entry is read for each of eight letters that are put, and for what screens look at.
const CALLS: u64 = 40;

/// It is opened by a sync, its size, its header, eight gates and seven entries.
const OPENING_CALLS: u64 = 18;

#[test]
fn each_call_of_a_disk_fails(rt: HostRuntime) {
    assert_eq!(rt; calls_made(&rt), Some((CALLS, OPENING_CALLS)));
    assert_eq!(rt; first_wrong(&rt), None);
}

/// How many calls the first lines make of alfa's disk where none fails, and how many a run that opens its journal.
fn calls_made(rt: &impl System) -> Option<(u64, u64)> {
    let mut depot = depot_failing(rt.alloc(), &[]);
    let first = calls_behind(rt, &mut depot, "run", FIRST)?;
    let both = calls_behind(rt, &mut depot, "resume", "")?;
    Some((first, both.saturating_sub(first)))
}

/// How many calls alfa's disk had behind a run that came to its end.
pub(crate) fn calls_behind(
    rt: &impl System,
    depot: &mut MemDepot,
    form: &str,
    script: &str,
) -> Option<u64> {
    if played(rt, depot, alfa(), form, script).status != Status::Done {
        return None;
    }
    let disk = depot.disk(0).ok()?;
    let calls = disk.calls();
    depot.keep(0, disk);
    Some(calls as u64)
}

/// The first call whose failure isn't borne.
fn first_wrong(rt: &impl System) -> Option<u64> {
    for call in 0..CALLS + OPENING_CALLS {
        if !is_borne(rt, call) {
            return Some(call);
        }
    }
    None
}

fn is_borne(rt: &impl System, call: u64) -> bool {
    if call < CALLS {
        comes_to_its_end(rt, call) && comes_in_two_runs(rt, call)
    } else {
        is_opened_again(rt, call)
    }
}

/// Whether all lines come as they must in one run.
fn comes_to_its_end(rt: &impl System, call: u64) -> bool {
    let mut depot = depot_failing(rt.alloc(), &[(0, call)]);
    let script = joined(rt.alloc(), &[FIRST, AGAIN]);
    is_as_it_must(
        &played(rt, &mut depot, alfa(), "run", script.as_str()),
        call,
        NOTHING,
    )
}

/// Whether the lines behind the first ones come so in a run of their own. Where no journal is made there is none.
fn comes_in_two_runs(rt: &impl System, call: u64) -> bool {
    let mut depot = depot_failing(rt.alloc(), &[(0, call)]);
    let first = played(rt, &mut depot, alfa(), "run", FIRST);
    if first.status == Status::StartFault {
        return first.text.is_empty() && call < 7;
    }
    is_as_it_must(
        &played(rt, &mut depot, alfa(), "resume", AGAIN),
        call,
        NOTHING_RESUMED,
    )
}

fn is_as_it_must(ran: &Ran, call: u64, nothing: &[u8]) -> bool {
    match call {
        // the journal is made, and gets its first entry
        0..7 => ran.is(b"", Status::StartFault),
        // the submission, but for the sync that opens its gate
        7..10 => ran.is(nothing, Status::Done),
        _ => ran.ends(DELIVERED, Status::Done),
    }
}

/// Whether a run that can't open the journal writes nothing, and the next one has what was there.
fn is_opened_again(rt: &impl System, call: u64) -> bool {
    let mut depot = depot_failing(rt.alloc(), &[(0, call)]);
    let first = played(rt, &mut depot, alfa(), "run", FIRST);
    let failed = played(rt, &mut depot, alfa(), "resume", AGAIN);
    let again = played(rt, &mut depot, alfa(), "resume", AGAIN);
    first.ends(DELIVERED, Status::Done)
        && failed.is(b"", Status::StartFault)
        && again.ends(DELIVERED, Status::Done)
}
