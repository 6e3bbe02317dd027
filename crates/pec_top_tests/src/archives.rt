//! Items that are moved to archives. All outputs were worked out by hand.

use crate::directories::Directory;
use crate::running::{Case, Run, System, depot_failing, first_wrong, joined, played};
use pec_outside::{Depot, MemDepot, MemDisk};
use pec_top::Status;
use pec_trial::alfa;

static FIRST: [Case; 1] = [Case {
    why: "an item that is archived makes room",
    directory: Directory::Two,
    failing: &[],
    runs: &[Run {
        form: "run",
        script: "submit alfa 1704186000 alice@alfa.example carl@beta.example {M3}\n\
                     round 1704186001\nround 1704186002\n\
                     archive carl@beta.example 1704186002 0\nmailbox carl@beta.example\nvault carl@beta.example\n\
                     submit alfa 1704186002 alice@alfa.example carl@beta.example {M3}\n\
                     round 1704186003\nround 1704186004\n\
                     archive carl@beta.example 1704186004 1\nupgrade beta 1704186004\n",
        output: "accepted I0\nalfa sent beta 1\nround\nalfa sent beta 1\nbeta took I0\n\
                     beta decided I0 carl@beta.example delivered\nbeta sent alfa 2\nround\n\
                     archived\nmailbox 0\n0 envelope I0 -\nvault 1\naccepted I1\n\
                     alfa charged I0 beta\nalfa learned I0 carl@beta.example delivered\nalfa sent beta 2\n\
                     beta repeat envelope I0\nbeta sent alfa 2\nround\n\
                     alfa repeat charge I0\nalfa repeat outcome I0 carl@beta.example\nalfa sent beta 2\n\
                     beta acked I0 carl@beta.example\nbeta took I1\n\
                     beta decided I1 carl@beta.example delivered\nbeta sent alfa 2\nround\nno-item\nno-need\n",
        status: Status::Done,
    }],
}];

/// The table, by a function without a clause: the proof of the test is spared its texts.
fn first() -> &'static [Case] {
    &FIRST
}

#[test]
fn items_are_moved_to_archives(rt: HostRuntime) {
    assert_eq!(rt; first_wrong(&rt, first()), None);
}

// ---- a crash between the command and its answer

const HANDED_IN: &str = "submit alfa 1704186000 alice@alfa.example anna@alfa.example {M1}\n";

const MOVED: &str = "archive alice@alfa.example 1704186001 0\n";

const LOOKS: &str = "mailbox alice@alfa.example\nvault alice@alfa.example\n";

const STAYED: &[u8] = b"0 acceptance pec.0000000@alfa.example -\nmailbox 1\nvault 0\n";

const WENT: &[u8] = b"mailbox 0\n0 acceptance pec.0000000@alfa.example -\nvault 1\n";

/// How many images there are within the command, two for each number of its calls, in how many of them the item stayed,
/// and in how many it went. The gate opens with the third call, whose bytes the crash may keep, and the fourth makes
/// them stay.
const IMAGES: (u64, u64, u64) = (10, 7, 3);

#[test]
fn an_item_is_in_one_box_in_every_image(rt: HostRuntime) {
    assert_eq!(rt; images_within(&rt), Some(IMAGES));
}

fn images_within(rt: &impl System) -> Option<(u64, u64, u64)> {
    let before = disk_behind(rt, HANDED_IN)?;
    let behind = disk_behind(rt, joined(rt.alloc(), &[HANDED_IN, MOVED]).as_str())?;
    let mut counts = (0u64, 0u64, 0u64);
    for calls in before.calls()..behind.calls().saturating_add(1) {
        for kept in 0..2 {
            counts = counted_with(rt, counts, image_of(&behind, calls, kept)?)?;
        }
    }
    Some(counts)
}

/// Alfa's disk behind a script.
fn disk_behind(rt: &impl System, script: &str) -> Option<MemDisk> {
    let mut depot = depot_failing(rt.alloc(), &[]);
    played(rt, &mut depot, alfa(), "run", script);
    depot.disk(0).ok()
}

fn image_of(disk: &MemDisk, calls: usize, kept: u64) -> Option<MemDisk> {
    if disk.calls() < calls {
        return None;
    }
    disk.image(calls, kept).ok()
}

/// The counts with one image more; none where the item is in no box or in both.
fn counted_with(
    rt: &impl System,
    counts: (u64, u64, u64),
    image: MemDisk,
) -> Option<(u64, u64, u64)> {
    let mut depot: MemDepot = depot_failing(rt.alloc(), &[]);
    depot.keep(0, image);
    let ran = played(rt, &mut depot, alfa(), "resume", LOOKS);
    let stayed = u64::from(ran.is(STAYED, Status::Done));
    let went = u64::from(ran.is(WENT, Status::Done));
    if stayed.saturating_add(went) != 1 {
        return None;
    }
    Some((
        counts.0.saturating_add(1),
        counts.1.saturating_add(stayed),
        counts.2.saturating_add(went),
    ))
}
