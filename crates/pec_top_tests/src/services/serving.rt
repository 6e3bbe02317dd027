//! Services on empty disks: what comes in, and what came of it.

use crate::running::{Given, Ran, System, bytes_of, depot_failing, numbers, ran_at};
use crate::screens::screens_of;
use pec_outside::MemDoor;
use pec_trial::alfa;
use std::alloc::Global;

/// A request, whose lines end at `|`, and the numbers of the reads and writes of its connection that fail.
pub(crate) type Meeting = (&'static str, &'static [u64]);

/// A service: what comes in, the calls of clock, door and output that fail, the word that says how many connections are
/// asked for, and whether alfa has a screen of the pattern of a virus.
#[derive(Clone, Copy)]
pub(crate) struct Service<'a> {
    pub(crate) meetings: &'a [Meeting],
    pub(crate) clock: &'a [u64],
    pub(crate) door: &'a [u64],
    pub(crate) output: &'a [u64],
    pub(crate) wanted: &'a str,
    pub(crate) screened: bool,
}

/// What came of a service: what it wrote with its status, and the door, which keeps the replies.
pub(crate) struct Came {
    pub(crate) ran: Ran,
    pub(crate) door: MemDoor,
}

impl Drop for Came {
    fn drop(self) {
        let Came { ran: _, door: _ } = self;
    }
}

/// Serves for the directory of alfa.
pub(crate) fn served(rt: &impl System, service: &Service<'_>) -> Came {
    let alloc = rt.alloc();
    let mut depot = depot_failing(alloc, &[]);
    let mut door = door_of(alloc, service);
    let words = ["serve", service.wanted];
    let given = Given {
        clock: service.clock,
        writes: service.output,
        ..Given::of(&words, alfa().as_bytes())
    };
    let screens = screens_of(alloc, with_a_screen(service.screened), 1);
    let ran = ran_at(rt, &mut depot, &mut door, &given, screens);
    Came { ran, door }
}

/// The providers that have a screen.
fn with_a_screen(is_screened: bool) -> &'static [usize] {
    if is_screened { &[0] } else { &[] }
}

fn door_of(alloc: Global, service: &Service<'_>) -> MemDoor {
    let mut requests = Vec::new(alloc);
    let mut broken = Vec::new(alloc);
    for (request, failing) in service.meetings {
        let _ = requests.push(bytes_of(alloc, request));
        let _ = broken.push(numbers(alloc, failing));
    }
    MemDoor::new(alloc, requests, numbers(alloc, service.door), broken)
}
