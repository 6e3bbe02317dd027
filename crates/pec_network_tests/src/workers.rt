//! Turns of a round run side by side, and none of them sees a frame that another puts.

use crate::cases::{depot_failing, wrong_line};
use crate::net::{begun, played};
use pec_network::{Form, Gate, Network};
use pec_outside::MemDisk;
use pec_screen::PatternScreen;
use pec_seal::HmacSealer;
use pec_types::Moment;
use std::alloc::Global;
use std::sync::atomic::{AtomicBool, Ordering};
use std::test::Fail;
use std::thread;
use std::thread::Threads;

/// How often a worker looks for the other one.
const LOOKS: u32 = 10_000_000;

/// A gate at which the workers of the first two providers wait for each other, whichever comes first.
struct Meeting {
    first: AtomicBool,
    second: AtomicBool,
    missed: AtomicBool,
}

impl Drop for Meeting {
    fn drop(self) {
        let Meeting {
            first: _,
            second: _,
            missed: _,
        } = self;
    }
}

impl Gate for Meeting {
    fn pass(&self, worker: u32) {
        if worker == 0 {
            self.meet(&self.first, &self.second);
        } else {
            self.meet(&self.second, &self.first);
        }
    }
}

impl Meeting {
    fn new() -> Meeting {
        Meeting {
            first: AtomicBool::new(false),
            second: AtomicBool::new(false),
            missed: AtomicBool::new(false),
        }
    }

    /// Shows that one is here, and waits until the other one is.
    fn meet(&self, mine: &AtomicBool, other: &AtomicBool) {
        mine.store(true, Ordering::SeqCst);
        for _ in 0..LOOKS {
            if other.load(Ordering::SeqCst) {
                return;
            }
            thread::yield_now();
        }
        self.missed.store(true, Ordering::SeqCst);
    }

    /// Whether both were there at once.
    fn was_held(&self) -> bool {
        self.first.load(Ordering::SeqCst)
            && self.second.load(Ordering::SeqCst)
            && !self.missed.load(Ordering::SeqCst)
    }
}

/// A round over one thread has one worker at the gate at a time, and neither would ever see the other.
#[test]
fn workers_of_a_round_meet_at_the_gate(rt: HostRuntime) {
    let gate = Meeting::new();
    assert!(rt; meets(&rt, rt.alloc(), &gate));
    assert!(rt; gate.was_held());
}

/// Whether a round of two providers with nothing to do tells two turns.
fn meets<X: Threads + Sync, G: Gate + Sync>(rt: &X, alloc: Global, gate: &G) -> bool {
    let mut depot = depot_failing(alloc, &[], &[]);
    match begun(alloc, Form::Make, &mut depot) {
        Ok(mut network) => told(rt, alloc, &mut network, gate, 1_704_186_000) == Some(2),
        Err(_) => false,
    }
}

/// How many turns a round tells.
fn told<X: Threads + Sync, G: Gate + Sync>(
    rt: &X,
    alloc: Global,
    network: &mut Network<MemDisk, HmacSealer, PatternScreen>,
    gate: &G,
    seconds: u64,
) -> Option<usize> {
    let moment = Moment::new(seconds)?;
    let turns = network.round(rt, alloc, moment, gate).ok()?;
    Some(turns.len())
}

/// A frame is put only where there was room on its link as the round began, though the other worker takes all that
/// waited.
#[test]
fn a_put_waits_for_no_take(rt: HostRuntime) -> Result<(), Fail> {
    let wrong = wrong_on_a_full_link(&rt, rt.alloc())?;
    assert!(rt; wrong.is_none(), "{wrong:?}");
    Ok(())
}

fn wrong_on_a_full_link<X: Threads + Sync>(rt: &X, alloc: Global) -> Result<Option<String>, Fail> {
    let script = full_link(alloc)?;
    let depot = depot_failing(alloc, &[], &[]);
    wrong_line(played(rt, alloc, Form::Make, depot, script.as_str())?)
}

/// A script in which a letter is due on a link that is full, and all its frames are taken in the same round.
fn full_link(alloc: Global) -> Result<String, Fail> {
    let mut script = String::from_str(
        alloc,
        "
submit 0 1704186000 alice@alfa.example bob@beta.example to-bob -> accepted 0/0
inject 0 1 no-path 64 -> done
round 1704186001 -> 0 | 1",
    )?;
    for _ in 0..64u32 {
        script.push_str(" dropped,")?;
    }
    script.push_str("\nround 1704186002 -> 0 sent 1 1, | 1\n")?;
    Ok(script)
}
