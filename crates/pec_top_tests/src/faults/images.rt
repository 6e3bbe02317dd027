//! A message from alfa to beta, where the program stops within each command: every pair of images of both disks is
//! resumed.

use crate::running::{System, depot_failing, joined, played};
use pec_outside::{Depot, Disk, MemDisk};
use pec_top::Status;
use pec_trial::two;

/// The commands, one by one.
const COMMANDS: [&str; 7] = [
    "submit alfa 1704186000 alice@alfa.example bob@beta.example {M2}\n",
    "round 1704186001\n",
    "round 1704186002\n",
    "round 1704186003\n",
    "round 1704186004\n",
    "round 1704186005\n",
    "round 1704186006\n",
];

const RESUMED: &str =
    "round 1704186007\nround 1704186008\nround 1704186009\nround 1704186010\nround 1704186011\n\
round 1704186012\nround 1704186013\nround 1704186014\nmailbox alice@alfa.example\n";

const DELIVERED: &[u8] = b"round\n0 acceptance pec.0000000@alfa.example -\n\
1 delivery pec.0000000@alfa.example bob@beta.example\nmailbox 2\n";

const NOTHING: &[u8] = b"round\nmailbox 0\n";

/// Where the gate behind alfa's first entry stands: the header of 8 bytes, that entry's own gate, its length, and its
/// 37 bytes. It is open, 1, where Accepted follows.
const GATE: u64 = 50;

/// Both disks behind a command.
struct Disks {
    alfa: MemDisk,
    beta: MemDisk,
}

impl Drop for Disks {
    fn drop(self) {
        let Disks { alfa: _, beta: _ } = self;
    }
}

/// How many pairs of images were resumed, over all commands: two for each number of calls of alfa's disk within the
/// command, with two for each of beta's. An entry is appended by four calls, and a letter that is put takes one that
/// reads. The submission is an entry of alfa. In the first round alfa puts a letter; in the second too, and beta has
/// two entries, reads the first of them for its screens, and puts two; in the third alfa has two entries and puts one,
/// and beta puts two; in the fourth alfa puts one, and beta has an entry.
const PAIRS: u64 = 292;

#[test]
fn every_image_within_a_command_is_resumed(rt: HostRuntime) {
    assert_eq!(rt; pairs_of_all(&rt), Some(PAIRS));
}

fn pairs_of_all(rt: &impl System) -> Option<u64> {
    let mut pairs = 0u64;
    for command in 1..8 {
        pairs = pairs.saturating_add(pairs_within(rt, command)?);
    }
    Some(pairs)
}

/// How many pairs of images there are within a command; none where one of them isn't resumed as it must.
fn pairs_within(rt: &impl System, command: usize) -> Option<u64> {
    let before = behind(rt, command.saturating_sub(1))?;
    let disks = behind(rt, command)?;
    let mut pairs = 0u64;
    for calls in before.alfa.calls()..disks.alfa.calls().saturating_add(1) {
        for kept in 0..2 {
            let more = pairs_with(rt, &disks, calls, kept, before.beta.calls())?;
            pairs = pairs.saturating_add(more);
        }
    }
    Some(pairs)
}

/// The disks behind so many commands.
fn behind(rt: &impl System, commands: usize) -> Option<Disks> {
    let mut depot = depot_failing(rt.alloc(), &[]);
    let script = joined(rt.alloc(), COMMANDS.get(..commands)?);
    played(rt, &mut depot, two(), "run", script.as_str());
    Some(Disks {
        alfa: depot.disk(0).ok()?,
        beta: depot.disk(1).ok()?,
    })
}

/// How many pairs one image of alfa's disk has with those of beta's from a number of calls on.
fn pairs_with(
    rt: &impl System,
    disks: &Disks,
    calls: usize,
    kept: u64,
    from: usize,
) -> Option<u64> {
    let mut pairs = 0u64;
    for others in from..disks.beta.calls().saturating_add(1) {
        for others_kept in 0..2 {
            let alfa = image_of(&disks.alfa, calls, kept)?;
            let beta = image_of(&disks.beta, others, others_kept)?;
            if !is_resumed(rt, alfa, beta) {
                return None;
            }
            pairs = pairs.saturating_add(1);
        }
    }
    Some(pairs)
}

fn image_of(disk: &MemDisk, calls: usize, kept: u64) -> Option<MemDisk> {
    if disk.calls() < calls {
        return None;
    }
    disk.image(calls, kept).ok()
}

/// Whether the message is delivered once where alfa has accepted it, and otherwise not at all.
fn is_resumed(rt: &impl System, mut alfa: MemDisk, beta: MemDisk) -> bool {
    let mailbox = if has_accepted(&mut alfa) {
        DELIVERED
    } else {
        NOTHING
    };
    let mut depot = depot_failing(rt.alloc(), &[]);
    depot.keep(0, alfa);
    depot.keep(1, beta);
    played(rt, &mut depot, two(), "resume", RESUMED).ends(mailbox, Status::Done)
}

fn has_accepted(alfa: &mut MemDisk) -> bool {
    let mut gate = [0u8];
    alfa.read_at(GATE, &mut gate) == Ok(1) && gate == [1u8]
}
