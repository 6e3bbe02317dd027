ghost use Rattle.std.specs.Prelude.{◌≡◌, ℕ, ◌^◌, ◌<◌, ◌≤◌, length, slice_index_or};
ghost use Rattle.pec_directory.specs.Directory.{providers_of};
ghost use Rattle.pec_provider.specs.OfTrades.{Fits};
ghost use Rattle.pec_network.specs.Working.{IsReady, Worked};

use crate::gates::Gate;
use crate::turns::{Taken, take_turn};
use pec_directory::Directory;
use pec_outside::Disk;
use pec_provider::{House, Provider};
use pec_rows::{Putters, Takers};
use pec_screen::Judge;
use pec_seal::Sealer;
use pec_types::{Items, Moment, NoMemory, Turn};
use std::alloc::Global;
use std::thread;
use std::thread::Threads;

/// What one worker holds in a round: its provider and its screens, the ends that put of the links from it and how much
/// room they have, the ends that take of the links to it, and what is told of its turn, none where memory ran out.
pub(crate) struct Slot<D, J> {
    pub(crate) provider: Provider<D>,
    pub(crate) judge: J,
    pub(crate) putters: Putters,
    pub(crate) takers: Takers,
    pub(crate) rooms: Items<usize>,
    pub(crate) told: Option<Turn>,
}

/// At least as many workers as a directory has providers: each has a thread of its own, where one can be made.
const MOST: usize = 16;

/// The turns of providers, one beside another. Each worker passes the gate, and takes the frames alone that waited
/// before all began. Where memory runs out in one turn the others go on.
pub(crate) fn all_work<
    X: Threads + Sync,
    D: Disk + Send,
    S: Sealer + Sync,
    J: Judge + Send,
    G: Gate + Sync,
>(
    rt: &X,
    alloc: Global,
    directory: &Directory,
    sealer: &S,
    moment: Moment,
    slots: &mut [Slot<D, J>],
    gate: &G,
)
where
    J::Spare: Send,
    requires few { length slots.old ≤ length directory.now }
    requires fits { Fits (S.seals sealer.now) (providers_of directory.now) }
    requires ready { (me : ℕ) (slot : _) → me < length slots.old
        → IsReady directory.now (S.seals sealer.now) me (slice_index_or slots.old me slot) }
    ensures count { length slots.new ≡ length slots.old }
    ensures each { (me : ℕ) (slot : _) → me < length slots.old
        → Worked D.tells D.sight D.faults J.patterns J.seen directory.now (S.seals sealer.now) moment me
        (slice_index_or slots.old me slot) (slice_index_or slots.new me slot) }
{
    // (there are few providers)
    directory.count();
    thread::for_each_mut(
        rt,
        slots,
        MOST,
        &|number: usize, slot: &mut Slot<D, J>|
            requires { (number < 2 ^ 32) × Fits (S.seals sealer.now) (providers_of directory.now)
                × IsReady directory.now (S.seals sealer.now) number slot.old }
            ensures { Worked D.tells D.sight D.faults J.patterns J.seen directory.entry.now (S.seals sealer.entry.now)
                moment number slot.old slot.new }
        { pass_and_work(alloc, directory, sealer, moment, number as u32, slot, gate) },
    );
}

/// Passes the gate, and has the turn of one provider.
fn pass_and_work<D: Disk, S: Sealer, J: Judge, G: Gate>(
    alloc: Global,
    directory: &Directory,
    sealer: &S,
    moment: Moment,
    me: u32,
    slot: &mut Slot<D, J>,
    gate: &G,
)
    requires fits { Fits (S.seals sealer.now) (providers_of directory.now) }
    requires ready { IsReady directory.now (S.seals sealer.now) me slot.old }
    ensures { Worked D.tells D.sight D.faults J.patterns J.seen directory.now (S.seals sealer.now) moment me
        slot.old slot.new }
{
    gate.pass(me);
    let house = House {
        directory,
        sealer,
        me,
    };
    work(alloc, &house, slot, moment);
}

/// The turn of one provider: what it puts goes to the links from it.
fn work<D: Disk, S: Sealer, J: Judge>(
    alloc: Global,
    house: &House<'_, S>,
    slot: &mut Slot<D, J>,
    moment: Moment,
)
    requires { IsReady house.now.directory.now (S.seals house.now.sealer.now) house.now.me slot.old }
    ensures { Worked D.tells D.sight D.faults J.patterns J.seen house.now.directory.now (S.seals house.now.sealer.now)
        moment house.now.me slot.old slot.new }
{
    let taken = take_turn(
        alloc,
        house,
        &mut slot.provider,
        &mut slot.judge,
        &mut slot.takers,
        moment,
        slot.rooms.as_slice(),
    );
    match taken {
        Ok(Taken { turn, out }) => {
            slot.putters.put_all(out.into_vec());
            slot.told = Some(turn);
        }
        Err(NoMemory) => slot.told = None,
    }
}
