ghost use Rattle.std.specs.Prelude.{◌≡◌, ℕ, ◌<◌, ◌≤◌, map, length, slice_set, Option, None, Some, IfOk, OnOk, OnErr};
ghost use Rattle.pec_outside.specs.Depots.{OnlyAt, Alike, DepotState, home_of, last_of, depot_places, kept_by, no_disks, first_disk, out, Replaced};
ghost use Rattle.std.specs.List.{slice_index_or};
ghost use Rattle.pec_outside.specs.Memory.{risen};
ghost use Rattle.pec_outside.specs.DepotSlots.{slot_of, failing_of};
ghost use Rattle.pec_outside.specs.DiskModel.{Only, Elapses};
ghost use Rattle.pec_outside.specs.Flow.{HasRisen, as_u64, u64_of};
ghost use Rattle.pec_outside.specs.MemoryDisk.{sight_of, held_of, after_crash};

use crate::counts::Counted;
use crate::depot::Depot;
use crate::mem_disk::MemDisk;
use crate::streams::Failed;
use std::alloc::{AllocError, Global};
use std::marker::Model;
use std::mem;

/// What stands at the place of a provider's disk.
#[derive(Drop)]
pub(crate) enum Standing {
    /// Nothing was kept there, and nothing is out.
    Fresh,
    Home(MemDisk),
    /// Its disk is out, with the count of faults that it had there last.
    Out(u64),
}

/// Disks in memory, and crashes that keep as many pending bytes as they are told. This project's profile.
pub struct MemDepot {
    alloc: Global,
    slots: [Standing; 16],
    failing: Vec<Vec<u64>>,
    kept: Vec<u64>,
    crashes: usize,
    faults: u64,
}

impl Model for MemDepot {
    ghost Value = { DepotState };

    ghost view = { λ depot. record {
      slots = map slot_of depot.slots;
      failing = failing_of depot.failing.items;
      kept = depot.kept.items;
      crashes = depot.crashes;
      faults = depot.faults;
    } };
}

impl Drop for MemDepot {
    fn drop(self) {
        let MemDepot {
            alloc: _,
            slots: _,
            failing: _,
            kept: _,
            crashes: _,
            faults: _,
        } = self;
    }
}

impl MemDepot {
    /// Sixteen places with nothing kept. `failing` has for each provider the numbers of the calls that fail of its
    /// first disk; past its end none fails. The k-th crash keeps the first pending bytes, as many as stand at k in
    /// `kept`, and none past its end. It takes no memory, and keeps the allocator for the disks.
    pub fn new(alloc: Global, failing: Vec<Vec<u64>>, kept: Vec<u64>) -> MemDepot
        ensures { result ≡ no_disks (failing_of failing.items) kept.items }
    {
        MemDepot {
            alloc,
            slots: [
                Standing::Fresh,
                Standing::Fresh,
                Standing::Fresh,
                Standing::Fresh,
                Standing::Fresh,
                Standing::Fresh,
                Standing::Fresh,
                Standing::Fresh,
                Standing::Fresh,
                Standing::Fresh,
                Standing::Fresh,
                Standing::Fresh,
                Standing::Fresh,
                Standing::Fresh,
                Standing::Fresh,
                Standing::Fresh,
            ],
            failing,
            kept,
            crashes: 0,
            faults: 0,
        }
    }

    // Puts something in the place of a provider's disk, and answers what stood there.
    fn put(&mut self, at: usize, next: Standing) -> Standing
        requires { at < depot_places }
        ensures was { slice_index_or self.old.slots at (out 0) ≡ slot_of result }
        ensures replaced { Replaced self.old at (slot_of next) self.new }
        ensures faults { self.new.faults ≡ self.old.faults }
    {
        put_at(&mut self.slots, at, next)
    }

    // An empty disk, with that provider's failing calls.
    fn first_disk(&self, at: usize) -> Result<MemDisk, AllocError>
        ensures { IfOk result (λ disk. disk ≡ first_disk self.now at) }
    {
        let failing = match self.failing.get(at) {
            Some(failing) => Vec::from_slice(self.alloc, failing.as_slice())?,
            None => Vec::new(self.alloc),
        };
        Ok(MemDisk::new(self.alloc, failing))
    }

    fn fault(&mut self) -> Failed
        ensures { self.new ≡ record self.old { faults = risen self.old.faults } }
    {
        self.faults = self.faults.saturating_add(1);
        Failed
    }
}

impl Counted for MemDepot {
    ghost faults = { λ depot. as_u64 depot.faults };

    ghost counted = { λ depot. u64_of depot.faults };
}

impl Depot for MemDepot {
    type D = MemDisk;

    ghost tells = { Unit };

    ghost home = { home_of };

    ghost last = { last_of };

    /// As in the trait. A disk that is out already is a fault, and nothing else is.
    fn disk(&mut self, provider: u32) -> Result<MemDisk, Failed> {
        let at = provider as usize;
        match self.put(at, Standing::Out(0)) {
            Standing::Fresh => match self.first_disk(at) {
                Ok(disk) => Ok(disk),
                Err(_) => {
                    self.put(at, Standing::Fresh);
                    Err(self.fault())
                }
            },
            Standing::Home(disk) => {
                self.put(at, Standing::Out(disk.faults()));
                Ok(disk)
            }
            Standing::Out(faults) => {
                self.put(at, Standing::Out(faults));
                Err(self.fault())
            }
        }
    }

    /// As in the trait. The k-th crash keeps as many pending bytes as stand at k in the list.
    fn crash(&mut self, _provider: u32, mut old: MemDisk) -> MemDisk
        ensures left { (held_of old.log).images (held_of result.log).bytes }
        ensures durable { Only (held_of result.log).bytes (held_of result.log).images }
        ensures time { Elapses (sight_of old.log) (sight_of result.log) }
        ensures count { as_u64 result.calls.faults ≡ as_u64 old.calls.faults }
        ensures home { Alike (home_of self.old) (home_of self.new) }
        ensures last { Alike (last_of self.old) (last_of self.new) }
        ensures later { as_u64 self.old.faults ≤ as_u64 self.new.faults }

        // Beyond the trait.
        ensures crashed { result ≡ record old { log = after_crash old.log (kept_by self.old) } }
        ensures crashes { self.new ≡ record self.old { crashes = risen self.old.crashes } }
    {
        let kept = self.kept.get(self.crashes).copied().unwrap_or(0);
        self.crashes = self.crashes.saturating_add(1);
        old.crash(kept);
        old
    }

    fn keep(&mut self, provider: u32, disk: MemDisk) {
        self.put(provider as usize, Standing::Home(disk));
    }
}

fn put_at(slots: &mut [Standing], at: usize, next: Standing) -> Standing
    requires { at < length slots.old }
    ensures was { result ≡ slice_index_or slots.old at result }
    ensures after { slots.new ≡ slice_set slots.old at next }
{
    mem::replace(&mut slots[at], next)
}
