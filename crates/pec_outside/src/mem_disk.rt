ghost use Rattle.std.specs.Prelude.{◌≡◌, ◌-◌, ◌≤◌, min, [], length, take, drop, true, false, IsErr, IfOk, OnOk, OnErr};
ghost use Rattle.std.specs.List.{count_by};
ghost use Rattle.pec_outside.specs.DiskLog.{IsLog, steps_of};
ghost use Rattle.pec_outside.specs.DiskModel.{Only, Rests, Tears, written};
ghost use Rattle.pec_outside.specs.Flow.{HasRisen, as_u64, u64_of};
ghost use Rattle.pec_outside.specs.Memory.{NextFails, no_calls};
ghost use Rattle.pec_outside.specs.MemoryDisk.{DiskState, FailedBy, looked, wrote, synced, sight_of, held_of, after_crash, front_of, is_call, answered_by};
ghost use Rattle.pec_outside.specs.MemoryDiskLaws as laws;

use crate::calls::Calls;
use crate::counts::Counted;
use crate::disk::Disk;
use crate::disk_log::{DiskLog, Step};
use crate::streams::Failed;
use pec_types::NoMemory;
use std::alloc::Global;
use std::marker::Model;

/// A disk in memory, which tells what it holds and what a crash may leave, and fails where it is told. This project's
/// profile.
pub struct MemDisk {
    alloc: Global,
    log: DiskLog,
    calls: Calls,
}

impl Model for MemDisk {
    ghost Value = { DiskState };

    ghost view = { λ disk. record { log = steps_of disk.log; calls = disk.calls } };

    ghost invariant = { λ disk. IsLog disk.log };
}

impl Drop for MemDisk {
    fn drop(self) {
        let MemDisk {
            alloc: _,
            log: _,
            calls: _,
        } = self;
    }
}

impl MemDisk {
    /// An empty disk. `failing` are the numbers of the calls that fail, counted from 0 over all four calls. It takes no
    /// memory, and keeps the allocator for what is written.
    pub fn new(alloc: Global, failing: Vec<u64>) -> MemDisk
        ensures { result ≡ record { log = []; calls = no_calls failing.items } }
    {
        MemDisk {
            alloc,
            log: DiskLog::new(alloc),
            calls: Calls::new(failing),
        }
    }

    /// How many calls were made, with those that `failing` names and without those that found no memory. It takes none.
    pub fn calls(&self) -> usize
        ensures { result ≡ count_by is_call self.now.log }
    {
        self.log.calls()
    }

    /// A disk without failures that holds what a crash after so many of the logged calls may have left, and nothing
    /// pending: the first pending bytes in order of place, `kept` of them, are kept, and the others read 0xff.
    pub fn image(&self, calls: usize, kept: u64) -> Result<MemDisk, NoMemory>
        requires { calls ≤ count_by is_call self.now.log }
        ensures { IfOk result (λ image.
            image ≡ record { log = after_crash (front_of calls self.now.log) kept; calls = no_calls [] }) }
    {
        let mut log = self.log.front(self.alloc, calls)?;
        log.crash(kept);
        Ok(MemDisk {
            alloc: self.alloc,
            log,
            calls: Calls::new(Vec::new(self.alloc)),
        })
    }
}

impl MemDisk {
    /// How many calls failed.
    pub(crate) fn faults(&self) -> u64
        ensures { result ≡ self.now.calls.faults }
    {
        self.calls.faults()
    }

    /// A crash that keeps the first pending bytes, so many. It takes no memory.
    pub(crate) fn crash(&mut self, kept: u64)
        ensures { self.new ≡ record self.old { log = after_crash self.old.log kept } }
    {
        self.log.crash(kept);
    }

    // A call that writes nothing.
    fn look(&mut self) -> Result<(), Failed>
        ensures fails { NextFails self.old.calls → IsErr result }
        ensures after { OnOk result (self.new ≡ answered_by self.old looked) }
        ensures failed { OnErr result (FailedBy self.old looked self.new) }
        ensures rests { Rests (sight_of self.old.log) (sight_of self.new.log) }
        ensures later { as_u64 self.old.calls.faults ≤ as_u64 self.new.calls.faults }
        ensures cause { OnErr result (HasRisen (as_u64 self.old.calls.faults) (as_u64 self.new.calls.faults)) }
    {
        if self.log.reserve(0).is_err() {
            return Err(self.calls.fault());
        }
        match self.calls.begin() {
            Ok(()) => {
                self.log.look();
                Ok(())
            }
            Err(Failed) => {
                self.log.look();
                Err(Failed)
            }
        }
    }
}

impl Counted for MemDisk {
    ghost faults = { λ disk. as_u64 disk.calls.faults };

    ghost counted = { λ disk. u64_of disk.calls.faults };
}

impl Disk for MemDisk {
    ghost tells = { Unit };

    ghost sight = { λ disk. sight_of disk.log };

    ghost counts_now = { λ _ disk t image within now. laws.counts_now disk.log t image within now };

    ghost only_now = { λ _ disk image left. laws.only_now disk.log image left };

    ghost reads_so = { λ _ disk. laws.reads_so disk.log };

    /// As in the trait. It fails where `failing` names the call; want of memory is a fault too.
    fn size(&mut self) -> Result<u64, Failed>
        ensures size { IfOk result (λ n. n ≡ length (held_of self.old.log).bytes) }
        ensures rests { Rests (sight_of self.old.log) (sight_of self.new.log) }
        ensures later { as_u64 self.old.calls.faults ≤ as_u64 self.new.calls.faults }
        ensures cause { OnErr result (HasRisen (as_u64 self.old.calls.faults) (as_u64 self.new.calls.faults)) }

        // Beyond the trait.
        ensures fails { NextFails self.old.calls → IsErr result }
        ensures after { OnOk result (self.new ≡ answered_by self.old looked) }
        ensures failed { OnErr result (FailedBy self.old looked self.new) }
    {
        self.look()?;
        Ok(self.log.bytes.len() as u64)
    }

    fn read_at(&mut self, at: u64, room: &mut [u8]) -> Result<usize, Failed>
        ensures within { IfOk result (λ n. n ≤ length room.old) }
        ensures count { IfOk result (λ n. n ≡ min (length room.old) (length (held_of self.old.log).bytes - at)) }
        ensures bytes { IfOk result (λ n. take n room.new ≡ take n (drop at (held_of self.old.log).bytes)) }
        ensures rests { Rests (sight_of self.old.log) (sight_of self.new.log) }
        ensures later { as_u64 self.old.calls.faults ≤ as_u64 self.new.calls.faults }
        ensures cause { OnErr result (HasRisen (as_u64 self.old.calls.faults) (as_u64 self.new.calls.faults)) }

        // Beyond the trait.
        ensures fails { NextFails self.old.calls → IsErr result }
        ensures after { OnOk result (self.new ≡ answered_by self.old looked) }
        ensures failed { OnErr result (FailedBy self.old looked self.new) }
        ensures unchanged { OnErr result (room.new ≡ room.old) }
    {
        self.look()?;
        let bytes = self.log.bytes.as_slice();
        let start = bytes.len().min(at as usize);
        let rest = &bytes[start..];
        let count = room.len().min(rest.len());
        room[..count].copy_from_slice(&rest[..count]);
        Ok(count)
    }

    fn write_at(&mut self, at: u64, piece: &[u8]) -> Result<(), Failed>
        ensures written { at ≤ length (held_of self.old.log).bytes →
            OnOk result ((held_of self.new.log).bytes ≡ written (held_of self.old.log).bytes at piece.now) }
        ensures tears { at ≤ length (held_of self.old.log).bytes →
            Tears at (length piece.now) (sight_of self.old.log) (sight_of self.new.log) }
        ensures later { as_u64 self.old.calls.faults ≤ as_u64 self.new.calls.faults }
        ensures cause { OnErr result (HasRisen (as_u64 self.old.calls.faults) (as_u64 self.new.calls.faults)) }

        // Beyond the trait.
        ensures fails { NextFails self.old.calls → IsErr result }
        ensures after { OnOk result (self.new ≡ answered_by self.old (wrote at piece.now true)) }
        ensures failed { OnErr result (FailedBy self.old (wrote at piece.now false) self.new) }
    {
        let Ok(copy) = Vec::from_slice(self.alloc, piece) else {
            return Err(self.calls.fault());
        };
        if self.log.reserve(piece.len()).is_err() {
            return Err(self.calls.fault());
        }
        match self.calls.begin() {
            Ok(()) => {
                self.log.write(at as usize, copy, true);
                Ok(())
            }
            Err(Failed) => {
                self.log.write(at as usize, copy, false);
                Err(Failed)
            }
        }
    }

    fn sync(&mut self) -> Result<(), Failed>
        ensures durable { OnOk result (Only (held_of self.old.log).bytes (held_of self.new.log).images) }
        ensures rests { Rests (sight_of self.old.log) (sight_of self.new.log) }
        ensures later { as_u64 self.old.calls.faults ≤ as_u64 self.new.calls.faults }
        ensures cause { OnErr result (HasRisen (as_u64 self.old.calls.faults) (as_u64 self.new.calls.faults)) }

        // Beyond the trait.
        ensures fails { NextFails self.old.calls → IsErr result }
        ensures after { OnOk result (self.new ≡ answered_by self.old (synced true)) }
        ensures failed { OnErr result (FailedBy self.old (synced false) self.new) }
    {
        if self.log.reserve(0).is_err() {
            return Err(self.calls.fault());
        }
        match self.calls.begin() {
            Ok(()) => {
                self.log.sync(true);
                Ok(())
            }
            Err(Failed) => {
                self.log.sync(false);
                Err(Failed)
            }
        }
    }
}
