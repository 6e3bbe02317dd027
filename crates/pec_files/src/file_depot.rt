ghost use Rattle.std.specs.Prelude.{◌≡◌, ℕ, ◌<◌, ◌≤◌, map, length, slice_set, string_bytes, None, Ok, IfOk, OnErr, IsErr};
ghost use Rattle.std.specs.List.{slice_index_or};
ghost use Rattle.pec_outside.specs.Depots.{OnlyAt, Alike, depot_places};
ghost use Rattle.pec_outside.specs.Flow.{HasRisen, as_u64, u64_of};
ghost use Rattle.pec_outside.specs.Memory.{risen};
ghost use Rattle.pec_files.specs.Files.{FileState, IsJustOpened};
ghost use Rattle.pec_files.specs.Folders.{FolderState, closed, home, out, unopened, slot_at, last_of, Replaced, Refused};
ghost use Rattle.pec_files.specs.Standings.{slot_of};

use crate::file_disk::FileDisk;
use crate::opening::open_journal;
use pec_outside::{Counted, Depot, Failed};
use std::fs::File;
use std::marker::Model;
use std::rt::Files;
use std::{fs, io, mem};

/// What stands at the place of a provider's disk.
#[derive(Drop)]
pub(crate) enum Standing {
    /// Its file wasn't opened yet.
    Closed,
    Home(FileDisk),
    /// Its disk is out, with the count of faults that it had there last.
    Out(u64),
}

/// The journals of providers in a folder, each a file of its own. What they hold isn't told. This project's profile.
#[derive(Drop)]
pub struct FileDepot<R> {
    system: R,
    folder: String,
    slots: [Standing; 16],
    faults: u64,
}

impl<R> Model for FileDepot<R> {
    ghost Value = { FolderState };

    ghost view = { λ depot. record {
      folder = string_bytes depot.folder;
      slots = map slot_of depot.slots;
      faults = depot.faults;
    } };
}

impl<R> FileDepot<R> {
    /// A folder by its path, with no file opened and no fault yet. It takes no memory, and keeps the system for the
    /// files.
    pub fn new(system: R, folder: String) -> FileDepot<R>
        ensures { result ≡ unopened (string_bytes folder) }
    {
        FileDepot {
            system,
            folder,
            slots: [
                Standing::Closed,
                Standing::Closed,
                Standing::Closed,
                Standing::Closed,
                Standing::Closed,
                Standing::Closed,
                Standing::Closed,
                Standing::Closed,
                Standing::Closed,
                Standing::Closed,
                Standing::Closed,
                Standing::Closed,
                Standing::Closed,
                Standing::Closed,
                Standing::Closed,
                Standing::Closed,
            ],
            faults: 0,
        }
    }

    /// How many disks couldn't be handed out.
    pub fn faults(&self) -> u64
        ensures { result ≡ self.now.faults }
    {
        self.faults
    }

    // Puts something in the place of a provider's disk, and answers what stood there.
    fn put(&mut self, at: usize, next: Standing) -> Standing
        requires { at < depot_places }
        ensures was { slot_at self.old at ≡ slot_of result }
        ensures replaced { Replaced self.old at (slot_of next) self.new }
    {
        put_at(&mut self.slots, at, next)
    }

    fn fault(&mut self) -> Failed
        ensures { self.new ≡ record self.old { faults = risen self.old.faults } }
    {
        self.faults = self.faults.saturating_add(1);
        Failed
    }
}

impl<R> Counted for FileDepot<R> {
    ghost faults = { λ depot. as_u64 depot.faults };

    ghost counted = { λ depot. u64_of depot.faults };
}

impl<R: Files<File = File> + AllocGlobal> Depot for FileDepot<R> {
    type D = FileDisk;

    ghost tells = { ⊥ };

    ghost home = { λ _ _. None };

    ghost last = { last_of };

    /// As in the trait. It fails where the file can't be opened, and where its disk is out already.
    fn disk(&mut self, provider: u32) -> Result<FileDisk, Failed>
        requires { provider < depot_places }
        ensures count { IfOk result (λ disk. as_u64 disk.faults ≡ last_of self.old provider) }
        ensures last { Alike (last_of self.old) (last_of self.new) }
        ensures later { as_u64 self.old.faults ≤ as_u64 self.new.faults }
        ensures cause { OnErr result (HasRisen (as_u64 self.old.faults) (as_u64 self.new.faults)) }

        // Beyond the trait.
        ensures first { slot_at self.old provider ≡ closed → IfOk result IsJustOpened }
        ensures again { (kept : FileState) → slot_at self.old provider ≡ home kept → result ≡ Ok kept }
        ensures twice { (faults : ℕ) → slot_at self.old provider ≡ out faults → IsErr result }
        ensures ok { IfOk result (λ disk. Replaced self.old provider (out disk.faults) self.new) }
        ensures err { OnErr result (Refused self.old self.new) }
    {
        let at = provider as usize;
        match self.put(at, Standing::Out(0)) {
            Standing::Closed => match open_journal(&self.system, self.folder.as_str(), provider) {
                Ok(file) => Ok(FileDisk::new(file)),
                Err(_) => {
                    self.put(at, Standing::Closed);
                    Err(self.fault())
                }
            },
            Standing::Home(disk) => {
                self.put(at, Standing::Out(disk.faults()));
                Ok(disk)
            }
            Standing::Out(faults) => {
                self.put(at, Standing::Out(faults));
                Err(self.fault())
            }
        }
    }

    /// As in the trait. A crash that is played leaves a real file as it is: the same one comes back.
    fn crash(&mut self, _provider: u32, old: FileDisk) -> FileDisk
        ensures count { as_u64 result.faults ≡ as_u64 old.faults }
        ensures last { Alike (last_of self.old) (last_of self.new) }
        ensures later { as_u64 self.old.faults ≤ as_u64 self.new.faults }

        // Beyond the trait.
        ensures crashed { result ≡ old }
        ensures same { self.new ≡ self.old }
    {
        old
    }

    fn keep(&mut self, provider: u32, disk: FileDisk)
        requires { provider < depot_places }
        ensures last { OnlyAt (last_of self.old) (last_of self.new) provider (as_u64 disk.faults) }
        ensures later { as_u64 self.old.faults ≤ as_u64 self.new.faults }

        // Beyond the trait.
        ensures kept { Replaced self.old provider (home disk) self.new }
    {
        self.put(provider as usize, Standing::Home(disk));
    }
}

fn put_at(slots: &mut [Standing], at: usize, next: Standing) -> Standing
    requires { at < length slots.old }
    ensures was { result ≡ slice_index_or slots.old at result }
    ensures after { slots.new ≡ slice_set slots.old at next }
{
    mem::replace(&mut slots[at], next)
}
