ghost use Rattle.std.specs.Prelude.{◌≡◌, ◌≤◌, [], length, true, IfOk, IsErr, OnOk, OnErr};
ghost use Rattle.std.specs.Fd.{file_raw_fd};
ghost use Rattle.pec_outside.specs.Flow.{HasRisen, as_u64, u64_of};
ghost use Rattle.pec_files.specs.Files.{FileState, just_opened, faulted, doubtful};

use pec_outside::{Counted, Disk, Failed};
use std::fs::File;
use std::io;
use std::io::ErrorKind;
use std::marker::Model;
use std::os::unix::fs::FileExt;

/// An open file as a disk. What it holds isn't told. This project's profile.
///
/// It reads and writes at places of the file, with no buffer of its own. Once a sync has failed each further one fails:
/// the system may have let go of what it couldn't write, and would answer the next one well.
#[derive(Drop)]
pub struct FileDisk {
    file: File,
    faults: u64,
    sync_failed: bool,
}

impl Model for FileDisk {
    ghost Value = { FileState };

    ghost view = { λ disk. record {
      descriptor = file_raw_fd disk.file;
      faults = disk.faults;
      sync_failed = disk.sync_failed;
    } };
}

impl FileDisk {
    /// A file that is open for reading and writing, with no fault yet.
    pub fn new(file: File) -> FileDisk
        ensures { result ≡ just_opened (file_raw_fd file) }
    {
        FileDisk {
            file,
            faults: 0,
            sync_failed: false,
        }
    }

    /// How many calls failed.
    pub fn faults(&self) -> u64
        ensures { result ≡ self.now.faults }
    {
        self.faults
    }

    // Counts a fault.
    fn fault(&mut self) -> Failed
        ensures { self.new ≡ faulted self.old }
    {
        self.faults = self.faults.saturating_add(1);
        Failed
    }
}

impl Counted for FileDisk {
    ghost faults = { λ disk. as_u64 disk.faults };

    ghost counted = { λ disk. u64_of disk.faults };
}

impl Disk for FileDisk {
    ghost tells = { ⊥ };

    ghost sight = { λ _. record { seen = []; may_leave = λ _. ⊥; moment = 0; left_since = λ _ _. ⊥ } };

    ghost counts_now = { λ nothing. absurd nothing };

    ghost only_now = { λ nothing. absurd nothing };

    ghost reads_so = { λ nothing. absurd nothing };

    fn size(&mut self) -> Result<u64, Failed>
        ensures later { as_u64 self.old.faults ≤ as_u64 self.new.faults }
        ensures cause { OnErr result (HasRisen (as_u64 self.old.faults) (as_u64 self.new.faults)) }

        // Beyond the trait.
        ensures ok { OnOk result (self.new ≡ self.old) }
        ensures err { OnErr result (self.new ≡ faulted self.old) }
    {
        match self.file.metadata() {
            Ok(metadata) => Ok(metadata.len()),
            Err(_) => Err(self.fault()),
        }
    }

    /// As in the trait. No file has a place from 2^63 on, so a read from there fails.
    fn read_at(&mut self, at: u64, room: &mut [u8]) -> Result<usize, Failed>
        ensures within { IfOk result (λ n. n ≤ length room.old) }
        ensures later { as_u64 self.old.faults ≤ as_u64 self.new.faults }
        ensures cause { OnErr result (HasRisen (as_u64 self.old.faults) (as_u64 self.new.faults)) }

        // Beyond the trait.
        ensures ok { OnOk result (self.new ≡ self.old) }
        ensures err { OnErr result (self.new ≡ faulted self.old) }
    {
        match read_full(&self.file, at, room) {
            Ok(count) => Ok(count),
            Err(_) => Err(self.fault()),
        }
    }

    fn write_at(&mut self, at: u64, piece: &[u8]) -> Result<(), Failed>
        ensures later { as_u64 self.old.faults ≤ as_u64 self.new.faults }
        ensures cause { OnErr result (HasRisen (as_u64 self.old.faults) (as_u64 self.new.faults)) }

        // Beyond the trait.
        ensures ok { OnOk result (self.new ≡ self.old) }
        ensures err { OnErr result (self.new ≡ faulted self.old) }
    {
        match self.file.write_all_at(piece, at) {
            Ok(()) => Ok(()),
            Err(_) => Err(self.fault()),
        }
    }

    /// As in the trait: what was written, and the file's size, is on the device.
    fn sync(&mut self) -> Result<(), Failed>
        ensures later { as_u64 self.old.faults ≤ as_u64 self.new.faults }
        ensures cause { OnErr result (HasRisen (as_u64 self.old.faults) (as_u64 self.new.faults)) }

        // Beyond the trait.
        ensures never_again { self.old.sync_failed ≡ true → IsErr result }
        ensures ok { OnOk result (self.new ≡ self.old) }
        ensures err { OnErr result (self.new ≡ doubtful self.old) }
    {
        if !self.sync_failed && self.file.sync_all().is_ok() {
            return Ok(());
        }
        self.sync_failed = true;
        Err(self.fault())
    }
}

// Reads on until the room is full or the file ends.
fn read_full(file: &File, at: u64, room: &mut [u8]) -> io::Result<usize>
    ensures { IfOk result (λ count. count ≤ length room.old) }
{
    let mut count = 0;
    for _ in 0..u64::MAX {
        if count == room.len() {
            return Ok(count);
        }
        match file.read_at(&mut room[count..], at.saturating_add(count as u64)) {
            Ok(0) => return Ok(count),
            Ok(more) => count += more,
            Err(error) if error.kind() == ErrorKind::Interrupted => (),
            Err(error) => return Err(error),
        }
    }
    Err(io::Error::from(ErrorKind::Interrupted))
}
