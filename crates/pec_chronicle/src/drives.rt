ghost use Rattle.std.specs.Prelude.{◌≡◌, ℕ, ◌+◌, ◌<◌, ◌≤◌, ◌↔◌, List, ◌∷◌, [], ◌++◌, length, IsErrOf, IfOk, OnOk};
ghost use Rattle.pec_outside.specs.DiskModel.{GrowsTo, LeavesOnly, Rests};
ghost use Rattle.pec_outside.specs.Flow.{HasRisen};
ghost use Rattle.pec_journal.specs.JournalFile.{IsBeforeOrAfter, IsFile, StandsAt, framing};
ghost use Rattle.pec_journal.specs.JournalState.{Keeps};
ghost use Rattle.pec_journal.specs.declared.journal.TheConstants.{JOURNAL_LIMIT};
ghost use Rattle.pec_records.specs.Entry.{longest_entry};
ghost use Rattle.pec_chronicle.specs.Fields.{disk_in, end_in, spare_in, IsReady};
ghost use Rattle.pec_chronicle.specs.declared.faults.AppendFault.TheVariants as append;
ghost use Rattle.pec_chronicle.specs.declared.faults.ReadFault.TheVariants as reads;

use crate::faults::{AppendFault, ReadFault};
use pec_journal::Journal;
use pec_outside::Disk;
use pec_types::{NoMemory, Place};
use std::alloc::Global;

/// What a chronicle stands over: its open journal, or after a crash the bare disk, on which nothing is appended.
#[derive(Drop)]
pub(crate) enum Drive<D> {
    Open(Journal<D>),
    Shut(D),
}

impl<D> Drive<D> {
    pub(crate) fn end(&self) -> u64
        ensures { result ≡ end_in self.now }
    {
        match self {
            Drive::Open(journal) => journal.end(),
            Drive::Shut(_) => 0,
        }
    }

    pub(crate) fn into_disk(self) -> D
        ensures { result ≡ disk_in self }
    {
        match self {
            Drive::Open(journal) => journal.into_disk(),
            Drive::Shut(disk) => disk,
        }
    }

    /// Makes room for an entry of so many bytes, where the journal is open.
    pub(crate) fn reserve(&mut self, alloc: Global, length: usize) -> Result<(), NoMemory>
        ensures room { OnOk result (IsReady self.old → length ≤ spare_in self.new) }
        ensures disk { disk_in self.new ≡ disk_in self.old }
        ensures end { end_in self.new ≡ end_in self.old }
        ensures ready { IsReady self.old → IsReady self.new }
    {
        match self {
            Drive::Open(journal) => journal.reserve(alloc, length),
            Drive::Shut(_) => Ok(()),
        }
    }
}

impl<D: Disk> Drive<D> {
    /// Appends the bytes of an entry to the open journal, and tells their place. It takes no memory.
    pub(crate) fn append(&mut self, bytes: &[u8]) -> Result<Place, AppendFault>
        requires ready { IsReady self.old }
        requires short { length bytes.now ≤ longest_entry }
        requires room { length bytes.now ≤ spare_in self.old }

        ensures any_moment { D.tells → (entries : List (List ℕ)) →
            Keeps (D.sight (disk_in self.old)) entries (end_in self.old) →
            LeavesOnly (D.sight (disk_in self.old)) (D.sight (disk_in self.new)) (IsBeforeOrAfter entries bytes.now) }
        ensures grows { D.tells → end_in self.old < length (D.sight (disk_in self.old)).seen →
            GrowsTo (end_in self.old + framing + length bytes.now + 1)
            (D.sight (disk_in self.old)) (D.sight (disk_in self.new)) }
        ensures ok { D.tells → (entries : List (List ℕ)) →
            Keeps (D.sight (disk_in self.old)) entries (end_in self.old) →
            OnOk result (Keeps (D.sight (disk_in self.new)) (entries ++ bytes.now ∷ []) (end_in self.new)) }
        ensures place { IfOk result (λ place. place ≡ record { at = end_in self.old + framing; length = length bytes.now }) }
        ensures after { OnOk result (end_in self.new ≡ end_in self.old + framing + length bytes.now) }
        ensures ready { OnOk result (IsReady self.new) }

        ensures full { IsErrOf result append.JournalFull ↔
            (JOURNAL_LIMIT < end_in self.old + framing + length bytes.now) }
        ensures same { IsErrOf result append.JournalFull →
            (disk_in self.new ≡ disk_in self.old) × (end_in self.new ≡ end_in self.old) × IsReady self.new }
        ensures disk_fault { IsErrOf result append.DiskFault →
            HasRisen (D.faults (disk_in self.old)) (D.faults (disk_in self.new)) }
        ensures broken { IsErrOf result append.DiskFault → end_in self.new ≡ end_in self.old }
        ensures later { D.faults (disk_in self.old) ≤ D.faults (disk_in self.new) }
    {
        let Drive::Open(journal) = self else {
            unreachable!();
        };
        match journal.append(bytes) {
            Ok(place) => Ok(place),
            Err(pec_journal::AppendFault::Full) => Err(AppendFault::JournalFull),
            Err(pec_journal::AppendFault::DiskFault) => Err(AppendFault::DiskFault),
            Err(pec_journal::AppendFault::Spent) => unreachable!(),
            Err(pec_journal::AppendFault::TooLong) => unreachable!(),
        }
    }
    /// The bytes at a place of the open journal. It takes memory for these alone.
    pub(crate) fn read(&mut self, alloc: Global, place: Place) -> Result<Vec<u8>, ReadFault>
        requires { IsReady self.old }
        ensures entry { D.tells → (entries : List (List ℕ)) (entry : List ℕ) →
            IsFile entries (D.sight (disk_in self.old)).seen → StandsAt place entry entries →
            IfOk result (λ bytes. bytes.items ≡ entry) }
        ensures rests { D.tells → Rests (D.sight (disk_in self.old)) (D.sight (disk_in self.new)) }
        ensures end { end_in self.new ≡ end_in self.old }
        ensures spare { spare_in self.new ≡ spare_in self.old }
        ensures ready { IsReady self.new }
        ensures unchanged { IsErrOf result reads.Changed → ⊥ }
        ensures disk_fault { IsErrOf result reads.DiskFault →
            HasRisen (D.faults (disk_in self.old)) (D.faults (disk_in self.new)) }
        ensures later { D.faults (disk_in self.old) ≤ D.faults (disk_in self.new) }
    {
        let Drive::Open(journal) = self else {
            unreachable!();
        };
        let bytes = journal.read(alloc, place)?;
        Ok(bytes)
    }
}
