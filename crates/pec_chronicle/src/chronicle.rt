ghost use Rattle.std.specs.Prelude.{◌≡◌, ◌≢◌, ℕ, ◌+◌, ◌<◌, ◌≤◌, ◌↔◌, true, false, List, ◌∷◌, [], length, map, slice_get, None, Some, IsErrOf, IfOk, OnOk, IfErr};
ghost use Rattle.std.specs.Option.{option_map};
ghost use Rattle.pec_outside.specs.DiskModel.{GrowsTo, Rests};
ghost use Rattle.pec_outside.specs.Flow.{HasRisen};
ghost use Rattle.pec_journal.specs.JournalFile.{IsFile, StandsAt, framing, header, places_of};
ghost use Rattle.pec_journal.specs.JournalState.{Keeps};
ghost use Rattle.pec_journal.specs.declared.journal.TheConstants.{JOURNAL_LIMIT};
ghost use Rattle.pec_types.specs.Bytes.{Bytes};
ghost use Rattle.pec_records.specs.Entry.{CanBeWritten, IsEntry, IsWithinLimits, entry_text};
ghost use Rattle.pec_records.specs.declared.entries.Entry.{Entry as SomeEntry};
ghost use Rattle.pec_chronicle.specs.Carrying.{CarriesOn, NothingMay, ThisMay, with_entry};
ghost use Rattle.pec_chronicle.specs.Chronicle.{HasRoom, Stands, made_size, past_of};
ghost use Rattle.pec_chronicle.specs.Fields.{disk_in, end_in, spare_in, IsChronicle, IsReady};
ghost use Rattle.pec_chronicle.specs.declared.faults.AppendFault.TheVariants as append;
ghost use Rattle.pec_chronicle.specs.declared.faults.CreateFault.TheVariants as create;
ghost use Rattle.pec_chronicle.specs.declared.faults.ReadFault.TheVariants as reads;

use crate::crashes::Past;
use crate::drives::Drive;
use crate::encoded::Encoded;
use crate::faults::{AppendFault, CreateFault, ReadFault};
use crate::history::History;
use pec_journal::{FRAMING, Journal, entries_stand_at_their_places};
use pec_outside::{Disk, a_disk_is_so};
use pec_records::{Entry, EntryFault, an_entry_within_the_limits_is_short, decode, one_entry};
use pec_types::{NoMemory, Place, Text8};
use std::alloc::Global;
use std::marker::Model;

/// One provider's entries over its disk. They are on the disk, and not in memory. This project's profile.
pub struct Chronicle<D> {
    drive: Drive<D>,
    history: History,
    // The entry whose append answered a fault of the disk.
    interrupted: Option<Encoded>,
    down: bool,
}

impl<D> Model for Chronicle<D> {
    ghost use Rattle.pec_chronicle.specs.Chronicle.{ChronicleState};

    ghost Value = { ChronicleState D };

    ghost use Rattle.pec_chronicle.specs.Fields.{disk_in, end_in, spare_in, IsChronicle};

    ghost view = { λ chronicle. record {
      entries = chronicle.history.items;
      interrupted = chronicle.interrupted;
      down = chronicle.down;
      disk = disk_in chronicle.drive;
      end = end_in chronicle.drive;
      spare = spare_in chronicle.drive;
    } };

    ghost invariant = { λ kept. IsChronicle kept.drive kept.history.items kept.interrupted kept.down };
}

// Written out, so that to drop a chronicle is one call, and not the drops of all that it has wherever one is dropped.
impl<D: Drop> Drop for Chronicle<D> {
    fn drop(self) {
        let Chronicle {
            drive: _,
            history: _,
            interrupted: _,
            down: _,
        } = self;
    }
}

impl<D> Chronicle<D> {
    /// The place of the journal's closed gate, in bytes from 0, while it is up. It takes no memory.
    pub fn end(&self) -> u64
        ensures { result ≡ self.now.end }
    {
        self.drive.end()
    }

    /// Whether nothing is appended any more. It takes no memory.
    pub fn is_down(&self) -> bool
        ensures down { result ≡ self.now.down }
        ensures whole { self.now.down ≡ false → self.now.interrupted ≡ None }
    {
        self.down
    }

    /// Where an entry for which room was reserved would stand, if it were appended now and the journal has room for it.
    /// It takes no memory.
    pub fn next_place(&self, entry: &Encoded) -> Place
        requires { HasRoom self.now entry.now }
        ensures { self.now.end + framing + length (entry_text entry.now) ≤ JOURNAL_LIMIT →
            result ≡ record { at = self.now.end + framing; length = length (entry_text entry.now) } }
    {
        Place {
            at: self.drive.end().saturating_add(FRAMING),
            length: entry.bytes().len() as u32,
        }
    }

    /// The disk, and the bytes of the entry whose append answered a fault of the disk. It takes no memory.
    pub fn into_parts(self) -> (D, Option<Text8>)
        ensures disk { result.0 ≡ self.disk }
        ensures interrupted { result.1 ≡ option_map entry_text self.interrupted }
    {
        let (disk, past) = self.part();
        (disk, past.into_interrupted())
    }

    // The entries that are kept so.
    pub(crate) fn of(
        drive: Drive<D>,
        history: History,
        interrupted: Option<Encoded>,
        down: bool,
    ) -> Chronicle<D>
        requires { IsChronicle drive history.items interrupted down }
        ensures { result ≡ record {
          entries = history.items;
          interrupted = interrupted;
          down = down;
          disk = disk_in drive;
          end = end_in drive;
          spare = spare_in drive;
        } }
    {
        Chronicle {
            drive,
            history,
            interrupted,
            down,
        }
    }

    // The disk, and what is kept besides.
    pub(crate) fn part(self) -> (D, Past)
        ensures disk { result.0 ≡ self.disk }
        ensures past { result.1 ≡ past_of self }
    {
        let Chronicle {
            drive,
            history,
            interrupted,
            down: _,
        } = self;
        (drive.into_disk(), Past::new(history, interrupted))
    }
}

impl<D: Disk> Chronicle<D> {
    /// Makes the journal on an empty disk, with this entry. A crash during the call may leave a disk that holds bytes
    /// and is no journal, but no more of them than that journal has, or than it may have left before. With a fault the
    /// disk comes back; one that was empty may hold bytes then, no more than these.
    pub fn create(alloc: Global, disk: D, start: &Entry) -> Result<Chronicle<D>, (CreateFault, D)>
        requires { IsWithinLimits start.now }
        ensures created { IfOk result (λ made. (made.entries ≡ start.now ∷ []) × (made.interrupted ≡ None)
            × (made.down ≡ false)) }
        ensures ended { IfOk result (λ made. made.end ≡ length header + framing + length (entry_text start.now)) }
        ensures stands { D.tells → IfOk result (λ made. Stands D.sight made) }

        // Not empty exactly where the disk holds a byte, unless the size can't be told; it then stays as it is.
        ensures empty { D.tells → OnOk result (length (D.sight disk).seen ≡ 0) }
        ensures not_empty { D.tells → IfErr result (λ fault. fault.0 ≡ create.NotEmpty →
            (length (D.sight disk).seen ≢ 0) × Rests (D.sight disk) (D.sight fault.1)) }
        ensures as_it_was { D.tells → length (D.sight disk).seen ≢ 0 →
            IfErr result (λ fault. Rests (D.sight disk) (D.sight fault.1)) }

        // At any moment of the call a crash leaves no more bytes than the journal has, or than one before the call.
        ensures any_moment { D.tells →
            IfOk result (λ made. GrowsTo (made_size start.now) (D.sight disk) (D.sight made.disk)) }
        ensures any_moment_err { D.tells →
            IfErr result (λ fault. GrowsTo (made_size start.now) (D.sight disk) (D.sight fault.1)) }

        ensures disk_fault { IfErr result (λ fault. fault.0 ≡ create.DiskFault →
            HasRisen (D.faults disk) (D.faults fault.1)) }
        ensures later { IfOk result (λ made. D.faults disk ≤ D.faults made.disk) }
        ensures later_err { IfErr result (λ fault. D.faults disk ≤ D.faults fault.1) }
    {
        a_disk_is_so::<D>();
        match Journal::create(disk) {
            Ok(journal) => Chronicle::begin(alloc, journal, start),
            Err((pec_journal::CreateFault::NotEmpty, disk)) => Err((CreateFault::NotEmpty, disk)),
            Err((pec_journal::CreateFault::DiskFault, disk)) => Err((CreateFault::DiskFault, disk)),
        }
    }

    // The first entry of a journal that has none.
    fn begin(
        alloc: Global,
        journal: Journal<D>,
        start: &Entry,
    ) -> Result<Chronicle<D>, (CreateFault, D)>
        requires limits { IsWithinLimits start.now }
        requires fresh { (journal.end ≡ length header) × (journal.spent ≡ false) }
        ensures created { IfOk result (λ made. (made.entries ≡ start.now ∷ []) × (made.interrupted ≡ None)
            × (made.down ≡ false)) }
        ensures ended { IfOk result (λ made. made.end ≡ length header + framing + length (entry_text start.now)) }
        ensures stands { D.tells → Keeps (D.sight journal.disk) [] journal.end →
            IfOk result (λ made. Stands D.sight made) }
        ensures any_moment { D.tells → length header < length (D.sight journal.disk).seen →
            IfOk result (λ made. GrowsTo (made_size start.now) (D.sight journal.disk) (D.sight made.disk)) }
        ensures any_moment_err { D.tells → length header < length (D.sight journal.disk).seen →
            IfErr result (λ fault. GrowsTo (made_size start.now) (D.sight journal.disk) (D.sight fault.1)) }
        ensures not_empty { IfErr result (λ fault. fault.0 ≢ create.NotEmpty) }
        ensures disk_fault { IfErr result (λ fault. fault.0 ≡ create.DiskFault →
            HasRisen (D.faults journal.disk) (D.faults fault.1)) }
        ensures later { IfOk result (λ made. D.faults journal.disk ≤ D.faults made.disk) }
        ensures later_err { IfErr result (λ fault. D.faults journal.disk ≤ D.faults fault.1) }
    {
        let mut chronicle = Chronicle::of(Drive::Open(journal), History::new(), None, false);
        match chronicle.put_first(alloc, start) {
            Ok(()) => Ok(chronicle),
            Err(fault) => Err((fault, chronicle.into_parts().0)),
        }
    }

    // Reserves and appends an entry, where the journal ends near its beginning.
    fn put_first(&mut self, alloc: Global, start: &Entry) -> Result<(), CreateFault>
        requires limits { IsWithinLimits start.now }
        requires up { self.old.down ≡ false }
        requires whole { self.old.interrupted ≡ None }
        requires near { self.old.end ≡ length header }
        ensures put { OnOk result ((self.new.entries ≡ with_entry self.old.entries start.now)
            × (self.new.interrupted ≡ None) × (self.new.down ≡ false)) }
        ensures ended { OnOk result (self.new.end ≡ length header + framing + length (entry_text start.now)) }
        ensures stands { D.tells → Stands D.sight self.old → Stands D.sight self.new }
        ensures any_moment { D.tells → length header < length (D.sight self.old.disk).seen →
            GrowsTo (made_size start.now) (D.sight self.old.disk) (D.sight self.new.disk) }
        ensures not_empty { IsErrOf result create.NotEmpty → ⊥ }
        ensures disk_fault { IsErrOf result create.DiskFault →
            HasRisen (D.faults self.old.disk) (D.faults self.new.disk) }
        ensures later { D.faults self.old.disk ≤ D.faults self.new.disk }
    {
        a_disk_is_so::<D>();
        let encoded = match self.reserve(alloc, start) {
            Ok(encoded) => encoded,
            Err(NoMemory) => return Err(CreateFault::NoMemory),
        };
        match self.append(encoded) {
            Ok(_) => Ok(()),
            Err(AppendFault::DiskFault) => Err(CreateFault::DiskFault),
            Err(AppendFault::JournalFull) => unreachable!(),
        }
    }

    /// Encodes an entry, and takes all memory that its append needs. It makes no call of the disk.
    pub fn reserve(&mut self, alloc: Global, entry: &Entry) -> Result<Encoded, NoMemory>
        requires { IsWithinLimits entry.now }
        ensures encoded { IfOk result (λ encoded. encoded ≡ entry.now) }
        ensures room { OnOk result (HasRoom self.new entry.now) }
        ensures same { self.new ≡ record self.old { spare = self.new.spare } }
        ensures carries { D.tells → CarriesOn D.sight NothingMay self.old self.new }
    {
        an_entry_within_the_limits_is_short();
        a_disk_is_so::<D>();
        let encoded = Encoded::encode(alloc, entry)?;
        self.drive.reserve(alloc, encoded.bytes().len())?;
        Ok(encoded)
    }

    /// Appends an entry for which room was reserved, by four calls of the disk, and tells where its bytes stand. After
    /// Ok a crash leaves it. It takes no memory.
    pub fn append(&mut self, entry: Encoded) -> Result<Place, AppendFault>
        requires up { self.old.down ≡ false }
        requires room { HasRoom self.old entry }

        // A crash at any moment of the call leaves the journal of the entries, or of these and the new one. After Ok it
        // leaves the new one too.
        ensures carries { D.tells → CarriesOn D.sight (ThisMay self.old.entries entry) self.old self.new }
        ensures grows { D.tells → self.old.end < length (D.sight self.old.disk).seen →
            GrowsTo (self.old.end + framing + length (entry_text entry) + 1)
            (D.sight self.old.disk) (D.sight self.new.disk) }
        ensures ok { OnOk result (self.new ≡ record self.old {
          entries = with_entry self.old.entries entry;
          disk = self.new.disk;
          end = self.old.end + framing + length (entry_text entry);
          spare = self.new.spare;
        }) }
        ensures place { IfOk result (λ place.
            place ≡ record { at = self.old.end + framing; length = length (entry_text entry) }) }

        // The journal is full exactly there; a fault of the disk comes only after one of it.
        ensures full { IsErrOf result append.JournalFull ↔
            (JOURNAL_LIMIT < self.old.end + framing + length (entry_text entry)) }
        ensures disk_fault { IsErrOf result append.DiskFault →
            HasRisen (D.faults self.old.disk) (D.faults self.new.disk) }
        ensures later { D.faults self.old.disk ≤ D.faults self.new.disk }

        // After a fault of the disk it is down, and keeps the entry aside. Where it is full it is as it was.
        ensures broken { IsErrOf result append.DiskFault → self.new ≡ record self.old {
          interrupted = Some entry;
          down = true;
          disk = self.new.disk;
          spare = self.new.spare;
        } }
        ensures refused { IsErrOf result append.JournalFull → self.new ≡ record self.old { spare = self.new.spare } }
    {
        a_disk_is_so::<D>();
        match self.drive.append(entry.bytes()) {
            Ok(place) => {
                self.history = self.history.and(&entry);
                Ok(place)
            }
            Err(AppendFault::DiskFault) => {
                self.down = true;
                self.interrupted = Some(entry);
                Err(AppendFault::DiskFault)
            }
            Err(AppendFault::JournalFull) => Err(AppendFault::JournalFull),
        }
    }

    /// The entry at a place that an append or an opening told, by one call of the disk. It takes memory for that entry
    /// alone.
    pub fn read(&mut self, alloc: Global, place: Place) -> Result<Entry, ReadFault>
        requires up { self.old.down ≡ false }

        // Over a disk that tells what it holds it is the entry that stands there, and isn't told as changed.
        ensures entry { D.tells → Stands D.sight self.old → (number : ℕ) →
            slice_get (places_of (map entry_text self.old.entries)) number ≡ Some place →
            IfOk result (λ entry. slice_get self.old.entries number ≡ Some entry) }
        ensures unchanged { D.tells → Stands D.sight self.old → (number : ℕ) →
            slice_get (places_of (map entry_text self.old.entries)) number ≡ Some place →
            IsErrOf result reads.Changed → ⊥ }
        ensures written { IfOk result CanBeWritten }

        // The entries stay what they were, now and after a crash. It is down behind a fault of the disk and where bytes
        // changed, and else not.
        ensures kept { self.new ≡ record self.old { down = self.new.down; disk = self.new.disk } }
        ensures ok { OnOk result (self.new ≡ record self.old { disk = self.new.disk }) }
        ensures refused { IsErrOf result reads.NoMemory → self.new ≡ record self.old { disk = self.new.disk } }
        ensures broken { IfErr result (λ fault. fault ≢ reads.NoMemory →
            self.new ≡ record self.old { down = true; disk = self.new.disk }) }
        ensures carries { D.tells → CarriesOn D.sight NothingMay self.old self.new }
        ensures disk_fault { IsErrOf result reads.DiskFault →
            HasRisen (D.faults self.old.disk) (D.faults self.new.disk) }
        ensures later { D.faults self.old.disk ≤ D.faults self.new.disk }
    {
        a_disk_is_so::<D>();
        entries_stand_at_their_places();
        one_entry();
        match read_at(alloc, &mut self.drive, place) {
            Ok(entry) => Ok(entry),
            Err(ReadFault::NoMemory) => Err(ReadFault::NoMemory),
            Err(fault) => {
                self.down = true;
                Err(fault)
            }
        }
    }

    /// Appends and reads nothing any more, as behind a fault of the disk: for who found another entry at a place than
    /// stands there. It takes no memory.
    pub fn give_up(&mut self)
        ensures down { self.new ≡ record self.old { down = true } }
        ensures carries { D.tells → CarriesOn D.sight NothingMay self.old self.new }
    {
        a_disk_is_so::<D>();
        self.down = true;
    }
}

// The entry at a place of the open journal.
fn read_at<D: Disk>(alloc: Global, drive: &mut Drive<D>, place: Place) -> Result<Entry, ReadFault>
    requires { IsReady drive.old }
    ensures is { D.tells → (texts : List Bytes) (text : Bytes) → IsFile texts (D.sight (disk_in drive.old)).seen →
        StandsAt place text texts →
        IfOk result (λ entry. IsEntry entry text) }
    ensures changed { D.tells → (texts : List Bytes) (text : Bytes) → IsFile texts (D.sight (disk_in drive.old)).seen →
        StandsAt place text texts →
        IsErrOf result reads.Changed → (entry : SomeEntry) → IsEntry entry text → ⊥ }
    ensures written { IfOk result CanBeWritten }
    ensures rests { D.tells → Rests (D.sight (disk_in drive.old)) (D.sight (disk_in drive.new)) }
    ensures end { end_in drive.new ≡ end_in drive.old }
    ensures spare { spare_in drive.new ≡ spare_in drive.old }
    ensures ready { IsReady drive.new }
    ensures disk_fault { IsErrOf result reads.DiskFault →
        HasRisen (D.faults (disk_in drive.old)) (D.faults (disk_in drive.new)) }
    ensures later { D.faults (disk_in drive.old) ≤ D.faults (disk_in drive.new) }
{
    let bytes = drive.read(alloc, place)?;
    match decode(alloc, &bytes) {
        Ok(entry) => Ok(entry),
        Err(EntryFault::Syntax(_)) => Err(ReadFault::Changed),
        Err(EntryFault::NoMemory) => Err(ReadFault::NoMemory),
    }
}
