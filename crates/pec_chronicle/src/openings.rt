ghost use Rattle.std.specs.Prelude.{◌≡◌, ◌≢◌, ℕ, ◌+◌, ◌<◌, ◌≤◌, false, List, [], length, slice_get, None, Some, IsErrOf, IfOk, OnErr, IfErr, IfSome};
ghost use Rattle.pec_outside.specs.DiskModel.{Rests, Stays};
ghost use Rattle.pec_outside.specs.Flow.{HasRisen};
ghost use Rattle.pec_journal.specs.JournalFile.{IsFile, IsBroken, StandsAt, framing};
ghost use Rattle.pec_types.specs.Bytes.{Bytes};
ghost use Rattle.pec_records.specs.Entry.{CanBeWritten, IsEntry};
ghost use Rattle.pec_records.specs.declared.entries.Entry.{Entry as AnEntry};
ghost use Rattle.pec_chronicle.specs.Carrying.{CarriesOn, NothingMay, with_entry};
ghost use Rattle.pec_chronicle.specs.Chronicle.{ChronicleState, IsJournalOf, Stands, down_over, past_of};
ghost use Rattle.pec_chronicle.specs.Opening.{Finds, Opens, Reads, StopsAtBad, place_behind};
ghost use Rattle.pec_chronicle.specs.declared.faults.OpenFault.TheVariants as faults;

use crate::chronicle::Chronicle;
use crate::crashes::Past;
use crate::drives::Drive;
use crate::encoded::Encoded;
use crate::faults::OpenFault;
use crate::history::History;
use crate::laws::a_disk_holds_one_list;
use pec_journal::{FRAMING, Journal};
use pec_outside::{Disk, a_disk_is_so};
use pec_records::{Entry, EntryFault};
use pec_types::Place;
use std::alloc::Global;
use std::marker::Model;

// Where the first gate stands.
const HEADER: u64 = 8;

/// A journal that is opened: its entries are read one by one, and once all were read they are a chronicle. This
/// project's profile.
pub struct Opening<D> {
    journal: Journal<D>,
    places: Vec<Place>,
    history: History,
    // How many entries were read, and the place behind the last of them.
    count: usize,
    behind: u64,
}

impl<D> Model for Opening<D> {
    ghost use Rattle.std.specs.Prelude.{vec_len};
    ghost use Rattle.pec_chronicle.specs.Opening.{OpeningState};

    ghost Value = { OpeningState D };

    ghost use Rattle.pec_chronicle.specs.Fields.{IsOpening};

    ghost view = { λ opening. record {
      disk = opening.journal.disk;
      end = opening.journal.end;
      places = opening.places.items;
      read = opening.history.items;
    } };

    ghost invariant = { λ opening.
        IsOpening opening.journal.spent opening.history.items (vec_len opening.places) opening.count opening.behind };
}

// Written out, so that to drop an opening is one call.
impl<D: Drop> Drop for Opening<D> {
    fn drop(self) {
        let Opening {
            journal: _,
            places: _,
            history: _,
            count: _,
            behind: _,
        } = self;
    }
}

impl<D> Opening<D> {
    /// The place of the journal's closed gate, in bytes from 0. It takes no memory.
    pub fn end(&self) -> u64
        ensures { result ≡ self.now.end }
    {
        self.journal.end()
    }

    /// The disk. It takes no memory.
    pub fn into_disk(self) -> D
        ensures { result ≡ self.disk }
    {
        let Opening {
            journal,
            places: _,
            history: _,
            count: _,
            behind: _,
        } = self;
        journal.into_disk()
    }
}

impl<D: Disk> Chronicle<D> {
    /// The journal on a disk, which is first made durable as it reads. Its entries are still to be read, one by one
    /// (`next`). It writes nothing, reads gates and lengths alone, and takes time in proportion to the entries, and
    /// memory for their places. With a fault the disk comes back.
    pub fn open(alloc: Global, disk: D) -> Result<Opening<D>, (OpenFault, D)>
        ensures fresh { IfOk result (λ opening. opening.read ≡ []) }

        // What was opened is a journal file on the disk, and a crash leaves it.
        ensures opened { D.tells → IfOk result (λ opening.
            (texts : List Bytes) × IsFile texts (D.sight disk).seen × Reads D.sight opening texts) }

        // Where the disk holds the file of texts it is these, and the disk isn't refused.
        ensures list { D.tells → (texts : List Bytes) → IsFile texts (D.sight disk).seen →
            IfOk result (λ opening. Reads D.sight opening texts) }
        ensures refused { D.tells → (texts : List Bytes) → IsFile texts (D.sight disk).seen →
            IfErr result (λ fault. (n : ℕ) → fault.0 ≢ faults.NotAJournal n) }

        // The place is that at which the bytes are no journal file. No entry was read.
        ensures not_a_journal { D.tells → IfErr result (λ fault.
            (place : ℕ) → fault.0 ≡ faults.NotAJournal place → IsBroken (D.sight disk).seen place) }
        ensures no_entry { IfErr result (λ fault. (n : ℕ) → fault.0 ≢ faults.BadEntry n) }

        ensures stays { D.tells → IfOk result (λ opening. Stays (D.sight disk) (D.sight opening.disk)) }
        ensures stays_err { D.tells → IfErr result (λ fault. Stays (D.sight disk) (D.sight fault.1)) }
        ensures disk_fault { IfErr result (λ fault. fault.0 ≡ faults.DiskFault →
            HasRisen (D.faults disk) (D.faults fault.1)) }
        ensures later { IfOk result (λ opening. D.faults disk ≤ D.faults opening.disk) }
        ensures later_err { IfErr result (λ fault. D.faults disk ≤ D.faults fault.1) }
    {
        match Journal::reopen(alloc, disk) {
            Ok((journal, places)) => Ok(Opening {
                journal,
                places,
                history: History::new(),
                count: 0,
                behind: HEADER,
            }),
            Err((fault, disk)) => Err((fault.into(), disk)),
        }
    }
}

impl<D: Disk> Opening<D> {
    /// The next entry and its place, or None behind the last. It makes one call of the disk, and takes memory for that
    /// entry alone.
    pub fn next(&mut self, alloc: Global) -> Result<Option<(Entry, Place)>, OpenFault>
        // An entry comes behind those that were read. At the end, and with a fault, these are what they were.
        ensures some { IfOk result (λ found. IfSome found (λ next.
            self.new.read ≡ with_entry self.old.read next.0)) }
        ensures place { IfOk result (λ found. IfSome found (λ next. next.1 ≡ place_behind self.old.read next.0)) }
        ensures written { IfOk result (λ found. IfSome found (λ next. CanBeWritten next.0)) }
        ensures within { IfOk result (λ found. IfSome found (λ next.
            length self.old.read < length self.old.places)) }
        ensures none { IfOk result (λ found. found ≡ None →
            (self.new ≡ self.old) × (length self.old.read ≡ length self.old.places)) }
        ensures err { OnErr result (self.new.read ≡ self.old.read) }
        ensures same { self.new ≡ record self.old { disk = self.new.disk; read = self.new.read } }

        // Over the file of texts it is the entry whose text is the next. BadEntry is told exactly where that text is no
        // entry's, and its number, from 0, is how many were read; over the journal of entries it never comes.
        ensures reads { D.tells → (texts : List Bytes) → Reads D.sight self.old texts → Reads D.sight self.new texts }
        ensures bad_entry { D.tells → (texts : List Bytes) → Reads D.sight self.old texts →
            (number : ℕ) → IsErrOf result (faults.BadEntry number) → StopsAtBad number self.old.read texts }
        ensures refused { D.tells → (list : List AnEntry) → Opens D.sight self.old list →
            (number : ℕ) → IsErrOf result (faults.BadEntry number) → ⊥ }
        ensures not_a_journal { (place : ℕ) → IsErrOf result (faults.NotAJournal place) → ⊥ }

        ensures stays { D.tells → Stays (D.sight self.old.disk) (D.sight self.new.disk) }
        ensures disk_fault { IsErrOf result faults.DiskFault →
            HasRisen (D.faults self.old.disk) (D.faults self.new.disk) }
        ensures later { D.faults self.old.disk ≤ D.faults self.new.disk }
    {
        a_disk_is_so::<D>();
        match place_of(&self.places, self.count) {
            Some(place) => {
                let entry = self.step(alloc, place)?;
                Ok(Some((entry, place)))
            }
            None => Ok(None),
        }
    }

    // Reads the next entry, which stands at this place.
    fn step(&mut self, alloc: Global, place: Place) -> Result<Entry, OpenFault>
        requires { slice_get self.old.places (length self.old.read) ≡ Some place }
        ensures some { IfOk result (λ entry. self.new.read ≡ with_entry self.old.read entry) }
        ensures place { IfOk result (λ entry. place ≡ place_behind self.old.read entry) }
        ensures written { IfOk result CanBeWritten }
        ensures err { OnErr result (self.new.read ≡ self.old.read) }
        ensures same { self.new ≡ record self.old { disk = self.new.disk; read = self.new.read } }
        ensures reads { D.tells → (texts : List Bytes) → Reads D.sight self.old texts → Reads D.sight self.new texts }
        ensures bad_entry { D.tells → (texts : List Bytes) → Reads D.sight self.old texts →
            (number : ℕ) → IsErrOf result (faults.BadEntry number) → StopsAtBad number self.old.read texts }
        ensures not_a_journal { (place : ℕ) → IsErrOf result (faults.NotAJournal place) → ⊥ }
        ensures rests { D.tells → Rests (D.sight self.old.disk) (D.sight self.new.disk) }
        ensures disk_fault { IsErrOf result faults.DiskFault →
            HasRisen (D.faults self.old.disk) (D.faults self.new.disk) }
        ensures later { D.faults self.old.disk ≤ D.faults self.new.disk }
    {
        let number = self.count as u64;
        let (encoded, entry) = read_entry(alloc, &mut self.journal, place, number)?;
        match end_of(
            self.behind,
            self.journal.end(),
            place,
            encoded.bytes().len(),
        ) {
            Some(behind) => {
                self.history = self.history.and(&encoded);
                self.count += 1;
                self.behind = behind;
                Ok(entry)
            }
            None => Err(OpenFault::BadEntry(number)),
        }
    }

    /// The entries, once all were read. It takes no memory.
    pub fn done(self) -> Chronicle<D>
        requires { length self.read ≡ length self.places }
        ensures is { result ≡ record {
          entries = self.read;
          interrupted = None;
          down = false;
          disk = self.disk;
          end = self.end;
          spare = result.spare;
        } }

        // Over the file of texts it is the journal of these entries, and a crash leaves it.
        ensures stands { D.tells → (texts : List Bytes) → Reads D.sight self texts →
            Stands D.sight result × IsJournalOf self.read (D.sight self.disk).seen }

        // Over the journal of entries it is these.
        ensures list { D.tells → (list : List AnEntry) → Opens D.sight self list → self.read ≡ list }

        // What was found by a restart carries on what was there before it.
        ensures carries { D.tells → (was : ChronicleState D) → Stays (D.sight was.disk) (D.sight self.disk) →
            (Stands D.sight was → Finds D.sight was self) → CarriesOn D.sight NothingMay was result }
    {
        a_disk_is_so::<D>();
        a_disk_holds_one_list();
        let Opening {
            journal,
            places: _,
            history,
            count: _,
            behind: _,
        } = self;
        Chronicle::of(Drive::Open(journal), history, None, false)
    }

    /// Goes back to what was known before a restart, and is down over the disk. It takes no memory.
    pub fn back_to(self, past: Past) -> Chronicle<D>
        ensures down { result ≡ down_over past self.disk }
        ensures carries { D.tells → (was : ChronicleState D) → past ≡ past_of was →
            Stays (D.sight was.disk) (D.sight self.disk) → CarriesOn D.sight NothingMay was result }
    {
        past.over(self.into_disk())
    }
}

// The place of a number, if there is one.
fn place_of(places: &[Place], number: usize) -> Option<Place>
    ensures is { result ≡ slice_get places.now number }
    ensures within { IfSome result (λ _. number < length places.now) }
    ensures past { result ≡ None → length places.now ≤ number }
{
    places.get(number).copied()
}

// Where an entry of so many bytes ends, if this is its place in a journal that ends there: that behind entries which
// end at `behind`.
fn end_of(behind: u64, end: u64, place: Place, size: usize) -> Option<u64>
    ensures some { IfSome result (λ last. (place ≡ record { at = behind + framing; length = size })
        × (last ≡ behind + framing + size)) }
    ensures none { result ≡ None → place ≡ record { at = behind + framing; length = size } →
        behind + framing + size ≤ end → ⊥ }
{
    let at = behind.checked_add(FRAMING)?;
    if at != place.at || place.length as usize != size {
        return None;
    }
    let last = at.checked_add(u64::from(place.length))?;
    if last > end {
        return None;
    }
    Some(last)
}

// Reads the entry at a place, which has this number.
fn read_entry<D: Disk>(
    alloc: Global,
    journal: &mut Journal<D>,
    place: Place,
    number: u64,
) -> Result<(Encoded, Entry), OpenFault>
    ensures same { IfOk result (λ read. read.0 ≡ read.1) }
    ensures can { IfOk result (λ read. CanBeWritten read.1) }
    ensures is { D.tells → (texts : List Bytes) (text : Bytes) → IsFile texts (D.sight journal.old.disk).seen →
        StandsAt place text texts →
        IfOk result (λ read. IsEntry read.1 text) }
    ensures bad_entry { D.tells → (texts : List Bytes) (text : Bytes) → IsFile texts (D.sight journal.old.disk).seen →
        StandsAt place text texts → (bad : ℕ) → IsErrOf result (faults.BadEntry bad) →
        (bad ≡ number) × ((entry : AnEntry) → IsEntry entry text → ⊥) }
    ensures number { (bad : ℕ) → IsErrOf result (faults.BadEntry bad) → bad ≡ number }
    ensures not_a_journal { (at : ℕ) → IsErrOf result (faults.NotAJournal at) → ⊥ }
    ensures rests { D.tells → Rests (D.sight journal.old.disk) (D.sight journal.new.disk) }
    ensures journal { journal.new ≡ record journal.old { disk = journal.new.disk } }
    ensures disk_fault { IsErrOf result faults.DiskFault →
        HasRisen (D.faults journal.old.disk) (D.faults journal.new.disk) }
    ensures later { D.faults journal.old.disk ≤ D.faults journal.new.disk }
{
    let bytes = journal.read(alloc, place)?;
    match Encoded::decode(alloc, bytes) {
        Ok(read) => Ok(read),
        Err(EntryFault::Syntax(_)) => Err(OpenFault::BadEntry(number)),
        Err(EntryFault::NoMemory) => Err(OpenFault::NoMemory),
    }
}
