ghost use Rattle.std.specs.Prelude.{◌≡◌, ◌≢◌, ℕ, ◌+◌, ◌<◌, ◌≤◌, ◌^◌, ◌↔◌, Bool, true, false, List, [], ◌∷◌, ◌++◌, length, take, drop, IsErrOf, IfOk, OnOk, IfErr, OnErr};
ghost use Rattle.pec_outside.specs.Flow.{HasRisen};
ghost use Rattle.pec_outside.specs.DiskModel.{GrowsTo, LeavesOnly, Only, Rests, Torn, written};
ghost use Rattle.pec_journal.specs.JournalFile.{IsFile, IsBeforeOrAfter, IsShort, StandsAt, appended, framed, framing, open_gate, closed_gate, header};
ghost use Rattle.pec_journal.specs.JournalState.{JournalState, Keeps};
ghost use Rattle.pec_journal.specs.declared.faults.AppendFault.TheVariants as append;
ghost use Rattle.pec_journal.specs.declared.faults.CreateFault.TheVariants as create;
ghost use Rattle.pec_journal.specs.declared.faults.ReadFault.TheVariants as reading;
ghost use Rattle.pec_journal.specs.declared.journal.TheConstants.{ENTRY_LIMIT, JOURNAL_LIMIT};

use crate::faults::{AppendFault, CreateFault, ReadFault};
use crate::room::Room;
use pec_outside::{Disk, Failed, write_through};
use pec_types::{NoMemory, Place};
use std::alloc::Global;
use std::marker::Model;

/// The most bytes of an entry. This project's profile.
pub const ENTRY_LIMIT: usize = 67_108_864;

/// The most bytes before the closed gate. This project's profile.
pub const JOURNAL_LIMIT: u64 = 1_099_511_627_776;

/// The header, and the closed gate of a journal with no entry.
const NO_ENTRIES: [u8; 9] = *b"PECJRN1\n\0";

const HEADER_LENGTH: u64 = 8;

/// How many bytes an entry takes in a journal beside its own. This project's profile.
pub const FRAMING: u64 = 5;

const OPEN_GATE: u8 = 1;

/// Entries on a disk, each of which outlives a crash from the moment on that its append is answered. This project's
/// profile.
#[derive(Drop)]
pub struct Journal<D> {
    disk: D,
    end: u64,
    spent: bool,
    room: Room,
}

impl<D> Model for Journal<D> {
    ghost Value = { JournalState D };

    ghost view = { λ journal. record { disk = journal.disk; end = journal.end; spent = journal.spent; spare = journal.room.spare } };
}

impl<D> Journal<D> {
    // The journal over a disk whose closed gate stands at this place.
    pub(crate) fn over(disk: D, end: u64) -> Journal<D>
        ensures { result ≡ record { disk = disk; end = end; spent = false; spare = 0 } }
    {
        Journal {
            disk,
            end,
            spent: false,
            room: Room::none(),
        }
    }

    /// The place of the closed gate, in bytes from 0. It takes no memory.
    pub fn end(&self) -> u64
        ensures { result ≡ self.now.end }
    {
        self.end
    }

    /// Whether an append answered a fault of the disk. It takes no memory.
    pub fn spent(&self) -> bool
        ensures { result ≡ self.now.spent }
    {
        self.spent
    }

    /// The disk. It takes no memory.
    pub fn into_disk(self) -> D
        ensures { result ≡ self.disk }
    {
        let Journal {
            disk,
            end: _,
            spent: _,
            room: _,
        } = self;
        disk
    }

    /// Makes room for an entry of so many bytes with its framing. It makes no call of the disk.
    pub fn reserve(&mut self, alloc: Global, length: usize) -> Result<(), NoMemory>
        ensures room { OnOk result (length ≤ self.new.spare) }
        ensures same { self.new ≡ record self.old { spare = self.new.spare } }
    {
        self.room.reserve(alloc, length)?;
        Ok(())
    }
}

impl<D: Disk> Journal<D> {
    /// A journal with no entry on an empty disk. It takes no memory. A crash during the call may leave a disk that
    /// holds bytes and is no journal, but no more of them than the journal has, or than it may have left before. With a
    /// fault the disk comes back.
    pub fn create(mut disk: D) -> Result<Journal<D>, (CreateFault, D)>
        ensures created { D.tells → IfOk result (λ journal. Keeps (D.sight journal.disk) [] journal.end) }
        ensures bytes { D.tells → IfOk result (λ journal. (D.sight journal.disk).seen ≡ header ++ closed_gate ∷ []) }
        ensures fresh { IfOk result (λ journal. (journal.end ≡ length header) × (journal.spent ≡ false)) }

        // Not empty exactly where the disk holds a byte, unless the size can't be told; it then stays as it is.
        ensures empty { D.tells → OnOk result (length (D.sight disk).seen ≡ 0) }
        ensures not_empty { D.tells → IfErr result (λ fault. fault.0 ≡ create.NotEmpty →
            (length (D.sight disk).seen ≢ 0) × Rests (D.sight disk) (D.sight fault.1)) }
        ensures as_it_was { D.tells → length (D.sight disk).seen ≢ 0 → IfErr result (λ fault.
            Rests (D.sight disk) (D.sight fault.1)) }

        // At any moment of the call a crash leaves no more bytes than header and gate, or than one before the call.
        ensures any_moment { D.tells → IfOk result (λ journal. GrowsTo (length header + 1) (D.sight disk) (D.sight journal.disk)) }
        ensures any_moment_err { D.tells → IfErr result (λ fault. GrowsTo (length header + 1) (D.sight disk) (D.sight fault.1)) }

        ensures disk_fault { IfErr result (λ fault. fault.0 ≡ create.DiskFault → HasRisen (D.faults disk) (D.faults fault.1)) }
        ensures later { IfOk result (λ journal. D.faults disk ≤ D.faults journal.disk) }
        ensures later_err { IfErr result (λ fault. D.faults disk ≤ D.faults fault.1) }
    {
        match disk.size() {
            Ok(0) => (),
            Ok(_) => return Err((CreateFault::NotEmpty, disk)),
            Err(Failed) => return Err((CreateFault::DiskFault, disk)),
        }
        match write_through(&mut disk, 0, &NO_ENTRIES) {
            Ok(()) => Ok(Journal::over(disk, HEADER_LENGTH)),
            Err(Failed) => Err((CreateFault::DiskFault, disk)),
        }
    }

    /// Puts an entry behind the others, by four calls of the disk: a write behind the closed gate, a sync, a write of
    /// the gate, a sync. It answers the place of the entry's bytes. It takes no memory.
    pub fn append(&mut self, bytes: &[u8]) -> Result<Place, AppendFault>
        requires { length bytes.now ≤ self.old.spare }

        // A crash at any moment of the call leaves the entries before it, or these and the new one.
        ensures any_moment { D.tells → (entries : List (List ℕ)) → Keeps (D.sight self.old.disk) entries self.old.end →
            LeavesOnly (D.sight self.old.disk) (D.sight self.new.disk) (IsBeforeOrAfter entries bytes.now) }
        ensures grows { D.tells → self.old.end < length (D.sight self.old.disk).seen →
            GrowsTo (self.old.end + framing + length bytes.now + 1) (D.sight self.old.disk) (D.sight self.new.disk) }

        // After Ok a crash leaves the new one, too.
        ensures ok { D.tells → (entries : List (List ℕ)) → Keeps (D.sight self.old.disk) entries self.old.end →
            OnOk result (Keeps (D.sight self.new.disk) (entries ++ bytes.now ∷ []) self.new.end) }
        ensures bytes { D.tells → self.old.end < length (D.sight self.old.disk).seen →
            OnOk result ((D.sight self.new.disk).seen ≡ appended (D.sight self.old.disk).seen self.old.end bytes.now) }
        ensures place { IfOk result (λ place. place ≡ record { at = self.old.end + framing; length = length bytes.now }) }
        ensures after { OnOk result (self.new ≡
            record { disk = self.new.disk; end = self.old.end + framing + length bytes.now; spent = false; spare = self.new.spare }) }

        // Each fault comes exactly there, the first that applies, but for the disk's, which comes only after a fault of
        // it.
        ensures spent { IsErrOf result append.Spent ↔ (self.old.spent ≡ true) }
        ensures too_long { IsErrOf result append.TooLong ↔ (self.old.spent ≡ false) × (ENTRY_LIMIT < length bytes.now) }
        ensures full { IsErrOf result append.Full ↔ (self.old.spent ≡ false) × (length bytes.now ≤ ENTRY_LIMIT)
            × (JOURNAL_LIMIT < self.old.end + framing + length bytes.now) }
        ensures disk_fault { IsErrOf result append.DiskFault → HasRisen (D.faults self.old.disk) (D.faults self.new.disk) }
        ensures later { D.faults self.old.disk ≤ D.faults self.new.disk }

        // After a fault of the disk the journal is spent. After any other it is as it was.
        ensures broken { IsErrOf result append.DiskFault →
            self.new ≡ record { disk = self.new.disk; end = self.old.end; spent = true; spare = self.new.spare } }
        ensures refused { IfErr result (λ fault. fault ≢ append.DiskFault → self.new ≡ record self.old { spare = self.new.spare }) }
    {
        if self.spent {
            return Err(AppendFault::Spent);
        }
        if bytes.len() > ENTRY_LIMIT {
            return Err(AppendFault::TooLong);
        }
        let length = bytes.len() as u32;
        if self.end > JOURNAL_LIMIT - FRAMING - u64::from(length) {
            return Err(AppendFault::Full);
        }
        self.room.fill(bytes);
        match put_entry(&mut self.disk, self.end, self.room.bytes()) {
            Ok(()) => {
                let at = self.end + FRAMING;
                self.end = at + u64::from(length);
                Ok(Place { at, length })
            }
            Err(Failed) => {
                self.spent = true;
                Err(AppendFault::DiskFault)
            }
        }
    }

    /// The bytes of the entry at a place that `append` or `reopen` answered, by one call of the disk. Where the disk
    /// gives fewer, which one that tells its bytes never does, those are the answer. A fault of the disk doesn't make
    /// the journal spent.
    pub fn read(&mut self, alloc: Global, place: Place) -> Result<Vec<u8>, ReadFault>
        ensures entry { D.tells → (entries : List (List ℕ)) (entry : List ℕ) → IsFile entries (D.sight self.old.disk).seen →
            StandsAt place entry entries → IfOk result (λ bytes. bytes.items ≡ entry) }

        // Whatever the place, what the disk has there is the answer, up to that length.
        ensures given { D.tells →
            IfOk result (λ bytes. bytes.items ≡ take place.length (drop place.at (D.sight self.old.disk).seen)) }
        ensures within { IfOk result (λ bytes. length bytes.items ≤ place.length) }

        // The entries stay what they were, now and after a crash.
        ensures rests { D.tells → Rests (D.sight self.old.disk) (D.sight self.new.disk) }
        ensures same { self.new ≡ record self.old { disk = self.new.disk } }
        ensures disk_fault { IsErrOf result reading.DiskFault → HasRisen (D.faults self.old.disk) (D.faults self.new.disk) }
        ensures later { D.faults self.old.disk ≤ D.faults self.new.disk }
    {
        let mut bytes = Vec::new(alloc);
        bytes.resize(place.length as usize, 0)?;
        let count = self.disk.read_at(place.at, bytes.as_mut_slice())?;
        bytes.truncate(count);
        Ok(bytes)
    }
}

// Puts a framed entry behind the closed gate, and opens the gate.
fn put_entry<D: Disk>(disk: &mut D, end: u64, piece: &[u8]) -> Result<(), Failed>
    requires { end + 1 < 2 ^ 64 }
    ensures any_moment { D.tells → (entries : List (List ℕ)) (entry : List ℕ) → Keeps (D.sight disk.old) entries end → IsShort entry →
        piece.now ≡ framed entry ++ closed_gate ∷ [] → LeavesOnly (D.sight disk.old) (D.sight disk.new) (IsBeforeOrAfter entries entry) }
    ensures grows { D.tells → end < length (D.sight disk.old).seen →
        GrowsTo (end + 1 + length piece.now) (D.sight disk.old) (D.sight disk.new) }
    ensures ok { D.tells → (entries : List (List ℕ)) (entry : List ℕ) → Keeps (D.sight disk.old) entries end → IsShort entry →
        piece.now ≡ framed entry ++ closed_gate ∷ [] →
        OnOk result (Keeps (D.sight disk.new) (entries ++ entry ∷ []) (end + framing + length entry)) }
    ensures bytes { D.tells → end < length (D.sight disk.old).seen → OnOk result
        ((D.sight disk.new).seen ≡ written (written (D.sight disk.old).seen (end + 1) piece.now) end (open_gate ∷ [])) }
    ensures later { D.faults disk.old ≤ D.faults disk.new }
    ensures cause { OnErr result (HasRisen (D.faults disk.old) (D.faults disk.new)) }
{
    write_through(disk, end + 1, piece)?;
    open_at(disk, end)?;
    Ok(())
}

// Opens the gate at a place: one byte, which a crash leaves as it was, or any other.
fn open_at<D: Disk>(disk: &mut D, end: u64) -> Result<(), Failed>
    ensures any_moment { D.tells → end ≤ length (D.sight disk.old).seen → Only (D.sight disk.old).seen (D.sight disk.old).may_leave →
        LeavesOnly (D.sight disk.old) (D.sight disk.new) (Torn end 1 (D.sight disk.old).seen) }
    ensures grows { D.tells → end ≤ length (D.sight disk.old).seen →
        GrowsTo (end + 1) (D.sight disk.old) (D.sight disk.new) }
    ensures written { D.tells → end ≤ length (D.sight disk.old).seen →
        OnOk result ((D.sight disk.new).seen ≡ written (D.sight disk.old).seen end (open_gate ∷ [])) }
    ensures durable { D.tells → end ≤ length (D.sight disk.old).seen →
        OnOk result (Only (D.sight disk.new).seen (D.sight disk.new).may_leave) }
    ensures later { D.faults disk.old ≤ D.faults disk.new }
    ensures cause { OnErr result (HasRisen (D.faults disk.old) (D.faults disk.new)) }
{
    write_through(disk, end, &[OPEN_GATE])?;
    Ok(())
}
