ghost use Rattle.std.specs.Prelude.{◌≡◌, ◌≢◌, ℕ, ◌≤◌, List, [], ◌∷◌, false, length, option_map, None, IsErrOf, IfOk, OnOk, IfErr};
ghost use Rattle.pec_outside.specs.DiskModel.{GrowsTo, Rests, Stays};
ghost use Rattle.pec_outside.specs.Flow.{HasRisen};
ghost use Rattle.pec_directory.specs.Canonical.{digest_of};
ghost use Rattle.pec_directory.specs.Directory.{providers_of};
ghost use Rattle.pec_records.specs.Entry.{IsWithinLimits};
ghost use Rattle.pec_records.specs.declared.entries.Entry.{Entry as SomeEntry};
ghost use Rattle.pec_records.specs.declared.entries.Entry.TheVariants as entries;
ghost use Rattle.pec_types.specs.Bytes.{Bytes};
ghost use Rattle.pec_ledger.specs.OfDirectory.{IsOf};
ghost use Rattle.pec_ledger.specs.Trade.{Trade};
ghost use Rattle.pec_chronicle.specs.Chronicle.{IsJournalOf, Stands};
ghost use Rattle.pec_chronicle.specs.Opening.{Opens, Reads, place_behind};
ghost use Rattle.pec_chronicle.specs.declared.faults.CreateFault.TheVariants as create;
ghost use Rattle.pec_stock.specs.Opening.{IsHere, IsOutside, IsUnfit, NotOwn, digest_in};
ghost use Rattle.pec_stock.specs.Stock.{Agree, Holds, IsOwn, size_made};
ghost use Rattle.pec_stock.specs.Stocking.{HasTaken};
ghost use Rattle.pec_stock.specs.declared.faults.ReopenFault.TheVariants as reopen;

use crate::faults::ReopenFault;
use crate::stocking::{put_in, take_in, take_rest};
use pec_chronicle::{Chronicle, CreateFault, Opening, texts_are_of_one_list};
use pec_directory::Directory;
use pec_outside::Disk;
use pec_records::{Entry, an_entry_is_told_exactly, an_entry_within_the_limits_is_short, encode};
use pec_shelf::{Draft, DraftFault, Shelf, a_directory_has_a_trade};
use pec_types::{NoMemory, Place};
use std::alloc::Global;

// Where the bytes of a journal's first entry stand: behind the header and its framing.
const FIRST_PLACE: u64 = 13;

/// The stock of a provider on an empty disk: its journal is made, of version 2, with its Start. A crash during the call
/// may leave a disk that holds bytes and is no journal, but no more of them than that journal has, or than it may have
/// left before. With a fault the disk comes back; one that was empty may hold bytes then, no more than these.
pub fn begin<D: Disk>(
    alloc: Global,
    directory: &Directory,
    me: u32,
    disk: D,
) -> Result<(Chronicle<D>, Shelf), (CreateFault, D)>
    ensures created { IfOk result (λ made. (made.0.entries ≡ entries.StartTwo me (digest_of (providers_of directory.now)) ∷ [])
        × (made.0.interrupted ≡ None) × (made.0.down ≡ false)) }
    ensures agree { IfOk result (λ made. (made.1.me ≡ me) × Agree directory.now made.0 made.1) }
    ensures stands { D.tells → IfOk result (λ made. Stands D.sight made.0) }

    // Not empty exactly where the disk holds a byte, unless the size can't be told; it then stays as it is.
    ensures empty { D.tells → OnOk result (length (D.sight disk).seen ≡ 0) }
    ensures not_empty { D.tells → IfErr result (λ fault. fault.0 ≡ create.NotEmpty →
        (length (D.sight disk).seen ≢ 0) × Rests (D.sight disk) (D.sight fault.1)) }
    ensures as_it_was { D.tells → length (D.sight disk).seen ≢ 0 → IfErr result (λ fault. Rests (D.sight disk) (D.sight fault.1)) }

    // At any moment of the call a crash leaves no more bytes than the journal has, or than one before the call.
    ensures any_moment { D.tells → IfOk result (λ made.
        GrowsTo (size_made directory.now me) (D.sight disk) (D.sight made.0.disk)) }
    ensures any_moment_err { D.tells → IfErr result (λ fault.
        GrowsTo (size_made directory.now me) (D.sight disk) (D.sight fault.1)) }
    ensures disk_fault { IfErr result (λ fault. fault.0 ≡ create.DiskFault → HasRisen (D.faults disk) (D.faults fault.1)) }
    ensures later { IfOk result (λ made. D.faults disk ≤ D.faults made.0.disk) }
    ensures later_err { IfErr result (λ fault. D.faults disk ≤ D.faults fault.1) }
{
    a_directory_has_a_trade();
    match started(alloc, directory, me) {
        Ok((start, shelf)) => match Chronicle::create(alloc, disk, start.entry()) {
            Ok(chronicle) => Ok((chronicle, shelf)),
            Err(fault) => Err(fault),
        },
        Err(NoMemory) => Err((CreateFault::NoMemory, disk)),
    }
}

/// The first entry of a provider's journal, and the half behind it.
fn started(alloc: Global, directory: &Directory, me: u32) -> Result<(Draft, Shelf), NoMemory>
    ensures start { IfOk result (λ made. made.0 ≡ entries.StartTwo me (digest_of (providers_of directory.now))) }
    ensures me { IfOk result (λ made. made.1.me ≡ me) }
    ensures holds { IfOk result (λ made. Holds directory.now made.1 (made.0 ∷ [])) }
    ensures own { IfOk result (λ made. (trade : Trade) → IsOf directory.now trade → IsOwn trade me (made.0 ∷ [])) }
{
    a_directory_has_a_trade();
    let digest = directory.digest(alloc)?;
    let start = Draft::plain(Entry::StartTwo {
        provider: me,
        digest,
    });
    let mut shelf = Shelf::new(alloc, me);
    let place = first_place(alloc, start.entry())?;
    put_in(&mut shelf, directory, &start, place)?;
    Ok((start, shelf))
}

/// Where the first entry of a journal stands.
fn first_place(alloc: Global, entry: &Entry) -> Result<Place, NoMemory>
    requires { IsWithinLimits entry.now }
    ensures { IfOk result (λ place. place ≡ place_behind [] entry.now) }
{
    an_entry_within_the_limits_is_short();
    let bytes = encode(alloc, entry)?;
    Ok(Place {
        at: FIRST_PLACE,
        length: bytes.len() as u32,
    })
}

/// The stock of a provider over the journal on a disk, which is first made durable as it reads. It writes nothing,
/// reads each entry once, and takes time and memory in proportion to the journal. With a fault the disk comes back.
pub fn open<D: Disk>(
    alloc: Global,
    directory: &Directory,
    me: u32,
    disk: D,
) -> Result<(Chronicle<D>, Shelf), (ReopenFault, D)>
    ensures agree { IfOk result (λ made. (made.1.me ≡ me) × Agree directory.now made.0 made.1) }
    ensures up { IfOk result (λ made. (made.0.down ≡ false) × (made.0.interrupted ≡ None)) }
    ensures opened { D.tells → IfOk result (λ made. IsJournalOf made.0.entries (D.sight disk).seen × Stands D.sight made.0) }
    ensures own { D.tells → (trade : Trade) (list : List SomeEntry) → IsOf directory.now trade → IsOwn trade me list
        → IsJournalOf list (D.sight disk).seen → IfErr result (λ refused. IsOutside refused.0) }
    ensures unfit { D.tells → (trade : Trade) → IsOf directory.now trade
        → IfErr result (λ refused. IsUnfit trade me (D.sight disk).seen refused.0) }
    ensures stays { D.tells → IfOk result (λ made. Stays (D.sight disk) (D.sight made.0.disk)) }
    ensures stays_err { D.tells → IfErr result (λ refused. Stays (D.sight disk) (D.sight refused.1)) }
    ensures disk_fault { IfErr result (λ refused. refused.0 ≡ reopen.DiskFault → HasRisen (D.faults disk) (D.faults refused.1)) }
    ensures later { IfOk result (λ made. D.faults disk ≤ D.faults made.0.disk) }
    ensures later_err { IfErr result (λ refused. D.faults disk ≤ D.faults refused.1) }
{
    a_directory_has_a_trade();
    match Chronicle::open(alloc, disk) {
        Ok(opening) => match opened(alloc, directory, me, opening) {
            Ok(made) => Ok(made),
            Err(refused) => Err(refused),
        },
        Err((fault, disk)) => Err((fault.into(), disk)),
    }
}

/// The stock over a journal that is opened, where its entries are the provider's own.
fn opened<D: Disk>(
    alloc: Global,
    directory: &Directory,
    me: u32,
    mut opening: Opening<D>,
) -> Result<(Chronicle<D>, Shelf), (ReopenFault, D)>
    requires fresh { opening.read ≡ [] }
    ensures agree { IfOk result (λ made. (made.1.me ≡ me) × Agree directory.now made.0 made.1) }
    ensures up { IfOk result (λ made. (made.0.down ≡ false) × (made.0.interrupted ≡ None)) }
    ensures opened { D.tells → (texts : List Bytes) → Reads D.sight opening texts → IfOk result (λ made.
        IsJournalOf made.0.entries (D.sight opening.disk).seen × Stands D.sight made.0) }
    ensures own { D.tells → (trade : Trade) (list : List SomeEntry) → IsOf directory.now trade → IsOwn trade me list
        → Opens D.sight opening list → IfErr result (λ refused. IsOutside refused.0) }
    ensures unfit { D.tells → (texts : List Bytes) → Reads D.sight opening texts → (trade : Trade) → IsOf directory.now trade
        → IfErr result (λ refused. IsUnfit trade me (D.sight opening.disk).seen refused.0) }
    ensures stays { D.tells → IfOk result (λ made. Stays (D.sight opening.disk) (D.sight made.0.disk)) }
    ensures stays_err { D.tells → IfErr result (λ refused. Stays (D.sight opening.disk) (D.sight refused.1)) }
    ensures disk_fault { IfErr result (λ refused. refused.0 ≡ reopen.DiskFault → HasRisen (D.faults opening.disk) (D.faults refused.1)) }
    ensures later { IfOk result (λ made. D.faults opening.disk ≤ D.faults made.0.disk) }
    ensures later_err { IfErr result (λ refused. D.faults opening.disk ≤ D.faults refused.1) }
{
    match whole(alloc, directory, me, &mut opening) {
        Ok(shelf) => Ok((opening.done(), shelf)),
        Err(fault) => Err((fault, opening.into_disk())),
    }
}

/// The half behind all entries of a journal that is opened, where they are the provider's own.
pub(crate) fn whole<D: Disk>(
    alloc: Global,
    directory: &Directory,
    me: u32,
    opening: &mut Opening<D>,
) -> Result<Shelf, ReopenFault>
    requires fresh { opening.old.read ≡ [] }
    ensures me { IfOk result (λ shelf. shelf.me ≡ me) }
    ensures holds { IfOk result (λ shelf. Holds directory.now shelf opening.new.read) }
    ensures ends { IfOk result (λ shelf. opening.new.end ≡ shelf.half.end) }
    ensures own { (trade : Trade) → IsOf directory.now trade → OnOk result (IsOwn trade me opening.new.read) }
    ensures all { OnOk result (length opening.new.read ≡ length opening.new.places) }
    ensures reads { D.tells → (texts : List Bytes) → Reads D.sight opening.old texts → Reads D.sight opening.new texts }

    // What is refused is unfit; a provider's own entries aren't.
    ensures unfit { D.tells → (texts : List Bytes) → Reads D.sight opening.old texts → (trade : Trade) → IsOf directory.now trade
        → IfErr result (IsUnfit trade me (D.sight opening.old.disk).seen) }
    ensures outside { D.tells → (list : List SomeEntry) → Opens D.sight opening.old list
        → (trade : Trade) → IsOf directory.now trade → IsOwn trade me list → IfErr result IsOutside }
    ensures stays { D.tells → Stays (D.sight opening.old.disk) (D.sight opening.new.disk) }
    ensures disk_fault { IsErrOf result reopen.DiskFault → HasRisen (D.faults opening.old.disk) (D.faults opening.new.disk) }
    ensures later { D.faults opening.old.disk ≤ D.faults opening.new.disk }
{
    a_directory_has_a_trade();
    let mut shelf = Shelf::new(alloc, me);
    take_first(alloc, directory, opening, &mut shelf)?;
    take_rest(alloc, directory, opening, &mut shelf)?;
    // A disk that tells what it holds has them end where the half says.
    if opening.end() != shelf.end() {
        return Err(ReopenFault::NotAJournal(opening.end()));
    }
    Ok(shelf)
}

/// Takes the first entry of a journal in, where it is the Start of one of this directory and provider.
fn take_first<D: Disk>(
    alloc: Global,
    directory: &Directory,
    opening: &mut Opening<D>,
    shelf: &mut Shelf,
) -> Result<(), ReopenFault>
    requires fresh { opening.old.read ≡ [] }
    requires holds { Holds directory.now shelf.old [] }
    ensures taken { OnOk result (HasTaken directory.now shelf.old.me shelf.new opening.new.read) }
    ensures first { OnOk result (length opening.new.read ≡ 1) }
    ensures here { (trade : Trade) → IsOf directory.now trade → OnOk result (IsHere trade opening.new.read) }
    ensures reads { D.tells → (texts : List Bytes) → Reads D.sight opening.old texts → Reads D.sight opening.new texts }
    ensures unfit { D.tells → (texts : List Bytes) → Reads D.sight opening.old texts → (trade : Trade) → IsOf directory.now trade
        → IfErr result (IsUnfit trade shelf.old.me (D.sight opening.old.disk).seen) }
    ensures outside { D.tells → (list : List SomeEntry) → Opens D.sight opening.old list
        → (trade : Trade) → IsOf directory.now trade → IsOwn trade shelf.old.me list → IfErr result IsOutside }
    ensures stays { D.tells → Stays (D.sight opening.old.disk) (D.sight opening.new.disk) }
    ensures disk_fault { IsErrOf result reopen.DiskFault → HasRisen (D.faults opening.old.disk) (D.faults opening.new.disk) }
    ensures later { D.faults opening.old.disk ≤ D.faults opening.new.disk }
{
    an_entry_is_told_exactly();
    texts_are_of_one_list();
    let Some((entry, place)) = opening.next(alloc)? else {
        return Err(ReopenFault::BadEntry(0));
    };
    take_start(alloc, directory, shelf, entry, place)?;
    Ok(())
}

/// Takes an entry in as the first of a journal, where it is the Start of one of this directory and provider.
fn take_start(
    alloc: Global,
    directory: &Directory,
    shelf: &mut Shelf,
    entry: Entry,
    place: Place,
) -> Result<(), ReopenFault>
    requires holds { Holds directory.now shelf.old [] }
    requires place { place ≡ place_behind [] entry }
    ensures taken { OnOk result (HasTaken directory.now shelf.old.me shelf.new (entry ∷ [])) }
    ensures here { (trade : Trade) → IsOf directory.now trade → OnOk result (IsHere trade (entry ∷ [])) }
    ensures not_own { (trade : Trade) → IsOf directory.now trade → IfErr result (NotOwn trade shelf.old.me (entry ∷ [])) }
    ensures no_disk_fault { IfErr result (λ fault. fault ≢ reopen.DiskFault) }
{
    begins(alloc, directory, &entry)?;
    match take_in(shelf, directory, entry, place) {
        Ok(()) => Ok(()),
        Err(DraftFault::NotAStep) => Err(ReopenFault::BadEntry(0)),
        Err(DraftFault::NoMemory) => Err(ReopenFault::NoMemory),
    }
}

/// Whether an entry is the Start of a journal of this directory.
fn begins(alloc: Global, directory: &Directory, entry: &Entry) -> Result<(), ReopenFault>
    ensures here { (trade : Trade) → IsOf directory.now trade → OnOk result (IsHere trade (entry.now ∷ [])) }
    ensures not_own { (trade : Trade) (me : ℕ) → IsOf directory.now trade → IfErr result (NotOwn trade me (entry.now ∷ [])) }
    ensures no_disk_fault { IfErr result (λ fault. fault ≢ reopen.DiskFault) }
{
    let Some(digest) = digest_in(entry) else {
        return Err(ReopenFault::BadEntry(0));
    };
    let given = directory.digest(alloc)?;
    if digest.as_slice() != given.as_slice() {
        return Err(ReopenFault::OtherDirectory(*digest, given));
    }
    Ok(())
}

/// The digest of a directory that a Start, of either version, keeps.
fn digest_in(entry: &Entry) -> Option<&[u8; 32]>
    ensures { option_map (λ digest. digest.now) result ≡ digest_in entry.now }
{
    match entry {
        Entry::Start { digest, .. } => Some(digest),
        Entry::StartTwo { digest, .. } => Some(digest),
        _ => None,
    }
}
