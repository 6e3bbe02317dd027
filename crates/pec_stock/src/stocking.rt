ghost use Rattle.std.specs.Prelude.{◌≡◌, ℕ, ◌+◌, ◌^◌, ◌<◌, ◌≤◌, List, length, IsErrOf, IfOk, OnOk, IfErr};
ghost use Rattle.pec_outside.specs.DiskModel.{Stays};
ghost use Rattle.pec_outside.specs.Flow.{HasRisen};
ghost use Rattle.pec_types.specs.Bytes.{Bytes};
ghost use Rattle.pec_types.specs.declared.moments.TheConstants.{END_OF_TIME};
ghost use Rattle.pec_records.specs.declared.entries.Entry.{Entry as SomeEntry};
ghost use Rattle.pec_ledger.specs.OfDirectory.{IsOf};
ghost use Rattle.pec_ledger.specs.Steps.{half};
ghost use Rattle.pec_ledger.specs.Trade.{Trade};
ghost use Rattle.pec_chronicle.specs.Carrying.{with_entry};
ghost use Rattle.pec_chronicle.specs.Opening.{Opens, Reads, place_behind};
ghost use Rattle.pec_shelf.specs.Prepared.{IsStep, IsStepOf};
ghost use Rattle.pec_shelf.specs.declared.faults.DraftFault.TheVariants as drafting;
ghost use Rattle.pec_stock.specs.Opening.{IsHere, IsOutside, IsUnfit};
ghost use Rattle.pec_stock.specs.Stock.{Holds, IsOwn};
ghost use Rattle.pec_stock.specs.Stocking.{HasTaken};
ghost use Rattle.pec_stock.specs.declared.faults.ReopenFault.TheVariants as reopen;

use crate::faults::ReopenFault;
use pec_chronicle::{Opening, texts_are_of_one_list};
use pec_directory::Directory;
use pec_journal::entries_stand_at_their_places;
use pec_outside::{Disk, a_disk_is_so};
use pec_records::{Entry, an_entry_is_told_exactly};
use pec_shelf::{
    Draft, DraftFault, Shelf, a_directory_has_a_trade, drafted, moment_of, what_is_kept_goes_on,
};
use pec_types::{NoMemory, Place, Steps};
use std::alloc::Global;

/// Takes in all entries of a journal that are still to be read, as far as each is a step of the half before it.
pub(crate) fn take_rest<D: Disk>(
    alloc: Global,
    directory: &Directory,
    opening: &mut Opening<D>,
    shelf: &mut Shelf,
) -> Result<(), ReopenFault>
    requires taken { HasTaken directory.now shelf.old.me shelf.old opening.old.read }
    requires first { length opening.old.read ≡ 1 }
    ensures taken { OnOk result (HasTaken directory.now shelf.old.me shelf.new opening.new.read) }
    ensures all { OnOk result (length opening.new.read ≡ length opening.new.places) }
    ensures here { (trade : Trade) → IsHere trade opening.old.read → OnOk result (IsHere trade opening.new.read) }
    ensures reads { D.tells → (texts : List Bytes) → Reads D.sight opening.old texts → Reads D.sight opening.new texts }

    // Behind the Start of a journal of this directory what is refused is unfit; a provider's own entries aren't.
    ensures unfit { D.tells → (texts : List Bytes) → Reads D.sight opening.old texts
        → (trade : Trade) → IsOf directory.now trade → IsHere trade opening.old.read
        → IfErr result (IsUnfit trade shelf.old.me (D.sight opening.old.disk).seen) }
    ensures outside { D.tells → (list : List SomeEntry) → Opens D.sight opening.old list
        → (trade : Trade) → IsOf directory.now trade → IsOwn trade shelf.old.me list → IfErr result IsOutside }
    ensures stays { D.tells → Stays (D.sight opening.old.disk) (D.sight opening.new.disk) }
    ensures disk_fault { IsErrOf result reopen.DiskFault → HasRisen (D.faults opening.old.disk) (D.faults opening.new.disk) }
    ensures later { D.faults opening.old.disk ≤ D.faults opening.new.disk }
{
    a_disk_is_so::<D>();
    an_entry_is_told_exactly();
    texts_are_of_one_list();
    let mut number = 1;
    while let Some((entry, place)) = opening.next(alloc)? {
        match take_in(shelf, directory, entry, place) {
            Ok(()) => number += 1,
            Err(DraftFault::NotAStep) => return Err(ReopenFault::BadEntry(number)),
            Err(DraftFault::NoMemory) => return Err(ReopenFault::NoMemory),
        }
    }
    Ok(())
}

/// Takes an entry in with its place, where it is a step of the half.
pub(crate) fn take_in(
    shelf: &mut Shelf,
    directory: &Directory,
    entry: Entry,
    place: Place,
) -> Result<(), DraftFault>
    requires holds { (entries : List SomeEntry) × Holds directory.now shelf.old entries × (place ≡ place_behind entries entry) }
    ensures taken { (entries : List SomeEntry) → Holds directory.now shelf.old entries →
        OnOk result (Holds directory.now shelf.new (with_entry entries entry)) }
    ensures few { (entries : List SomeEntry) → Holds directory.now shelf.old entries → OnOk result (length entries + 1 < 2 ^ 64) }
    ensures me { shelf.new.me ≡ shelf.old.me }
    ensures step { (trade : Trade) → IsOf directory.now trade → OnOk result (IsStep trade shelf.old.me shelf.old.half entry) }
    ensures none { (trade : Trade) → IsOf directory.now trade →
        IsErrOf result drafting.NotAStep → IsStep trade shelf.old.me shelf.old.half entry → ⊥ }
{
    a_directory_has_a_trade();
    let draft = match drafted(shelf, directory, entry) {
        Ok(draft) => draft,
        Err(fault) => return Err(fault),
    };
    match put_in(shelf, directory, &draft, place) {
        Ok(()) => Ok(()),
        Err(NoMemory) => Err(DraftFault::NoMemory),
    }
}

/// Takes an entry in with its place, which is a step of the half. What it looks up is no step of a call.
pub(crate) fn put_in(
    shelf: &mut Shelf,
    directory: &Directory,
    draft: &Draft,
    place: Place,
) -> Result<(), NoMemory>
    requires holds { (entries : List SomeEntry) × Holds directory.now shelf.old entries
        × (place ≡ place_behind entries draft.now) }
    requires step { IsStepOf directory.now shelf.old draft.now }
    ensures taken { (entries : List SomeEntry) → Holds directory.now shelf.old entries →
        OnOk result (Holds directory.now shelf.new (with_entry entries draft.now)) }
    ensures few { (entries : List SomeEntry) → Holds directory.now shelf.old entries → OnOk result (length entries + 1 < 2 ^ 64) }
    ensures me { shelf.new.me ≡ shelf.old.me }
{
    what_is_kept_goes_on();
    entries_stand_at_their_places();
    moment_of(draft.entry());
    let ready = shelf.prepare(directory, draft, place, &mut Steps::new())?;
    shelf.commit(ready);
    Ok(())
}
