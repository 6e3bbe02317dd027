ghost use Rattle.std.specs.Prelude.{◌≡◌, ◌≤◌, false, Some, IsErrOf, IfOk, OnOk, IfErr};
ghost use Rattle.pec_types.specs.declared.turns.ProviderFault.TheVariants as faults;
ghost use Rattle.pec_outside.specs.Flow.{HasRisen};
ghost use Rattle.pec_records.specs.Entry.{IsWithinLimits};
ghost use Rattle.pec_ledger.specs.OfDirectory.{IsOf};
ghost use Rattle.pec_ledger.specs.Trade.{Trade};
ghost use Rattle.pec_chronicle.specs.Carrying.{CarriesOn, NothingMay, ThisMay};
ghost use Rattle.pec_chronicle.specs.Chronicle.{HasRoom};
ghost use Rattle.pec_shelf.specs.Looked.{Looked};
ghost use Rattle.pec_shelf.specs.Prepared.{IsStepOf};
ghost use Rattle.pec_stock.specs.Entering.{AreMarks, Entered, Failed, OnlyMay};
ghost use Rattle.pec_stock.specs.Stock.{Agree};

use pec_chronicle::{AppendFault, Chronicle, Encoded};
use pec_directory::Directory;
use pec_journal::entries_stand_at_their_places;
use pec_outside::Disk;
use pec_shelf::{Draft, Shelf, moment_of, what_is_kept_goes_on};
use pec_types::{Mark, ProviderFault, Steps};
use std::alloc::Global;

/// What isn't touched carries on: a call that leaves the entries alone says so by this one.
pub fn stands_still<D: Disk>(chronicle: &Chronicle<D>)
    ensures { D.tells → CarriesOn D.sight NothingMay chronicle.now chronicle.now }
{}

/// Appends an entry that is a step of the half, and takes it in, with its place, once it is durable. All memory is
/// taken before. The answer is the marks of a clock call, in order of number and recipients, and none for another
/// entry. It comes to `JournalFull`, to `DiskFault` and to want of memory alone. The acceptances that a clock call
/// looks up are counted as steps.
pub fn enter<D: Disk>(
    alloc: Global,
    directory: &Directory,
    chronicle: &mut Chronicle<D>,
    shelf: &mut Shelf,
    draft: &Draft,
    steps: &mut Steps,
) -> Result<Vec<Mark>, ProviderFault>
    requires up { chronicle.old.down ≡ false }
    requires agree { Agree directory.now chronicle.old shelf.old }
    requires limits { IsWithinLimits draft.now }
    requires step { IsStepOf directory.now shelf.old draft.now }
    ensures marks { IfOk result (λ marks. AreMarks directory.now shelf.old draft.now marks.items) }
    ensures entered { OnOk result (Entered chronicle.old chronicle.new draft.now) }
    ensures failed { IfErr result (Failed chronicle.old chronicle.new draft.now) }
    ensures agree { Agree directory.now chronicle.new shelf.new }
    ensures me { shelf.new.me ≡ shelf.old.me }
    ensures looked { (trade : Trade) → IsOf directory.now trade
        → Looked trade shelf.old draft.now shelf.new.looks steps.old steps.new result }
    ensures carries { D.tells → CarriesOn D.sight (OnlyMay chronicle.old.entries (Some draft.now)) chronicle.old chronicle.new }
    ensures disk_fault { IsErrOf result faults.DiskFault → HasRisen (D.faults chronicle.old.disk) (D.faults chronicle.new.disk) }
    ensures later { D.faults chronicle.old.disk ≤ D.faults chronicle.new.disk }
{
    what_is_kept_goes_on();
    entries_stand_at_their_places();
    let entry = draft.entry();
    moment_of(entry);
    let encoded = chronicle.reserve(alloc, entry)?;
    let place = chronicle.next_place(&encoded);
    let ready = shelf.prepare(directory, draft, place, steps)?;
    append(chronicle, encoded)?;
    Ok(shelf.commit(ready))
}

/// Appends an entry for which there is room in memory, where the journal is up.
#[tactic(auto, unfolding(pec_ledger::specs::Steps::size_of))]
fn append<D: Disk>(chronicle: &mut Chronicle<D>, entry: Encoded) -> Result<(), ProviderFault>
    requires up { chronicle.old.down ≡ false }
    requires room { HasRoom chronicle.old entry }
    ensures entered { OnOk result (Entered chronicle.old chronicle.new entry) }
    ensures failed { IfErr result (Failed chronicle.old chronicle.new entry) }
    ensures carries { D.tells → CarriesOn D.sight (ThisMay chronicle.old.entries entry) chronicle.old chronicle.new }
    ensures disk_fault { IsErrOf result faults.DiskFault → HasRisen (D.faults chronicle.old.disk) (D.faults chronicle.new.disk) }
    ensures later { D.faults chronicle.old.disk ≤ D.faults chronicle.new.disk }
{
    match chronicle.append(entry) {
        Ok(_) => Ok(()),
        Err(AppendFault::DiskFault) => Err(ProviderFault::DiskFault),
        Err(AppendFault::JournalFull) => Err(ProviderFault::JournalFull),
    }
}
