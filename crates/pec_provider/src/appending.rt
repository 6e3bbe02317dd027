ghost use Rattle.std.specs.Prelude.{◌≡◌, ℕ, ◌<◌, ◌≤◌, List, map, false, Some, IsErrOf, IfOk, OnOk};
ghost use Rattle.pec_types.specs.declared.moments.TheConstants.{END_OF_TIME};
ghost use Rattle.pec_types.specs.declared.turns.ProviderFault.TheVariants as faults;
ghost use Rattle.pec_outside.specs.Flow.{HasRisen};
ghost use Rattle.pec_directory.specs.Directory.{Kept};
ghost use Rattle.pec_records.specs.Entry.{IsWithinLimits};
ghost use Rattle.pec_ledger.specs.OfDirectory.{IsOf};
ghost use Rattle.pec_ledger.specs.Steps.{half, marks_by};
ghost use Rattle.pec_ledger.specs.Trade.{Trade};
ghost use Rattle.pec_plays.specs.Commands.{told_mark};
ghost use Rattle.pec_seal.specs.Seals.{Seals};
ghost use Rattle.pec_reception.specs.OfTrades.{world_at};
ghost use Rattle.pec_chronicle.specs.Carrying.{CarriesOn};
ghost use Rattle.pec_shelf.specs.Looked.{Looked};
ghost use Rattle.pec_stock.specs.Entering.{OnlyMay};
ghost use Rattle.pec_provider.specs.Appending.{Appends, MayEnter, WorksAt};
ghost use Rattle.pec_provider.specs.Provider.{Runs, RunsIn, desk_of};

use crate::provider::Provider;
use pec_outside::Disk;
use pec_reception::House;
use pec_seal::Sealer;
use pec_shelf::Draft;
use pec_stock::enter;
use pec_types::{Mark, Moment, ProviderFault, Steps};
use std::alloc::Global;

impl<D> Provider<D> {
    /// Whether the provider is at work at a moment: it is up, and its journal has no later moment. It takes no memory.
    pub fn at_work(&self, now: Moment) -> Result<(), ProviderFault>
        ensures works { (kept : List Kept) (seals : Seals) (me : ℕ) (trade : Trade) → Runs kept seals me self.now → IsOf kept trade
            → WorksAt trade me now (desk_of self.now) result }
        ensures up { OnOk result (self.now.chronicle.down ≡ false) }
        ensures no_disk_fault { IsErrOf result faults.DiskFault → ⊥ }
        ensures in_range { now < END_OF_TIME }
    {
        if self.is_down() {
            return Err(ProviderFault::Down);
        }
        let last = self.last();
        if now.seconds() < last.seconds() {
            return Err(ProviderFault::ClockBack(last));
        }
        Ok(())
    }
}

impl<D: Disk> Provider<D> {
    /// Appends an entry that is a step, and takes it in once it is durable. All memory is taken before. The answer is
    /// the marks of a clock call, and none for another entry. The acceptances that it looks up are counted as steps.
    // It takes the draft, so that the drop of one is written here alone, and not in every call that appends.
    pub(crate) fn append<S: Sealer>(
        &mut self,
        alloc: Global,
        house: &House<'_, S>,
        entry: Draft,
        steps: &mut Steps,
    ) -> Result<Vec<Mark>, ProviderFault>
        requires up { self.old.chronicle.down ≡ false }
        requires runs { RunsIn house.now self.old }
        requires limits { IsWithinLimits entry }
        requires step { MayEnter house.now.directory.now house.now.me self.old.chronicle.entries entry }
        ensures appends { (trade : Trade) → IsOf house.now.directory.now trade
            → Appends trade house.now.me entry (desk_of self.old) (desk_of self.new) result }
        ensures marks { (trade : Trade) → IsOf house.now.directory.now trade → IfOk result (λ marks. marks.items
            ≡ map told_mark
            (marks_by trade house.now.me (half trade house.now.me self.old.chronicle.entries) entry)) }
        ensures owed { (self.new.owed ≡ self.old.owed) × (self.new.places ≡ self.old.places) }
        ensures looked { (trade : Trade) → IsOf house.now.directory.now trade
            → Looked trade self.old.shelf entry self.new.shelf.looks steps.old steps.new result }
        ensures runs { RunsIn house.now self.new }
        ensures carries { D.tells → CarriesOn D.sight (OnlyMay self.old.chronicle.entries (Some entry))
            self.old.chronicle self.new.chronicle }
        ensures disk_fault { IsErrOf result faults.DiskFault → HasRisen (D.faults self.old.chronicle.disk)
            (D.faults self.new.chronicle.disk) }
        ensures later { D.faults self.old.chronicle.disk ≤ D.faults self.new.chronicle.disk }
    {
        enter(
            alloc,
            house.directory,
            &mut self.chronicle,
            &mut self.shelf,
            &entry,
            steps,
        )
    }
}
