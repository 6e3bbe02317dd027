ghost use Rattle.std.specs.Prelude.{◌≡◌, ℕ, ◌<◌, ◌≤◌, List, None, Some, false, IfErr, IfOk, IfSome, IsErrOf, OnOk, length, slice_get};
ghost use Rattle.pec_outside.specs.Flow.{HasRisen};
ghost use Rattle.pec_records.specs.declared.entries.Entry.{Entry as SomeEntry};
ghost use Rattle.pec_ledger.specs.Trade.{Trade};
ghost use Rattle.pec_chronicle.specs.Carrying.{CarriesOn, NothingMay};
ghost use Rattle.pec_chronicle.specs.Chronicle.{Stands};
ghost use Rattle.pec_provider.specs.OfTrades.{world_at};
ghost use Rattle.pec_provider.specs.Provider.{RunsIn, desk_of};
ghost use Rattle.pec_provider.specs.Telling.{facts_taken};
ghost use Rattle.pec_provider.specs.Reading.{HasEnvelope, Reads as ReadsDesk};
ghost use Rattle.pec_types.specs.declared.turns.ProviderFault.TheVariants as answers;
ghost use Rattle.pec_extract.specs.Reading.{IsLogChanged, OnChanged, Reads};
ghost use Rattle.pec_extract.specs.Remembering.{AreTaken, facts_kept};
ghost use Rattle.pec_extract.specs.declared.faults.ExtractFault.TheVariants as faults;

use crate::faults::ExtractFault;
use crate::remembered::Remembered;
use pec_outside::Disk;
use pec_provider::{
    House, Provider, a_house_is_a_trade, a_provider_stands_still, facts_are_told_of_an_envelope,
};
use pec_records::Entry;
use pec_seal::Sealer;
use pec_types::{Facts, MsgId, NoMemory, ProviderFault};
use std::alloc::Global;

/// Has the facts of the original of a message remembered, where it was taken here: they are read in its envelope,
/// unless they were before. An entry that holds no envelope of it is told as changed.
pub(crate) fn remember<D: Disk, S: Sealer>(
    alloc: Global,
    house: &House<'_, S>,
    provider: &mut Provider<D>,
    remembered: &mut Remembered,
    id: MsgId,
) -> Result<(), ExtractFault>
    requires runs { RunsIn house.now provider.old }
    requires up { provider.old.chronicle.down ≡ false }
    ensures known { D.tells → Stands D.sight provider.old.chronicle
        → AreTaken (world_at house.now) house.now.me provider.old.chronicle.entries remembered.old
        → OnOk result (facts_kept remembered.new id
        ≡ facts_taken (world_at house.now) house.now.me provider.old.chronicle.entries id) }
    ensures taken { D.tells → Stands D.sight provider.old.chronicle
        → AreTaken (world_at house.now) house.now.me provider.old.chronicle.entries remembered.old
        → AreTaken (world_at house.now) house.now.me provider.old.chronicle.entries remembered.new }
    ensures original { D.tells → Stands D.sight provider.old.chronicle
        → AreTaken (world_at house.now) house.now.me provider.old.chronicle.entries remembered.old
        → OnOk result (HasEnvelope (world_at house.now) house.now.me provider.old.chronicle.entries id) }
    ensures changed { D.tells → Stands D.sight provider.old.chronicle → IfErr result (OnChanged
        (IsLogChanged (world_at house.now) house.now.me provider.old.chronicle.entries)) }
    ensures reads { Reads (desk_of provider.old) (desk_of provider.new) result }
    ensures owed { provider.new.owed ≡ provider.old.owed }
    ensures runs { RunsIn house.now provider.new }
    ensures carries { D.tells → CarriesOn D.sight NothingMay provider.old.chronicle provider.new.chronicle }
    ensures disk_fault { IsErrOf result faults.DiskFault
        → HasRisen (D.faults provider.old.chronicle.disk) (D.faults provider.new.chronicle.disk) }
    ensures no_write { IsErrOf result faults.WriteFault → ⊥ }
    ensures later { D.faults provider.old.chronicle.disk ≤ D.faults provider.new.chronicle.disk }
{
    facts_are_told_of_an_envelope();
    a_provider_stands_still(provider);
    if remembered.facts(id).is_some() {
        return Ok(());
    }
    let facts = read_taken(alloc, house, provider, id)?;
    note(remembered, id, facts)?;
    Ok(())
}

/// Remembers the facts of a message of which none are, where there are some.
fn note(remembered: &mut Remembered, id: MsgId, facts: Option<Facts>) -> Result<(), NoMemory>
    requires fresh { facts_kept remembered.old id ≡ None }
    ensures known { OnOk result (facts_kept remembered.new id ≡ facts) }
    ensures taken { (trade : Trade) (me : ℕ) (journal : List SomeEntry)
        → IfSome facts (λ facts. facts_taken trade me journal id ≡ Some facts)
        → AreTaken trade me journal remembered.old → AreTaken trade me journal remembered.new }
{
    match facts {
        Some(facts) => remembered.add(id, facts),
        None => Ok(()),
    }
}

/// The facts of the original of a message that was taken here, in whose envelope they are read; none of another one.
fn read_taken<D: Disk, S: Sealer>(
    alloc: Global,
    house: &House<'_, S>,
    provider: &mut Provider<D>,
    id: MsgId,
) -> Result<Option<Facts>, ExtractFault>
    requires runs { RunsIn house.now provider.old }
    requires up { provider.old.chronicle.down ≡ false }
    ensures told { D.tells → Stands D.sight provider.old.chronicle → IfOk result (λ facts. facts
        ≡ facts_taken (world_at house.now) house.now.me provider.old.chronicle.entries id) }
    ensures original { D.tells → Stands D.sight provider.old.chronicle
        → OnOk result (HasEnvelope (world_at house.now) house.now.me provider.old.chronicle.entries id) }
    ensures changed { D.tells → Stands D.sight provider.old.chronicle → IfErr result (OnChanged
        (IsLogChanged (world_at house.now) house.now.me provider.old.chronicle.entries)) }
    ensures reads { Reads (desk_of provider.old) (desk_of provider.new) result }
    ensures owed { provider.new.owed ≡ provider.old.owed }
    ensures runs { RunsIn house.now provider.new }
    ensures carries { D.tells → CarriesOn D.sight NothingMay provider.old.chronicle provider.new.chronicle }
    ensures disk_fault { IsErrOf result faults.DiskFault
        → HasRisen (D.faults provider.old.chronicle.disk) (D.faults provider.new.chronicle.disk) }
    ensures no_write { IsErrOf result faults.WriteFault → ⊥ }
    ensures later { D.faults provider.old.chronicle.disk ≤ D.faults provider.new.chronicle.disk }
{
    a_house_is_a_trade(house);
    facts_are_told_of_an_envelope();
    match provider.facts_taken(alloc, house, id) {
        Ok(facts) => Ok(Some(facts)),
        Err(ProviderFault::NoItem) => Ok(None),
        Err(ProviderFault::DiskFault) => Err(ExtractFault::DiskFault),
        Err(ProviderFault::Changed(number)) => Err(ExtractFault::Changed(number)),
        // Of a provider that is up these are all refusals.
        Err(_) => Err(ExtractFault::NoMemory),
    }
}

/// The entry of a number of the provider's journal, as the provider answers it.
fn entry_of<D: Disk, S: Sealer>(
    alloc: Global,
    house: &House<'_, S>,
    provider: &mut Provider<D>,
    number: u64,
) -> Result<Entry, ProviderFault>
    requires runs { RunsIn house.now provider.old }
    requires up { provider.old.chronicle.down ≡ false }
    requires there { number < length provider.old.chronicle.entries }
    ensures kept { D.tells → Stands D.sight provider.old.chronicle
        → IfOk result (λ entry. slice_get provider.old.chronicle.entries number ≡ Some entry) }
    ensures unchanged { D.tells → Stands D.sight provider.old.chronicle → (changed : ℕ)
        → IsErrOf result (answers.Changed changed) → ⊥ }
    ensures reads { ReadsDesk (desk_of provider.old) (desk_of provider.new) result }
    ensures owed { provider.new.owed ≡ provider.old.owed }
    ensures runs { RunsIn house.now provider.new }
    ensures carries { D.tells → CarriesOn D.sight NothingMay provider.old.chronicle provider.new.chronicle }
    ensures disk_fault { IsErrOf result answers.DiskFault
        → HasRisen (D.faults provider.old.chronicle.disk) (D.faults provider.new.chronicle.disk) }
    ensures later { D.faults provider.old.chronicle.disk ≤ D.faults provider.new.chronicle.disk }
{
    a_house_is_a_trade(house);
    provider.entry(alloc, number)
}

/// The entry of a number of the provider's journal.
pub(crate) fn entry_at<D: Disk, S: Sealer>(
    alloc: Global,
    house: &House<'_, S>,
    provider: &mut Provider<D>,
    number: u64,
) -> Result<Entry, ExtractFault>
    requires runs { RunsIn house.now provider.old }
    requires up { provider.old.chronicle.down ≡ false }
    requires there { number < length provider.old.chronicle.entries }
    ensures kept { D.tells → Stands D.sight provider.old.chronicle
        → IfOk result (λ entry. slice_get provider.old.chronicle.entries number ≡ Some entry) }
    ensures changed { D.tells → Stands D.sight provider.old.chronicle → (changed : ℕ)
        → IsErrOf result (faults.Changed changed) → ⊥ }
    ensures reads { Reads (desk_of provider.old) (desk_of provider.new) result }
    ensures owed { provider.new.owed ≡ provider.old.owed }
    ensures runs { RunsIn house.now provider.new }
    ensures carries { D.tells → CarriesOn D.sight NothingMay provider.old.chronicle provider.new.chronicle }
    ensures disk_fault { IsErrOf result faults.DiskFault
        → HasRisen (D.faults provider.old.chronicle.disk) (D.faults provider.new.chronicle.disk) }
    ensures no_write { IsErrOf result faults.WriteFault → ⊥ }
    ensures later { D.faults provider.old.chronicle.disk ≤ D.faults provider.new.chronicle.disk }
{
    match entry_of(alloc, house, provider, number) {
        Ok(entry) => Ok(entry),
        Err(ProviderFault::DiskFault) => Err(ExtractFault::DiskFault),
        Err(ProviderFault::Changed(number)) => Err(ExtractFault::Changed(number)),
        // Of a provider that is up, and has an entry of this number, these are all refusals.
        Err(_) => Err(ExtractFault::NoMemory),
    }
}
