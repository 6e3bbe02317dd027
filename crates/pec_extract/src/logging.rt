ghost use Rattle.std.specs.Prelude.{◌≡◌, ◌<◌, ◌≤◌, Some, false, IfErr, IfOk, IfSome, IsErrOf, IsTrue, OnErr, OnOk, length, slice_get};
ghost use Rattle.std.specs.Option.{option_and_then, option_map, option_to_list};
ghost use Rattle.pec_ledger.specs.Lookups.{taken_of};
ghost use Rattle.pec_types.specs.Moments.{is_within};
ghost use Rattle.pec_outside.specs.Flow.{HasRisen, WrotePart, followed_by};
ghost use Rattle.pec_directory.specs.Directory.{providers_of};
ghost use Rattle.pec_records.specs.declared.entries.Entry.{Entry as SomeEntry};
ghost use Rattle.pec_ledger.specs.Steps.{half, moment_of};
ghost use Rattle.pec_provider.specs.OfTrades.{world_at};
ghost use Rattle.pec_chronicle.specs.Carrying.{CarriesOn, NothingMay};
ghost use Rattle.pec_chronicle.specs.Chronicle.{Stands};
ghost use Rattle.pec_provider.specs.Provider.{RunsIn, desk_of};
ghost use Rattle.pec_provider.specs.Summing.{IsUpTo, most_pairs};
ghost use Rattle.pec_provider.specs.Telling.{facts_taken, own_facts, recipients_taken};
ghost use Rattle.pec_extract.specs.LogRows.{facts_by, log_rows, next_message, original_in, row_with, row_within, submits, told_by, told_with, totals_in, totals_of};
ghost use Rattle.pec_extract.specs.Logs.{HasGrown, TotalsUpTo};
ghost use Rattle.pec_extract.specs.Reading.{IsLogChanged, IsOfSink, LogTells, OnChanged, Reads, TellsOriginal};
ghost use Rattle.pec_extract.specs.Records.{record_text, records_text};
ghost use Rattle.pec_extract.specs.Remembering.{AreTaken, facts_kept, told_known};
ghost use Rattle.pec_extract.specs.declared.faults.ExtractFault.TheVariants as faults;

use crate::faults::ExtractFault;
use crate::reading::{entry_at, remember};
use crate::remembered::Remembered;
use crate::rows::{Beside, name_word, next_message, original_in, submits, told_with};
use crate::told::Told;
use crate::writing::{Totals, write_record};
use itoa::Buffer;
use pec_directory::Directory;
use pec_outside::{Disk, Sink};
use pec_provider::{
    House, Provider, Summary, a_house_is_a_trade, a_provider_stands_still, moment_of,
};
use pec_records::Entry;
use pec_seal::Sealer;
use pec_types::{Address, Facts, Moment, MsgId, NoMemory, is_within};
use std::alloc::Global;

/// Writes the rows of a provider's log: one for each of its entries whose moment is in the range, both ends of which
/// belong to it, in their order. Each entry is read, and for the rows of a message that was taken its envelope, once.
/// The answer is what has become of the pairs accepted in the range, and each such envelope was one of its message. After a fault a front of the rows was written:
/// `DiskFault` where the disk failed, `WriteFault` where the sink did, and `Changed` with the number of an entry that
/// isn't what was kept. After `DiskFault` and `Changed` the provider is down, and else it is as it was.
pub fn write_provider<S: Sealer, D: Disk, W: Sink>(
    alloc: Global,
    house: &House<'_, S>,
    provider: &mut Provider<D>,
    from: Moment,
    upto: Moment,
    out: &mut W,
) -> Result<Totals, ExtractFault>
    requires runs { RunsIn house.now provider.old }
    requires up { provider.old.chronicle.down ≡ false }

    // Over a disk that tells what it holds, and on which what is kept stands, these are the rows of the range, or a front
    // of them.
    ensures rows { D.tells → Stands D.sight provider.old.chronicle → OnOk result
        (W.held out.new ≡ followed_by (W.held out.old) (records_text (log_rows (world_at house.now)
        (providers_of house.now.directory.now) house.now.me provider.old.chronicle.entries from upto))) }
    ensures front { D.tells → Stands D.sight provider.old.chronicle → OnErr result
        (WrotePart (W.held out.old) (W.held out.new) (records_text (log_rows (world_at house.now)
        (providers_of house.now.directory.now) house.now.me provider.old.chronicle.entries from upto))) }
    ensures grown { HasGrown (W.held out.old) (W.held out.new) }
    ensures totals { IfOk result (λ totals. totals ≡ totals_of (world_at house.now) house.now.me from upto
        (half (world_at house.now) house.now.me provider.old.chronicle.entries)) }
    ensures few { IfOk result (λ totals. TotalsUpTo totals 1) }
    // For none of these rows the entry holds no envelope of its message.
    ensures tells { D.tells → Stands D.sight provider.old.chronicle → OnOk result
        (LogTells (world_at house.now) house.now.me from upto provider.old.chronicle.entries) }
    ensures changed { D.tells → Stands D.sight provider.old.chronicle → IfErr result (OnChanged
        (IsLogChanged (world_at house.now) house.now.me provider.old.chronicle.entries)) }
    ensures reads { Reads (desk_of provider.old) (desk_of provider.new) result }
    ensures owed { provider.new.owed ≡ provider.old.owed }
    ensures runs { RunsIn house.now provider.new }
    ensures carries { D.tells → CarriesOn D.sight NothingMay provider.old.chronicle provider.new.chronicle }
    ensures disk_fault { IsErrOf result faults.DiskFault
        → HasRisen (D.faults provider.old.chronicle.disk) (D.faults provider.new.chronicle.disk) }
    ensures write_fault { IsErrOf result faults.WriteFault → HasRisen (W.faults out.old) (W.faults out.new) }
    ensures disk_later { D.faults provider.old.chronicle.disk ≤ D.faults provider.new.chronicle.disk }
    ensures later { W.faults out.old ≤ W.faults out.new }
    ensures kept { W.left out.new ≡ W.left out.old }
{
    a_house_is_a_trade(house);
    a_provider_stands_still(provider);
    let mut remembered = Remembered::new(alloc);
    let mut submitted = 0;
    for number in 0..provider.entries() {
        submitted += write_entry(
            alloc,
            house,
            provider,
            &mut remembered,
            number,
            submitted,
            from,
            upto,
            out,
        )?;
    }
    Ok(totals_in(provider.summary_within(from, upto)))
}

/// What is known of the pairs that a summary counts.
fn totals_in(summary: Summary) -> Totals
    requires { IsUpTo summary most_pairs }
    ensures is { result ≡ totals_in summary }
    ensures few { TotalsUpTo result 1 }
{
    Totals {
        accepted: summary.delivered + summary.refused + summary.unknown,
        delivered: summary.delivered,
        refused: summary.refused,
        pending: summary.unknown,
    }
}

/// Reads the entry of a number, and writes its row, where it has one and its moment is in the range. So many messages
/// were submitted before it; the answer is how many it submits.
fn write_entry<S: Sealer, D: Disk, W: Sink>(
    alloc: Global,
    house: &House<'_, S>,
    provider: &mut Provider<D>,
    remembered: &mut Remembered,
    number: u64,
    submitted: u64,
    from: Moment,
    upto: Moment,
    out: &mut W,
) -> Result<u64, ExtractFault>
    requires runs { RunsIn house.now provider.old }
    requires up { provider.old.chronicle.down ≡ false }
    requires there { number < length provider.old.chronicle.entries }
    ensures row { D.tells → Stands D.sight provider.old.chronicle
        → AreTaken (world_at house.now) house.now.me provider.old.chronicle.entries remembered.old
        → (entry : SomeEntry) → slice_get provider.old.chronicle.entries number ≡ Some entry
        → OnOk result (W.held out.new ≡ followed_by (W.held out.old) (records_text (option_to_list
        (row_within (world_at house.now) (providers_of house.now.directory.now) house.now.me
        provider.old.chronicle.entries from upto number submitted entry)))) }
    ensures more { D.tells → Stands D.sight provider.old.chronicle → (entry : SomeEntry)
        → slice_get provider.old.chronicle.entries number ≡ Some entry → IfOk result (λ more. more ≡ submits entry) }
    ensures front { D.tells → Stands D.sight provider.old.chronicle
        → AreTaken (world_at house.now) house.now.me provider.old.chronicle.entries remembered.old
        → (entry : SomeEntry) → slice_get provider.old.chronicle.entries number ≡ Some entry
        → OnErr result (WrotePart (W.held out.old) (W.held out.new) (records_text (option_to_list
        (row_within (world_at house.now) (providers_of house.now.directory.now) house.now.me
        provider.old.chronicle.entries from upto number submitted entry)))) }
    ensures taken { D.tells → Stands D.sight provider.old.chronicle
        → AreTaken (world_at house.now) house.now.me provider.old.chronicle.entries remembered.old
        → AreTaken (world_at house.now) house.now.me provider.old.chronicle.entries remembered.new }
    ensures grown { HasGrown (W.held out.old) (W.held out.new) }
    ensures few { IfOk result (λ more. more ≤ 1) }
    ensures original { D.tells → Stands D.sight provider.old.chronicle
        → AreTaken (world_at house.now) house.now.me provider.old.chronicle.entries remembered.old
        → (entry : SomeEntry) → slice_get provider.old.chronicle.entries number ≡ Some entry
        → OnOk result (IsTrue (is_within from upto (moment_of entry))
        → TellsOriginal (world_at house.now) house.now.me provider.old.chronicle.entries entry) }
    ensures changed { D.tells → Stands D.sight provider.old.chronicle → IfErr result (OnChanged
        (IsLogChanged (world_at house.now) house.now.me provider.old.chronicle.entries)) }
    ensures reads { Reads (desk_of provider.old) (desk_of provider.new) result }
    ensures owed { provider.new.owed ≡ provider.old.owed }
    ensures runs { RunsIn house.now provider.new }
    ensures carries { D.tells → CarriesOn D.sight NothingMay provider.old.chronicle provider.new.chronicle }
    ensures disk_fault { IsErrOf result faults.DiskFault
        → HasRisen (D.faults provider.old.chronicle.disk) (D.faults provider.new.chronicle.disk) }
    ensures write_fault { IsErrOf result faults.WriteFault → HasRisen (W.faults out.old) (W.faults out.new) }
    ensures disk_later { D.faults provider.old.chronicle.disk ≤ D.faults provider.new.chronicle.disk }
    ensures later { W.faults out.old ≤ W.faults out.new }
    ensures kept { W.left out.new ≡ W.left out.old }
{
    let entry = entry_at(alloc, house, provider, number)?;
    write_within(
        alloc, house, provider, remembered, number, submitted, from, upto, &entry, out,
    )?;
    Ok(submits(&entry))
}

/// Writes the row of an entry, where it has one and its moment is in the range.
fn write_within<S: Sealer, D: Disk, W: Sink>(
    alloc: Global,
    house: &House<'_, S>,
    provider: &mut Provider<D>,
    remembered: &mut Remembered,
    number: u64,
    submitted: u64,
    from: Moment,
    upto: Moment,
    entry: &Entry,
    out: &mut W,
) -> Result<(), ExtractFault>
    requires runs { RunsIn house.now provider.old }
    requires up { provider.old.chronicle.down ≡ false }
    ensures row { D.tells → Stands D.sight provider.old.chronicle
        → AreTaken (world_at house.now) house.now.me provider.old.chronicle.entries remembered.old
        → OnOk result (W.held out.new ≡ followed_by (W.held out.old) (records_text (option_to_list
        (row_within (world_at house.now) (providers_of house.now.directory.now) house.now.me
        provider.old.chronicle.entries from upto number submitted entry.now)))) }
    ensures front { D.tells → Stands D.sight provider.old.chronicle
        → AreTaken (world_at house.now) house.now.me provider.old.chronicle.entries remembered.old
        → OnErr result (WrotePart (W.held out.old) (W.held out.new) (records_text (option_to_list
        (row_within (world_at house.now) (providers_of house.now.directory.now) house.now.me
        provider.old.chronicle.entries from upto number submitted entry.now)))) }
    ensures taken { D.tells → Stands D.sight provider.old.chronicle
        → AreTaken (world_at house.now) house.now.me provider.old.chronicle.entries remembered.old
        → AreTaken (world_at house.now) house.now.me provider.old.chronicle.entries remembered.new }
    ensures grown { HasGrown (W.held out.old) (W.held out.new) }
    ensures original { D.tells → Stands D.sight provider.old.chronicle
        → AreTaken (world_at house.now) house.now.me provider.old.chronicle.entries remembered.old
        → OnOk result (IsTrue (is_within from upto (moment_of entry.now))
        → TellsOriginal (world_at house.now) house.now.me provider.old.chronicle.entries entry.now) }
    ensures changed { D.tells → Stands D.sight provider.old.chronicle → IfErr result (OnChanged
        (IsLogChanged (world_at house.now) house.now.me provider.old.chronicle.entries)) }
    ensures reads { Reads (desk_of provider.old) (desk_of provider.new) result }
    ensures owed { provider.new.owed ≡ provider.old.owed }
    ensures runs { RunsIn house.now provider.new }
    ensures carries { D.tells → CarriesOn D.sight NothingMay provider.old.chronicle provider.new.chronicle }
    ensures disk_fault { IsErrOf result faults.DiskFault
        → HasRisen (D.faults provider.old.chronicle.disk) (D.faults provider.new.chronicle.disk) }
    ensures write_fault { IsErrOf result faults.WriteFault → HasRisen (W.faults out.old) (W.faults out.new) }
    ensures disk_later { D.faults provider.old.chronicle.disk ≤ D.faults provider.new.chronicle.disk }
    ensures later { W.faults out.old ≤ W.faults out.new }
    ensures kept { W.left out.new ≡ W.left out.old }
{
    a_provider_stands_still(provider);
    if !is_within(from, upto, moment_of(entry)) {
        return Ok(());
    }
    write_row(
        alloc, house, provider, remembered, number, submitted, entry, out,
    )
}

/// Writes the row of an entry, where it has one.
fn write_row<S: Sealer, D: Disk, W: Sink>(
    alloc: Global,
    house: &House<'_, S>,
    provider: &mut Provider<D>,
    remembered: &mut Remembered,
    number: u64,
    submitted: u64,
    entry: &Entry,
    out: &mut W,
) -> Result<(), ExtractFault>
    requires runs { RunsIn house.now provider.old }
    requires up { provider.old.chronicle.down ≡ false }
    ensures row { D.tells → Stands D.sight provider.old.chronicle
        → AreTaken (world_at house.now) house.now.me provider.old.chronicle.entries remembered.old
        → OnOk result (W.held out.new ≡ followed_by (W.held out.old) (records_text (option_to_list (option_map
        (row_with (providers_of house.now.directory.now) house.now.me number (moment_of entry.now))
        (told_by (world_at house.now) (providers_of house.now.directory.now) house.now.me
        provider.old.chronicle.entries number submitted entry.now))))) }
    ensures front { D.tells → Stands D.sight provider.old.chronicle
        → AreTaken (world_at house.now) house.now.me provider.old.chronicle.entries remembered.old
        → OnErr result (WrotePart (W.held out.old) (W.held out.new) (records_text (option_to_list (option_map
        (row_with (providers_of house.now.directory.now) house.now.me number (moment_of entry.now))
        (told_by (world_at house.now) (providers_of house.now.directory.now) house.now.me
        provider.old.chronicle.entries number submitted entry.now))))) }
    ensures taken { D.tells → Stands D.sight provider.old.chronicle
        → AreTaken (world_at house.now) house.now.me provider.old.chronicle.entries remembered.old
        → AreTaken (world_at house.now) house.now.me provider.old.chronicle.entries remembered.new }
    ensures grown { HasGrown (W.held out.old) (W.held out.new) }
    ensures original { D.tells → Stands D.sight provider.old.chronicle
        → AreTaken (world_at house.now) house.now.me provider.old.chronicle.entries remembered.old
        → OnOk result (TellsOriginal (world_at house.now) house.now.me provider.old.chronicle.entries
        entry.now) }
    ensures changed { D.tells → Stands D.sight provider.old.chronicle → IfErr result (OnChanged
        (IsLogChanged (world_at house.now) house.now.me provider.old.chronicle.entries)) }
    ensures reads { Reads (desk_of provider.old) (desk_of provider.new) result }
    ensures owed { provider.new.owed ≡ provider.old.owed }
    ensures runs { RunsIn house.now provider.new }
    ensures carries { D.tells → CarriesOn D.sight NothingMay provider.old.chronicle provider.new.chronicle }
    ensures disk_fault { IsErrOf result faults.DiskFault
        → HasRisen (D.faults provider.old.chronicle.disk) (D.faults provider.new.chronicle.disk) }
    ensures write_fault { IsErrOf result faults.WriteFault → HasRisen (W.faults out.old) (W.faults out.new) }
    ensures disk_later { D.faults provider.old.chronicle.disk ≤ D.faults provider.new.chronicle.disk }
    ensures later { W.faults out.old ≤ W.faults out.new }
    ensures kept { W.left out.new ≡ W.left out.old }
{
    remember_for(alloc, house, provider, remembered, entry)?;
    write_known(
        alloc, house, provider, remembered, number, submitted, entry, out,
    )
}

/// Writes the row of an entry, where it has one. What it tells of an original is remembered.
fn write_known<S: Sealer, D, W: Sink>(
    alloc: Global,
    house: &House<'_, S>,
    provider: &Provider<D>,
    remembered: &Remembered,
    number: u64,
    submitted: u64,
    entry: &Entry,
    out: &mut W,
) -> Result<(), ExtractFault>
    requires runs { RunsIn house.now provider.now }
    ensures ok { OnOk result (W.held out.new ≡ followed_by (W.held out.old) (records_text (option_to_list (option_map
        (row_with (providers_of house.now.directory.now) house.now.me number (moment_of entry.now))
        (told_known (world_at house.now) (providers_of house.now.directory.now) house.now.me
        (half (world_at house.now) house.now.me provider.now.chronicle.entries) remembered.now number submitted
        entry.now))))) }
    ensures err { OnErr result (WrotePart (W.held out.old) (W.held out.new) (records_text (option_to_list (option_map
        (row_with (providers_of house.now.directory.now) house.now.me number (moment_of entry.now))
        (told_known (world_at house.now) (providers_of house.now.directory.now) house.now.me
        (half (world_at house.now) house.now.me provider.now.chronicle.entries) remembered.now number submitted
        entry.now))))) }
    ensures grown { HasGrown (W.held out.old) (W.held out.new) }
    ensures kept { W.left out.new ≡ W.left out.old }
    ensures later { W.faults out.old ≤ W.faults out.new }
    ensures sink { IfErr result IsOfSink }
    ensures cause { IsErrOf result faults.WriteFault → HasRisen (W.faults out.old) (W.faults out.new) }
{
    let facts = facts_for(house, provider, remembered, submitted, entry);
    let told = told_of(alloc, house, provider, number, submitted, facts, entry)?;
    write_if(alloc, house, number, moment_of(entry), told, out)
}

/// Writes the row of what is told, where something is.
fn write_if<S: Sealer, W: Sink>(
    alloc: Global,
    house: &House<'_, S>,
    number: u64,
    moment: u64,
    told: Option<Told>,
    out: &mut W,
) -> Result<(), ExtractFault>
    ensures ok { OnOk result (W.held out.new ≡ followed_by (W.held out.old) (records_text (option_to_list
        (option_map (row_with (providers_of house.now.directory.now) house.now.me number moment) told)))) }
    ensures err { OnErr result (WrotePart (W.held out.old) (W.held out.new) (records_text (option_to_list
        (option_map (row_with (providers_of house.now.directory.now) house.now.me number moment) told)))) }
    ensures grown { HasGrown (W.held out.old) (W.held out.new) }
    ensures kept { W.left out.new ≡ W.left out.old }
    ensures later { W.faults out.old ≤ W.faults out.new }
    ensures sink { IfErr result IsOfSink }
    ensures cause { IsErrOf result faults.WriteFault → HasRisen (W.faults out.old) (W.faults out.new) }
{
    match told {
        Some(told) => write_told(alloc, house.directory, house.me, number, moment, told, out),
        None => Ok(()),
    }
}

/// What the row of an entry says, with the facts that it tells.
fn told_of<S: Sealer, D>(
    alloc: Global,
    house: &House<'_, S>,
    provider: &Provider<D>,
    number: u64,
    submitted: u64,
    facts: Option<&Facts>,
    entry: &Entry,
) -> Result<Option<Told>, NoMemory>
    requires runs { RunsIn house.now provider.now }
    ensures { IfOk result (λ told. told ≡ told_with (world_at house.now) (providers_of house.now.directory.now)
        house.now.me (half (world_at house.now) house.now.me provider.now.chronicle.entries) number submitted
        (option_map (λ facts. facts.now) facts.entry) entry.now) }
{
    a_house_is_a_trade(house);
    let beside = Beside {
        directory: house.directory,
        me: house.me,
        number,
        submitted,
        facts,
        taken: taken_for(house, provider, entry),
    };
    told_with(alloc, &beside, entry)
}

/// Has the facts of the original remembered that the row of an entry tells, where it tells those of one.
fn remember_for<S: Sealer, D: Disk>(
    alloc: Global,
    house: &House<'_, S>,
    provider: &mut Provider<D>,
    remembered: &mut Remembered,
    entry: &Entry,
) -> Result<(), ExtractFault>
    requires runs { RunsIn house.now provider.old }
    requires up { provider.old.chronicle.down ≡ false }
    ensures known { D.tells → Stands D.sight provider.old.chronicle
        → AreTaken (world_at house.now) house.now.me provider.old.chronicle.entries remembered.old
        → OnOk result (IfSome (original_in entry.now) (λ id. facts_kept remembered.new id
        ≡ facts_taken (world_at house.now) house.now.me provider.old.chronicle.entries id)) }
    ensures taken { D.tells → Stands D.sight provider.old.chronicle
        → AreTaken (world_at house.now) house.now.me provider.old.chronicle.entries remembered.old
        → AreTaken (world_at house.now) house.now.me provider.old.chronicle.entries remembered.new }
    ensures original { D.tells → Stands D.sight provider.old.chronicle
        → AreTaken (world_at house.now) house.now.me provider.old.chronicle.entries remembered.old
        → OnOk result (TellsOriginal (world_at house.now) house.now.me provider.old.chronicle.entries
        entry.now) }
    ensures changed { D.tells → Stands D.sight provider.old.chronicle → IfErr result (OnChanged
        (IsLogChanged (world_at house.now) house.now.me provider.old.chronicle.entries)) }
    ensures reads { Reads (desk_of provider.old) (desk_of provider.new) result }
    ensures owed { provider.new.owed ≡ provider.old.owed }
    ensures runs { RunsIn house.now provider.new }
    ensures carries { D.tells → CarriesOn D.sight NothingMay provider.old.chronicle provider.new.chronicle }
    ensures disk_fault { IsErrOf result faults.DiskFault
        → HasRisen (D.faults provider.old.chronicle.disk) (D.faults provider.new.chronicle.disk) }
    ensures no_write { IsErrOf result faults.WriteFault → ⊥ }
    ensures later { D.faults provider.old.chronicle.disk ≤ D.faults provider.new.chronicle.disk }
{
    a_provider_stands_still(provider);
    match original_in(entry) {
        Some(id) => remember(alloc, house, provider, remembered, id),
        None => Ok(()),
    }
}

/// The facts that the row of an entry tells, those of an original as they are remembered.
fn facts_for<'a, S: Sealer, D>(
    house: &House<'_, S>,
    provider: &'a Provider<D>,
    remembered: &'a Remembered,
    submitted: u64,
    entry: &Entry,
) -> Option<&'a Facts>
    requires runs { RunsIn house.now provider.now }
    ensures { option_map (λ facts. facts.now) result ≡ facts_by
        (own_facts house.now.me (half (world_at house.now) house.now.me provider.now.chronicle.entries))
        (facts_kept remembered.now) house.now.me submitted entry.now }
{
    match entry {
        Entry::Accepted { .. } => facts_submitted(house, provider, submitted),
        Entry::Charged { id, .. } => facts_accepted(house, provider, *id),
        Entry::Learned { id, .. } => facts_accepted(house, provider, *id),
        Entry::Took { id, .. } => remembered.facts(*id),
        Entry::Decided { id, .. } => remembered.facts(*id),
        Entry::Acked { id, .. } => remembered.facts(*id),
        _ => None,
    }
}

/// The facts of the next message that is submitted, where it was accepted.
fn facts_submitted<'a, S: Sealer, D>(
    house: &House<'_, S>,
    provider: &'a Provider<D>,
    submitted: u64,
) -> Option<&'a Facts>
    requires runs { RunsIn house.now provider.now }
    ensures { option_map (λ facts. facts.now) result ≡ option_and_then
        (own_facts house.now.me (half (world_at house.now) house.now.me provider.now.chronicle.entries))
        (next_message house.now.me submitted) }
{
    match next_message(house.me, submitted) {
        Some(id) => facts_accepted(house, provider, id),
        None => None,
    }
}

/// The facts of a message that was accepted here.
fn facts_accepted<'a, S: Sealer, D>(
    house: &House<'_, S>,
    provider: &'a Provider<D>,
    id: MsgId,
) -> Option<&'a Facts>
    requires runs { RunsIn house.now provider.now }
    ensures { option_map (λ facts. facts.now) result
        ≡ own_facts house.now.me (half (world_at house.now) house.now.me provider.now.chronicle.entries) id }
{
    a_house_is_a_trade(house);
    provider.facts_accepted(id)
}

/// For whom the message was taken of whose original the row of an entry tells.
fn taken_for<'a, S: Sealer, D>(
    house: &House<'_, S>,
    provider: &'a Provider<D>,
    entry: &Entry,
) -> &'a [Address]
    requires runs { RunsIn house.now provider.now }
    ensures { IfSome (original_in entry.now) (λ id. result.now ≡ recipients_taken
        (taken_of (half (world_at house.now) house.now.me provider.now.chronicle.entries) id)) }
{
    a_house_is_a_trade(house);
    match original_in(entry) {
        Some(id) => provider.recipients_taken(id),
        None => &[],
    }
}

/// Writes the record of a row.
fn write_told<W: Sink>(
    alloc: Global,
    directory: &Directory,
    me: u32,
    number: u64,
    moment: u64,
    told: Told,
    out: &mut W,
) -> Result<(), ExtractFault>
    ensures ok { OnOk result (W.held out.new ≡ followed_by (W.held out.old)
        (record_text (row_with (providers_of directory.now) me number moment told))) }
    ensures err { OnErr result (WrotePart (W.held out.old) (W.held out.new)
        (record_text (row_with (providers_of directory.now) me number moment told))) }
    ensures kept { W.left out.new ≡ W.left out.old }
    ensures later { W.faults out.old ≤ W.faults out.new }
    ensures sink { IfErr result IsOfSink }
    ensures cause { IsErrOf result faults.WriteFault → HasRisen (W.faults out.old) (W.faults out.new) }
{
    let name = name_word(alloc, directory, me)?;
    let Told {
        event,
        id,
        sender,
        recipients,
        subject,
        detail,
    } = told;
    let mut entry_digits = Buffer::new();
    let mut moment_digits = Buffer::new();
    let fields: [&[u8]; 9] = [
        name.as_slice(),
        entry_digits.format(number).as_bytes(),
        moment_digits.format(moment).as_bytes(),
        event,
        id.as_slice(),
        sender.as_slice(),
        recipients.as_slice(),
        subject.as_slice(),
        detail.as_slice(),
    ];
    write_record(alloc, &fields, out)
}
