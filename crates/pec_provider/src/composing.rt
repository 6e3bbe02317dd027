ghost use Rattle.std.specs.Prelude.{◌≡◌, ℕ, ◌≤◌, ◌++◌, List, Contains, length, map, false, Some, slice_get};
ghost use Rattle.std.specs.Prelude.{IfErr, IfOk, IsErrOf, OnOk};
ghost use Rattle.std.specs.Option.{option_to_list};
ghost use Rattle.std.specs.List.{filter_map};
ghost use Rattle.pec_types.specs.declared.letters.Letter.{Letter as SomeLetter};
ghost use Rattle.pec_types.specs.declared.turns.ProviderFault.TheVariants as faults;
ghost use Rattle.pec_outside.specs.Flow.{HasRisen};
ghost use Rattle.pec_journal.specs.JournalFile.{places_of};
ghost use Rattle.pec_records.specs.Entry.{CanBeWritten, entry_text};
ghost use Rattle.pec_ledger.specs.Items.{item_text};
ghost use Rattle.pec_plays.specs.Frames.{frame_of};
ghost use Rattle.pec_reception.specs.OfTrades.{world_at};
ghost use Rattle.pec_outgoing.specs.ItemNeeds.{needed_item};
ghost use Rattle.pec_chronicle.specs.Carrying.{CarriesOn, NothingMay};
ghost use Rattle.pec_chronicle.specs.Chronicle.{Stands};
ghost use Rattle.pec_stock.specs.Stock.{Agree};
ghost use Rattle.pec_provider.specs.Reading.{AreFramed, GivesUp, IsAbsent, IsFramed, IsNotOf, OnChanged, PostedIsChanged, ReadsOver, ShownBy, as_provider};

use pec_chronicle::{Chronicle, ReadFault};
use pec_outgoing::{ComposeFault, due_letters_have_the_due_frames, framed, item, needed};
use pec_outside::Disk;
use pec_reception::{House, a_house_is_a_trade};
use pec_records::Entry;
use pec_seal::Sealer;
use pec_shelf::{PostedRow, Shelf};
use pec_stock::stands_still;
use pec_types::{Frame, Letter, NoMemory, Place, ProviderFault};
use std::alloc::Global;

/// The frames of letters, one after another, where there is one, each composed of the entry that is read for it.
pub(crate) fn frames_of<D: Disk, S: Sealer>(
    alloc: Global,
    house: &House<'_, S>,
    chronicle: &mut Chronicle<D>,
    shelf: &Shelf,
    letters: &[Letter],
) -> Result<Vec<Frame>, ProviderFault>
    requires up { chronicle.old.down ≡ false }
    requires agree { Agree house.now.directory.now chronicle.old shelf.now }
    requires is { shelf.now.me ≡ house.now.me }
    ensures frames { D.tells → Stands D.sight chronicle.old → IfOk result (λ frames. frames.items
        ≡ filter_map (frame_of (world_at house.now) house.now.me chronicle.old.entries) letters.now) }
    // Over any disk they are composed of the entries that were read, which are what the letters are composed of, and no
    // letter is left out.
    ensures given { IfOk result (λ frames. AreFramed (D.tells × Stands D.sight chronicle.old) (world_at house.now)
        house.now.me chronicle.old.entries letters.now frames.items) }
    ensures few { IfOk result (λ frames. length frames.items ≤ length letters.now) }
    ensures changed { D.tells → Stands D.sight chronicle.old → IfErr result (OnChanged (λ number. (letter : SomeLetter)
        × Contains letters.now letter
        × IsNotOf (world_at house.now) house.now.me chronicle.old.entries letter number)) }
    ensures reads { ReadsOver chronicle.old chronicle.new result }
    ensures carries { D.tells → CarriesOn D.sight NothingMay chronicle.old chronicle.new }
    ensures disk_fault { IsErrOf result faults.DiskFault
        → HasRisen (D.faults chronicle.old.disk) (D.faults chronicle.new.disk) }
    ensures later { D.faults chronicle.old.disk ≤ D.faults chronicle.new.disk }
{
    due_letters_have_the_due_frames();
    stands_still(chronicle);
    let mut frames = Vec::new(alloc);
    for letter in letters {
        let found = frame_for(alloc, house, chronicle, shelf, letter)?;
        push(&mut frames, found)?;
    }
    Ok(frames)
}

/// Puts a frame, if there is one, behind others.
fn push(frames: &mut Vec<Frame>, found: Option<Frame>) -> Result<(), NoMemory>
    ensures { OnOk result (frames.new.items ≡ frames.old.items ++ option_to_list found) }
{
    if let Some(frame) = found {
        frames.push(frame)?;
    }
    Ok(())
}

/// The frame of a letter, where there is one, composed of the entry that is read for it.
fn frame_for<D: Disk, S: Sealer>(
    alloc: Global,
    house: &House<'_, S>,
    chronicle: &mut Chronicle<D>,
    shelf: &Shelf,
    letter: &Letter,
) -> Result<Option<Frame>, ProviderFault>
    requires up { chronicle.old.down ≡ false }
    requires agree { Agree house.now.directory.now chronicle.old shelf.now }
    requires is { shelf.now.me ≡ house.now.me }
    ensures frame { D.tells → Stands D.sight chronicle.old → IfOk result (λ found. found
        ≡ frame_of (world_at house.now) house.now.me chronicle.old.entries letter.now) }
    ensures given { IfOk result (IsFramed (D.tells × Stands D.sight chronicle.old) (world_at house.now) house.now.me
        chronicle.old.entries letter.now) }
    ensures changed { D.tells → Stands D.sight chronicle.old → IfErr result (OnChanged
        (IsNotOf (world_at house.now) house.now.me chronicle.old.entries letter.now)) }
    ensures reads { ReadsOver chronicle.old chronicle.new result }
    ensures carries { D.tells → CarriesOn D.sight NothingMay chronicle.old chronicle.new }
    ensures disk_fault { IsErrOf result faults.DiskFault
        → HasRisen (D.faults chronicle.old.disk) (D.faults chronicle.new.disk) }
    ensures later { D.faults chronicle.old.disk ≤ D.faults chronicle.new.disk }
{
    a_house_is_a_trade(house);
    stands_still(chronicle);
    let Some(number) = needed(shelf, letter) else {
        return Ok(None);
    };
    let entry = read(alloc, chronicle, shelf, number)?;
    match framed(alloc, house, shelf, letter, &entry) {
        Ok(frame) => Ok(frame),
        Err(fault) => Err(given_up(chronicle, number, fault)),
    }
}

/// The bytes of an item, composed of the entry of this number, which is needed for it.
pub(crate) fn bytes_of<D: Disk, S: Sealer>(
    alloc: Global,
    house: &House<'_, S>,
    chronicle: &mut Chronicle<D>,
    shelf: &Shelf,
    posted: &PostedRow,
    number: u64,
) -> Result<Vec<u8>, ProviderFault>
    requires up { chronicle.old.down ≡ false }
    requires agree { Agree house.now.directory.now chronicle.old shelf.now }
    requires is { shelf.now.me ≡ house.now.me }
    requires needs { needed_item shelf.now.half posted.now ≡ Some number }
    ensures shown { D.tells → Stands D.sight chronicle.old → IfOk result (λ bytes.
        item_text (world_at house.now) house.now.me chronicle.old.entries posted.now ≡ Some bytes.items) }
    // Over any disk they are composed of the entry that was read, which is what the item is composed of.
    ensures given { IfOk result (λ bytes. ShownBy (D.tells × Stands D.sight chronicle.old) (world_at house.now)
        house.now.me chronicle.old.entries (Some posted.now) bytes.items) }
    ensures changed { D.tells → Stands D.sight chronicle.old → IfErr result (OnChanged
        (PostedIsChanged (world_at house.now) house.now.me chronicle.old.entries (Some posted.now))) }
    ensures reads { ReadsOver chronicle.old chronicle.new result }
    ensures carries { D.tells → CarriesOn D.sight NothingMay chronicle.old chronicle.new }
    ensures disk_fault { IsErrOf result faults.DiskFault
        → HasRisen (D.faults chronicle.old.disk) (D.faults chronicle.new.disk) }
    ensures later { D.faults chronicle.old.disk ≤ D.faults chronicle.new.disk }
{
    a_house_is_a_trade(house);
    let entry = read(alloc, chronicle, shelf, number)?;
    match item(alloc, house, shelf, posted, &entry) {
        Ok(bytes) => Ok(bytes),
        Err(fault) => Err(given_up(chronicle, number, fault)),
    }
}

/// The entry of a number. Where the shelf has no place for it, it is told as changed, as one whose bytes aren't its
/// own.
pub(crate) fn read<D: Disk>(
    alloc: Global,
    chronicle: &mut Chronicle<D>,
    shelf: &Shelf,
    number: u64,
) -> Result<Entry, ProviderFault>
    requires up { chronicle.old.down ≡ false }
    requires places { shelf.now.places ≡ places_of (map entry_text chronicle.old.entries) }
    ensures entry { D.tells → Stands D.sight chronicle.old → IfOk result (λ entry.
        slice_get chronicle.old.entries number ≡ Some entry) }
    ensures written { IfOk result CanBeWritten }
    // Over a disk that tells what it holds an entry is told as changed only where there is none of its number.
    ensures changed { D.tells → Stands D.sight chronicle.old → IfErr result (OnChanged (IsAbsent chronicle.old.entries number)) }
    ensures reads { ReadsOver chronicle.old chronicle.new result }
    ensures carries { D.tells → CarriesOn D.sight NothingMay chronicle.old chronicle.new }
    ensures disk_fault { IsErrOf result faults.DiskFault
        → HasRisen (D.faults chronicle.old.disk) (D.faults chronicle.new.disk) }
    ensures later { D.faults chronicle.old.disk ≤ D.faults chronicle.new.disk }
{
    let Some(place) = shelf.place(number) else {
        chronicle.give_up();
        return Err(ProviderFault::Changed(number));
    };
    read_at(alloc, chronicle, number, place)
}

/// The entry of a number, at its place.
pub(crate) fn read_at<D: Disk>(
    alloc: Global,
    chronicle: &mut Chronicle<D>,
    number: u64,
    place: Place,
) -> Result<Entry, ProviderFault>
    requires up { chronicle.old.down ≡ false }

    // Where that is the place of the entry of this number, over a disk that tells what it holds, it is that entry, and
    // isn't told as changed.
    ensures entry { D.tells → Stands D.sight chronicle.old
        → slice_get (places_of (map entry_text chronicle.old.entries)) number ≡ Some place
        → IfOk result (λ entry. slice_get chronicle.old.entries number ≡ Some entry) }
    ensures unchanged { D.tells → Stands D.sight chronicle.old
        → slice_get (places_of (map entry_text chronicle.old.entries)) number ≡ Some place
        → (changed : ℕ) → IsErrOf result (faults.Changed changed) → ⊥ }
    ensures written { IfOk result CanBeWritten }
    ensures reads { ReadsOver chronicle.old chronicle.new result }
    ensures carries { D.tells → CarriesOn D.sight NothingMay chronicle.old chronicle.new }
    ensures disk_fault { IsErrOf result faults.DiskFault
        → HasRisen (D.faults chronicle.old.disk) (D.faults chronicle.new.disk) }
    ensures later { D.faults chronicle.old.disk ≤ D.faults chronicle.new.disk }
{
    match chronicle.read(alloc, place) {
        Ok(entry) => Ok(entry),
        Err(ReadFault::DiskFault) => Err(ProviderFault::DiskFault),
        Err(ReadFault::Changed) => Err(ProviderFault::Changed(number)),
        Err(ReadFault::NoMemory) => Err(ProviderFault::NoMemory),
    }
}

/// Why nothing was composed of the entry of a number. Where the entry isn't what was needed, nothing is read any more.
pub(crate) fn given_up<D: Disk>(
    chronicle: &mut Chronicle<D>,
    number: u64,
    fault: ComposeFault,
) -> ProviderFault
    ensures fault { result ≡ as_provider number fault }
    ensures over { GivesUp chronicle.old chronicle.new fault }
    ensures carries { D.tells → CarriesOn D.sight NothingMay chronicle.old chronicle.new }
{
    stands_still(chronicle);
    match fault {
        ComposeFault::NoMemory => ProviderFault::NoMemory,
        ComposeFault::Changed => {
            chronicle.give_up();
            ProviderFault::Changed(number)
        }
    }
}
