ghost use Rattle.std.specs.Prelude.{◌≡◌, ◌≢◌, ◌<◌, ◌≤◌, true, false, length, slice_get, Some, IsErrOf, IfOk, OnOk, IfErr};
ghost use Rattle.pec_outside.specs.Flow.{HasRisen};
ghost use Rattle.pec_records.specs.Entry.{CanBeWritten};
ghost use Rattle.pec_chronicle.specs.Carrying.{CarriesOn, NothingMay};
ghost use Rattle.pec_chronicle.specs.Chronicle.{Stands};
ghost use Rattle.pec_chronicle.specs.declared.faults.ReadFault.TheVariants as reads;
ghost use Rattle.pec_stock.specs.Stock.{Agree};

use pec_chronicle::{Chronicle, ReadFault};
use pec_directory::Directory;
use pec_outside::Disk;
use pec_records::Entry;
use pec_shelf::Shelf;
use std::alloc::Global;

/// The entry of a number, from 0, which is read at its place: one call of the disk, and memory for that entry alone.
pub fn entry<D: Disk>(
    alloc: Global,
    directory: &Directory,
    chronicle: &mut Chronicle<D>,
    shelf: &Shelf,
    number: u64,
) -> Result<Entry, ReadFault>
    requires up { chronicle.old.down ≡ false }
    requires agree { Agree directory.now chronicle.old shelf.now }
    requires there { number < length chronicle.old.entries }

    // Over a disk that tells what it holds it is that entry, and isn't told as changed.
    ensures entry { D.tells → Stands D.sight chronicle.old →
        IfOk result (λ entry. slice_get chronicle.old.entries number ≡ Some entry) }
    ensures unchanged { D.tells → Stands D.sight chronicle.old → IsErrOf result reads.Changed → ⊥ }
    ensures written { IfOk result CanBeWritten }

    // The entries stay what they were. It is down behind a fault of the disk and where bytes changed, and else not.
    ensures agree { Agree directory.now chronicle.new shelf.now }
    ensures ok { OnOk result (chronicle.new ≡ record chronicle.old { disk = chronicle.new.disk }) }
    ensures refused { IsErrOf result reads.NoMemory → chronicle.new ≡ record chronicle.old { disk = chronicle.new.disk } }
    ensures broken { IfErr result (λ fault. fault ≢ reads.NoMemory →
        chronicle.new ≡ record chronicle.old { down = true; disk = chronicle.new.disk }) }
    ensures carries { D.tells → CarriesOn D.sight NothingMay chronicle.old chronicle.new }
    ensures disk_fault { IsErrOf result reads.DiskFault → HasRisen (D.faults chronicle.old.disk) (D.faults chronicle.new.disk) }
    ensures later { D.faults chronicle.old.disk ≤ D.faults chronicle.new.disk }
{
    let Some(place) = shelf.place(number) else {
        unreachable!();
    };
    let entry = chronicle.read(alloc, place)?;
    Ok(entry)
}
