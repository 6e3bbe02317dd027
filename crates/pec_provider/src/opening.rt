ghost use Rattle.std.specs.Prelude.{◌≡◌, ◌≢◌, ℕ, ◌<◌, ◌≤◌, Bool, List, [], ◌∷◌, ◌++◌, length, IfOk, OnOk, IfErr};
ghost use Rattle.pec_outside.specs.Depots.{Alike, depot_places};
ghost use Rattle.pec_outside.specs.DiskModel.{GrowsTo, Only, Rests, Stays};
ghost use Rattle.pec_outside.specs.Flow.{HasRisen};
ghost use Rattle.pec_directory.specs.Canonical.{digest_of};
ghost use Rattle.pec_directory.specs.Directory.{Kept, providers_of};
ghost use Rattle.pec_records.specs.declared.entries.Entry.{Entry as SomeEntry};
ghost use Rattle.pec_records.specs.declared.entries.Entry.TheVariants as entries;
ghost use Rattle.pec_ledger.specs.Network.{chosen};
ghost use Rattle.pec_ledger.specs.OfDirectory.{IsOf};
ghost use Rattle.pec_ledger.specs.Trade.{Trade};
ghost use Rattle.pec_chronicle.specs.Carrying.{CarriesOn, NothingMay};
ghost use Rattle.pec_chronicle.specs.Chronicle.{IsJournalOf, Stands};
ghost use Rattle.pec_chronicle.specs.declared.faults.CreateFault.TheVariants as create;
ghost use Rattle.pec_stock.specs.Opening.{IsOutside, IsUnfit};
ghost use Rattle.pec_seal.specs.Seals.{Seals};
ghost use Rattle.pec_stock.specs.Stock.{Agree, IsOwn, size_made};
ghost use Rattle.pec_stock.specs.declared.faults.ReopenFault.TheVariants as reopen;
ghost use Rattle.pec_provider.specs.Provider.{Runs, RunsIn, desk_of, fresh, stopped};

use crate::provider::Provider;
use pec_chronicle::{Chronicle, CreateFault};
use pec_outside::{Depot, Disk};
use pec_reception::House;
use pec_seal::Sealer;
use pec_shelf::Shelf;
use pec_stock::{ReopenFault, begin, open, restart};
use std::alloc::Global;

impl<D: Disk> Provider<D> {
    /// A provider on an empty disk: its journal is made, of version 2, with its Start. A crash during the call may
    /// leave a disk that holds bytes and is no journal, but no more of them than that journal has, or than it may
    /// have left before. With a fault the disk comes back; one that was empty may hold bytes then, no more than
    /// these.
    pub fn create<S: Sealer>(
        alloc: Global,
        house: &House<'_, S>,
        disk: D,
    ) -> Result<Provider<D>, (CreateFault, D)>
        requires { house.now.me < length house.now.directory.now }
        ensures runs { IfOk result (RunsIn house.now) }
        ensures created { IfOk result (λ provider. desk_of provider
            ≡ fresh (entries.StartTwo house.now.me (digest_of (providers_of house.now.directory.now)) ∷ [])) }
        ensures stands { D.tells → IfOk result (λ provider. Stands D.sight provider.chronicle) }

        // Not empty exactly where the disk holds a byte, unless the size can't be told; it then stays as it is.
        ensures empty { D.tells → OnOk result (length (D.sight disk).seen ≡ 0) }
        ensures not_empty { D.tells → IfErr result (λ fault. fault.0 ≡ create.NotEmpty →
            (length (D.sight disk).seen ≢ 0) × Rests (D.sight disk) (D.sight fault.1)) }
        ensures as_it_was { D.tells → length (D.sight disk).seen ≢ 0
            → IfErr result (λ fault. Rests (D.sight disk) (D.sight fault.1)) }

        // At any moment of the call a crash leaves no more bytes than the journal has, or than one before the call.
        ensures any_moment { D.tells → IfOk result (λ provider.
            GrowsTo (size_made house.now.directory.now house.now.me) (D.sight disk) (D.sight provider.chronicle.disk)) }
        ensures any_moment_err { D.tells → IfErr result (λ fault.
            GrowsTo (size_made house.now.directory.now house.now.me) (D.sight disk) (D.sight fault.1)) }
        ensures disk_fault { IfErr result (λ fault. fault.0 ≡ create.DiskFault
            → HasRisen (D.faults disk) (D.faults fault.1)) }
        ensures later { IfOk result (λ provider. D.faults disk ≤ D.faults provider.chronicle.disk) }
        ensures later_err { IfErr result (λ fault. D.faults disk ≤ D.faults fault.1) }
    {
        match begin(alloc, house.directory, house.me, disk) {
            Ok((chronicle, shelf)) => Ok(opened(alloc, house, chronicle, shelf)),
            Err(fault) => Err(fault),
        }
    }

    /// The provider whose journal is on a disk, which is first made durable as it reads: up, and nothing is owed. It
    /// writes nothing, reads each entry once, and takes time and memory in proportion to the journal. With a fault the
    /// disk comes back.
    pub fn reopen<S: Sealer>(
        alloc: Global,
        house: &House<'_, S>,
        disk: D,
    ) -> Result<Provider<D>, (ReopenFault, D)>
        requires { house.now.me < length house.now.directory.now }
        ensures runs { IfOk result (RunsIn house.now) }
        ensures up { IfOk result (λ provider. desk_of provider ≡ fresh provider.chronicle.entries) }
        ensures opened { D.tells → IfOk result (λ provider.
            IsJournalOf provider.chronicle.entries (D.sight disk).seen × Stands D.sight provider.chronicle) }

        // A journal of the provider's own entries is never refused; what is refused is unfit.
        ensures own { D.tells → (trade : Trade) (list : List SomeEntry) → IsOf house.now.directory.now trade
            → IsOwn trade house.now.me list → IsJournalOf list (D.sight disk).seen
            → IfErr result (λ refused. IsOutside refused.0) }
        ensures unfit { D.tells → (trade : Trade) → IsOf house.now.directory.now trade
            → IfErr result (λ refused. IsUnfit trade house.now.me (D.sight disk).seen refused.0) }
        ensures stays { D.tells → IfOk result (λ provider. Stays (D.sight disk) (D.sight provider.chronicle.disk)) }
        ensures stays_err { D.tells → IfErr result (λ refused. Stays (D.sight disk) (D.sight refused.1)) }
        ensures disk_fault { IfErr result (λ refused. refused.0 ≡ reopen.DiskFault
            → HasRisen (D.faults disk) (D.faults refused.1)) }
        ensures later { IfOk result (λ provider. D.faults disk ≤ D.faults provider.chronicle.disk) }
        ensures later_err { IfErr result (λ refused. D.faults disk ≤ D.faults refused.1) }
    {
        match open(alloc, house.directory, house.me, disk) {
            Ok((chronicle, shelf)) => Ok(opened(alloc, house, chronicle, shelf)),
            Err(fault) => Err(fault),
        }
    }

    /// Crashes the provider, whose disk is one of this depot's: it is down over the disk that the depot gives, which
    /// reads as a crash may have left the old one. It takes no memory.
    pub fn crash<P: Depot<D = D>>(self, depot: &mut P, me: u32) -> Provider<D>
        requires { me < depot_places }
        ensures runs { (kept : List Kept) (seals : Seals) → Runs kept seals me self → Runs kept seals me result }
        ensures stopped { desk_of result ≡ stopped (desk_of self) }
        ensures carries { D.tells → CarriesOn D.sight NothingMay self.chronicle result.chronicle }
        ensures left { D.tells → (D.sight self.chronicle.disk).may_leave (D.sight result.chronicle.disk).seen }
        ensures durable { D.tells
            → Only (D.sight result.chronicle.disk).seen (D.sight result.chronicle.disk).may_leave }
        ensures count { D.faults result.chronicle.disk ≡ D.faults self.chronicle.disk }
        ensures home { P.tells → Alike (P.home depot.old) (P.home depot.new) }
        ensures last { Alike (P.last depot.old) (P.last depot.new) }
        ensures later { P.faults depot.old ≤ P.faults depot.new }
    {
        let (chronicle, shelf, owed) = self.parts();
        Provider {
            chronicle: chronicle.crash(depot, me),
            shelf,
            owed,
        }
    }

    /// Opens the provider again over the disk that it has, after a crash or a fault of it: its entries are those
    /// before, with the interrupted one or without it, it is up, and nothing is owed. With a fault it is what it was,
    /// down.
    pub fn restart<S: Sealer>(
        self,
        alloc: Global,
        house: &House<'_, S>,
    ) -> Result<Provider<D>, (ReopenFault, Provider<D>)>
        requires { RunsIn house.now self }
        ensures runs { IfOk result (RunsIn house.now) }
        ensures up { IfOk result (λ provider. desk_of provider ≡ fresh provider.chronicle.entries) }
        ensures found { D.tells → Stands D.sight self.chronicle → IfOk result (λ provider.
            (found : Bool) × (provider.chronicle.entries
            ≡ self.chronicle.entries ++ chosen found self.chronicle.interrupted)) }
        ensures carries { D.tells
            → IfOk result (λ provider. CarriesOn D.sight NothingMay self.chronicle provider.chronicle) }

        ensures runs_err { IfErr result (λ refused. RunsIn house.now refused.1) }
        ensures stopped { IfErr result (λ refused. desk_of refused.1 ≡ stopped (desk_of self)) }
        ensures carries_err { D.tells
            → IfErr result (λ refused. CarriesOn D.sight NothingMay self.chronicle refused.1.chronicle) }

        // What a provider stands on is never refused as unfit.
        ensures outside { D.tells → Stands D.sight self.chronicle → IfErr result (λ refused. IsOutside refused.0) }
        ensures disk_fault { IfErr result (λ refused. refused.0 ≡ reopen.DiskFault →
            HasRisen (D.faults self.chronicle.disk) (D.faults refused.1.chronicle.disk)) }
        ensures later { IfOk result (λ provider. D.faults self.chronicle.disk ≤ D.faults provider.chronicle.disk) }
        ensures later_err { IfErr result (λ refused. D.faults self.chronicle.disk ≤ D.faults refused.1.chronicle.disk) }
    {
        let (chronicle, shelf, owed) = self.parts();
        match restart(alloc, house.directory, chronicle, shelf) {
            Ok((chronicle, shelf)) => Ok(opened(alloc, house, chronicle, shelf)),
            Err((fault, chronicle, shelf)) => Err((
                fault,
                Provider {
                    chronicle,
                    shelf,
                    owed,
                },
            )),
        }
    }
}

/// A provider over entries that agree with its half: nothing is owed.
fn opened<D, S: Sealer>(
    alloc: Global,
    _house: &House<'_, S>,
    chronicle: Chronicle<D>,
    shelf: Shelf,
) -> Provider<D>
    requires number { _house.now.me < length _house.now.directory.now }
    requires is { shelf.me ≡ _house.now.me }
    requires agree { Agree _house.now.directory.now chronicle shelf }
    ensures runs { RunsIn _house.now result }
    ensures made { (result.chronicle ≡ chronicle) × (result.owed ≡ []) }
{
    Provider {
        chronicle,
        shelf,
        owed: Vec::new(alloc),
    }
}
