ghost use Rattle.std.specs.Prelude.{◌≡◌, ◌≢◌, ℕ, ◌<◌, ◌≤◌, None, Some, length, IfOk, OnOk, IfErr, OnErr};
ghost use Rattle.pec_outside.specs.Depots.{Alike, OnlyAt};
ghost use Rattle.pec_outside.specs.Flow.{HasRisen};
ghost use Rattle.pec_network.specs.Beginning.{BlamesDisk, IsAbout, IsBack, IsBegun};
ghost use Rattle.pec_network.specs.Starting.{unmade_as, unopened_as};
ghost use Rattle.pec_network.specs.declared.faults.StartFault.TheVariants as faults;
ghost use Rattle.pec_network.specs.declared.opening.Form.TheVariants as forms;
ghost use Rattle.pec_provider.specs.Provider.{RunsIn};

use crate::faults::{NotFit, StartFault};
use crate::laws::few_providers;
use crate::opening::Form;
use pec_outside::{Depot, Disk, a_disk_is_so};
use pec_provider::{CreateFault, House, Provider, ReopenFault};
use pec_seal::Sealer;
use std::alloc::Global;

/// A provider over the disk that the depot hands out for it. Where that comes to nothing, it is kept again.
pub(crate) fn begin_next<D: Disk, S: Sealer, P: Depot<D = D>>(
    alloc: Global,
    form: Form,
    house: &House<'_, S>,
    depot: &mut P,
) -> Result<Provider<D>, StartFault>
    requires { house.now.me < length house.now.directory.now }
    ensures runs { IfOk result (RunsIn house.now) }
    ensures begun { IfOk result (IsBegun P.tells D.tells D.sight house.now.directory.now form house.now.me
        (P.home depot.old house.now.me)) }
    ensures out { P.tells → OnOk result (OnlyAt (P.home depot.old) (P.home depot.new) house.now.me None) }
    ensures count { IfOk result (λ provider.
        P.last depot.old house.now.me ≤ D.faults provider.chronicle.disk) }
    ensures last { OnOk result (Alike (P.last depot.old) (P.last depot.new)) }
    ensures about { IfErr result (IsAbout form house.now.me) }
    ensures back { P.tells → IfErr result (λ fault. (was : D) → P.home depot.old house.now.me ≡ Some was
        → IsBack P.tells D.tells D.sight house.now.directory.now form house.now.me fault was
        (P.home depot.new house.now.me)) }
    ensures others { P.tells → OnErr result ((number : ℕ) → number ≢ house.now.me
        → P.home depot.new number ≡ P.home depot.old number) }
    ensures blame { IfErr result (BlamesDisk (P.faults depot.old) (P.faults depot.new)
        (P.last depot.old) (P.last depot.new)) }
    ensures last_err { OnErr result ((number : ℕ) → P.last depot.old number ≤ P.last depot.new number) }
    ensures later { P.faults depot.old ≤ P.faults depot.new }
{
    few_providers(house.directory);
    a_disk_is_so::<D>();
    let Ok(disk) = depot.disk(house.me) else {
        return Err(StartFault::DiskFault(house.me));
    };
    match begin_one(alloc, form, house, disk) {
        Ok(provider) => {
            return Ok(provider);
        }
        Err((fault, disk)) => {
            depot.keep(house.me, disk);
            return Err(fault);
        }
    }
}

/// A provider over a disk. With a fault the disk comes back.
fn begin_one<D: Disk, S: Sealer>(
    alloc: Global,
    form: Form,
    house: &House<'_, S>,
    disk: D,
) -> Result<Provider<D>, (StartFault, D)>
    requires { house.now.me < length house.now.directory.now }
    ensures runs { IfOk result (RunsIn house.now) }
    ensures begun { IfOk result
        (IsBegun D.tells D.tells D.sight house.now.directory.now form house.now.me (Some disk)) }
    ensures later { IfOk result (λ provider. D.faults disk ≤ D.faults provider.chronicle.disk) }
    ensures about { IfErr result (λ refused. IsAbout form house.now.me refused.0) }
    ensures back { IfErr result (λ refused. IsBack D.tells D.tells D.sight house.now.directory.now form
        house.now.me refused.0 disk (Some refused.1)) }
    ensures disk_fault { IfErr result (λ refused. refused.0 ≡ faults.DiskFault house.now.me
        → HasRisen (D.faults disk) (D.faults refused.1)) }
    ensures later_err { IfErr result (λ refused. D.faults disk ≤ D.faults refused.1) }
{
    match form {
        Form::Make => make(alloc, house, disk),
        Form::Open => open(alloc, house, disk),
    }
}

/// A provider on an empty disk, where its journal is made. With a fault the disk comes back.
fn make<D: Disk, S: Sealer>(
    alloc: Global,
    house: &House<'_, S>,
    disk: D,
) -> Result<Provider<D>, (StartFault, D)>
    requires { house.now.me < length house.now.directory.now }
    ensures runs { IfOk result (RunsIn house.now) }
    ensures begun { IfOk result
        (IsBegun D.tells D.tells D.sight house.now.directory.now forms.Make house.now.me (Some disk)) }
    ensures later { IfOk result (λ provider. D.faults disk ≤ D.faults provider.chronicle.disk) }
    ensures about { IfErr result (λ refused. IsAbout forms.Make house.now.me refused.0) }
    ensures back { IfErr result (λ refused. IsBack D.tells D.tells D.sight house.now.directory.now forms.Make
        house.now.me refused.0 disk (Some refused.1)) }
    ensures disk_fault { IfErr result (λ refused. refused.0 ≡ faults.DiskFault house.now.me
        → HasRisen (D.faults disk) (D.faults refused.1)) }
    ensures later_err { IfErr result (λ refused. D.faults disk ≤ D.faults refused.1) }
{
    match Provider::create(alloc, house, disk) {
        Ok(provider) => {
            return Ok(provider);
        }
        Err((fault, disk)) => {
            return Err((unmade(house.me, fault), disk));
        }
    }
}

/// The provider whose journal is on a disk. With a fault the disk comes back.
fn open<D: Disk, S: Sealer>(
    alloc: Global,
    house: &House<'_, S>,
    disk: D,
) -> Result<Provider<D>, (StartFault, D)>
    requires { house.now.me < length house.now.directory.now }
    ensures runs { IfOk result (RunsIn house.now) }
    ensures begun { IfOk result
        (IsBegun D.tells D.tells D.sight house.now.directory.now forms.Open house.now.me (Some disk)) }
    ensures later { IfOk result (λ provider. D.faults disk ≤ D.faults provider.chronicle.disk) }
    ensures about { IfErr result (λ refused. IsAbout forms.Open house.now.me refused.0) }
    ensures back { IfErr result (λ refused. IsBack D.tells D.tells D.sight house.now.directory.now forms.Open
        house.now.me refused.0 disk (Some refused.1)) }
    ensures disk_fault { IfErr result (λ refused. refused.0 ≡ faults.DiskFault house.now.me
        → HasRisen (D.faults disk) (D.faults refused.1)) }
    ensures later_err { IfErr result (λ refused. D.faults disk ≤ D.faults refused.1) }
{
    match Provider::reopen(alloc, house, disk) {
        Ok(provider) => {
            return Ok(provider);
        }
        Err((fault, disk)) => {
            return Err((unopened(house.me, fault), disk));
        }
    }
}

/// Why a provider's journal isn't made.
fn unmade(me: u32, fault: CreateFault) -> StartFault
    ensures { result ≡ unmade_as me fault }
{
    match fault {
        CreateFault::NotEmpty => StartFault::NotEmpty(me),
        CreateFault::DiskFault => StartFault::DiskFault(me),
        CreateFault::NoMemory => StartFault::NoMemory,
    }
}

/// Why it isn't opened.
fn unopened(me: u32, fault: ReopenFault) -> StartFault
    ensures { result ≡ unopened_as me fault }
{
    match fault {
        ReopenFault::DiskFault => StartFault::DiskFault(me),
        ReopenFault::NotAJournal(place) => StartFault::NotFit(me, NotFit::Journal(place)),
        ReopenFault::OtherDirectory(kept, given) => {
            StartFault::NotFit(me, NotFit::OtherDirectory(kept, given))
        }
        ReopenFault::BadEntry(number) => StartFault::NotFit(me, NotFit::BadEntry(number)),
        ReopenFault::NoMemory => StartFault::NoMemory,
    }
}
