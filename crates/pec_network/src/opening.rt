ghost use Rattle.std.specs.Prelude.{◌≡◌, ℕ, ◌<◌, ◌≤◌, [], None, Some, length, map, replicate, vec_capacity};
ghost use Rattle.std.specs.Prelude.{IfOk, OnOk, IfErr, OnErr};
ghost use Rattle.pec_outside.specs.Depots.{Alike};
ghost use Rattle.pec_directory.specs.Directory.{providers_of};
ghost use Rattle.pec_provider.specs.OfTrades.{Fits};
ghost use Rattle.pec_network.specs.Beginning.{AllBegun, BlamesDisk, IsAbout, IsBack, IsRefused, NoneFell};
ghost use Rattle.pec_network.specs.Beginning.{all_rested, journals_had};
ghost use Rattle.pec_network.specs.Homes.{AllAt};
ghost use Rattle.pec_network.specs.Judging.{lists_of};
ghost use Rattle.pec_network.specs.Network.{of_first, sites};
ghost use Rattle.pec_network.specs.Starting.{AllRun};
ghost use Rattle.pec_network.specs.declared.opening.Form.TheVariants as forms;

use crate::closing::keep_all;
use crate::faults::StartFault;
use crate::judging::one_each;
use crate::network::Network;
use crate::starting::begin_next;
use pec_directory::Directory;
use pec_outside::{Depot, Disk, a_disk_is_so};
use pec_posts::Arrivals;
use pec_provider::{House, Provider};
use pec_screen::{Judge, Perhaps};
use pec_seal::Sealer;
use pec_types::NoMemory;
use std::alloc::Global;

/// How the providers of a network come to their journals.
#[derive(Clone, Copy, Debug, PartialEq, Eq)]
pub enum Form {
    /// They are made, on empty disks.
    Make,
    /// Those that are on the disks are opened.
    Open,
}

/// A network begins with what the disks hold that a depot has at home. It asks for them from provider 0 on, until one
/// comes to nothing, and keeps each of those again then.
impl<D: Disk, S: Sealer + Drop, J: Judge> Network<D, S, J> {
    /// A network on empty disks: each provider's journal is made, with its Start. It is refused where the depot doesn't
    /// hand out a disk or the disk fails (`DiskFault`), where one holds a byte (`NotEmpty`), and for want of memory. A
    /// disk that was empty may hold bytes then; one that held a byte is unchanged. The screens of a provider are those
    /// at its number among `judges`, and none past their end.
    pub fn create<P: Depot<D = D>>(
        alloc: Global,
        directory: Directory,
        sealer: S,
        judges: Vec<J>,
        depot: &mut P,
    ) -> Result<Network<D, S, J>, StartFault>
        requires { Fits (S.seals sealer) (providers_of directory) }
        ensures same { IfOk result (λ network. (network.kept ≡ directory) × (network.sealer ≡ sealer)) }
        ensures rests { IfOk result (λ network. sites network
            ≡ all_rested (map J.patterns judges.items) (journals_had network.providers)) }
        ensures screens { IfOk result (λ network.
            network.screens ≡ of_first (length directory) (map J.patterns judges.items)) }
        ensures looks { IfOk result (λ network. network.looks ≡ of_first (length directory) (map J.seen judges.items)) }
        ensures begun { IfOk result (λ network.
            AllBegun P.tells D.tells D.sight directory forms.Make (P.home depot.old) network.providers) }
        ensures out { P.tells → IfOk result (λ network.
            AllAt (λ provider. None) (P.home depot.old) (P.home depot.new) network.providers) }
        ensures counts { IfOk result (λ network. NoneFell D.faults (P.last depot.old) network.providers) }
        ensures last { OnOk result (Alike (P.last depot.old) (P.last depot.new)) }
        ensures refused { IfErr result
            (IsRefused P.tells D.tells D.sight directory forms.Make (P.home depot.old) (P.home depot.new)) }
        ensures blame { IfErr result (BlamesDisk (P.faults depot.old) (P.faults depot.new)
            (P.last depot.old) (P.last depot.new)) }
        ensures last_err { OnErr result ((number : ℕ) → P.last depot.old number ≤ P.last depot.new number) }
        ensures later { P.faults depot.old ≤ P.faults depot.new }
    {
        match Network::begin(alloc, Form::Make, directory, sealer, judges, depot) {
            Ok(network) => Ok(network),
            Err((fault, _)) => Err(fault),
        }
    }

    /// A network over the journals that are on the disks, each of which is first made durable as it reads; it writes
    /// nothing. It is refused where the depot doesn't hand out a disk or the disk fails (`DiskFault`), where the
    /// journal on one isn't its provider's own (`NotFit`), and for want of memory. The screens are as `create` has
    /// them.
    pub fn resume<P: Depot<D = D>>(
        alloc: Global,
        directory: Directory,
        sealer: S,
        judges: Vec<J>,
        depot: &mut P,
    ) -> Result<Network<D, S, J>, StartFault>
        requires { Fits (S.seals sealer) (providers_of directory) }
        ensures same { IfOk result (λ network. (network.kept ≡ directory) × (network.sealer ≡ sealer)) }
        ensures rests { IfOk result (λ network. sites network
            ≡ all_rested (map J.patterns judges.items) (journals_had network.providers)) }
        ensures screens { IfOk result (λ network.
            network.screens ≡ of_first (length directory) (map J.patterns judges.items)) }
        ensures looks { IfOk result (λ network. network.looks ≡ of_first (length directory) (map J.seen judges.items)) }
        ensures begun { IfOk result (λ network.
            AllBegun P.tells D.tells D.sight directory forms.Open (P.home depot.old) network.providers) }
        ensures out { P.tells → IfOk result (λ network.
            AllAt (λ provider. None) (P.home depot.old) (P.home depot.new) network.providers) }
        ensures counts { IfOk result (λ network. NoneFell D.faults (P.last depot.old) network.providers) }
        ensures last { OnOk result (Alike (P.last depot.old) (P.last depot.new)) }
        ensures refused { IfErr result
            (IsRefused P.tells D.tells D.sight directory forms.Open (P.home depot.old) (P.home depot.new)) }
        ensures blame { IfErr result (BlamesDisk (P.faults depot.old) (P.faults depot.new)
            (P.last depot.old) (P.last depot.new)) }
        ensures last_err { OnErr result ((number : ℕ) → P.last depot.old number ≤ P.last depot.new number) }
        ensures later { P.faults depot.old ≤ P.faults depot.new }
    {
        match Network::begin(alloc, Form::Open, directory, sealer, judges, depot) {
            Ok(network) => Ok(network),
            Err((fault, _)) => Err(fault),
        }
    }

    /// A network whose providers come to their journals in this form: as `create` makes one, or as `resume` opens
    /// it. With a refusal the directory comes back, and the screens are dropped.
    pub fn begin<P: Depot<D = D>>(
        alloc: Global,
        form: Form,
        directory: Directory,
        sealer: S,
        judges: Vec<J>,
        depot: &mut P,
    ) -> Result<Network<D, S, J>, (StartFault, Directory)>
        requires { Fits (S.seals sealer) (providers_of directory) }
        ensures same { IfOk result (λ network. (network.kept ≡ directory) × (network.sealer ≡ sealer)) }
        ensures rests { IfOk result (λ network. sites network
            ≡ all_rested (map J.patterns judges.items) (journals_had network.providers)) }
        ensures screens { IfOk result (λ network.
            network.screens ≡ of_first (length directory) (map J.patterns judges.items)) }
        ensures looks { IfOk result (λ network. network.looks ≡ of_first (length directory) (map J.seen judges.items)) }
        ensures begun { IfOk result (λ network.
            AllBegun P.tells D.tells D.sight directory form (P.home depot.old) network.providers) }
        ensures out { P.tells → IfOk result (λ network.
            AllAt (λ provider. None) (P.home depot.old) (P.home depot.new) network.providers) }
        ensures counts { IfOk result (λ network. NoneFell D.faults (P.last depot.old) network.providers) }
        ensures last { OnOk result (Alike (P.last depot.old) (P.last depot.new)) }
        ensures refused { IfErr result (λ refused.
            IsRefused P.tells D.tells D.sight directory form (P.home depot.old) (P.home depot.new) refused.0) }
        ensures given_back { IfErr result (λ refused. refused.1 ≡ directory) }
        ensures blame { IfErr result (λ refused. BlamesDisk (P.faults depot.old) (P.faults depot.new)
            (P.last depot.old) (P.last depot.new) refused.0) }
        ensures last_err { OnErr result ((number : ℕ) → P.last depot.old number ≤ P.last depot.new number) }
        ensures later { P.faults depot.old ≤ P.faults depot.new }
    {
        a_disk_is_so::<D>();
        let Ok((arrivals, judges)) = laid(alloc, judges, directory.count()) else {
            return Err((StartFault::NoMemory, directory));
        };
        match begin_all(alloc, form, &directory, &sealer, depot) {
            Ok(providers) => {
                return Ok(Network {
                    directory,
                    sealer,
                    providers,
                    judges,
                    arrivals,
                });
            }
            Err(fault) => {
                return Err((fault, directory));
            }
        }
    }
}

/// What so many providers have beside themselves: links from all for each, on which no frame waits, and the screens of
/// each.
fn laid<J: Judge>(
    alloc: Global,
    judges: Vec<J>,
    count: u32,
) -> Result<(Vec<Arrivals>, Vec<Perhaps<J>>), NoMemory>
    ensures arrivals { IfOk result (λ laid. laid.0.items ≡ replicate count (replicate count [])) }
    ensures screens { IfOk result (λ laid.
        lists_of J.patterns laid.1.items ≡ of_first count (map J.patterns judges.items)) }
    ensures looks { IfOk result (λ laid. lists_of J.seen laid.1.items ≡ of_first count (map J.seen judges.items)) }
    ensures count { IfOk result (λ laid. length laid.1.items ≡ count) }
{
    let arrivals = no_frames(alloc, count)?;
    let judges = one_each(alloc, judges, count)?;
    Ok((arrivals, judges))
}

/// Links from all for each of so many providers, on which no frame waits.
fn no_frames(alloc: Global, count: u32) -> Result<Vec<Arrivals>, NoMemory>
    ensures { IfOk result (λ arrivals. arrivals.items ≡ replicate count (replicate count [])) }
{
    let mut arrivals = Vec::new(alloc);
    for _ in 0..count {
        let links = Arrivals::new(alloc, count)?;
        arrivals.push(links)?;
    }
    Ok(arrivals)
}

/// All providers of a directory, each over the disk that the depot hands out for it. Where one's comes to nothing, each
/// disk is kept again.
fn begin_all<D: Disk, S: Sealer, P: Depot<D = D>>(
    alloc: Global,
    form: Form,
    directory: &Directory,
    sealer: &S,
    depot: &mut P,
) -> Result<Vec<Provider<D>>, StartFault>
    requires { Fits (S.seals sealer.now) (providers_of directory.now) }
    ensures all { IfOk result (λ providers. length providers.items ≡ length directory.now) }
    ensures runs { IfOk result (λ providers. AllRun directory.now (S.seals sealer.now) providers.items) }
    ensures begun { IfOk result (λ providers.
        AllBegun P.tells D.tells D.sight directory.now form (P.home depot.old) providers.items) }
    ensures out { P.tells → IfOk result (λ providers.
        AllAt (λ provider. None) (P.home depot.old) (P.home depot.new) providers.items) }
    ensures counts { IfOk result (λ providers. NoneFell D.faults (P.last depot.old) providers.items) }
    ensures last { OnOk result (Alike (P.last depot.old) (P.last depot.new)) }
    ensures refused { IfErr result
        (IsRefused P.tells D.tells D.sight directory.now form (P.home depot.old) (P.home depot.new)) }
    ensures blame { IfErr result (BlamesDisk (P.faults depot.old) (P.faults depot.new)
        (P.last depot.old) (P.last depot.new)) }
    ensures last_err { OnErr result ((number : ℕ) → P.last depot.old number ≤ P.last depot.new number) }
    ensures later { P.faults depot.old ≤ P.faults depot.new }
{
    let mut providers = Vec::with_capacity(alloc, directory.count() as usize)?;
    match begin_each(alloc, form, directory, sealer, depot, &mut providers) {
        Ok(()) => {
            return Ok(providers);
        }
        Err(fault) => {
            keep_all(providers, depot);
            return Err(fault);
        }
    }
}

/// Puts the providers of a directory into a list that has room for them, up to the first whose disk comes to nothing.
fn begin_each<D: Disk, S: Sealer, P: Depot<D = D>>(
    alloc: Global,
    form: Form,
    directory: &Directory,
    sealer: &S,
    depot: &mut P,
    providers: &mut Vec<Provider<D>>,
) -> Result<(), StartFault>
    requires fits { Fits (S.seals sealer.now) (providers_of directory.now) }
    requires none { providers.old.items ≡ [] }
    requires room { length directory.now ≤ vec_capacity providers.old }

    // On every answer the list has those that have begun.
    ensures count { length providers.new.items ≤ length directory.now }
    ensures runs { AllRun directory.now (S.seals sealer.now) providers.new.items }
    ensures begun { AllBegun P.tells D.tells D.sight directory.now form (P.home depot.old) providers.new.items }
    ensures counts { NoneFell D.faults (P.last depot.old) providers.new.items }
    ensures later { P.faults depot.old ≤ P.faults depot.new }

    ensures all { OnOk result (length providers.new.items ≡ length directory.now) }
    ensures out { P.tells → OnOk result
        (AllAt (λ provider. None) (P.home depot.old) (P.home depot.new) providers.new.items) }
    ensures last { OnOk result (Alike (P.last depot.old) (P.last depot.new)) }

    // The next disk came to nothing, and none behind it was asked for.
    ensures fewer { OnErr result (length providers.new.items < length directory.now) }
    ensures about { IfErr result (IsAbout form (length providers.new.items)) }
    ensures back { P.tells → IfErr result (λ fault. (was : D) → P.home depot.old (length providers.new.items) ≡ Some was
        → IsBack P.tells D.tells D.sight directory.now form (length providers.new.items) fault was
        (P.home depot.new (length providers.new.items))) }
    ensures behind { P.tells → OnErr result ((number : ℕ) → length providers.new.items < number
        → P.home depot.new number ≡ P.home depot.old number) }
    ensures blame { IfErr result (BlamesDisk (P.faults depot.old) (P.faults depot.new)
        (P.last depot.old) (P.last depot.new)) }
    ensures last_err { OnErr result ((number : ℕ) → P.last depot.old number ≤ P.last depot.new number) }
{
    for me in 0..directory.count() {
        let house = House {
            directory,
            sealer,
            me,
        };
        let provider = begin_next(alloc, form, &house, depot)?;
        providers.push_reserved(provider);
    }
    Ok(())
}
