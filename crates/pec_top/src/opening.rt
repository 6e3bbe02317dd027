ghost use Rattle.std.specs.Prelude.{◌≡◌, ◌≢◌, ◌&&◌, ◌⊎◌, ℕ, ◌<◌, ◌≤◌, List, None, Option, map, IfOk, IfErr, OnErr, IsErrOf};
ghost use Rattle.pec_outside.specs.Depots.{depot_places};
ghost use Rattle.pec_directory.specs.Directory.{Provider, providers_of};
ghost use Rattle.pec_runs.specs.Openings.{Unfits, disks_at};
ghost use Rattle.pec_runs.specs.Plays.{Finish, finish_text};
ghost use Rattle.pec_runs.specs.Ran.{TellsAs};
ghost use Rattle.pec_runs.specs.Through.{AreHadFrom};
ghost use Rattle.pec_service.specs.Runs.{finish_at, is_headless};
ghost use Rattle.pec_serving.specs.OfNetworks.faults as faults;
ghost use Rattle.pec_top.specs.Blaming.{BlamesRefusal, HasLine, HaveDisksRisen};
ghost use Rattle.pec_top.specs.Opened.{Finishes, IsFormOf, IsLookedAgain, IsOpened, IsRefusedSo, IsUnfit};
ghost use Rattle.pec_top.specs.Opened.{IsUnopened, asked_again, headless_of, next_by, provider_named};
ghost use Rattle.pec_top.specs.Running.{AreHomeAgain};
ghost use Rattle.pec_top.specs.Shown.{form_shown, result_shown, unfit_of};
ghost use Rattle.pec_top.specs.Surveys.{AreAsTheyWere};
ghost use Rattle.pec_top.specs.declared.opening.Refusal.TheVariants as refusals;

use crate::ending::{End, Stop};
use crate::forms::Form;
use crate::laws::a_network_is_whole;
use crate::run::write_last;
use crate::survey::{choose_form, holds_something};
use crate::texts::{not_empty_text, not_fit_text};
use pec_directory::Directory;
use pec_outside::{Depot, Disk, Failed, Sink, a_disk_is_so};
use pec_screen::Judge;
use pec_seal::{HmacSealer, Sealer};
use pec_serving::{
    Network, NotFit, StartFault, a_trade_says_what_its_parts_say, sealer_of, the_texts_are_a_trade,
};
use pec_types::NoMemory;
use std::alloc::Global;

/// How the providers of a run come to their journals.
#[derive(Clone, Copy, Debug, PartialEq, Eq)]
pub(crate) enum Journals {
    /// As this form says.
    As(Form),
    /// They are made where all disks are empty, and opened where one holds something.
    Chosen,
}

/// How a run ends that can't have all its journals.
#[derive(Drop)]
pub(crate) enum Refusal {
    /// A disk isn't empty on which a journal was to be made, or one that holds something doesn't begin as a journal
    /// does. This is the last line.
    NotEmpty(Vec<u8>),
    /// The journal on a disk isn't its provider's own. This is the last line.
    NotFit(Vec<u8>),
    /// A disk failed, or the depot did.
    StartFault,
    NoMemory,
}

impl From<NoMemory> for Refusal {
    ghost from_gives = { λ _ refusal. refusal ≡ refusals.NoMemory };

    fn from(_: NoMemory) -> Self {
        Refusal::NoMemory
    }
}

/// The network of a directory, each of whose providers has its journal on its disk of the depot. The screens of a
/// provider are those at its number, and none where there are fewer; with a refusal they are dropped.
pub(crate) fn open<P: Depot, J: Judge>(
    alloc: Global,
    how: Journals,
    directory: Directory,
    screens: Vec<J>,
    depot: &mut P,
) -> Result<Network<P::D, HmacSealer, J>, Refusal>
    ensures same { IfOk result (λ network. network.kept ≡ directory) }
    ensures opened { IfOk result (λ network. IsOpened P.tells P.D.tells P.D.sight
        ⟦<HmacSealer as Sealer>⟧.seals P.D.faults (map J.patterns screens.items) how (P.home depot.old)
        (P.home depot.new) (P.last depot.old) (P.last depot.new) network) }
    ensures refused { IfErr result (λ refusal. IsUnopened how (map J.patterns screens.items) directory
        (disks_at (P.tells × P.D.tells) P.D.sight (P.home depot.old))
        (disks_at (P.tells × P.D.tells) P.D.sight (P.home depot.new))
        (λ form trade. AreHadFrom P.D.sight (P.tells × P.D.tells) form trade (P.home depot.old) (P.home depot.new))
        refusal) }
    ensures home { P.tells → OnErr result (AreHomeAgain (P.home depot.old) (P.home depot.new)) }
    ensures blame { IfErr result (λ refusal. refusal ≡ Refusal.StartFault
        → HaveDisksRisen (P.faults depot.old) (P.faults depot.new) (P.last depot.old) (P.last depot.new)) }
    ensures last { (provider : ℕ) → P.last depot.old provider ≤ P.last depot.new provider }
    ensures later { P.faults depot.old ≤ P.faults depot.new }
{
    a_trade_says_what_its_parts_say();
    the_texts_are_a_trade::<HmacSealer>();
    a_disk_is_so::<P::D>();
    // (a directory is lawful, and its zones are by its rules)
    let count = directory.count();
    let sealer = sealer_of(alloc, &directory)?;
    let Ok(form) = form_of(how, depot, count) else {
        return Err(Refusal::StartFault);
    };
    match Network::begin(alloc, form.way(), directory, sealer, screens, depot) {
        Ok(network) => {
            a_network_is_whole(&network);
            Ok(network)
        }
        Err(refused) => Err(refuse(alloc, how, &refused.1, refused.0, depot)),
    }
}

/// The form in which so many journals are had.
fn form_of<P: Depot>(how: Journals, depot: &mut P, count: u32) -> Result<Form, Failed>
    requires { count ≤ depot_places }
    ensures is { IfOk result (λ form.
        IsFormOf (disks_at (P.tells × P.D.tells) P.D.sight (P.home depot.old)) count how (form_shown form)) }
    ensures elsewhere { P.tells → (provider : ℕ) → count ≤ provider
        → P.home depot.new provider ≡ P.home depot.old provider }
    ensures rest { P.tells → AreAsTheyWere P.D.tells P.D.sight (P.home depot.old) (P.home depot.new) }
    ensures chosen { OnErr result (how ≡ Journals.Chosen) }
    ensures last { (provider : ℕ) → P.last depot.old provider ≤ P.last depot.new provider }
    ensures later { P.faults depot.old ≤ P.faults depot.new }
    ensures cause { OnErr result
        (HaveDisksRisen (P.faults depot.old) (P.faults depot.new) (P.last depot.old) (P.last depot.new)) }
{
    match how {
        Journals::As(form) => Ok(form),
        Journals::Chosen => choose_form(depot, count),
    }
}

/// How a run ends for which a disk came to nothing.
fn refuse<P: Depot>(
    alloc: Global,
    how: Journals,
    directory: &Directory,
    fault: StartFault,
    depot: &mut P,
) -> Refusal
    requires { provider_named 0 fault < depot_places }
    ensures refused { IsRefusedSo how (providers_of directory.now) fault
        (disks_at (P.tells × P.D.tells) P.D.sight (P.home depot.old)) result }
    ensures rest { P.tells → AreAsTheyWere P.D.tells P.D.sight (P.home depot.old) (P.home depot.new) }
    ensures blame { result ≡ Refusal.StartFault → ((number : ℕ) × (fault ≡ faults.DiskFault number))
        ⊎ HaveDisksRisen (P.faults depot.old) (P.faults depot.new) (P.last depot.old) (P.last depot.new) }
    ensures last { (provider : ℕ) → P.last depot.old provider ≤ P.last depot.new provider }
    ensures later { P.faults depot.old ≤ P.faults depot.new }
{
    let Ok(holds) = looked_again(how, fault, depot) else {
        return Refusal::StartFault;
    };
    match refusal_of(alloc, directory, fault, holds) {
        Ok(refusal) => refusal,
        Err(_) => Refusal::NoMemory,
    }
}

/// Whether a disk that doesn't begin as a journal does holds something, where that is asked.
fn looked_again<P: Depot>(how: Journals, fault: StartFault, depot: &mut P) -> Result<bool, Failed>
    requires { provider_named 0 fault < depot_places }
    ensures holds { IfOk result (IsLookedAgain (asked_again how fault)
        (disks_at (P.tells × P.D.tells) P.D.sight (P.home depot.old))) }
    ensures unfit { OnErr result (IsUnfit fault) }
    ensures rest { P.tells → AreAsTheyWere P.D.tells P.D.sight (P.home depot.old) (P.home depot.new) }
    ensures last { (provider : ℕ) → P.last depot.old provider ≤ P.last depot.new provider }
    ensures later { P.faults depot.old ≤ P.faults depot.new }
    ensures cause { OnErr result
        (HaveDisksRisen (P.faults depot.old) (P.faults depot.new) (P.last depot.old) (P.last depot.new)) }
{
    match asked_again(how, fault) {
        Some(number) => holds_something(depot, number),
        None => Ok(false),
    }
}

/// The provider whose disk is looked at again.
fn asked_again(how: Journals, fault: StartFault) -> Option<u32>
    ensures { result ≡ asked_again how fault }
{
    match how {
        Journals::As(_) => None,
        Journals::Chosen => headless(fault),
    }
}

/// The provider whose disk doesn't begin as a journal does, where that is the fault.
fn headless(fault: StartFault) -> Option<u32>
    ensures { result ≡ headless_of fault }
{
    match fault {
        StartFault::NotFit(number, NotFit::Journal(place)) => {
            if place == 0 { Some(number) } else { None }
        }
        _ => None,
    }
}

/// How a run ends for this fault, where the disk holds something or isn't looked at.
fn refusal_of(
    alloc: Global,
    directory: &Directory,
    fault: StartFault,
    holds: bool,
) -> Result<Refusal, NoMemory>
    ensures { (other : ℕ) → IfOk result (λ refusal. Finishes (providers_of directory.now) refusal
        (finish_at holds (provider_named other fault) (next_by fault))) }
{
    match fault {
        StartFault::NotEmpty(number) => {
            let text = not_empty_text(alloc, directory, number)?;
            Ok(Refusal::NotEmpty(text))
        }
        StartFault::NotFit(number, why) => {
            let refusal = unfit(alloc, directory, number, why, holds)?;
            Ok(refusal)
        }
        StartFault::DiskFault(_) => Ok(Refusal::StartFault),
        StartFault::NoMemory => Ok(Refusal::NoMemory),
    }
}

/// How a run ends whose disk of this provider holds no journal of it.
fn unfit(
    alloc: Global,
    directory: &Directory,
    number: u32,
    why: NotFit,
    holds: bool,
) -> Result<Refusal, NoMemory>
    ensures { IfOk result (λ refusal. Finishes (providers_of directory.now) refusal
        (finish_at holds number (Unfits (unfit_of why)))) }
{
    if isnt_empty(holds, why) {
        let text = not_empty_text(alloc, directory, number)?;
        return Ok(Refusal::NotEmpty(text));
    }
    let text = not_fit_text(alloc, directory, number, why)?;
    Ok(Refusal::NotFit(text))
}

/// A disk that holds something and doesn't begin as a journal does isn't empty.
fn isnt_empty(holds: bool, why: NotFit) -> bool
    ensures { result ≡ (holds && is_headless (unfit_of why)) }
{
    if !holds {
        return false;
    }
    is_headless(why)
}

/// Whether a disk doesn't begin as a journal does.
fn is_headless(why: NotFit) -> bool
    ensures { result ≡ is_headless (unfit_of why) }
{
    match why {
        NotFit::Journal(place) => place == 0,
        _ => false,
    }
}

/// Ends a run so, with its last line where it has one.
pub(crate) fn end_refused<W: Sink>(refusal: Refusal, out: &mut W) -> Result<End, Stop>
    ensures told { (providers : List Provider) (finish : Finish) → Finishes providers refusal finish
        → TellsAs (result_shown result) (W.held out.old) (W.held out.new) (finish_text providers finish) finish }
    ensures blame { IfErr result (BlamesRefusal refusal (W.faults out.old) (W.faults out.new)) }
    ensures line { IsErrOf result Stop.WriteFault → HasLine refusal }
    ensures later { W.faults out.old ≤ W.faults out.new }
    ensures not_done { IfOk result (λ end. end ≢ End.Done) }
{
    match refusal {
        Refusal::NotEmpty(text) => write_last(out, &text, End::NotEmpty),
        Refusal::NotFit(text) => write_last(out, &text, End::NotFit),
        Refusal::StartFault => Err(Stop::StartFault),
        Refusal::NoMemory => Err(Stop::NoMemory),
    }
}
