ghost use Rattle.std.specs.Prelude.{◌≡◌, ◌≤◌, ℕ, Option};
ghost use Rattle.pec_types.specs.Bytes.{Bytes};
ghost use Rattle.pec_outside.specs.Flow.{HasRisen};
ghost use Rattle.pec_directory.specs.Directory.{providers_of};
ghost use Rattle.pec_dossier.specs.Extracts.{TellsHeader, TellsText};
ghost use Rattle.pec_extract.specs.Logs.{AllStand, AllUp, IsChangedIn, LogsTell, log_text, logs_of};
ghost use Rattle.pec_input.specs.Finding.{IsAtEnd};
ghost use Rattle.pec_runs.specs.Statuses as statuses;
ghost use Rattle.pec_serving.specs.OfNetworks.{IsOfDirectory, world_of};
ghost use Rattle.pec_top.specs.Extracting.{DevicesGo, LogRanSo, WereRead, devices_of, header_text};
ghost use Rattle.pec_top.specs.Inputs.{IsWholeTaken};
ghost use Rattle.pec_top.specs.Running.{AreHomeAgain};
ghost use Rattle.pec_top.specs.Shown.{range_shown, status_shown};

use crate::forms::Form;
use crate::input::Input;
use crate::laws::a_network_is_whole;
use crate::opening::{Journals, end_refused, open};
use crate::run::write_last;
use crate::status::{Status, log_status, status_of};
use pec_directory::Directory;
use pec_extract::write_log;
use pec_outside::{Depot, Disk, Sink, Source};
use pec_screen::Judge;
use pec_seal::Sealer;
use pec_serving::{Network, keep_all};
use pec_types::Moment;
use std::alloc::Global;

/// Reads the input to its end, opens the journals of the directory that it is, and writes what these logged from the
/// first moment to the second.
pub(crate) fn extract_form<S: Source, W: Sink, P: Depot, J: Judge>(
    alloc: Global,
    from: Moment,
    upto: Moment,
    input: &mut S,
    out: &mut W,
    depot: &mut P,
) -> Status
    ensures ran { LogRanSo (P.tells × P.D.tells) P.D.sight P.D.faults (range_shown (from, upto)) (status_shown result)
        (S.left input.old) (W.held out.old) (W.held out.new) (P.home depot.old) (P.home depot.new)
        (P.last depot.old) (P.last depot.new) }
    ensures all_read { status_shown result ≡ statuses.Done → IsAtEnd (S.left input.new) }
    ensures counts { DevicesGo (status_shown result)
        (devices_of (S.faults input.old) (W.faults out.old) (P.faults depot.old) (P.last depot.old))
        (devices_of (S.faults input.new) (W.faults out.new) (P.faults depot.new) (P.last depot.new)) }
    ensures home { P.tells → AreHomeAgain (P.home depot.old) (P.home depot.new) }
{
    match Input::whole(alloc, input) {
        Ok(Input::Opens(directory)) => {
            extract_opened::<W, P, J>(alloc, from, upto, directory, out, depot)
        }
        Ok(Input::Ends(text, end)) => status_of(write_last(out, &text, end)),
        Err(stop) => status_of(Err(stop)),
    }
}

/// Opens the journals of a directory, writes what they logged in the range, and keeps the disks in the depot again.
/// Nothing is played, so that no screens are needed.
fn extract_opened<W: Sink, P: Depot, J: Judge>(
    alloc: Global,
    from: Moment,
    upto: Moment,
    directory: Directory,
    out: &mut W,
    depot: &mut P,
) -> Status
    ensures ran { (unread left : Option Bytes) → IsWholeTaken unread left (providers_of directory)
        → LogRanSo (P.tells × P.D.tells) P.D.sight P.D.faults (range_shown (from, upto)) (status_shown result)
        unread (W.held out.old) (W.held out.new) (P.home depot.old) (P.home depot.new)
        (P.last depot.old) (P.last depot.new) }
    ensures counts { DevicesGo (status_shown result)
        (devices_of 0 (W.faults out.old) (P.faults depot.old) (P.last depot.old))
        (devices_of 0 (W.faults out.new) (P.faults depot.new) (P.last depot.new)) }
    ensures home { P.tells → AreHomeAgain (P.home depot.old) (P.home depot.new) }
{
    let screens: Vec<J> = Vec::new(alloc);
    match open(alloc, Journals::As(Form::Resume), directory, screens, depot) {
        Ok(network) => {
            a_network_is_whole(&network);
            extract_network(alloc, from, upto, network, out, depot)
        }
        Err(refusal) => status_of(end_refused(refusal, out)),
    }
}

/// Writes what the journals of a network logged in the range, and keeps its disks in the depot.
fn extract_network<W: Sink, P: Depot, S: Sealer + Drop, J: Judge>(
    alloc: Global,
    from: Moment,
    upto: Moment,
    network: Network<P::D, S, J>,
    out: &mut W,
    depot: &mut P,
) -> Status
    requires whole { IsOfDirectory network.kept (S.seals network.sealer) network.providers network.waiting }
    requires up { AllUp network.providers }
    ensures told { P.D.tells → AllStand P.D.sight network.providers
        → TellsText (status_shown result) (W.held out.old) (W.held out.new)
        (log_text (world_of S.seals network) (providers_of network.kept) from upto (logs_of network.providers)) }
    ensures headed { TellsHeader (status_shown result) header_text (W.held out.old) (W.held out.new) }
    ensures changed { P.D.tells → AllStand P.D.sight network.providers → status_shown result ≡ statuses.Changed
        → (number : ℕ) × IsChangedIn (world_of S.seals network) (logs_of network.providers) number }
    ensures unchanged { P.D.tells → AllStand P.D.sight network.providers → status_shown result ≡ statuses.Done
        → LogsTell (world_of S.seals network) from upto (logs_of network.providers) }
    ensures read { WereRead P.tells P.D.tells P.D.sight P.D.faults (status_shown result) network.providers
        (P.home depot.old) (P.home depot.new) (P.last depot.old) (P.last depot.new) }
    ensures write_fault { status_shown result ≡ statuses.WriteFault → HasRisen (W.faults out.old) (W.faults out.new) }
    ensures out_later { W.faults out.old ≤ W.faults out.new }
    ensures later { P.faults depot.old ≤ P.faults depot.new }
{
    let (directory, sealer, mut providers) = network.into_parts();
    // (a depot has a place for each provider of a directory)
    directory.count();
    let written = write_log(
        alloc,
        &directory,
        &sealer,
        providers.as_mut_slice(),
        from,
        upto,
        out,
    );
    keep_all(providers, depot);
    log_status(written)
}
