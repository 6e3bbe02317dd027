ghost use Rattle.std.specs.Prelude.{◌≢◌, ℕ, List, Option};
ghost use Rattle.pec_types.specs.Bytes.{Bytes};
ghost use Rattle.pec_directory.specs.Directory.{Provider};
ghost use Rattle.pec_ledger.specs.Ledger.{Fit};
ghost use Rattle.pec_ledger.specs.Network.{journals_in};
ghost use Rattle.pec_ledger.specs.Trade.{Trade};
ghost use Rattle.pec_dossier.specs.Extracts.{Range};
ghost use Rattle.pec_runs.specs.Happened.{trade_in};
ghost use Rattle.pec_runs.specs.Statuses.{Status};
ghost use Rattle.pec_runs.specs.Statuses as statuses;
ghost use Rattle.pec_serving.specs.OfNetworks.{IsOfDirectory};
ghost use Rattle.pec_top.specs.Extracting.{LogRanSo};
ghost use Rattle.pec_top.specs.LoopLaws.{LoopLaws};

pub use crate::calling::four_calls_go_on_from_one_another;
use pec_dossier::a_status_says_what_was_extracted;
pub use pec_dossier::no_conflict;
pub use pec_extract::a_log_is_read_back;
use pec_extract::no_log_has_changed;
use pec_input::lines_are_the_text;
use pec_outside::{Depot, Disk};
use pec_runs::{acts_are_joined, an_act_is_done, lines_are_climbed};
use pec_screen::Judge;
use pec_seal::Sealer;
use pec_serving::Network;

/// A run that writes an extract of logs tells no entry as changed where the disks tell what they hold, and the journals
/// that were opened are Fit.
pub fn an_extract_of_fit_journals_tells_no_change<P: Depot>()
    ensures { (range : Range) (status : Status) (unread before after : Option Bytes) (depot left : P) (from upto : ℕ → ℕ)
        (ran : LogRanSo (P.tells × P.D.tells) P.D.sight P.D.faults range status unread before after (P.home depot) (P.home left)
        from upto) → P.tells × P.D.tells
        → Fit (trade_in ran.so.setting) (journals_in ran.so.opening.journals) → status ≢ statuses.Changed }
{
    a_status_says_what_was_extracted::<P>();
    no_log_has_changed();
}

/// The providers of a network are those of its directory, each with links from all of them. It takes no memory.
pub(crate) fn a_network_is_whole<D, H: Sealer, J: Judge>(network: &Network<D, H, J>)
    ensures { IsOfDirectory network.now.kept (H.seals network.now.sealer) network.now.providers network.now.waiting }
{
    network.directory();
}

/// What is said of a loop over the lines of a script, in every world.
pub(crate) fn a_loop_climbs<P: Depot>()
    ensures { (trade : Trade) (providers : List Provider)
        → LoopLaws P.D (P.tells × P.D.tells) P.D.sight P.D.faults trade providers }
{
    lines_are_the_text();
    acts_are_joined::<P>();
    an_act_is_done::<P>();
    lines_are_climbed::<P>();
}
