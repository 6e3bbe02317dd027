ghost use Rattle.std.specs.Prelude.{◌≡◌, ◌⊎◌, Option, Some};
ghost use Rattle.pec_types.specs.Bytes.{Bytes};
ghost use Rattle.pec_runs.specs.Openings.{NoMore};
ghost use Rattle.pec_runs.specs.Statuses.{Status};
ghost use Rattle.pec_runs.specs.Statuses as statuses;
ghost use Rattle.pec_service.specs.Complete.{CanServe, ServesWhole};
ghost use Rattle.pec_service.specs.Runs.{AllCounts, Asked, Begins, NoFaults, Outside, ServiceRanOver, stage_of, world};

use crate::runs::a_run_without_faults_serves_all;
use pec_outside::Depot;
use pec_runs::journals_are_had_without_faults;

/// Completeness of a run that serves: over disks of which all are empty, or all hold journals of their providers' own, it
/// has all of its journals and serves as many connections as were asked for, with all of their lines written, where no
/// count of faults rises, unless memory ran out.
pub fn a_service_without_faults_is_complete<P: Depot>()
    ensures { P.tells × P.D.tells → (asked : Asked) (status : Status) (unread before after : Option Bytes) (depot left : P)
        (here there : Outside) (old new : AllCounts)
        (ran : ServiceRanOver (P.tells × P.D.tells) P.D.sight asked status unread before after (P.home depot) (P.home left)
        here there old new)
        → stage_of ran.served.happened.early ran.served.happened.directory ≡ Begins
        → CanServe P.D.sight (world ran.served.happened) (P.home depot) → NoFaults old new
        → (status ≡ statuses.NoMemory) ⊎ ServesWhole asked status before after here ran.served.happened }
{
    journals_are_had_without_faults::<P>();
    a_run_without_faults_serves_all::<P>();
}
