ghost use Rattle.std.specs.Prelude.{ℕ, List};
ghost use Rattle.pec_types.specs.Bytes.{Bytes};
ghost use Rattle.pec_runs.specs.Statuses.{Status};
ghost use Rattle.pec_screen.specs.Verdicts.{Patterns};
ghost use Rattle.pec_service.specs.Runs.{NoFaults};
ghost use Rattle.pec_top.specs.Complete.{Completes, with_home};
ghost use Rattle.pec_top.specs.Tasks.{ProgramRan, View, task_in};

use pec_dossier::{
    a_status_says_what_was_checked, a_status_says_what_was_exported,
    a_status_says_what_was_extracted,
};
use pec_load_runs::a_status_says_what_a_load_told;
use pec_outside::Depot;
use pec_runs::{a_run_without_faults_has_one_transcript, a_run_without_faults_is_complete};
use pec_service::a_service_without_faults_is_complete;

/// Completeness, over the contract of `run_pec` alone: where no count of faults rises in a run, on disks with which its
/// form can begin, it does the whole of what its words ask for, unless memory ran out.
pub fn each_form_is_complete<P: Depot>()
    ensures { P.tells × P.D.tells → (words : List Bytes) (screens : List (List Patterns)) (spares : List Patterns)
        (status : Status) (depot left : P) (old new : View P.D)
        (ran : ProgramRan P.tells P.D.tells P.D.sight P.D.faults words screens spares status (with_home old (P.home depot))
        (with_home new (P.home left)))
        → NoFaults old.counts new.counts
        → Completes (P.tells × P.D.tells) P.D.sight P.D.faults words screens spares status (with_home old (P.home depot))
        (with_home new (P.home left)) (task_in words) ran.is_run }
{
    a_status_says_what_was_exported();
    a_status_says_what_was_checked();
    a_status_says_what_was_extracted::<P>();
    a_status_says_what_a_load_told::<P>();
    a_run_without_faults_has_one_transcript::<P>();
    a_run_without_faults_is_complete::<P>();
    a_service_without_faults_is_complete::<P>();
}
