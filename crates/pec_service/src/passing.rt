ghost use Rattle.std.specs.Prelude.{◌≡◌, ◌≢◌, ℕ, ◌≤◌, List, length, Option, Some};
ghost use Rattle.pec_types.specs.Bytes.{Bytes};
ghost use Rattle.pec_ledger.specs.Trade.{Trade};
ghost use Rattle.pec_runs.specs.Openings.{Form, NoMore};
ghost use Rattle.pec_runs.specs.Passing.{AreEmpty, AreFitting, AreFoundAs, AreFoundBetween, AreFoundWithin, Passes, held};
ghost use Rattle.pec_runs.specs.Statuses.{Status};
ghost use Rattle.pec_runs.specs.Through.{AreAtHome, disks_in};
ghost use Rattle.pec_service.specs.Calling.{AreCallsOn, OneCall, home_of, last_call};
ghost use Rattle.pec_service.specs.Runs.{AllCounts, Asked, Begins, Outside, stage_of, world};
ghost use Rattle.pec_service.specs.Through.{ServiceRanThrough};

use pec_outside::{Depot, Disk};
use pec_runs::{a_run_passes_its_disks_on, disks_are_passed_on, what_is_passed_on_fits};

/// A run that serves passes on what it found, at every status, and killed at every moment: before a disk is asked for,
/// while disks are looked at and journals are made or opened, within a step of its service, and as it ends. The disks
/// of its providers are at home as it begins. No premise speaks of frames: nothing that comes in over a connection
/// injects one.
pub fn a_service_passes_its_disks_on<P: Depot>()
    ensures ended { P.tells × P.D.tells → (trade : Trade) (asked : Asked) (status : Status)
        (unread before after : Option Bytes) (home left found : ℕ → Option P.D) (here there : Outside) (old new : AllCounts)
        (ran : ServiceRanThrough (P.tells × P.D.tells) P.D.sight P.D.faults asked status unread before after home left here there old
        new)
        → (stage_of ran.ran.served.happened.early ran.ran.served.happened.directory ≡ Begins
        → world ran.ran.served.happened ≡ trade)
        → AreAtHome trade home → AreFoundAs (P.tells × P.D.tells) P.D.sight trade left found
        → Passes trade (held (P.tells × P.D.tells) P.D.sight home) (held (P.tells × P.D.tells) P.D.sight found) }
    ensures opening { P.tells × P.D.tells → (asked : Asked) (status : Status)
        (unread before after : Option Bytes) (home left found : ℕ → Option P.D) (here there : Outside) (old new : AllCounts)
        (ran : ServiceRanThrough (P.tells × P.D.tells) P.D.sight P.D.faults asked status unread before after home left here there old
        new)
        → stage_of ran.ran.served.happened.early ran.ran.served.happened.directory ≡ Begins
        → (form : Form) → ran.ran.served.happened.form ≡ Some form
        → ran.ran.served.happened.course.opening.next ≢ NoMore
        → AreFoundBetween (P.tells × P.D.tells) P.D.sight (world ran.ran.served.happened) home left found
        → Passes (world ran.ran.served.happened) (held (P.tells × P.D.tells) P.D.sight home)
        (held (P.tells × P.D.tells) P.D.sight found) }
    ensures had { P.tells × P.D.tells → (asked : Asked) (status : Status)
        (unread before after : Option Bytes) (home left found : ℕ → Option P.D) (here there : Outside) (old new : AllCounts)
        (ran : ServiceRanThrough (P.tells × P.D.tells) P.D.sight P.D.faults asked status unread before after home left here there old
        new)
        (begins : stage_of ran.ran.served.happened.early ran.ran.served.happened.directory ≡ Begins)
        (form : Form) (is : ran.ran.served.happened.form ≡ Some form)
        (all : ran.ran.served.happened.course.opening.next ≡ NoMore)
        → AreFoundBetween (P.tells × P.D.tells) P.D.sight (world ran.ran.served.happened) home
        (disks_in (ran.through.served begins form is all).through.first) found
        → Passes (world ran.ran.served.happened) (held (P.tells × P.D.tells) P.D.sight home)
        (held (P.tells × P.D.tells) P.D.sight found) }
    ensures killed { P.tells × P.D.tells → (asked : Asked) (status : Status)
        (unread before after : Option Bytes) (home left found : ℕ → Option P.D) (here there : Outside) (old new : AllCounts)
        (ran : ServiceRanThrough (P.tells × P.D.tells) P.D.sight P.D.faults asked status unread before after home left here there old
        new)
        (begins : stage_of ran.ran.served.happened.early ran.ran.served.happened.directory ≡ Begins)
        (form : Form) (is : ran.ran.served.happened.form ≡ Some form)
        (all : ran.ran.served.happened.course.opening.next ≡ NoMore)
        → AreAtHome (world ran.ran.served.happened) home → (number : ℕ)
        → number ≤ length (ran.through.served begins form is all).through.moves.steps
        → AreFoundWithin (P.tells × P.D.tells) P.D.sight (world ran.ran.served.happened) number
        (ran.through.served begins form is all).through.first (ran.through.served begins form is all).through.last
        (ran.through.served begins form is all).through.moves.steps found
        → Passes (world ran.ran.served.happened) (held (P.tells × P.D.tells) P.D.sight home)
        (held (P.tells × P.D.tells) P.D.sight found) }
{
    disks_are_passed_on::<P>();
}

/// Runs of one directory, one after another, that play scripts or serve in any order, the first on empty disks, each on
/// the disks that the one before left or that a crash left of them, at whatever status that one ended: what the last of
/// them finds fits together, so journals that it opens are Fit.
pub fn calls_go_on_from_one_another<P: Depot>()
    ensures fitting { P.tells × P.D.tells → (trade : Trade) (first : OneCall P.D) (more : List (OneCall P.D))
        → AreEmpty trade (held (P.tells × P.D.tells) P.D.sight (home_of first))
        → AreCallsOn (P.tells × P.D.tells) P.D.sight P.D.faults trade first more
        → AreFitting trade (held (P.tells × P.D.tells) P.D.sight (home_of (last_call first more))) }
{
    what_is_passed_on_fits::<P>();
    a_run_passes_its_disks_on::<P>();
    a_service_passes_its_disks_on::<P>();
}
