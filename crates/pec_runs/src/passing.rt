ghost use Rattle.std.specs.Prelude.{◌≡◌, ◌≢◌, ℕ, ◌≤◌, List, length, Option};
ghost use Rattle.pec_types.specs.Bytes.{Bytes};
ghost use Rattle.pec_records.specs.declared.entries.Entry.{Entry};
ghost use Rattle.pec_ledger.specs.Ledger.{Fit};
ghost use Rattle.pec_ledger.specs.Network.{journals_in};
ghost use Rattle.pec_ledger.specs.Trade.{Trade};
ghost use Rattle.pec_ledger.specs.TradeLaws.{IsTrade};
ghost use Rattle.pec_screen.specs.Verdicts.{Patterns};
ghost use Rattle.pec_runs.specs.Happened.{Asked, Begun, stage_of};
ghost use Rattle.pec_runs.specs.Headline.{AllHonest};
ghost use Rattle.pec_runs.specs.Moments.{AreHonest, HoldsAll, IsKilledAt, Phase, number_told, state_at};
ghost use Rattle.pec_runs.specs.Moves.{KeepSound};
ghost use Rattle.pec_runs.specs.Openings.{Form, IsOpening, NoMore, Opening, Resume, disks_at};
ghost use Rattle.pec_runs.specs.Passing.{AreEmpty, AreFitting, AreFoundAs, AreFoundBetween, AreFoundWithin, AreRuns};
ghost use Rattle.pec_runs.specs.Passing.{AreRunsOn, OneRun, Passes, RanHonestly, held, last_found, last_run};
ghost use Rattle.pec_runs.specs.Ran.{Counts, beginning, world};
ghost use Rattle.pec_runs.specs.ScriptLines.{Script};
ghost use Rattle.pec_runs.specs.Statuses.{Status};
ghost use Rattle.pec_runs.specs.Through.{AreAtHome, AreHadFrom, GoesThrough, MovesThrough, RanThrough, disks_in};

use pec_chronicle::a_disk_holds_one_list;
use pec_ledger::{any_images, licences_stand, soundness};
use pec_outside::{Depot, Disk, a_disk_is_so};
use pec_plays::a_network_stays_sound;
use pec_script::a_line_has_one_reading;

/// What is found on disks fits together: on empty ones; behind one run where it did before it; and so, from empty ones
/// on, behind any runs, each on the disks of the one before. Journals that are opened there are Fit.
pub fn what_is_passed_on_fits<P: Depot>()
    ensures empty { (trade : Trade) (home : ℕ → Option P.D) → AreEmpty trade (held (P.tells × P.D.tells) P.D.sight home)
        → AreFitting trade (held (P.tells × P.D.tells) P.D.sight home) }
    ensures passed { (trade : Trade) (old new : ℕ → Option P.D)
        → Passes trade (held (P.tells × P.D.tells) P.D.sight old) (held (P.tells × P.D.tells) P.D.sight new)
        → AreFitting trade (held (P.tells × P.D.tells) P.D.sight old)
        → AreFitting trade (held (P.tells × P.D.tells) P.D.sight new) }
    ensures runs { (trade : Trade) (first : ℕ → Option P.D) (more : List (ℕ → Option P.D))
        → AreEmpty trade (held (P.tells × P.D.tells) P.D.sight first)
        → AreRuns (P.tells × P.D.tells) P.D.sight trade first more
        → AreFitting trade (held (P.tells × P.D.tells) P.D.sight (last_found first more)) }
    ensures opened { P.tells × P.D.tells → (trade : Trade) (home : ℕ → Option P.D) (opening : Opening)
        → AreAtHome trade home → AreFitting trade (held (P.tells × P.D.tells) P.D.sight home)
        → IsOpening trade (disks_at (P.tells × P.D.tells) P.D.sight home) Resume opening → opening.next ≡ NoMore
        → Fit trade (journals_in opening.journals) }
{
    a_disk_holds_one_list();
    any_images();
    a_disk_is_so::<P::D>();
}

/// Disks are passed on by whoever has journals on them: also where it ended, or was killed, while they were made or
/// opened; where it ended with all of them had, within a step or behind it; and where it was killed within a step. Of a
/// Sound beginning nothing is presumed: it follows where what was found fits.
pub fn disks_are_passed_on<P: Depot>()
    ensures stopped { P.tells × P.D.tells → (trade : Trade) (form : Form) (home left found : ℕ → Option P.D)
        → AreAtHome trade home → AreHadFrom P.D.sight (P.tells × P.D.tells) form trade home left
        → AreFoundAs (P.tells × P.D.tells) P.D.sight trade left found
        → Passes trade (held (P.tells × P.D.tells) P.D.sight home) (held (P.tells × P.D.tells) P.D.sight found) }
    ensures opening { P.tells × P.D.tells → (trade : Trade) (form : Form) (home new found : ℕ → Option P.D)
        → AreHadFrom P.D.sight (P.tells × P.D.tells) form trade home new
        → AreFoundBetween (P.tells × P.D.tells) P.D.sight trade home new found
        → Passes trade (held (P.tells × P.D.tells) P.D.sight home) (held (P.tells × P.D.tells) P.D.sight found) }
    ensures ended { P.tells × P.D.tells → (trade : Trade) → IsTrade trade
        → (home left found : ℕ → Option P.D) (from upto : ℕ → ℕ) (form : Form)
        (screens : List (List Patterns)) (opening : Opening)
        → IsOpening trade (disks_at (P.tells × P.D.tells) P.D.sight home) form opening → opening.next ≡ NoMore
        → AreAtHome trade home
        → (goes : MovesThrough (P.tells × P.D.tells) P.D.sight P.D.faults home left from upto trade form screens opening.journals)
        → AreFoundAs (P.tells × P.D.tells) P.D.sight trade left found
        → Passes trade (held (P.tells × P.D.tells) P.D.sight home) (held (P.tells × P.D.tells) P.D.sight found) }
    ensures killed { P.tells × P.D.tells → (trade : Trade) → IsTrade trade
        → (home left found : ℕ → Option P.D) (from upto : ℕ → ℕ) (form : Form)
        (screens : List (List Patterns)) (opening : Opening)
        → IsOpening trade (disks_at (P.tells × P.D.tells) P.D.sight home) form opening → opening.next ≡ NoMore
        → AreAtHome trade home
        → (goes : MovesThrough (P.tells × P.D.tells) P.D.sight P.D.faults home left from upto trade form screens opening.journals)
        → (number : ℕ) → number ≤ length goes.moves.steps
        → AreFoundWithin (P.tells × P.D.tells) P.D.sight trade number goes.first goes.last goes.moves.steps found
        → Passes trade (held (P.tells × P.D.tells) P.D.sight home) (held (P.tells × P.D.tells) P.D.sight found) }
    // What is told of steps is on the disks.
    ensures told { P.tells × P.D.tells → (trade : Trade) → IsTrade trade
        → (home left : ℕ → Option P.D) (from upto : ℕ → ℕ) (form : Form)
        (screens : List (List Patterns)) (opening : Opening)
        → IsOpening trade (disks_at (P.tells × P.D.tells) P.D.sight home) form opening → opening.next ≡ NoMore
        → AreAtHome trade home
        → (goes : MovesThrough (P.tells × P.D.tells) P.D.sight P.D.faults home left from upto trade form screens opening.journals)
        → AreFitting trade (held (P.tells × P.D.tells) P.D.sight home)
        → (phase : Phase) (number : ℕ) → number ≤ length goes.moves.steps → (provider : ℕ) (bytes : Bytes)
        → IsKilledAt P.D.sight phase number goes.first goes.last goes.moves.steps provider bytes
        → HoldsAll (state_at (number_told phase number) goes.first goes.last goes.moves.steps).sites provider bytes }
    // A run that goes by steps and injects no forged frame moves so.
    ensures moves { (trade : Trade) → IsTrade trade → (home left : ℕ → Option P.D) (from upto : ℕ → ℕ) (form : Form)
        (screens : List (List Patterns)) (journals : List (List Entry))
        (goes : GoesThrough (P.tells × P.D.tells) P.D.sight P.D.faults home left from upto trade form screens journals)
        → AreHonest trade goes.first goes.steps → KeepSound trade goes.first goes.steps }
{
    a_network_stays_sound();
    licences_stand();
    soundness();
    a_disk_is_so::<P::D>();
}

/// A run that plays a script passes on what it found, at every status, and killed at every moment: before a disk is
/// asked for, while journals are made or opened, within a step of its script, and as it ends. The disks of its
/// providers are at home as it begins, and it injects no forged frame.
pub fn a_run_passes_its_disks_on<P: Depot>()
    ensures ended { P.tells × P.D.tells → (trade : Trade) (asked : Asked) (status : Status)
        (unread before after : Option Bytes) (home left found : ℕ → Option P.D) (old new : Counts)
        (ran : RanThrough (P.tells × P.D.tells) P.D.sight P.D.faults asked status unread before after home left old new)
        → ((form : Form) (script : Script)
        → stage_of asked ran.ran.happened.hands ran.ran.happened.early ran.ran.happened.parts ≡ Begun form script
        → world ran.ran.happened ≡ trade)
        → AreAtHome trade home
        → ((form : Form) (script : Script)
        → stage_of asked ran.ran.happened.hands ran.ran.happened.early ran.ran.happened.parts ≡ Begun form script
        → ran.ran.happened.opening.next ≡ NoMore
        → AllHonest trade ran.ran.happened.lucks (beginning ran.ran.happened) script.commands)
        → AreFoundAs (P.tells × P.D.tells) P.D.sight trade left found
        → Passes trade (held (P.tells × P.D.tells) P.D.sight home) (held (P.tells × P.D.tells) P.D.sight found) }
    ensures unasked { P.tells × P.D.tells → (trade : Trade) (asked : Asked) (status : Status)
        (unread before after : Option Bytes) (home left found : ℕ → Option P.D) (old new : Counts)
        (ran : RanThrough (P.tells × P.D.tells) P.D.sight P.D.faults asked status unread before after home left old new)
        → ((form : Form) (script : Script)
        → stage_of asked ran.ran.happened.hands ran.ran.happened.early ran.ran.happened.parts ≢ Begun form script)
        → AreFoundBetween (P.tells × P.D.tells) P.D.sight trade home left found
        → Passes trade (held (P.tells × P.D.tells) P.D.sight home) (held (P.tells × P.D.tells) P.D.sight found) }
    ensures opening { P.tells × P.D.tells → (asked : Asked) (status : Status)
        (unread before after : Option Bytes) (home left found : ℕ → Option P.D) (old new : Counts)
        (ran : RanThrough (P.tells × P.D.tells) P.D.sight P.D.faults asked status unread before after home left old new)
        (form : Form) (script : Script)
        → stage_of asked ran.ran.happened.hands ran.ran.happened.early ran.ran.happened.parts ≡ Begun form script
        → ran.ran.happened.opening.next ≢ NoMore
        → AreFoundBetween (P.tells × P.D.tells) P.D.sight (world ran.ran.happened) home left found
        → Passes (world ran.ran.happened) (held (P.tells × P.D.tells) P.D.sight home)
        (held (P.tells × P.D.tells) P.D.sight found) }
    ensures had { P.tells × P.D.tells → (asked : Asked) (status : Status)
        (unread before after : Option Bytes) (home left found : ℕ → Option P.D) (old new : Counts)
        (ran : RanThrough (P.tells × P.D.tells) P.D.sight P.D.faults asked status unread before after home left old new)
        (form : Form) (script : Script)
        (begun : stage_of asked ran.ran.happened.hands ran.ran.happened.early ran.ran.happened.parts ≡ Begun form script)
        (all : ran.ran.happened.opening.next ≡ NoMore)
        → AreFoundBetween (P.tells × P.D.tells) P.D.sight (world ran.ran.happened) home
        (disks_in (ran.through.played form script begun all).goes.first) found
        → Passes (world ran.ran.happened) (held (P.tells × P.D.tells) P.D.sight home)
        (held (P.tells × P.D.tells) P.D.sight found) }
    ensures killed { P.tells × P.D.tells → (asked : Asked) (status : Status)
        (unread before after : Option Bytes) (home left found : ℕ → Option P.D) (old new : Counts)
        (ran : RanThrough (P.tells × P.D.tells) P.D.sight P.D.faults asked status unread before after home left old new)
        (form : Form) (script : Script)
        (begun : stage_of asked ran.ran.happened.hands ran.ran.happened.early ran.ran.happened.parts ≡ Begun form script)
        (all : ran.ran.happened.opening.next ≡ NoMore)
        → AreAtHome (world ran.ran.happened) home
        → AllHonest (world ran.ran.happened) ran.ran.happened.lucks (beginning ran.ran.happened) script.commands
        → (number : ℕ) → number ≤ length (ran.through.played form script begun all).goes.steps
        → AreFoundWithin (P.tells × P.D.tells) P.D.sight (world ran.ran.happened) number
        (ran.through.played form script begun all).goes.first (ran.through.played form script begun all).goes.last
        (ran.through.played form script begun all).goes.steps found
        → Passes (world ran.ran.happened) (held (P.tells × P.D.tells) P.D.sight home)
        (held (P.tells × P.D.tells) P.D.sight found) }
{
    disks_are_passed_on::<P>();
    a_line_has_one_reading();
}

/// What a run told is on its disks: at whatever moment it is killed, what its output holds is a front of the lines of the
/// commands that were played until then (`told` of `what_was_told_is_kept`), and each disk holds the journal of a list that
/// has all entries of these. It is so where what it found did fit together, and no forged frame was injected.
pub fn a_run_tells_what_its_disks_hold<P: Depot>()
    ensures { P.tells × P.D.tells → (asked : Asked) (status : Status)
        (unread before after : Option Bytes) (home left : ℕ → Option P.D) (old new : Counts)
        (ran : RanThrough (P.tells × P.D.tells) P.D.sight P.D.faults asked status unread before after home left old new)
        (form : Form) (script : Script)
        (begun : stage_of asked ran.ran.happened.hands ran.ran.happened.early ran.ran.happened.parts ≡ Begun form script)
        (all : ran.ran.happened.opening.next ≡ NoMore)
        → AreAtHome (world ran.ran.happened) home
        → AllHonest (world ran.ran.happened) ran.ran.happened.lucks (beginning ran.ran.happened) script.commands
        → AreFitting (world ran.ran.happened) (held (P.tells × P.D.tells) P.D.sight home)
        → (phase : Phase) (number : ℕ) → number ≤ length (ran.through.played form script begun all).goes.steps
        → (provider : ℕ) (bytes : Bytes)
        → IsKilledAt P.D.sight phase number (ran.through.played form script begun all).goes.first
        (ran.through.played form script begun all).goes.last (ran.through.played form script begun all).goes.steps
        provider bytes
        → HoldsAll (state_at (number_told phase number) (ran.through.played form script begun all).goes.first
        (ran.through.played form script begun all).goes.last (ran.through.played form script begun all).goes.steps).sites
        provider bytes }
{
    disks_are_passed_on::<P>();
    a_line_has_one_reading();
}

/// Runs of one directory, one after another, the first on empty disks, each on the disks that the one before left or
/// that a crash left of them, at whatever status that one ended: journals that the last of them opens are Fit, where
/// none injects a forged frame. So what the headline presumes of a run that resumes holds of it.
pub fn runs_go_on_from_one_another<P: Depot>()
    ensures fitting { P.tells × P.D.tells → (trade : Trade) (first : OneRun P.D) (more : List (OneRun P.D))
        → AreEmpty trade (held (P.tells × P.D.tells) P.D.sight first.home)
        → AreRunsOn (P.tells × P.D.tells) P.D.sight P.D.faults trade first more
        → AreFitting trade (held (P.tells × P.D.tells) P.D.sight (last_run first more).home) }
    ensures opened { P.tells × P.D.tells → (trade : Trade) (run : OneRun P.D)
        → AreFitting trade (held (P.tells × P.D.tells) P.D.sight run.home)
        → (honest : RanHonestly (P.tells × P.D.tells) P.D.sight P.D.faults trade run) (script : Script)
        → stage_of run.asked honest.ran.ran.happened.hands honest.ran.ran.happened.early honest.ran.ran.happened.parts ≡ Begun Resume script
        → honest.ran.ran.happened.opening.next ≡ NoMore
        → Fit trade (journals_in honest.ran.ran.happened.opening.journals) }
{
    what_is_passed_on_fits::<P>();
    a_run_passes_its_disks_on::<P>();
}
