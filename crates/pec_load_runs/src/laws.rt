ghost use Rattle.std.specs.Prelude.{◌≡◌, ◌≢◌, ℕ, ◌≤◌, ◌⊎◌, false, List, Option, Some, length};
ghost use Rattle.pec_types.specs.Bytes.{Bytes};
ghost use Rattle.pec_outside.specs.Flow.{followed_by};
ghost use Rattle.pec_screen.specs.Verdicts.{Patterns};
ghost use Rattle.pec_input.specs.Lines.{raw_lines};
ghost use Rattle.pec_input.specs.Parts.{parts_of};
ghost use Rattle.pec_load.specs.Generated.{commands_of};
ghost use Rattle.pec_load.specs.Heard.{load_input};
ghost use Rattle.pec_load.specs.declared.generating.TheConstants.{MOST_MESSAGES};
ghost use Rattle.pec_load_runs.specs.Loading.{IsOfLoad, IsQuiet, LoadRan, load_asked, load_script, state_text};
ghost use Rattle.pec_runs.specs.Complete.{CanBegin};
ghost use Rattle.pec_runs.specs.Happened.{Begun, outcome_of, stage_of};
ghost use Rattle.pec_runs.specs.Openings.{NoMore, Run};
ghost use Rattle.pec_runs.specs.Plays.{Strays};
ghost use Rattle.pec_runs.specs.Ran.{Counts, RanOver, world};
ghost use Rattle.pec_runs.specs.ScriptLines.{Hands};
ghost use Rattle.pec_runs.specs.Statuses.{Status};
ghost use Rattle.pec_runs.specs.Statuses as statuses;
ghost use Rattle.pec_runs.specs.Transcripts.{NoFaults};

use pec_load::{a_load_has_its_commands, a_load_has_its_directory};
use pec_outside::Depot;
use pec_runs::{a_line_is_one_thing, journals_are_had_without_faults};

/// What a load plays is within all limits and refused nowhere: the run begins, with all of the load's commands. So it
/// ends by its script's end, by a device, for want of memory, or since a disk isn't empty.
pub fn a_load_is_played_as_a_run<P: Depot>()
    ensures begun { (screens : List (List Patterns)) (hands : Hands) (count : ℕ) → count ≤ MOST_MESSAGES
        → stage_of (load_asked screens) hands false (parts_of (raw_lines (load_input count)))
        ≡ Begun Run (load_script count) }
    ensures ends { (screens : List (List Patterns)) (count : ℕ) (status : Status) (before after : Option Bytes) (depot left : P)
        (old new : Counts) → count ≤ MOST_MESSAGES
        → RanOver (P.tells × P.D.tells) P.D.sight (load_asked screens) status (Some (load_input count)) before after
        (P.home depot) (P.home left) old new
        → IsOfLoad status }
    // It restarts no provider, so it can't stray.
    ensures stays { (screens : List (List Patterns)) (count : ℕ) (status : Status) (before after : Option Bytes) (depot left : P)
        (old new : Counts) → count ≤ MOST_MESSAGES
        → (ran : RanOver (P.tells × P.D.tells) P.D.sight (load_asked screens) status (Some (load_input count)) before after
        (P.home depot) (P.home left) old new)
        → (outcome_of (load_asked screens) ran.happened).finish ≢ Strays }
{
    a_load_has_its_directory();
    a_load_has_its_commands();
    a_line_is_one_thing();
}

/// What a status says of a run that plays a load.
pub fn a_status_says_what_a_load_told<P: Depot>()
    // Status 0: both journals were made, all commands were played, and the summary of the state behind them was
    // written.
    ensures done { (screens : List (List Patterns)) (count : ℕ) (before after : Option Bytes) (depot left : P) (old new : Counts)
        → count ≤ MOST_MESSAGES
        → (load : LoadRan (P.tells × P.D.tells) P.D.sight P.D.faults count screens statuses.Done before after (P.home depot)
        (P.home left) old new)
        → (load.through.ran.happened.opening.next ≡ NoMore) × (length load.through.ran.happened.lucks ≡ length (commands_of count))
        × (after ≡ followed_by before (state_text count (world load.through.ran.happened)
        (outcome_of (load_asked screens) load.through.ran.happened).after)) }
    // Without faults only a disk that isn't empty, or want of memory, keeps it from that.
    ensures quiet { (screens : List (List Patterns)) (count : ℕ) (status : Status) (before after : Option Bytes) (depot left : P)
        (old new : Counts)
        → LoadRan (P.tells × P.D.tells) P.D.sight P.D.faults count screens status before after (P.home depot) (P.home left) old new
        → NoFaults old new → IsQuiet status }
    // On empty disks nothing but want of memory does.
    ensures complete { P.tells × P.D.tells → (screens : List (List Patterns)) (count : ℕ) (status : Status)
        (before after : Option Bytes) (depot left : P) (old new : Counts) → count ≤ MOST_MESSAGES
        → (load : LoadRan (P.tells × P.D.tells) P.D.sight P.D.faults count screens status before after (P.home depot)
        (P.home left) old new)
        → NoFaults old new → CanBegin P.D.sight (world load.through.ran.happened) (P.home depot) Run
        → (status ≡ statuses.NoMemory) ⊎ (status ≡ statuses.Done) }
{
    a_load_has_its_directory();
    a_load_has_its_commands();
    a_line_is_one_thing();
    journals_are_had_without_faults::<P>();
}
