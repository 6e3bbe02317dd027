ghost use Rattle.std.specs.Prelude.{◌≡◌, ◌⊎◌, ℕ, All, Option};
ghost use Rattle.pec_types.specs.Bytes.{Bytes};
ghost use Rattle.pec_ledger.specs.Trade.{Trade};
ghost use Rattle.pec_runs.specs.Complete.{CanBegin};
ghost use Rattle.pec_runs.specs.Happened.{Asked, Begun, outcome_of, stage_of};
ghost use Rattle.pec_runs.specs.Openings.{Fails, Form, IsOpening, NoMore, Opening, Stops, disks_at};
ghost use Rattle.pec_runs.specs.Plays.{IsUnchanged};
ghost use Rattle.pec_runs.specs.Plays as plays;
ghost use Rattle.pec_runs.specs.Ran.{Counts, RanOver, TellsAs, WritesAt, world};
ghost use Rattle.pec_runs.specs.ScriptLines.{Script};
ghost use Rattle.pec_runs.specs.Statuses.{Status};
ghost use Rattle.pec_runs.specs.Statuses as statuses;
ghost use Rattle.pec_runs.specs.Transcripts.{NoFaults, TellsTranscript};

use crate::quiet::a_run_without_faults_has_one_transcript;
use pec_outside::Depot;

/// Journals are made on disks that are empty, and opened where they are their providers' own, unless a device fails or
/// memory runs out; and where one failed, or memory ran out, the status tells it.
pub fn journals_are_had_without_faults<P: Depot>()
    ensures had { P.tells × P.D.tells → (trade : Trade) (form : Form) (home : ℕ → Option P.D) (opening : Opening)
        → IsOpening trade (disks_at (P.tells × P.D.tells) P.D.sight home) form opening → CanBegin P.D.sight trade home form
        → (opening.next ≡ NoMore) ⊎ (opening.next ≡ Fails) ⊎ (opening.next ≡ Stops) }
    ensures failed { (status : Status) (before after : Option Bytes) (text : Bytes) (opening : Opening)
        → opening.next ≡ Fails → WritesAt status opening.next → TellsAs status before after text plays.Fails
        → status ≡ statuses.StartFault }
    ensures stopped { (status : Status) (before after : Option Bytes) (text : Bytes) (opening : Opening)
        → opening.next ≡ Stops → WritesAt status opening.next → TellsAs status before after text plays.Stops
        → (status ≡ statuses.NoMemory) ⊎ (status ≡ statuses.ReadFault) }
{}

/// Completeness of a run that plays a script: where no count of faults rises, on disks with which its form can begin, it
/// has all of its journals and writes the whole transcript, with the status of its end, unless memory ran out. Over disks
/// that tell what they hold no entry is told as changed where the journals fit (`no_entry_is_told_as_changed`).
pub fn a_run_without_faults_is_complete<P: Depot>()
    ensures journals { P.tells × P.D.tells → (asked : Asked) (status : Status) (unread before after : Option Bytes)
        (depot left : P) (old new : Counts)
        (ran : RanOver (P.tells × P.D.tells) P.D.sight asked status unread before after (P.home depot) (P.home left) old new)
        (form : Form) (script : Script)
        → stage_of asked ran.happened.hands ran.happened.early ran.happened.parts ≡ Begun form script
        → CanBegin P.D.sight (world ran.happened) (P.home depot) form → NoFaults old new
        → (status ≡ statuses.NoMemory) ⊎ (ran.happened.opening.next ≡ NoMore) }
    ensures whole { P.tells × P.D.tells → (asked : Asked) (status : Status) (unread before after : Option Bytes)
        (depot left : P) (old new : Counts)
        (ran : RanOver (P.tells × P.D.tells) P.D.sight asked status unread before after (P.home depot) (P.home left) old new)
        (form : Form) (script : Script)
        → stage_of asked ran.happened.hands ran.happened.early ran.happened.parts ≡ Begun form script
        → CanBegin P.D.sight (world ran.happened) (P.home depot) form → NoFaults old new
        → All IsUnchanged (outcome_of asked ran.happened).answers
        → (status ≡ statuses.NoMemory)
        ⊎ ((ran.happened.opening.next ≡ NoMore) × TellsTranscript asked ran.happened status before after) }
{
    journals_are_had_without_faults::<P>();
    a_run_without_faults_has_one_transcript::<P>();
}
