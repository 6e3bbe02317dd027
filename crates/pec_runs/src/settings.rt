ghost use Rattle.std.specs.Prelude.{◌≡◌, ◌⊎◌, All, List, Option, Some};
ghost use Rattle.pec_types.specs.Bytes.{Bytes};
ghost use Rattle.pec_directory.specs.Directory.{Provider};
ghost use Rattle.pec_runs.specs.Happened.{Asked, Begun, IsSetting, Setting, outcome_of, providers_in, stage_of, trade_in};
ghost use Rattle.pec_runs.specs.Openings.{Form, NoMore, Run};
ghost use Rattle.pec_runs.specs.Plays.{IsUnchanged};
ghost use Rattle.pec_runs.specs.Ran.{Counts, RanOver};
ghost use Rattle.pec_runs.specs.ScriptLines.{Script};
ghost use Rattle.pec_runs.specs.Statuses.{Status};
ghost use Rattle.pec_runs.specs.Statuses as statuses;
ghost use Rattle.pec_runs.specs.Transcripts.{NoFaults, WroteAlike};

use crate::quiet::{a_run_without_faults_has_one_transcript, a_script_without_faults_is_one};
use pec_outside::Depot;
use pec_plays::quiet_runs_are_one;
use pec_trade::a_directory_has_one_world;

/// A setting is fixed by its directory: two settings of the same providers have one world, in which letters, receipts
/// and items have the same bytes at the same moments.
pub fn providers_have_one_world()
    ensures { (providers : List Provider) (one other : Setting) → IsSetting providers one → IsSetting providers other
        → trade_in one ≡ trade_in other }
{
    a_directory_has_one_world();
}

/// One input has one transcript: two runs without faults that play one script in directories of the same providers,
/// with the same screens and journals, wrote alike to the last byte, items too, unless memory ran out. So do two runs
/// of one input that made all of their journals. Neither tells an entry as changed.
pub fn one_input_has_one_transcript<P: Depot>()
    ensures alike { (asked others : Asked) (status other : Status)
        (unread before after other_unread other_before other_after : Option Bytes)
        (depot left found last : P) (old between behind new : Counts) → P.tells × P.D.tells
        → (ran : RanOver (P.tells × P.D.tells) P.D.sight asked status unread before after (P.home depot)
        (P.home left) old between)
        (again : RanOver (P.tells × P.D.tells) P.D.sight others other other_unread other_before other_after
        (P.home found) (P.home last) behind new)
        (form : Form) (script : Script)
        → stage_of asked ran.happened.hands ran.happened.early ran.happened.parts ≡ Begun form script
        → stage_of others again.happened.hands again.happened.early again.happened.parts ≡ Begun form script
        → providers_in again.happened.setting ≡ providers_in ran.happened.setting
        → again.happened.opening ≡ ran.happened.opening → others.screens ≡ asked.screens
        → NoFaults old between → NoFaults behind new → All IsUnchanged (outcome_of asked ran.happened).answers
        → All IsUnchanged (outcome_of others again.happened).answers
        → (status ≡ statuses.NoMemory) ⊎ (other ≡ statuses.NoMemory)
        ⊎ WroteAlike status other before after other_before other_after }
    ensures made { (asked : Asked) (status other : Status) (text : Bytes)
        (before after other_before other_after : Option Bytes)
        (depot left found last : P) (old between behind new : Counts) → P.tells × P.D.tells
        → (ran : RanOver (P.tells × P.D.tells) P.D.sight asked status (Some text) before after (P.home depot)
        (P.home left) old between)
        (again : RanOver (P.tells × P.D.tells) P.D.sight asked other (Some text) other_before other_after
        (P.home found) (P.home last) behind new)
        (script same : Script)
        → stage_of asked ran.happened.hands ran.happened.early ran.happened.parts ≡ Begun Run script
        → stage_of asked again.happened.hands again.happened.early again.happened.parts ≡ Begun Run same
        → ran.happened.opening.next ≡ NoMore → again.happened.opening.next ≡ NoMore
        → NoFaults old between → NoFaults behind new → All IsUnchanged (outcome_of asked ran.happened).answers
        → All IsUnchanged (outcome_of asked again.happened).answers
        → (status ≡ statuses.NoMemory) ⊎ (other ≡ statuses.NoMemory)
        ⊎ WroteAlike status other before after other_before other_after }
{
    providers_have_one_world();
    a_script_without_faults_is_one();
    quiet_runs_are_one();
    a_run_without_faults_has_one_transcript::<P>();
}
