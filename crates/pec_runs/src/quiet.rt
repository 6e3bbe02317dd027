ghost use Rattle.std.specs.Prelude.{◌≡◌, ◌⊎◌, ℕ, false, All, List, Option, Some, Ok, length};
ghost use Rattle.std.specs.List.{AllByRecursion};
ghost use Rattle.pec_types.specs.Bytes.{Bytes};
ghost use Rattle.pec_outside.specs.Flow.{followed_by};
ghost use Rattle.pec_directory.specs.Directory.{Provider};
ghost use Rattle.pec_records.specs.declared.entries.Entry.{Entry};
ghost use Rattle.pec_ledger.specs.Network.{Site};
ghost use Rattle.pec_ledger.specs.Trade.{Trade};
ghost use Rattle.pec_plays.specs.Commands.{Command, Luck};
ghost use Rattle.pec_plays.specs.Possible.{GaveWhatWasKept, NoneInterrupted, quiet_lucks};
ghost use Rattle.pec_plays.specs.Scripts.{script};
ghost use Rattle.pec_screen.specs.Verdicts.{Patterns};
ghost use Rattle.pec_input.specs.Directory.{directory_in};
ghost use Rattle.pec_runs.specs.Happened.{Asked, Begun, IsSetting, Setting, outcome_of, providers_in, stage_of, trade_in};
ghost use Rattle.pec_input.specs.Lines.{raw_lines};
ghost use Rattle.pec_input.specs.Parts.{parts_of};
ghost use Rattle.pec_runs.specs.Openings.{AreLeft, disks_at, Form, IsOpening, NoMore, opened_all};
ghost use Rattle.pec_runs.specs.Plays.{AllHanded, AllMeet, Ends, HasMemory, IsUnchanged, MayPlay, ShowsItsOwn, ToTheEnd, faults_told};
ghost use Rattle.pec_runs.specs.Plays.{outcome_from, outcome_text};
ghost use Rattle.pec_runs.specs.Ran.{Counts, RanOver};
ghost use Rattle.pec_runs.specs.ScriptLines.{Hands, Script, script_of};
ghost use Rattle.pec_runs.specs.Statuses.{Status, status_of};
ghost use Rattle.pec_runs.specs.Statuses as statuses;
ghost use Rattle.pec_runs.specs.Transcripts.{NoFaults, TellsTranscript, quiet_outcome};

use pec_outside::Depot;
use pec_plays::quiet_runs_are_one;

/// A script of which no fault is told, and no entry that changed, from a state in which nothing is interrupted, answers
/// in one way, and leads to one state, where what was read is what was kept.
pub fn a_script_without_faults_is_one()
    ensures { (trade : Trade) (lucks : List Luck) (sites : List Site) (commands : List Command) → NoneInterrupted sites
        → length lucks ≡ length commands → AllMeet trade lucks sites commands
        → AllByRecursion GaveWhatWasKept lucks → AllByRecursion ShowsItsOwn lucks
        → All HasMemory (script trade lucks sites commands).answers
        → All IsUnchanged (script trade lucks sites commands).answers
        → ((provider : ℕ) → faults_told trade provider commands (script trade lucks sites commands).answers ≡ 0)
        → script trade lucks sites commands ≡ script trade (quiet_lucks trade sites commands) sites commands }
{
    quiet_runs_are_one();
}

/// A run without faults, which tells no entry as changed, has one transcript, and wrote all of it, with the status of
/// its end, unless memory ran out. And from every state a script may be played to its end without a fault, whatever
/// happened before, where a further screen is the last spare that is left; and there are such spares for all lines.
pub fn a_run_without_faults_has_one_transcript<P: Depot>()
    ensures one { (asked : Asked) (status : Status) (unread before after : Option Bytes) (depot left : P)
        (old new : Counts)
        → P.tells × P.D.tells
        → (ran : RanOver (P.tells × P.D.tells) P.D.sight asked status unread before after (P.home depot)
        (P.home left) old new)
        → NoFaults old new → All IsUnchanged (outcome_of asked ran.happened).answers
        → (status ≡ statuses.NoMemory) ⊎ TellsTranscript asked ran.happened status before after }
    ensures goes_on { (trade : Trade) (spares : List Patterns) (sites : List Site) (counts : ℕ → ℕ) (written : Script)
        → AllHanded trade (quiet_lucks trade sites written.commands) spares sites written.commands
        → MayPlay trade (P.tells × P.D.tells) spares sites counts counts written
        (quiet_lucks trade sites written.commands) ToTheEnd
        × ((outcome_from trade (quiet_lucks trade sites written.commands) ToTheEnd sites written).finish
        ≡ Ends written.end) }
    ensures handed { (trade : Trade) (providers : List Provider) (spares : List Patterns) (sites : List Site)
        (number : ℕ) (lines : List Bytes) → (hands : Hands)
        × AllHanded trade (quiet_lucks trade sites (script_of hands providers number lines).commands) spares sites
        (script_of hands providers number lines).commands }
{
    a_script_without_faults_is_one();
    quiet_runs_are_one();
}

/// There are such runs: what a script would come to without a fault, from the journals that are at hand, is a run of
/// the program, where the disks are left so.
pub fn a_run_without_faults_is_there<P: Depot>()
    ensures { (asked : Asked) (text : Bytes) (setting : Setting) (hands : Hands) (form : Form) (written : Script)
        (journals : List (List Entry)) (before : Option Bytes) (depot left : P) (counts : Counts)
        → stage_of asked hands false (parts_of (raw_lines text)) ≡ Begun form written
        → AllHanded (trade_in setting)
        (quiet_lucks (trade_in setting) (opened_all (trade_in setting) asked.screens journals) written.commands)
        asked.spares (opened_all (trade_in setting) asked.screens journals) written.commands
        → ((providers : List Provider) → directory_in (parts_of (raw_lines text)).directory ≡ Ok providers
        → IsSetting providers setting)
        → IsOpening (trade_in setting) (disks_at (P.tells × P.D.tells) P.D.sight (P.home depot)) form
        (record { journals = journals; next = NoMore })
        → AreLeft (disks_at (P.tells × P.D.tells) P.D.sight (P.home depot))
        (disks_at (P.tells × P.D.tells) P.D.sight (P.home left)) form (record { journals = journals; next = NoMore })
        (quiet_outcome setting asked.screens journals written).after
        → RanOver (P.tells × P.D.tells) P.D.sight asked (status_of written.end) (Some text) before
        (followed_by before (outcome_text (providers_in setting) (quiet_outcome setting asked.screens journals written)))
        (P.home depot) (P.home left) counts counts }
{
    quiet_runs_are_one();
}
