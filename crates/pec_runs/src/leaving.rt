ghost use Rattle.std.specs.Prelude.{◌≡◌, ◌≢◌, ◌<◌, ◌⊎◌, ℕ, List, Option, Some, length, slice_get};
ghost use Rattle.pec_types.specs.Bytes.{Bytes};
ghost use Rattle.pec_records.specs.declared.entries.Entry.{Entry};
ghost use Rattle.pec_chronicle.specs.Chronicle.{IsJournalOf};
ghost use Rattle.pec_runs.specs.Happened.{Asked, Begun, outcome_of, stage_of};
ghost use Rattle.pec_runs.specs.Openings.{disks_at, Form, IsLeft, IsUntouched, NoMore, Resume, form_in, next_of};
ghost use Rattle.pec_runs.specs.Ran.{Counts, RanOver};
ghost use Rattle.pec_runs.specs.ScriptLines.{Script};
ghost use Rattle.pec_runs.specs.Statuses.{Status};
ghost use Rattle.pec_runs.specs.Statuses as statuses;

use pec_outside::Depot;

/// What a run leaves on the disks whose journals were made or opened, as they read and as a crash may leave them: the
/// journals of the state behind its last answer, each with its interrupted entry or without it, unless memory ran out;
/// and, where not all journals were had, no entry beyond those with which a journal was made or opened.
pub fn a_run_leaves_its_journals<P: Depot>()
    ensures journals { (asked : Asked) (status : Status) (unread before after : Option Bytes) (depot left : P)
        (old new : Counts)
        (ran : RanOver (P.tells × P.D.tells) P.D.sight asked status unread before after (P.home depot) (P.home left)
        old new)
        (form : Form) (script : Script) → stage_of asked ran.happened.hands ran.happened.early ran.happened.parts ≡ Begun form script
        → status ≢ statuses.NoMemory
        → (provider : ℕ) (bytes : Bytes) → provider < next_of ran.happened.opening
        → (disks_at (P.tells × P.D.tells) P.D.sight (P.home left)).reads provider bytes
        ⊎ (disks_at (P.tells × P.D.tells) P.D.sight (P.home left)).may_leave provider bytes
        → IsLeft (outcome_of asked ran.happened).after provider bytes }
    ensures no_further_entry { (asked : Asked) (status : Status) (unread before after : Option Bytes)
        (depot left : P) (old new : Counts)
        (ran : RanOver (P.tells × P.D.tells) P.D.sight asked status unread before after (P.home depot) (P.home left)
        old new)
        (form : Form) (script : Script) → stage_of asked ran.happened.hands ran.happened.early ran.happened.parts ≡ Begun form script
        → ran.happened.opening.next ≢ NoMore
        → (provider : ℕ) (journal : List Entry) (bytes : Bytes)
        → slice_get ran.happened.opening.journals provider ≡ Some journal
        → (disks_at (P.tells × P.D.tells) P.D.sight (P.home left)).reads provider bytes
        ⊎ (disks_at (P.tells × P.D.tells) P.D.sight (P.home left)).may_leave provider bytes
        → IsJournalOf journal bytes }
{}

/// A journal that is there survives: only `resume` goes on with journals that it finds, and any other run leaves each
/// disk that held a byte untouched, as it reads and as a crash may leave it, whatever its status.
pub fn a_journal_that_is_there_survives<P: Depot>()
    ensures { (asked : Asked) (status : Status) (unread before after : Option Bytes) (depot left : P)
        (old new : Counts)
        → RanOver (P.tells × P.D.tells) P.D.sight asked status unread before after (P.home depot) (P.home left) old new
        → form_in asked.words ≢ Some Resume
        → (provider : ℕ) (was : Bytes)
        → (disks_at (P.tells × P.D.tells) P.D.sight (P.home depot)).reads provider was → 0 < length was
        → IsUntouched (disks_at (P.tells × P.D.tells) P.D.sight (P.home depot))
        (disks_at (P.tells × P.D.tells) P.D.sight (P.home left)) provider was }
{}
