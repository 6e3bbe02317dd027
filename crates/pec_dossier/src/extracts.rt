ghost use Rattle.std.specs.Prelude.{◌≡◌, ◌≢◌, ◌<◌, ◌≤◌, ◌⊎◌, ℕ, List, [], Option, Some, Ok, Err, length};
ghost use Rattle.pec_types.specs.Bytes.{Bytes};
ghost use Rattle.pec_outside.specs.Flow.{WrotePart, followed_by};
ghost use Rattle.pec_directory.specs.Directory.{Provider};
ghost use Rattle.pec_records.specs.declared.entries.Entry.{Entry};
ghost use Rattle.pec_ledger.specs.Trade.{Trade};
ghost use Rattle.pec_input.specs.Directory.{Refusal, directory_in};
ghost use Rattle.pec_input.specs.declared.opening.TheConstants.{LONGEST_DIRECTORY};
ghost use Rattle.pec_script.specs.declared.answers.Unfit.{Unfit};
ghost use Rattle.pec_dossier.specs.Extracts.{ExtractRan, Extracted, HasHeader, IsOfExtract, Range};
ghost use Rattle.pec_runs.specs.Endings.{end_text};
ghost use Rattle.pec_runs.specs.Endings as ends;
ghost use Rattle.pec_runs.specs.Happened.{IsSetting, providers_in, trade_in};
ghost use Rattle.pec_runs.specs.Openings.{Fails, NoMore, Unfits, next_of, Resume};
ghost use Rattle.pec_runs.specs.Ran.{Counts};
ghost use Rattle.pec_runs.specs.Statuses.{Status};
ghost use Rattle.pec_runs.specs.Statuses as statuses;
ghost use Rattle.pec_runs.specs.Complete.{CanBegin};
ghost use Rattle.pec_runs.specs.Transcripts.{NoFaults};

use pec_outside::Depot;

/// What a status says of a run that writes an extract of logs.
pub fn a_status_says_what_was_extracted<P: Depot>()
    // Status 0: the input is a directory, and all journals were opened; over disks that tell what they hold their text
    // was written, whole.
    ensures done { (text_of : Range → Trade → List Provider → List (List Entry) → Bytes) (header : Bytes) (range : Range)
        (unread before after : Option Bytes) (depot left : P) (from upto : ℕ → ℕ)
        (ran : Extracted text_of header (P.tells × P.D.tells) P.D.sight P.D.faults range statuses.Done before after (P.home depot)
        (P.home left) from upto unread)
        → (providers : List Provider) × (directory_in ran.bytes ≡ Ok providers) × IsSetting providers ran.setting
        × (ran.opening.next ≡ NoMore)
        × (P.tells × P.D.tells → after ≡ followed_by before
        (text_of range (trade_in ran.setting) (providers_in ran.setting) ran.opening.journals)) }
    // Statuses 13 and 14: the header was written; and over disks that tell what they hold a front of that text.
    ensures faulted { (text_of : Range → Trade → List Provider → List (List Entry) → Bytes) (header : Bytes)
        (range : Range) (status : Status) (unread before after : Option Bytes) (depot left : P) (from upto : ℕ → ℕ)
        → (status ≡ statuses.DiskFault) ⊎ (status ≡ statuses.Changed)
        → (ran : Extracted text_of header (P.tells × P.D.tells) P.D.sight P.D.faults range status before after (P.home depot)
        (P.home left) from upto unread)
        → (providers : List Provider) × (directory_in ran.bytes ≡ Ok providers) × IsSetting providers ran.setting
        × (ran.opening.next ≡ NoMore) × HasHeader header before after
        × (P.tells × P.D.tells → WrotePart before after
        (text_of range (trade_in ran.setting) (providers_in ran.setting) ran.opening.journals)) }
    // Statuses 3 and 12: the input is no directory, or too long for one, and its last line was written.
    ensures refused { (text_of : Range → Trade → List Provider → List (List Entry) → Bytes) (header : Bytes)
        (range : Range) (unread before after : Option Bytes) (depot left : P) (from upto : ℕ → ℕ)
        (ran : Extracted text_of header (P.tells × P.D.tells) P.D.sight P.D.faults range statuses.Refused before after
        (P.home depot) (P.home left) from upto unread)
        → (why : Refusal) × (directory_in ran.bytes ≡ Err why)
        × (after ≡ followed_by before (end_text [] (ends.DirectoryRefused why))) }
    ensures too_long { (text_of : Range → Trade → List Provider → List (List Entry) → Bytes) (header : Bytes)
        (range : Range) (unread before after : Option Bytes) (depot left : P) (from upto : ℕ → ℕ)
        (ran : Extracted text_of header (P.tells × P.D.tells) P.D.sight P.D.faults range statuses.InputTooLong before after
        (P.home depot) (P.home left) from upto unread)
        → (LONGEST_DIRECTORY < length ran.bytes) × (after ≡ followed_by before (end_text [] ends.LongDirectory)) }
    // Status 9: a disk holds no journal of its provider, and the last line says so. Nothing was written of the text.
    ensures not_fit { (text_of : Range → Trade → List Provider → List (List Entry) → Bytes) (header : Bytes)
        (range : Range) (unread before after : Option Bytes) (depot left : P) (from upto : ℕ → ℕ)
        (ran : Extracted text_of header (P.tells × P.D.tells) P.D.sight P.D.faults range statuses.NotFit before after
        (P.home depot) (P.home left) from upto unread)
        → (unfit : Unfit) × (ran.opening.next ≡ Unfits unfit)
        × (after ≡ followed_by before
        (end_text (providers_in ran.setting) (ends.NotFit (next_of ran.opening) unfit))) }
    // Status 7: a disk failed while its journal was opened, or the depot did; nothing was written.
    ensures not_opened { (text_of : Range → Trade → List Provider → List (List Entry) → Bytes) (header : Bytes)
        (range : Range) (unread before after : Option Bytes) (depot left : P) (from upto : ℕ → ℕ)
        (ran : Extracted text_of header (P.tells × P.D.tells) P.D.sight P.D.faults range statuses.StartFault before after
        (P.home depot) (P.home left) from upto unread)
        → (ran.opening.next ≡ Fails) × (after ≡ followed_by before []) }
    // A run that was stopped by its input wrote nothing.
    ensures stopped { (text_of : Range → Trade → List Provider → List (List Entry) → Bytes) (header : Bytes)
        (range : Range) (unread before after : Option Bytes) (depot left : P) (from upto : ℕ → ℕ)
        → Extracted text_of header (P.tells × P.D.tells) P.D.sight P.D.faults range statuses.ReadFault before after
        (P.home depot) (P.home left) from upto unread
        → after ≡ followed_by before [] }
    ensures no_other { (text_of : Range → Trade → List Provider → List (List Entry) → Bytes) (header : Bytes)
        (range : Range) (status : Status) (unread before after : Option Bytes) (depot left : P) (from upto : ℕ → ℕ)
        → Extracted text_of header (P.tells × P.D.tells) P.D.sight P.D.faults range status before after
        (P.home depot) (P.home left) from upto unread
        → IsOfExtract status }
    // Without faults, where the input is a directory that isn't too long and no disk was found to hold no journal of
    // its provider, the whole text was written, unless memory ran out or an entry isn't what was kept.
    ensures whole { (text_of : Range → Trade → List Provider → List (List Entry) → Bytes) (header : Bytes)
        (range : Range) (status : Status) (text : Bytes) (before after : Option Bytes) (depot left : P)
        (old new : Counts)
        (ran : ExtractRan text_of header (P.tells × P.D.tells) P.D.sight P.D.faults range status (Some text) before after
        (P.home depot) (P.home left) old new)
        → NoFaults old new → length text ≤ LONGEST_DIRECTORY
        → (providers : List Provider) → directory_in text ≡ Ok providers
        → ((unfit : Unfit) → ran.extracted.opening.next ≢ Unfits unfit)
        → (status ≡ statuses.NoMemory) ⊎ ((status ≡ statuses.Changed) ⊎ ((status ≡ statuses.Done)
        × IsSetting providers ran.extracted.setting × (ran.extracted.opening.next ≡ NoMore)
        × (P.tells × P.D.tells → after ≡ followed_by before (text_of range (trade_in ran.extracted.setting) providers
        ran.extracted.opening.journals)))) }
    // So it is where each provider's disk holds a journal of its own.
    ensures complete { P.tells × P.D.tells → (text_of : Range → Trade → List Provider → List (List Entry) → Bytes)
        (header : Bytes) (range : Range) (status : Status) (text : Bytes) (before after : Option Bytes) (depot left : P)
        (old new : Counts)
        (ran : ExtractRan text_of header (P.tells × P.D.tells) P.D.sight P.D.faults range status (Some text) before after
        (P.home depot) (P.home left) old new)
        → NoFaults old new → length text ≤ LONGEST_DIRECTORY
        → (providers : List Provider) → directory_in text ≡ Ok providers
        → CanBegin P.D.sight (trade_in ran.extracted.setting) (P.home depot) Resume
        → (status ≡ statuses.NoMemory) ⊎ ((status ≡ statuses.Changed) ⊎ ((status ≡ statuses.Done)
        × IsSetting providers ran.extracted.setting × (ran.extracted.opening.next ≡ NoMore)
        × (after ≡ followed_by before (text_of range (trade_in ran.extracted.setting) providers
        ran.extracted.opening.journals)))) }
{}
