ghost use Rattle.std.specs.Prelude.{◌≡◌, ◌<◌, ◌≤◌, ◌⊎◌, List, [], Option, Some, Ok, Err, length};
ghost use Rattle.pec_types.specs.Bytes.{Bytes};
ghost use Rattle.pec_outside.specs.Flow.{followed_by};
ghost use Rattle.pec_directory.specs.Directory.{Provider};
ghost use Rattle.pec_input.specs.Directory.{Refusal, directory_in};
ghost use Rattle.pec_input.specs.declared.opening.TheConstants.{LONGEST_DIRECTORY};
ghost use Rattle.pec_runs.specs.Endings.{end_text};
ghost use Rattle.pec_runs.specs.Endings as ends;
ghost use Rattle.pec_dossier.specs.Exports.{ExportRan, Exported, IsOfExport};
ghost use Rattle.pec_runs.specs.Ran.{Counts};
ghost use Rattle.pec_runs.specs.Statuses.{Status};
ghost use Rattle.pec_runs.specs.Statuses as statuses;
ghost use Rattle.pec_runs.specs.Transcripts.{NoFaults};

/// What a status says of a run that writes its directory as another text.
pub fn a_status_says_what_was_exported()
    // Status 0: the input is a directory, and its text was written, whole.
    ensures done { (text_of : List Provider → Bytes) (unread before after : Option Bytes)
        → (ran : Exported text_of statuses.Done unread before after)
        → (providers : List Provider) × (directory_in ran.bytes ≡ Ok providers)
        × (after ≡ followed_by before (text_of providers)) }
    ensures refused { (text_of : List Provider → Bytes) (unread before after : Option Bytes)
        → (ran : Exported text_of statuses.Refused unread before after)
        → (why : Refusal) × (directory_in ran.bytes ≡ Err why)
        × (after ≡ followed_by before (end_text [] (ends.DirectoryRefused why))) }
    ensures too_long { (text_of : List Provider → Bytes) (unread before after : Option Bytes)
        → (ran : Exported text_of statuses.InputTooLong unread before after)
        → (LONGEST_DIRECTORY < length ran.bytes)
        × (after ≡ followed_by before (end_text [] ends.LongDirectory)) }
    // A run that was stopped by its input or for want of memory wrote nothing.
    ensures stopped { (text_of : List Provider → Bytes) (status : Status) (unread before after : Option Bytes)
        → (status ≡ statuses.ReadFault) ⊎ (status ≡ statuses.NoMemory)
        → Exported text_of status unread before after → after ≡ followed_by before [] }
    ensures no_other { (text_of : List Provider → Bytes) (status : Status) (unread before after : Option Bytes)
        → Exported text_of status unread before after → IsOfExport status }
    // Without faults, where the input is a directory that isn't too long, its text was written, unless memory ran out.
    ensures whole { (text_of : List Provider → Bytes) (status : Status) (text : Bytes) (before after : Option Bytes)
        (old new : Counts) → ExportRan text_of status (Some text) before after old new → NoFaults old new
        → length text ≤ LONGEST_DIRECTORY → (providers : List Provider) → directory_in text ≡ Ok providers
        → (status ≡ statuses.NoMemory) ⊎ ((status ≡ statuses.Done) × (after ≡ followed_by before (text_of providers))) }
{}
