ghost use Rattle.std.specs.Prelude.{◌≡◌, ◌+◌, ◌⊎◌, ℕ, List, All, Option, None, Some, Ok, length};
ghost use Rattle.pec_types.specs.Bytes.{Bytes};
ghost use Rattle.pec_outside.specs.Flow.{followed_by};
ghost use Rattle.pec_directory.specs.Directory.{Kept, Provider, providers_of};
ghost use Rattle.pec_seal.specs.Seals.{Seals};
ghost use Rattle.pec_ledger.specs.Ledger.{Fit, Journals};
ghost use Rattle.pec_ledger.specs.Network.{IsGenuineText};
ghost use Rattle.pec_ledger.specs.TradeLaws.{IsTrade};
ghost use Rattle.pec_trade.specs.TradeOf.{trade_of};
ghost use Rattle.pec_input.specs.Lines.{raw_lines};
ghost use Rattle.pec_input.specs.Parts.{parts_of};
ghost use Rattle.pec_runs.specs.Endings as ends;
ghost use Rattle.pec_runs.specs.Happened.{IsSetting, Setting, trade_in};
ghost use Rattle.pec_runs.specs.Ran.{Counts};
ghost use Rattle.pec_runs.specs.Statuses.{Status, status_of};
ghost use Rattle.pec_runs.specs.Statuses as statuses;
ghost use Rattle.pec_runs.specs.Transcripts.{NoFaults};
ghost use Rattle.pec_dossier.specs.Checks.{CheckRan, Checked, Dossier, IsOfCheck, all_told, checked_text, dossier_in, end_in, saved_text};
ghost use Rattle.pec_dossier.specs.Conflicts.{TellsTheDecision, findings_in};
ghost use Rattle.pec_dossier.specs.Tallies.{tally_of};

use pec_ledger::arrivals_are_true;

/// What a status says of a run that checks a dossier.
pub fn a_status_says_what_was_checked()
    // Status 0: the input is a dossier whose lines were read to their end; what is told of each message was written,
    // and behind it what all prove together.
    ensures done { (unread before after : Option Bytes) (ran : Checked statuses.Done unread before after)
        → (dossier : Dossier) × (dossier_in ran.parts ≡ Ok dossier) × (dossier.saved.end ≡ ends.Done)
        × (after ≡ followed_by before (saved_text dossier.providers None dossier.saved)) }
    // Statuses 3 and 12: the input ends so before its end, after the lines of the messages before; and its last line
    // was written.
    ensures ended { (status : Status) (unread before after : Option Bytes)
        → (status ≡ statuses.Refused) ⊎ (status ≡ statuses.InputTooLong)
        → (ran : Checked status unread before after)
        → (status ≡ status_of (end_in (dossier_in ran.parts)))
        × (after ≡ followed_by before (checked_text None (dossier_in ran.parts))) }
    // A run that was stopped by its input or for want of memory wrote the lines of so many messages.
    ensures stopped { (status : Status) (unread before after : Option Bytes)
        → (status ≡ statuses.ReadFault) ⊎ (status ≡ statuses.NoMemory) → (ran : Checked status unread before after)
        → (count : ℕ) × (after ≡ followed_by before (checked_text (Some count) (dossier_in ran.parts))) }
    ensures no_other { (status : Status) (unread before after : Option Bytes)
        → Checked status unread before after → IsOfCheck status }
    // Without faults all was written that the input comes to, with the status of its end, unless memory ran out.
    ensures whole { (status : Status) (text : Bytes) (before after : Option Bytes) (old new : Counts)
        → CheckRan status (Some text) before after old new → NoFaults old new
        → (status ≡ statuses.NoMemory)
        ⊎ ((status ≡ status_of (end_in (dossier_in (parts_of (raw_lines text)))))
        × (after ≡ followed_by before (checked_text None (dossier_in (parts_of (raw_lines text)))))) }
    // Each message is counted once, as genuine or as refused.
    ensures counted { (providers : List Provider) (messages : List Bytes)
        → (tally_of (all_told providers messages)).genuine + (tally_of (all_told providers messages)).refused
        ≡ length messages }
{}

/// Genuine letters never contradict each other where no provider lies: of texts of licensed letters, or of mailbox
/// items, of journals that are Fit, no pair has a conflict, and each proof tells the decision by which the pair is
/// decided. It rests on the law that a pair has one outcome.
pub fn no_conflict()
    ensures worlds { (kept : List Kept) (seals : Seals) → IsTrade (trade_of kept seals)
        → (journals : Journals) → Fit (trade_of kept seals) journals
        → (texts : List Bytes) → All (IsGenuineText (trade_of kept seals) journals) texts
        → All (TellsTheDecision (trade_of kept seals) journals) (findings_in seals (providers_of kept) texts) }
    // So with a dossier of such texts that a run of the program checks, in the world in which a run played.
    ensures dossiers { (providers : List Provider) (setting : Setting) → IsSetting providers setting
        → (journals : Journals) → Fit (trade_in setting) journals
        → (texts : List Bytes) → All (IsGenuineText (trade_in setting) journals) texts
        → All (TellsTheDecision (trade_in setting) journals) (tally_of (all_told providers texts)).findings }
{
    arrivals_are_true();
}
