ghost use Rattle.std.specs.Prelude.{◌≡◌, ℕ, ◌+◌, Contains, IsSome, List, Option, slice_get, Some};
ghost use Rattle.pec_types.specs.Bytes.{Bytes};
ghost use Rattle.pec_types.specs.declared.messages.BookLine.{BookLine as Line};
ghost use Rattle.pec_directory.specs.Directory.{Provider};
ghost use Rattle.pec_ledger.specs.Guarantees.{HasReceipt};
ghost use Rattle.pec_ledger.specs.Network.{journals_of};
ghost use Rattle.pec_ledger.specs.Pairs.{Pair, pair_of};
ghost use Rattle.pec_letters.specs.Fitting.{Fits};
ghost use Rattle.pec_plays.specs.Commands.{Book, Lines};
ghost use Rattle.pec_progress.specs.Progress.{HasOutcome, IsSettled, WasAccepted};
ghost use Rattle.pec_progress_runs.specs.Runs.{answered, FourPrintWell, PlaysHonestly, PrintsWell, state_at};
ghost use Rattle.pec_runs.specs.Happened.{Asked};
ghost use Rattle.pec_runs.specs.Ran.{Counts, RanOver, world};
ghost use Rattle.pec_runs.specs.ScriptLines.{Script};
ghost use Rattle.pec_runs.specs.Statuses.{Status};

use crate::scripts::told_rounds_bring_outcomes;
use pec_outside::Depot;
use pec_runs::{a_runs_books_belong_to_the_ledger, what_is_due_is_no_forged_frame};
use pec_seal::Sealer;
use pec_trade::the_texts_are_a_trade;

/// The same of a run of the program, by its contract alone, over disks that tell what they hold: behind four `round`
/// lines one after another for which no turn is printed to end before its time, and no `sent` line has more than 31
/// frames, each pair of a message that was accepted before them has its outcome and its receipt, and no `book` that is
/// printed later has it open; and behind a fifth it is settled. It makes no difference which frames were lost, repeated
/// or put in before, and which providers crashed, in this run or in an earlier one that it resumes. Whoever seals with
/// the directory's names and keys, as `sealer_of` of pec_trade does, shows that letters fit frames.
pub fn printed_rounds_bring_outcomes<P: Depot, S: Sealer>()
    ensures known { (asked : Asked) (status : Status) (unread held after : Option Bytes) (depot left : P) (old new : Counts) → P.tells × P.D.tells
        → (ran : RanOver (P.tells × P.D.tells) P.D.sight asked status unread held after (P.home depot) (P.home left) old new)
        (providers : List Provider) (script : Script) → PlaysHonestly asked ran.happened providers script
        → (sealer : S) → S.seals sealer ≡ ran.happened.setting.seals → Fits (S.seals sealer) providers
        → (number : ℕ) → FourPrintWell ran.happened script number
        → (pair : Pair) → WasAccepted (world ran.happened) (state_at ran.happened script number) pair
        → HasOutcome (world ran.happened) (state_at ran.happened script (number + 4)) pair
        × HasReceipt (world ran.happened) (journals_of (state_at ran.happened script (number + 4))) pair }
    ensures settled { (asked : Asked) (status : Status) (unread held after : Option Bytes) (depot left : P) (old new : Counts) → P.tells × P.D.tells
        → (ran : RanOver (P.tells × P.D.tells) P.D.sight asked status unread held after (P.home depot) (P.home left) old new)
        (providers : List Provider) (script : Script) → PlaysHonestly asked ran.happened providers script
        → (sealer : S) → S.seals sealer ≡ ran.happened.setting.seals → Fits (S.seals sealer) providers
        → (number : ℕ) → FourPrintWell ran.happened script number → PrintsWell ran.happened script (number + 4)
        → (pair : Pair) → WasAccepted (world ran.happened) (state_at ran.happened script number) pair
        → IsSettled (world ran.happened) (state_at ran.happened script (number + 5)) pair }
    ensures books { (asked : Asked) (status : Status) (unread held after : Option Bytes) (depot left : P) (old new : Counts) → P.tells × P.D.tells
        → (ran : RanOver (P.tells × P.D.tells) P.D.sight asked status unread held after (P.home depot) (P.home left) old new)
        (providers : List Provider) (script : Script) → PlaysHonestly asked ran.happened providers script
        → (sealer : S) → S.seals sealer ≡ ran.happened.setting.seals → Fits (S.seals sealer) providers
        → (number : ℕ) → FourPrintWell ran.happened script number
        → (later : ℕ) (address : Bytes) (lines : List Line) → slice_get script.commands (number + 4 + later) ≡ Some (Book address)
        → slice_get (answered ran.happened script) (number + 4 + later) ≡ Some (Lines lines)
        → (line : Line) → Contains lines line
        → WasAccepted (world ran.happened) (state_at ran.happened script number) (pair_of line.id line.recipient) → IsSome line.outcome }
{
    told_rounds_bring_outcomes();
    a_runs_books_belong_to_the_ledger::<P>();
    what_is_due_is_no_forged_frame::<P>();
    the_texts_are_a_trade::<S>();
}
