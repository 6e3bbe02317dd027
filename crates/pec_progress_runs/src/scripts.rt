ghost use Rattle.std.specs.Prelude.{◌≡◌, ℕ, ◌+◌, ◌≤◌, Contains, IsSome, List, slice_get, Some};
ghost use Rattle.std.specs.List.{AllByRecursion};
ghost use Rattle.pec_types.specs.Bytes.{Bytes};
ghost use Rattle.pec_types.specs.declared.messages.BookLine.{BookLine as Line};
ghost use Rattle.pec_ledger.specs.Guarantees.{HasReceipt};
ghost use Rattle.pec_ledger.specs.Network.{journals_of, Site, Sound};
ghost use Rattle.pec_ledger.specs.Pairs.{Pair, pair_of};
ghost use Rattle.pec_ledger.specs.Trade.{Trade};
ghost use Rattle.pec_ledger.specs.TradeLaws.{IsTrade, LettersCanBePut};
ghost use Rattle.pec_plays.specs.Commands.{Book, Command, Lines, Luck};
ghost use Rattle.pec_plays.specs.Possible.{GaveWhatWasKept};
ghost use Rattle.pec_plays.specs.Scripts.{script};
ghost use Rattle.pec_progress.specs.Progress.{HasOutcome, IsSettled, WasAccepted};
ghost use Rattle.pec_progress_runs.specs.Told.{before, FourWentWell, WentWell};

use pec_ledger::{rows_stand, the_books, the_due_letters};
use pec_plays::{
    a_command_appends, a_network_stays_sound, a_round_is_its_turns, a_turn_puts_what_is_due,
};
use pec_progress::{outcomes_stay, rounds_bring_outcomes};

/// In a script, behind four rounds one after another that are told to go well, each pair of a message that was accepted
/// before them has its outcome, its receipt is in the sender's mailbox or archive, and no book that is answered from
/// then on has it open; behind a fifth the recipient's provider knows that the outcome has arrived. It makes no
/// difference what was lost, repeated, put in or interrupted before, or what is later. The state before the rounds is
/// Sound, and each read gave what was kept, as over disks that tell what they hold.
pub fn told_rounds_bring_outcomes()
    ensures known { (trade : Trade) → IsTrade trade → LettersCanBePut trade → (lucks : List Luck) (start : List Site) (commands : List Command)
        → AllByRecursion GaveWhatWasKept lucks → (number : ℕ) → Sound trade (before trade lucks start commands number)
        → FourWentWell trade lucks start commands number → (pair : Pair) → WasAccepted trade (before trade lucks start commands number) pair
        → HasOutcome trade (before trade lucks start commands (number + 4)) pair
        × HasReceipt trade (journals_of (before trade lucks start commands (number + 4))) pair }
    ensures settled { (trade : Trade) → IsTrade trade → LettersCanBePut trade → (lucks : List Luck) (start : List Site) (commands : List Command)
        → AllByRecursion GaveWhatWasKept lucks → (number : ℕ) → Sound trade (before trade lucks start commands number)
        → FourWentWell trade lucks start commands number → WentWell trade lucks start commands (number + 4)
        → (pair : Pair) → WasAccepted trade (before trade lucks start commands number) pair
        → IsSettled trade (before trade lucks start commands (number + 5)) pair }
    // the line of such a pair in a book that is answered later
    ensures books { (trade : Trade) → IsTrade trade → LettersCanBePut trade → (lucks : List Luck) (start : List Site) (commands : List Command)
        → AllByRecursion GaveWhatWasKept lucks → (number : ℕ) → Sound trade (before trade lucks start commands number)
        → FourWentWell trade lucks start commands number
        → (later : ℕ) (address : Bytes) (lines : List Line) → slice_get commands (number + 4 + later) ≡ Some (Book address)
        → slice_get (script trade lucks start commands).answers (number + 4 + later) ≡ Some (Lines lines)
        → (line : Line) → Contains lines line → WasAccepted trade (before trade lucks start commands number) (pair_of line.id line.recipient)
        → IsSome line.outcome }
{
    a_command_appends();
    a_network_stays_sound();
    a_round_is_its_turns();
    a_turn_puts_what_is_due();
    outcomes_stay();
    rounds_bring_outcomes();
    rows_stand();
    the_books();
    the_due_letters();
}
