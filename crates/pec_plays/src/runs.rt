ghost use Rattle.std.specs.Prelude.{◌≡◌, ℕ, List, length};
ghost use Rattle.std.specs.List.{AllByRecursion};
ghost use Rattle.pec_ledger.specs.Along.{AllDiffer, GoesOnAs};
ghost use Rattle.pec_ledger.specs.Network.{journal_at, Site, Sound};
ghost use Rattle.pec_ledger.specs.Trade.{Trade};
ghost use Rattle.pec_ledger.specs.TradeLaws.{IsTrade};
ghost use Rattle.pec_plays.specs.Commands.{Command, Luck, played};
ghost use Rattle.pec_plays.specs.Possible.{AllQuiet, AllReadAlike, GaveWhatWasKept, IsQuiet, MayMeet, NoneInterrupted, ReadAlike, quiet_luck, quiet_lucks};
ghost use Rattle.pec_plays.specs.Scripts.{AllUnforged, script};
ghost use Rattle.pec_plays.specs.Settled.{AreOneBut};
ghost use Rattle.pec_plays.specs.Told.{decided_told, learned_told};

use crate::soundness::a_network_stays_sound;
use pec_ledger::{rows_have_their_texts, the_guarantees};

/// What is answered settles the state behind it: whatever devices did, but that none gave back other bytes than it
/// took, with the same answer to a command the state is the same, except that after a fault of the disk in the decision
/// of a pair whose recipient is an account, the entry of that pair may be interrupted or not.
pub fn answers_settle_the_state()
    ensures commands { (trade : Trade) (sites : List Site) (command : Command) (luck other : Luck)
        → GaveWhatWasKept luck → GaveWhatWasKept other
        → MayMeet trade luck sites command → MayMeet trade other sites command
        → (played trade luck sites command).answer ≡ (played trade other sites command).answer
        → AreOneBut trade command sites luck (played trade luck sites command).after (played trade other sites command).after }
    // where the same reads before decisions failed nothing is excepted, and a script settles its state too
    ensures looked { (trade : Trade) (sites : List Site) (command : Command) (luck other : Luck)
        → GaveWhatWasKept luck → GaveWhatWasKept other → ReadAlike luck other
        → (played trade luck sites command).answer ≡ (played trade other sites command).answer
        → (played trade luck sites command).after ≡ (played trade other sites command).after }
    ensures scripts { (trade : Trade) (sites : List Site) (commands : List Command) (lucks others : List Luck)
        → AllByRecursion GaveWhatWasKept lucks → AllByRecursion GaveWhatWasKept others
        → AllReadAlike lucks others
        → (script trade lucks sites commands).answers ≡ (script trade others sites commands).answers
        → (script trade lucks sites commands).after ≡ (script trade others sites commands).after }
{}

/// Entries are only appended: whatever devices do in a command, each journal goes on as it was.
pub fn a_command_appends()
    ensures { (trade : Trade) (sites : List Site) (luck : Luck) (command : Command) (provider : ℕ)
        → GoesOnAs (journal_at sites provider) (journal_at (played trade luck sites command).after provider) }
{}

/// No two answers of a run decide one pair, and no two learn one, whatever devices do, where no forged frame is
/// injected.
pub fn no_two_answers()
    ensures decided { (trade : Trade) → IsTrade trade → (lucks : List Luck) (sites : List Site) (commands : List Command)
        → Sound trade sites → AllUnforged trade lucks sites commands
        → AllDiffer (decided_told (script trade lucks sites commands).answers) }
    ensures learned { (trade : Trade) → IsTrade trade → (lucks : List Luck) (sites : List Site) (commands : List Command)
        → Sound trade sites → AllUnforged trade lucks sites commands
        → AllDiffer (learned_told (script trade lucks sites commands).answers) }
{
    a_network_stays_sound();
    rows_have_their_texts();
    the_guarantees();
}

/// Without faults there is one answer and one state, and there is one at all: where no entry is interrupted, whatever a
/// command or a script may meet without a fault of a device, it answers the same and leaves the same state.
pub fn quiet_runs_are_one()
    ensures commands { (trade : Trade) (sites : List Site) (command : Command) (luck other : Luck) → NoneInterrupted sites
        → MayMeet trade luck sites command → IsQuiet luck → MayMeet trade other sites command → IsQuiet other
        → played trade luck sites command ≡ played trade other sites command }
    ensures scripts { (trade : Trade) (sites : List Site) (commands : List Command) (lucks others : List Luck) → NoneInterrupted sites
        → length lucks ≡ length others → AllQuiet trade lucks sites commands → AllQuiet trade others sites commands
        → script trade lucks sites commands ≡ script trade others sites commands }
    // without faults no turn puts other frames than those that are due
    ensures kept { (luck : Luck) → IsQuiet luck → GaveWhatWasKept luck }
    // a luck without faults, for each command and each script
    ensures command_there { (trade : Trade) (sites : List Site) (command : Command)
        → MayMeet trade (quiet_luck trade sites command) sites command × IsQuiet (quiet_luck trade sites command) }
    ensures script_there { (trade : Trade) (sites : List Site) (commands : List Command)
        → AllQuiet trade (quiet_lucks trade sites commands) sites commands × (length (quiet_lucks trade sites commands) ≡ length commands) }
{}
