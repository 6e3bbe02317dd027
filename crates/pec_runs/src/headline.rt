ghost use Rattle.std.specs.Prelude.{ℕ, List};
ghost use Rattle.pec_ledger.specs.Network.{Site, Sound};
ghost use Rattle.pec_ledger.specs.Trade.{Trade};
ghost use Rattle.pec_ledger.specs.TradeLaws.{IsTrade};
ghost use Rattle.pec_plays.specs.Commands.{Command, Luck};
ghost use Rattle.pec_plays.specs.Possible.{NoneInterrupted};
ghost use Rattle.pec_plays.specs.Scripts.{AllUnforged};
ghost use Rattle.pec_runs.specs.Headline.{Headline};

use pec_ledger::{arrivals_are_true, licences_stand, rows_have_their_texts, the_guarantees};
use pec_plays::{a_network_stays_sound, no_two_answers};

/// The headline, of a script from a Sound state in which nothing is interrupted, whatever devices do, where no forged
/// frame is injected: at each command the ledger is one that the case tables reach from that of the beginning, and from
/// the one before it, and users have what they are promised; each book that is answered is the ledger's; no pair is decided or learned
/// twice; and a clock call that succeeds leaves no pair of 24 hours without its notice.
pub fn the_books_belong_to_the_ledger()
    ensures { (trade : Trade) → IsTrade trade → (lucks : List Luck) (start : List Site) (commands : List Command)
        → Sound trade start → NoneInterrupted start → AllUnforged trade lucks start commands
        → Headline trade start lucks commands }
{
    licences_stand();
    arrivals_are_true();
    rows_have_their_texts();
    the_guarantees();
    a_network_stays_sound();
    no_two_answers();
}
