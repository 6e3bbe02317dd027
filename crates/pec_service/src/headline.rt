ghost use Rattle.std.specs.Prelude.{◌≡◌, List};
ghost use Rattle.pec_directory.specs.Directory.{Kept};
ghost use Rattle.pec_ledger.specs.Network.{Sound};
ghost use Rattle.pec_ledger.specs.Trade.{Trade};
ghost use Rattle.pec_ledger.specs.TradeLaws.{IsTrade};
ghost use Rattle.pec_plays.specs.Possible.{NoneInterrupted};
ghost use Rattle.pec_plays.specs.Scripts.{script};
ghost use Rattle.pec_runs.specs.Headline.{AllHonest, Headline};
ghost use Rattle.pec_service.specs.Calls.{commands_of, lucks_of};
ghost use Rattle.pec_service.specs.Connections.{Connection, Place};
ghost use Rattle.pec_service.specs.Services.{AreConnections, calls_in, place_behind};

use pec_outside::Depot;
use pec_plays::a_network_stays_sound;
use pec_runs::{the_books_belong_to_the_ledger, what_is_due_is_no_forged_frame};

/// The headline, of a service: whatever devices do, screens find and connections bring, from a Sound state in which
/// nothing is interrupted the commands that are played of them are a script of which the headline holds, where no disk
/// gives back what makes a turn put a forged frame. No command of a connection can forge one, so over disks that tell
/// what they hold there is none. The state behind each connection is that script's, and Sound.
pub fn a_services_books_belong_to_the_ledger<P: Depot>()
    ensures headline { (trade : Trade) → IsTrade trade → (kept : List Kept) (here : Place)
        (connections : List Connection) → Sound trade here.network.sites → NoneInterrupted here.network.sites
        → AreConnections trade (P.tells × P.D.tells) kept here connections
        → AllHonest trade (lucks_of (calls_in connections)) here.network.sites (commands_of (calls_in connections))
        → Headline trade here.network.sites (lucks_of (calls_in connections)) (commands_of (calls_in connections)) }
    ensures states { (trade : Trade) (kept : List Kept) (here : Place) (connections : List Connection)
        → AreConnections trade (P.tells × P.D.tells) kept here connections
        → (script trade (lucks_of (calls_in connections)) here.network.sites (commands_of (calls_in connections))).after
        ≡ (place_behind here connections).network.sites }
    ensures sound { (trade : Trade) → IsTrade trade → (kept : List Kept) (here : Place)
        (connections : List Connection) → Sound trade here.network.sites
        → AreConnections trade (P.tells × P.D.tells) kept here connections
        → AllHonest trade (lucks_of (calls_in connections)) here.network.sites (commands_of (calls_in connections))
        → Sound trade (place_behind here connections).network.sites }
    ensures honest { (trade : Trade) (kept : List Kept) (here : Place) (connections : List Connection)
        → P.tells × P.D.tells → AreConnections trade (P.tells × P.D.tells) kept here connections
        → AllHonest trade (lucks_of (calls_in connections)) here.network.sites (commands_of (calls_in connections)) }
{
    the_books_belong_to_the_ledger();
    a_network_stays_sound();
    what_is_due_is_no_forged_frame::<P>();
}
