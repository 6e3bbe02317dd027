ghost use Rattle.std.specs.Prelude.{◌≡◌, ◌⊎◌, List, ◌∷◌, ◌++◌, Option, Some, Result};
ghost use Rattle.pec_types.specs.Bytes.{Bytes};
ghost use Rattle.pec_directory.specs.Directory.{Kept};
ghost use Rattle.pec_http.specs.Asking.{Asks, Question};
ghost use Rattle.pec_http.specs.declared.stops.Stop.{Stop};
ghost use Rattle.pec_runs.specs.Openings.{Form, NoMore};
ghost use Rattle.pec_runs.specs.Statuses.{Status};
ghost use Rattle.pec_ledger.specs.Trade.{Trade};
ghost use Rattle.pec_seal.specs.Seals.{Seals};
ghost use Rattle.pec_service.specs.Connections.{Answering, Connection, IsConnection, Place};
ghost use Rattle.pec_service.specs.Isolation.{GaveItsOwn, IsDeviceReply, IsOwn, IsOwnInRun, answered, answering_of, asking_share};
ghost use Rattle.pec_service.specs.Passes.{pass_of};
ghost use Rattle.pec_service.specs.Runs.{AllCounts, Asked, Begins, Outside, ServiceRanOver, stage_of};
ghost use Rattle.pec_service.specs.Services.{connections_of};
ghost use Rattle.pec_runs.specs.OfTrades.{trade_of};

use pec_http::a_request_asks_one_thing;
use pec_outside::Depot;

/// The law of accounts, over a whole run that serves: what the caller of a connection is answered is a function of the
/// request, the moment, the directory, and the caller's share as the connection was accepted, which is its own book and
/// items, what its provider comes to and what that provider's screens look for; but for want of memory, and, of a
/// submission or a look at an item, for a fault of that provider's disk, whose count rose; and a look at an item may be
/// told that an entry changed. So connections of two services of one directory, at one moment, whose callers have the
/// same share, are answered the same, or one of them by such a fault. Of a look at an item it is said where the disk
/// gave back the item's own bytes, and where disks tell what they hold it does.
pub fn a_caller_is_answered_its_own<P: Depot>()
    ensures own { (kept : List Kept) (seals : Seals) (here : Place)
        (connection : Connection)
        → IsConnection (trade_of kept seals) (P.tells × P.D.tells) kept here connection
        → (answering : Answering) → answering_of connection.hearing ≡ Some answering
        → (asked : Result Question Stop) → Asks (pass_of kept) connection.input asked → GaveItsOwn asked connection
        → IsOwn kept seals here connection asked (answered kept seals here connection answering) }
    ensures apart { (kept : List Kept) (seals keys : Seals) (here there : Place)
        (one other : Connection)
        → IsConnection (trade_of kept seals) (P.tells × P.D.tells) kept here one
        → IsConnection (trade_of kept keys) (P.tells × P.D.tells) kept there other
        → one.moment ≡ other.moment → one.input ≡ other.input
        → (asked : Result Question Stop) → Asks (pass_of kept) one.input asked
        → GaveItsOwn asked one → GaveItsOwn asked other
        → asking_share kept seals here.network.sites asked ≡ asking_share kept keys there.network.sites asked
        → (answering again : Answering) → answering_of one.hearing ≡ Some answering
        → answering_of other.hearing ≡ Some again
        → (answered kept seals here one answering ≡ answered kept keys there other again)
        ⊎ IsDeviceReply kept here one asked (answered kept seals here one answering)
        ⊎ IsDeviceReply kept there other asked (answered kept keys there other again) }
    ensures gave { P.tells × P.D.tells → (trade : Trade) (kept : List Kept) (here : Place)
        (connection : Connection) → IsConnection trade (P.tells × P.D.tells) kept here connection
        → (asked : Result Question Stop) → GaveItsOwn asked connection }
{
    a_request_asks_one_thing();
}

/// The law of accounts, of a run of the program that serves: the caller of each of its connections is answered its own;
/// a look at an item where disks tell what they hold, or gave back the item's own bytes.
pub fn a_runs_callers_are_answered_their_own<P: Depot>()
    ensures { (asked : Asked) (status : Status) (unread before after : Option Bytes) (depot left : P) (here there : Outside)
        (old new : AllCounts)
        (ran : ServiceRanOver (P.tells × P.D.tells) P.D.sight asked status unread before after (P.home depot) (P.home left)
        here there old new)
        (form : Form) → stage_of ran.served.happened.early ran.served.happened.directory ≡ Begins
        → ran.served.happened.form ≡ Some form → ran.served.happened.course.opening.next ≡ NoMore
        → (front rest : List Connection) (connection : Connection)
        → connections_of ran.served.happened.course.service ≡ front ++ connection ∷ rest
        → (answering : Answering) → answering_of connection.hearing ≡ Some answering
        → (question : Result Question Stop)
        → Asks (pass_of ran.served.happened.setting.kept) connection.input question
        → (P.tells × P.D.tells) ⊎ GaveItsOwn question connection
        → IsOwnInRun ran.served.happened old.devices.disks here asked.screens front connection answering question }
{
    a_caller_is_answered_its_own::<P>();
}
