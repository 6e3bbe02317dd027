ghost use Rattle.std.specs.Prelude.{◌≡◌, List, ◌∷◌, ◌++◌, Option, Some};
ghost use Rattle.pec_types.specs.Bytes.{Bytes};
ghost use Rattle.pec_directory.specs.Directory.{Kept, providers_of};
ghost use Rattle.pec_http.specs.declared.demands.Look.TheVariants as looks;
ghost use Rattle.pec_http.specs.declared.statuses.Status.TheVariants as codes_of;
ghost use Rattle.pec_ledger.specs.Network.{Site};
ghost use Rattle.pec_runs.specs.OfTrades.{trade_of};
ghost use Rattle.pec_runs.specs.Openings.{Form, NoMore};
ghost use Rattle.pec_runs.specs.Statuses.{Status};
ghost use Rattle.pec_seal.specs.Seals.{Seals};
ghost use Rattle.pec_service.specs.Calls.{Call};
ghost use Rattle.pec_service.specs.Connections.{Connection, Heard, Sees, answered_by};
ghost use Rattle.pec_service.specs.Runs.{AllCounts, Asked, Begins, Outside, ServiceRanOver, beginning, stage_of, world};
ghost use Rattle.pec_service.specs.Services.{connections_of};
ghost use Rattle.pec_service.specs.Shown.{ShowsBook, ShowsItems, ShowsTheBook, ShowsTheItems, shown_at};

use crate::headline::a_services_books_belong_to_the_ledger;
use pec_outside::Depot;

/// What an account is shown of its own, where it is answered 200, is what the ledger has of it: its book, and the lines of
/// its mailbox.
pub fn what_is_shown_is_the_ledgers()
    ensures book { (kept : List Kept) (seals : Seals) (sites : List Site) (handed : List Call) (address : Bytes)
        → (answered_by (trade_of kept seals) kept sites handed (Sees address looks.Book)).status ≡ codes_of.Ok
        → ShowsBook (trade_of kept seals) (providers_of kept) sites address
        (answered_by (trade_of kept seals) kept sites handed (Sees address looks.Book)) }
    ensures items { (kept : List Kept) (seals : Seals) (sites : List Site) (handed : List Call) (address : Bytes)
        → (answered_by (trade_of kept seals) kept sites handed (Sees address looks.Items)).status ≡ codes_of.Ok
        → ShowsItems (trade_of kept seals) (providers_of kept) sites address
        (answered_by (trade_of kept seals) kept sites handed (Sees address looks.Items)) }
{}

/// The books that a run hands out over HTTP belong to the ledger of its headline: each connection that was heard as a look
/// at the book, and answered 200, was answered the text of the account's book in the state of all that was played before
/// it; and a look at the list of items likewise.
pub fn a_serving_run_shows_the_ledger<P: Depot>()
    ensures book { (asked : Asked) (status : Status) (unread before after : Option Bytes) (depot left : P)
        (here there : Outside) (old new : AllCounts)
        (ran : ServiceRanOver (P.tells × P.D.tells) P.D.sight asked status unread before after (P.home depot) (P.home left)
        here there old new)
        (form : Form) → stage_of ran.served.happened.early ran.served.happened.directory ≡ Begins
        → ran.served.happened.form ≡ Some form → ran.served.happened.course.opening.next ≡ NoMore
        → (front rest : List Connection) (connection : Connection) (address : Bytes)
        → connections_of ran.served.happened.course.service ≡ front ++ connection ∷ rest
        → connection.hearing ≡ Heard (Sees address looks.Book)
        → (shown_at (world ran.served.happened) ran.served.happened.setting.kept (beginning asked ran.served.happened) front
        connection address looks.Book).status ≡ codes_of.Ok
        → ShowsTheBook (world ran.served.happened) ran.served.happened.setting.kept (beginning asked ran.served.happened)
        front connection address }
    ensures items { (asked : Asked) (status : Status) (unread before after : Option Bytes) (depot left : P)
        (here there : Outside) (old new : AllCounts)
        (ran : ServiceRanOver (P.tells × P.D.tells) P.D.sight asked status unread before after (P.home depot) (P.home left)
        here there old new)
        (form : Form) → stage_of ran.served.happened.early ran.served.happened.directory ≡ Begins
        → ran.served.happened.form ≡ Some form → ran.served.happened.course.opening.next ≡ NoMore
        → (front rest : List Connection) (connection : Connection) (address : Bytes)
        → connections_of ran.served.happened.course.service ≡ front ++ connection ∷ rest
        → connection.hearing ≡ Heard (Sees address looks.Items)
        → (shown_at (world ran.served.happened) ran.served.happened.setting.kept (beginning asked ran.served.happened) front
        connection address looks.Items).status ≡ codes_of.Ok
        → ShowsTheItems (world ran.served.happened) ran.served.happened.setting.kept (beginning asked ran.served.happened)
        front connection address }
{
    what_is_shown_is_the_ledgers();
    a_services_books_belong_to_the_ledger::<P>();
}
