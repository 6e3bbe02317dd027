ghost use Rattle.std.specs.Prelude.{◌≡◌, ◌≢◌, ◌⊎◌, ◌↔◌, ℕ, Option, Some, length, take};
ghost use Rattle.pec_types.specs.Bytes.{Bytes};
ghost use Rattle.pec_journal.specs.JournalFile.{IsBroken, header};
ghost use Rattle.pec_ledger.specs.Ledger.{Fit};
ghost use Rattle.pec_ledger.specs.Network.{journals_in};
ghost use Rattle.pec_runs.specs.Headline.{AllHonest, Headline};
ghost use Rattle.pec_runs.specs.Openings.{Form, NoMore, Resume};
ghost use Rattle.pec_runs.specs.Statuses.{Status};
ghost use Rattle.pec_runs.specs.Statuses as statuses;
ghost use Rattle.pec_service.specs.Calls.{commands_of, lucks_of};
ghost use Rattle.pec_service.specs.Runs.{AllCounts, Asked, Begins, NoFaults, Outside, ServesAll, ServiceRanOver, beginning, stage_of, world};
ghost use Rattle.pec_service.specs.Services.{calls_in, connections_of};

use crate::headline::a_services_books_belong_to_the_ledger;
use pec_outside::Depot;
use pec_runs::a_run_begins_sound;

/// The headline, of a run that serves: for every directory, whatever devices do and whatever comes in over connections,
/// where no disk gives back what makes a turn put a forged frame, and, where journals were opened, where they fit
/// together. Over disks that tell what they hold no forged frame is put.
pub fn a_serving_runs_books_belong_to_the_ledger<P: Depot>()
    ensures headline { (asked : Asked) (status : Status) (unread before after : Option Bytes) (depot left : P)
        (here there : Outside) (old new : AllCounts)
        (ran : ServiceRanOver (P.tells × P.D.tells) P.D.sight asked status unread before after (P.home depot) (P.home left)
        here there old new)
        (form : Form) → stage_of ran.served.happened.early ran.served.happened.directory ≡ Begins
        → ran.served.happened.form ≡ Some form → ran.served.happened.course.opening.next ≡ NoMore
        → (form ≡ Resume → Fit (world ran.served.happened) (journals_in ran.served.happened.course.opening.journals))
        → AllHonest (world ran.served.happened)
        (lucks_of (calls_in (connections_of ran.served.happened.course.service))) (beginning asked ran.served.happened)
        (commands_of (calls_in (connections_of ran.served.happened.course.service)))
        → Headline (world ran.served.happened) (beginning asked ran.served.happened)
        (lucks_of (calls_in (connections_of ran.served.happened.course.service)))
        (commands_of (calls_in (connections_of ran.served.happened.course.service))) }
    ensures honest { (asked : Asked) (status : Status) (unread before after : Option Bytes) (depot left : P)
        (here there : Outside) (old new : AllCounts) → P.tells × P.D.tells
        → (ran : ServiceRanOver (P.tells × P.D.tells) P.D.sight asked status unread before after (P.home depot)
        (P.home left) here there old new)
        (form : Form) → stage_of ran.served.happened.early ran.served.happened.directory ≡ Begins
        → ran.served.happened.form ≡ Some form → ran.served.happened.course.opening.next ≡ NoMore
        → AllHonest (world ran.served.happened)
        (lucks_of (calls_in (connections_of ran.served.happened.course.service))) (beginning asked ran.served.happened)
        (commands_of (calls_in (connections_of ran.served.happened.course.service))) }
{
    a_services_books_belong_to_the_ledger::<P>();
    a_run_begins_sound::<P>();
}

/// A run that has its journals, and in which no count of faults rose, serves as many connections as were asked for and
/// writes all of their lines, unless memory ran out.
pub fn a_run_without_faults_serves_all<P: Depot>()
    ensures { (asked : Asked) (status : Status) (unread before after : Option Bytes) (depot left : P) (here there : Outside)
        (old new : AllCounts)
        (ran : ServiceRanOver (P.tells × P.D.tells) P.D.sight asked status unread before after (P.home depot) (P.home left)
        here there old new)
        (form : Form) → stage_of ran.served.happened.early ran.served.happened.directory ≡ Begins
        → ran.served.happened.form ≡ Some form → ran.served.happened.course.opening.next ≡ NoMore
        → NoFaults old new
        → (status ≡ statuses.NoMemory) ⊎ ServesAll asked status before after here ran.served.happened }
{}

/// A disk is refused at its first byte exactly where it doesn't begin as a journal does.
pub fn a_journal_is_refused_at_its_head()
    ensures { (bytes : Bytes) (place : ℕ) → IsBroken bytes place → (place ≡ 0) ↔ (take (length header) bytes ≢ header) }
{}
