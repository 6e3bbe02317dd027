ghost use Rattle.std.specs.Prelude.{◌≡◌, ℕ, List, Option};
ghost use Rattle.pec_types.specs.Bytes.{Bytes};
ghost use Rattle.pec_ledger.specs.Ledger.{Fit};
ghost use Rattle.pec_runs.specs.Happened.{Asked, Begun, stage_of};
ghost use Rattle.pec_screen.specs.Verdicts.{Patterns};
ghost use Rattle.pec_runs.specs.Headline.{AllHonest, Headline};
ghost use Rattle.pec_ledger.specs.Network.{Sound, journals_in};
ghost use Rattle.pec_ledger.specs.Trade.{Trade};
ghost use Rattle.pec_ledger.specs.TradeLaws.{IsTrade};
ghost use Rattle.pec_plays.specs.Possible.{NoneInterrupted};
ghost use Rattle.pec_runs.specs.Openings.{Form, IsOpening, NoMore, Opening, Resume, disks_at, opened_all};
ghost use Rattle.pec_runs.specs.Ran.{Counts, RanOver, beginning, world};
ghost use Rattle.pec_runs.specs.ScriptLines.{Script};
ghost use Rattle.pec_runs.specs.Statuses.{Status};

use crate::headline::the_books_belong_to_the_ledger;
use pec_ledger::{licences_stand, soundness};
use pec_outside::Depot;
use pec_script::a_line_has_one_reading;

/// A run that has all its journals begins Sound, with nothing interrupted: they were made, or opened where they fit
/// together. Whatever their screens are, nothing of that hangs on them.
pub fn a_run_begins_sound<P: Depot>()
    ensures { (trade : Trade) → IsTrade trade → (screens : List (List Patterns)) (depot : P) (form : Form) (opening : Opening)
        → IsOpening trade (disks_at (P.tells × P.D.tells) P.D.sight (P.home depot)) form opening → opening.next ≡ NoMore
        → (form ≡ Resume → Fit trade (journals_in opening.journals))
        → Sound trade (opened_all trade screens opening.journals)
        × NoneInterrupted (opened_all trade screens opening.journals) }
{
    licences_stand();
    soundness();
}

/// The headline, of a run: for every directory and script, whatever devices do, where no forged frame is injected,
/// and, for a run that resumed, where the journals as opened fit together.
pub fn a_runs_books_belong_to_the_ledger<P: Depot>()
    ensures { (asked : Asked) (status : Status) (unread before after : Option Bytes) (depot left : P)
        (old new : Counts)
        (ran : RanOver (P.tells × P.D.tells) P.D.sight asked status unread before after (P.home depot)
        (P.home left) old new)
        (form : Form) (script : Script) → stage_of asked ran.happened.hands ran.happened.early ran.happened.parts ≡ Begun form script
        → ran.happened.opening.next ≡ NoMore
        → (form ≡ Resume → Fit (world ran.happened) (journals_in ran.happened.opening.journals))
        → AllHonest (world ran.happened) ran.happened.lucks (beginning ran.happened) script.commands
        → Headline (world ran.happened) (beginning ran.happened) ran.happened.lucks script.commands }
{
    the_books_belong_to_the_ledger();
    licences_stand();
    soundness();
    a_line_has_one_reading();
}
