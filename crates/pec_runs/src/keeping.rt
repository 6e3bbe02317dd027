ghost use Rattle.std.specs.Prelude.{◌≡◌, ℕ, All, List, Option};
ghost use Rattle.std.specs.List.{AllByRecursion};
ghost use Rattle.pec_types.specs.Bytes.{Bytes};
ghost use Rattle.pec_ledger.specs.Ledger.{Fit};
ghost use Rattle.pec_ledger.specs.Network.{Site, Sound, journals_in};
ghost use Rattle.pec_ledger.specs.Trade.{Trade};
ghost use Rattle.pec_ledger.specs.TradeLaws.{IsTrade};
ghost use Rattle.pec_plays.specs.Commands.{Command, Luck};
ghost use Rattle.pec_plays.specs.Possible.{GaveWhatWasKept};
ghost use Rattle.pec_plays.specs.Scripts.{AllUnforged, script};
ghost use Rattle.pec_runs.specs.Happened.{Asked, Begun, outcome_of, stage_of};
ghost use Rattle.pec_runs.specs.Headline.{AllHonest, NoneInjected};
ghost use Rattle.pec_runs.specs.Openings.{Form, NoMore, Resume};
ghost use Rattle.pec_runs.specs.Plays.{IsUnchanged, UnchangedAlong};
ghost use Rattle.pec_runs.specs.Ran.{Counts, RanOver, beginning, world};
ghost use Rattle.pec_runs.specs.ScriptLines.{Script};
ghost use Rattle.pec_runs.specs.Statuses.{Status};

use pec_ledger::{licences_stand, soundness};
use pec_outside::Depot;
use pec_plays::a_network_stays_sound;
use pec_script::a_line_has_one_reading;

/// Where each turn puts the frames that are due, a script puts no forged frame, and where it injects none it is honest.
/// So it is in a run over disks that tell what they hold: all that is said of honest runs is said of those that inject
/// no forged frame.
pub fn what_is_due_is_no_forged_frame<P: Depot>()
    ensures scripts { (trade : Trade) (lucks : List Luck) (sites : List Site) (commands : List Command)
        → AllByRecursion GaveWhatWasKept lucks → NoneInjected trade lucks sites commands
        → AllHonest trade lucks sites commands }
    ensures runs { (asked : Asked) (status : Status) (unread before after : Option Bytes) (depot left : P)
        (old new : Counts) → P.tells × P.D.tells
        → (ran : RanOver (P.tells × P.D.tells) P.D.sight asked status unread before after (P.home depot) (P.home left)
        old new)
        (form : Form) (script : Script) → stage_of asked ran.happened.hands ran.happened.early ran.happened.parts ≡ Begun form script
        → ran.happened.opening.next ≡ NoMore
        → NoneInjected (world ran.happened) ran.happened.lucks (beginning ran.happened) script.commands
        → AllHonest (world ran.happened) ran.happened.lucks (beginning ran.happened) script.commands }
{}

/// Over disks that tell what they hold no entry is told as changed, where the journals that were had fit, and no forged
/// frame was injected.
pub fn no_entry_is_told_as_changed<P: Depot>()
    ensures scripts { (trade : Trade) → IsTrade trade → (lucks : List Luck) (sites : List Site)
        (commands : List Command) → Sound trade sites → AllUnforged trade lucks sites commands
        → UnchangedAlong trade lucks sites commands
        → All IsUnchanged (script trade lucks sites commands).answers }
    ensures runs { (asked : Asked) (status : Status) (unread before after : Option Bytes) (depot left : P)
        (old new : Counts) → P.tells × P.D.tells
        → (ran : RanOver (P.tells × P.D.tells) P.D.sight asked status unread before after (P.home depot) (P.home left)
        old new)
        → ((form : Form) (script : Script) → stage_of asked ran.happened.hands ran.happened.early ran.happened.parts ≡ Begun form script
        → ran.happened.opening.next ≡ NoMore
        → (form ≡ Resume → Fit (world ran.happened) (journals_in ran.happened.opening.journals))
        × AllHonest (world ran.happened) ran.happened.lucks (beginning ran.happened) script.commands)
        → All IsUnchanged (outcome_of asked ran.happened).answers }
{
    a_network_stays_sound();
    licences_stand();
    soundness();
    a_line_has_one_reading();
}
