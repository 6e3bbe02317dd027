ghost use Rattle.std.specs.Prelude.{◌≡◌, ℕ, ◌<◌, List, ◌++◌, length, Option, Some};
ghost use Rattle.pec_types.specs.Bytes.{Bytes};
ghost use Rattle.pec_types.specs.declared.messages.BookLine.{BookLine};
ghost use Rattle.pec_ledger.specs.Ledger.{Fit};
ghost use Rattle.pec_ledger.specs.Network.{Site, journals_in};
ghost use Rattle.pec_ledger.specs.Trade.{Trade};
ghost use Rattle.pec_plays.specs.Commands.{Command, Luck};
ghost use Rattle.pec_plays.specs.Scripts.{script};
ghost use Rattle.pec_runs.specs.Happened.{Asked, Begun, outcome_of, providers_in, stage_of};
ghost use Rattle.pec_runs.specs.Headline.{AllHonest, IsBook, IsHonest};
ghost use Rattle.pec_runs.specs.Openings.{disks_at, Form, NoMore, Resume};
ghost use Rattle.pec_runs.specs.Ran.{Counts, RanOver, beginning, command_in_hand, world};
ghost use Rattle.pec_screen.specs.Verdicts.{Patterns};
ghost use Rattle.pec_runs.specs.Resuming.{IsAtRest, IsFoundSo, resumed, screens_left};
ghost use Rattle.pec_runs.specs.ScriptLines.{Script};
ghost use Rattle.pec_runs.specs.Statuses.{Status};

use crate::settings::providers_have_one_world;
use pec_chronicle::a_disk_holds_one_list;
use pec_ledger::{licences_stand, soundness};
use pec_outside::Depot;
use pec_plays::{a_network_stays_sound, a_round_is_its_turns};
use pec_script::a_line_has_one_reading;

/// A script may be cut in two: what it answers is what its first part answers, and then what the second does in the
/// state behind it. Where that state is at rest it is the one with which a run that resumes begins, with the same
/// screens, so that the second part answers the same in a run of its own. A run that resumes always begins with the same
/// books, whatever its screens are.
pub fn a_script_may_be_cut()
    ensures answers { (trade : Trade) (lucks more : List Luck) (sites : List Site) (commands others : List Command)
        → length lucks ≡ length commands
        → (script trade (lucks ++ more) sites (commands ++ others)).answers
        ≡ (script trade lucks sites commands).answers ++
        (script trade more (script trade lucks sites commands).after others).answers }
    ensures after { (trade : Trade) (lucks more : List Luck) (sites : List Site) (commands others : List Command)
        → length lucks ≡ length commands
        → (script trade (lucks ++ more) sites (commands ++ others)).after
        ≡ (script trade more (script trade lucks sites commands).after others).after }
    ensures in_two_runs { (trade : Trade) (lucks more : List Luck) (sites : List Site) (commands others : List Command)
        → length lucks ≡ length commands → IsAtRest trade (script trade lucks sites commands).after
        → (script trade (lucks ++ more) sites (commands ++ others)).answers
        ≡ (script trade lucks sites commands).answers
        ++ (script trade more (resumed trade (screens_left (script trade lucks sites commands).after)
        (script trade lucks sites commands).after) others).answers }
    ensures at_rest { (trade : Trade) (sites : List Site) → IsAtRest trade sites
        → resumed trade (screens_left sites) sites ≡ sites }
    ensures books { (trade : Trade) (screens : List (List Patterns)) (sites : List Site) (address : Bytes)
        (lines : List BookLine) → IsBook trade sites address lines
        → IsBook trade (resumed trade screens sites) address lines }
{}

/// A run that resumes on the disks that another left, as they read then or as a crash left them, in a directory of the
/// same providers, begins with journals that fit, however the other ended, where no forged frame was injected: each is
/// the journal of the state that it left, with its interrupted entry or without it.
pub fn a_resumed_run_begins_where_the_last_left<P: Depot>()
    ensures { (asked others : Asked) (status other : Status)
        (unread before after other_unread other_before other_after : Option Bytes)
        (depot left found last : P) (old between behind new : Counts) → P.tells × P.D.tells
        → (ran : RanOver (P.tells × P.D.tells) P.D.sight asked status unread before after (P.home depot)
        (P.home left) old between)
        (again : RanOver (P.tells × P.D.tells) P.D.sight others other other_unread other_before other_after
        (P.home found) (P.home last) behind new)
        (form : Form) (script rest : Script)
        → stage_of asked ran.happened.hands ran.happened.early ran.happened.parts ≡ Begun form script → ran.happened.opening.next ≡ NoMore
        → stage_of others again.happened.hands again.happened.early again.happened.parts ≡ Begun Resume rest
        → again.happened.opening.next ≡ NoMore
        → providers_in again.happened.setting ≡ providers_in ran.happened.setting
        → ((provider : ℕ) → provider < (world ran.happened).providers
        → IsFoundSo (disks_at (P.tells × P.D.tells) P.D.sight (P.home left))
        (disks_at (P.tells × P.D.tells) P.D.sight (P.home found)) provider)
        → (form ≡ Resume → Fit (world ran.happened) (journals_in ran.happened.opening.journals))
        → AllHonest (world ran.happened) ran.happened.lucks (beginning ran.happened) script.commands
        → ((command : Command) → command_in_hand status ran.happened.opening.next ran.happened.rest ran.happened.lucks script
        ≡ Some command
        → IsHonest (world ran.happened) (outcome_of asked ran.happened).after command)
        → Fit (world again.happened) (journals_in again.happened.opening.journals) }
{
    providers_have_one_world();
    a_disk_holds_one_list();
    a_network_stays_sound();
    a_round_is_its_turns();
    licences_stand();
    soundness();
    a_line_has_one_reading();
}
