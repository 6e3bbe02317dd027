ghost use Rattle.std.specs.Prelude.{ℕ, List};
ghost use Rattle.pec_ledger.specs.Network.{Site};
ghost use Rattle.pec_ledger.specs.Trade.{Trade};
ghost use Rattle.pec_plays.specs.Scripts.{LinksAreShort};
ghost use Rattle.pec_plays.specs.Turns.{Cut};
ghost use Rattle.pec_schedules.specs.RoundPlans.{LeavesTheRound, plan_of};
ghost use Rattle.pec_schedules.specs.Schedules.{AnyOrderEndsSo, IsPlan, IsSchedule, Step};

use pec_plays::a_round_is_its_turns;

/// In whatever order the puts and takes of a plan are done, no put finds a full link and no take an empty one, each
/// link's takes give its first waiting frames in order, and each link ends as its other waiting frames followed by its
/// planned ones. What the turns of a round take and put is a plan, where no link holds more than 64 frames as it
/// begins; so every schedule of it leaves on each link what the round leaves there, with the turns one after another
/// and then the delivery.
pub fn interleavings()
    ensures schedules { AnyOrderEndsSo }
    ensures plan { (trade : Trade) (now : ℕ) (cuts : ℕ → Cut) (sites : List Site) → LinksAreShort sites
        → IsPlan (plan_of trade now cuts sites) }
    ensures round { (trade : Trade) (now : ℕ) (cuts : ℕ → Cut) (sites : List Site) (steps : List Step) → LinksAreShort sites
        → IsSchedule (plan_of trade now cuts sites) steps → LeavesTheRound trade now cuts sites steps }
{
    a_round_is_its_turns();
}
