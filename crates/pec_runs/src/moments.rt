ghost use Rattle.std.specs.Prelude.{◌≡◌, ℕ, ◌<◌, ◌≤◌, List, [], length, slice_index_or, Option};
ghost use Rattle.pec_types.specs.Bytes.{Bytes};
ghost use Rattle.pec_outside.specs.Flow.{WrotePart};
ghost use Rattle.pec_directory.specs.Directory.{Provider};
ghost use Rattle.pec_records.specs.declared.entries.Entry.{Entry};
ghost use Rattle.pec_ledger.specs.Ledger.{Fit};
ghost use Rattle.pec_ledger.specs.Network.{Sound, journals_in};
ghost use Rattle.pec_ledger.specs.Trade.{Trade};
ghost use Rattle.pec_ledger.specs.TradeLaws.{IsTrade};
ghost use Rattle.pec_chronicle.specs.Carrying.{FollowsSo};
ghost use Rattle.pec_chronicle.specs.Chronicle.{IsJournalOf};
ghost use Rattle.pec_runs.specs.Moments.{AllStandIn, AreHonest, HasTold, HoldsAll, IsKilledAt, IsKilledIn, Phase, number_told, state_at};
ghost use Rattle.pec_runs.specs.Moments.{told_before};
ghost use Rattle.pec_runs.specs.Steps.{AllMoments, AreSeen, AreSteps, State, Step};

use pec_chronicle::a_disk_holds_one_list;
use pec_ledger::any_images;
use pec_outside::{Depot, a_disk_is_so};
use pec_plays::a_network_stays_sound;

/// A run that goes by steps from a Sound state, in which what is kept of providers stands on their disks, and that
/// injects no forged frame: before each step the state is Sound and all stand. So at whatever moment it is killed, each
/// disk holds the journal of a list that follows the state before the step within which it was; and whatever these
/// disks hold fits together.
pub fn a_run_may_be_killed_at_any_moment<P: Depot>()
    ensures sound { (trade : Trade) → IsTrade trade → (here there : State P.D) (steps : List (Step P.D))
        → AreSteps trade (P.tells × P.D.tells) here steps → AllMoments trade P.D.sight here there steps
        → AreHonest trade here steps
        → Sound trade here.sites → AllStandIn P.D.sight here → (number : ℕ) → number ≤ length steps
        → Sound trade (state_at number here there steps).sites
        × AllStandIn P.D.sight (state_at number here there steps) }
    ensures follows { P.D.tells → (trade : Trade) → IsTrade trade → (here there : State P.D) (steps : List (Step P.D))
        → AreSteps trade (P.tells × P.D.tells) here steps → AllMoments trade P.D.sight here there steps
        → AreHonest trade here steps
        → Sound trade here.sites → AllStandIn P.D.sight here → AreSeen here → (number : ℕ) → number ≤ length steps
        → (provider : ℕ) (bytes : Bytes) → IsKilledIn P.D.sight number here there steps provider bytes
        → FollowsSo trade (state_at number here there steps).sites provider bytes }
    ensures fit { P.D.tells → (trade : Trade) → IsTrade trade → (here there : State P.D) (steps : List (Step P.D))
        → AreSteps trade (P.tells × P.D.tells) here steps → AllMoments trade P.D.sight here there steps
        → AreHonest trade here steps
        → Sound trade here.sites → AllStandIn P.D.sight here → AreSeen here → (number : ℕ) → number ≤ length steps
        → (journals : List (List Entry)) → length journals ≡ trade.providers
        → ((provider : ℕ) → provider < trade.providers → (bytes : Bytes)
        × IsKilledIn P.D.sight number here there steps provider bytes
        × IsJournalOf (slice_index_or journals provider []) bytes)
        → Fit trade (journals_in journals) }
{
    a_network_stays_sound();
    any_images();
    a_disk_holds_one_list();
    a_disk_is_so::<P::D>();
}

/// What was told is on the disks: at whatever moment such a run is killed, what its output holds is a front of the lines
/// of steps, and each disk holds the journal of a list that has all entries of these steps.
pub fn what_was_told_is_kept<P: Depot>()
    ensures told { (trade : Trade) (providers : List Provider) (here : State P.D) (steps : List (Step P.D)) (phase : Phase)
        (number : ℕ) (before held : Option Bytes) → HasTold trade providers phase number here steps before held
        → WrotePart before held (told_before trade providers (number_told phase number) here steps) }
    ensures kept { P.D.tells → (trade : Trade) → IsTrade trade → (here there : State P.D) (steps : List (Step P.D))
        → AreSteps trade (P.tells × P.D.tells) here steps → AllMoments trade P.D.sight here there steps
        → AreHonest trade here steps
        → Sound trade here.sites → AllStandIn P.D.sight here → AreSeen here → (phase : Phase) (number : ℕ)
        → number ≤ length steps → (provider : ℕ) (bytes : Bytes)
        → IsKilledAt P.D.sight phase number here there steps provider bytes
        → HoldsAll (state_at (number_told phase number) here there steps).sites provider bytes }
{
    a_network_stays_sound();
    a_disk_is_so::<P::D>();
}
