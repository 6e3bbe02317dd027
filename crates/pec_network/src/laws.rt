ghost use Rattle.std.specs.Prelude.{◌≡◌, ℕ, ◌<◌, ◌≤◌, List, [], length, slice_get, slice_index_or, Some};
ghost use Rattle.pec_types.specs.Bytes.{Bytes};
ghost use Rattle.pec_outside.specs.Depots.{depot_places};
ghost use Rattle.pec_outside.specs.DiskModel.{LeavesOnly};
ghost use Rattle.pec_directory.specs.Directory.{providers_of};
ghost use Rattle.pec_records.specs.declared.entries.Entry.{Entry};
ghost use Rattle.pec_ledger.specs.Ledger.{Fit, Journals};
ghost use Rattle.pec_ledger.specs.Network.{FollowsState, Site, Sound, interrupted_at, journal_at, journals_in, journals_of};
ghost use Rattle.pec_ledger.specs.Trade.{Trade};
ghost use Rattle.pec_chronicle.specs.Carrying.{CarriesOn, FollowsSo, IsImage, NothingMay};
ghost use Rattle.pec_chronicle.specs.Chronicle.{ChronicleState, Stands};
ghost use Rattle.pec_posts.specs.Arrivals.{Waiting};
ghost use Rattle.pec_provider.specs.OfTrades.{Fits, trade_of};
ghost use Rattle.pec_provider.specs.Following.{MayFollow};
ghost use Rattle.pec_provider.specs.Provider.{ProviderState};
ghost use Rattle.pec_screen.specs.Verdicts.{Patterns};
ghost use Rattle.pec_network.specs.Carrying.{AllCarryOn};
ghost use Rattle.pec_network.specs.Network.{sites_of};
ghost use Rattle.pec_network.specs.Rounds.{FramesAreGenuine, KeepsSound};

use pec_directory::Directory;
use pec_outside::Disk;
use pec_plays::a_network_stays_sound;
use pec_provider::{the_texts_are_a_trade, what_follows_goes_on};
use pec_seal::Sealer;
use pec_types::Moment;

// In whatever order the puts and takes of the turns of a round come, each link ends as the round leaves it.
pub use pec_schedules::interleavings;

/// What isn't touched carries on.
pub(crate) fn what_rests_carries_on<D: Disk>()
    ensures { D.tells → (state : ChronicleState D) → CarriesOn D.sight NothingMay state state }
{}

/// A depot has a place for each provider of a directory.
pub(crate) fn few_providers(directory: &Directory)
    ensures { length directory.now ≤ depot_places }
{
    directory.count();
}

/// Each round at a moment keeps the state of a network of a directory Sound, where no turn puts other frames than those
/// that are due.
pub(crate) fn rounds_keep_a_state_sound<S: Sealer>(directory: &Directory, moment: Moment)
    ensures { (sealer : S) → Fits (S.seals sealer) (providers_of directory.now) → (old : List Site)
        → KeepsSound (trade_of directory.now (S.seals sealer)) moment old }
{
    // A directory is lawful, and a moment has a bound, as a proof learns here.
    directory.count();
    moment.seconds();
    the_texts_are_a_trade::<S>();
    a_network_stays_sound();
}

/// What a crash may leave of a provider's disk is the journal of entries that follow the state.
pub fn images_follow()
    ensures { (trade : Trade) (state : List Site) (number : ℕ) (bytes : Bytes)
        → IsImage (MayFollow trade (journals_of state) number) (journal_at state number) (interrupted_at state number)
        bytes
        → FollowsSo trade state number bytes }
{
    what_follows_goes_on();
}

/// What a call leaves of a provider, where all carry on with entries that may follow in the ledger of the state before
/// it: what is kept and stood on the disk stands there again, and at any moment of the call a crash leaves of the disk
/// the journal of a list that follows that state. Providers that aren't touched carry on. The ledger sees the entries
/// that are kept of each.
pub fn a_call_leaves_what_follows<D: Disk>()
    ensures follows { (trade : Trade) (old new : List (ProviderState D)) (screens : List (List Patterns))
        (waiting : List Waiting)
        → AllCarryOn D.sight trade (journals_of (sites_of old screens waiting)) old new
        → (number : ℕ) (was now : ProviderState D)
        → slice_get old number ≡ Some was → slice_get new number ≡ Some now → Stands D.sight was.chronicle
        → Stands D.sight now.chronicle × LeavesOnly (D.sight was.chronicle.disk) (D.sight now.chronicle.disk)
        (FollowsSo trade (sites_of old screens waiting) number) }
    ensures rests { D.tells → (trade : Trade) (journals : Journals) (providers : List (ProviderState D))
        → AllCarryOn D.sight trade journals providers providers }
    ensures seen { (providers : List (ProviderState D)) (screens : List (List Patterns)) (waiting : List Waiting)
        (number : ℕ) (one : ProviderState D)
        → slice_get providers number ≡ Some one
        → (journal_at (sites_of providers screens waiting) number ≡ one.chronicle.entries)
        × (interrupted_at (sites_of providers screens waiting) number ≡ one.chronicle.interrupted) }
{
    what_follows_goes_on();
    what_rests_carries_on::<D>();
}

/// Whatever crashes leave of the providers' disks fits together: of a state that is Sound, take for each provider any
/// journal that follows, by itself; these journals are Fit.
pub fn any_images()
    ensures { (trade : Trade) (state : List Site) → Sound trade state
        → (images : List (List Entry)) → length images ≡ trade.providers
        → ((provider : ℕ) → provider < trade.providers
        → FollowsState trade state provider (slice_index_or images provider []))
        → Fit trade (journals_in images) }
{
    pec_ledger::any_images();
}

/// In a state that is Sound the frames that wait are genuine, as a round asks of them where it speaks of disks.
pub fn waiting_frames_are_genuine()
    ensures { (trade : Trade) (state : List Site) → Sound trade state
        → FramesAreGenuine trade (journals_of state) state }
{}
