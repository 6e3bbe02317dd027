ghost use Rattle.std.specs.Prelude.{◌≡◌, [], ◌∷◌, length};
ghost use Rattle.pec_ledger.specs.Network.{frames_between, Sound};
ghost use Rattle.pec_ledger.specs.SmallWorld.{small};
ghost use Rattle.pec_ledger.specs.TradeLaws.{LettersCanBePut};
ghost use Rattle.pec_progress.specs.Examples.{first_moment, four, one, submitted, three, to_bob, two};
ghost use Rattle.pec_progress.specs.Progress.{behind, FewAreUnsettled, FollowInTime, NothingWaits, StandsReady, unsettled, WasAccepted};

use pec_ledger::{a_world_is_there, soundness};
use pec_plays::a_network_stays_sound;

/// There is a network that meets all premises of the laws of progress, with a pair that is unsettled, and with letters
/// that go over two links.
pub fn the_premises_are_met()
    ensures sound { Sound small submitted }
    ensures accepted { WasAccepted small submitted to_bob }
    ensures empty { NothingWaits submitted }
    ensures few { FewAreUnsettled small submitted }
    ensures ready { StandsReady small first_moment submitted }
    ensures follow { FollowInTime small first_moment (one ∷ two ∷ three ∷ four ∷ []) }
    ensures letters { LettersCanBePut small }
    ensures one_pair { unsettled small submitted 0 1 ≡ to_bob ∷ [] }
    ensures there { length (frames_between (behind small (one ∷ []) submitted) 0 1) ≡ 1 }
    ensures back { length (frames_between (behind small (one ∷ two ∷ []) submitted) 1 0) ≡ 2 }
    ensures at_rest { unsettled small (behind small (one ∷ two ∷ three ∷ four ∷ []) submitted) 0 1 ≡ [] }
{
    a_network_stays_sound();
    a_world_is_there();
    soundness();
}
