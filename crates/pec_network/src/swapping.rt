ghost use Rattle.std.specs.Prelude.{◌≡◌, ◌<◌, [], length, Some, IfErr, OnErr, OnOk, slice_index_or, slice_set};
ghost use Rattle.pec_ledger.specs.Trade.{Trade};
ghost use Rattle.pec_plays.specs.Commands.{Luck, Screen, played};
ghost use Rattle.pec_network.specs.Network.{sites};
ghost use Rattle.pec_network.specs.Playing.{IsSwapped};

use crate::network::Network;
use pec_provider::SwapFault;
use pec_screen::Judge;
use pec_seal::Sealer;

impl<D, S: Sealer, J: Judge> Network<D, S, J> {
    /// Puts a screen into the place, counted from 0, of one of a provider's, which is dropped. The first of these
    /// refusals that applies hands it back, and leaves all as it was: `Down`; `NoSuchPlace` where the place isn't below
    /// the number of the provider's screens. It takes no memory.
    pub fn replace(
        &mut self,
        provider: u32,
        place: usize,
        spare: J::Spare,
    ) -> Result<(), (J::Spare, SwapFault)>
        requires { provider < length self.old.kept }
        ensures plays { (trade : Trade) (luck : Luck) → IsSwapped
            (played trade luck (sites self.old) (Screen provider place (Some (J.spare_patterns spare))))
            (sites self.old) (sites self.new) result }
        ensures back { IfErr result (λ refusal. refusal.0 ≡ spare) }
        // It has looked as often as before it was put there; no other screen has looked.
        ensures looked { OnOk result (self.new.looks ≡ slice_set self.old.looks provider
            (slice_set (slice_index_or self.old.looks provider []) place (J.spare_seen spare))) }
        ensures others { self.new ≡ record self.old { screens = self.new.screens; looks = self.new.looks } }
        ensures kept { OnErr result (self.new ≡ self.old) }
    {
        let at = provider as usize;
        let screens = &mut self.judges[at];
        self.providers[at].replace(screens, place, spare)
    }
}
