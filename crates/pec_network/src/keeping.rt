ghost use Rattle.std.specs.Prelude.{ℕ, ◌<◌, List};
ghost use Rattle.pec_types.specs.declared.moments.TheConstants.{END_OF_TIME};
ghost use Rattle.pec_ledger.specs.Ledger.{Fit};
ghost use Rattle.pec_ledger.specs.Network.{Site, Sound, journals_of};
ghost use Rattle.pec_plays.specs.Commands.{Command, Luck, played};
ghost use Rattle.pec_plays.specs.Scripts.{IsUnforged, Kept};
ghost use Rattle.pec_network.specs.Network.{sites, world_of};
ghost use Rattle.pec_network.specs.Rounds.{StopsWithin};

use crate::network::Network;
use pec_provider::the_texts_are_a_trade;
use pec_screen::Judge;
use pec_seal::Sealer;

/// Whatever devices do, a network stays Sound by each call, as that is played as a command, where no forged frame is
/// injected; and while it is Sound users have what certified mail promises them: one final outcome, one delivery, no
/// acknowledged receipt missing, and a notice by the day. The journals that a round leaves which memory stopped are
/// Fit.
pub fn a_network_keeps_its_promises<D, S: Sealer, J: Judge>(network: &Network<D, S, J>)
    ensures stays { (luck : Luck) (command : Command)
        → Sound (world_of S.seals network.now) (sites network.now)
        → IsUnforged (world_of S.seals network.now) luck (sites network.now) command
        → Sound (world_of S.seals network.now)
        (played (world_of S.seals network.now) luck (sites network.now) command).after }
    ensures kept { Sound (world_of S.seals network.now) (sites network.now)
        → Kept (world_of S.seals network.now) (sites network.now) }
    ensures stopped { (moment : ℕ) (left : List Site) → moment < END_OF_TIME
        → Sound (world_of S.seals network.now) (sites network.now)
        → StopsWithin (world_of S.seals network.now) moment (sites network.now) left
        → Fit (world_of S.seals network.now) (journals_of left) }
{
    network.directory().count();
    the_texts_are_a_trade::<S>();
    pec_plays::a_network_stays_sound();
    pec_ledger::any_images();
}
