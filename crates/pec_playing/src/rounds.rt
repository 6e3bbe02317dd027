ghost use Rattle.pec_plays.specs.Commands.{Round};
ghost use Rattle.pec_playing.specs.Doing.{Carries, Does};
ghost use Rattle.pec_network.specs.Looking.{AllLookAlike};
ghost use Rattle.pec_network.specs.Network.{world_of};

use crate::providers::as_many_providers;
use pec_network::laws::waiting_frames_are_genuine;
use pec_network::{FreeGate, Network};
use pec_outside::Disk;
use pec_screen::Judge;
use pec_script::turns_text;
use pec_seal::Sealer;
use pec_types::{Moment, NoMemory};
use std::alloc::Global;
use std::thread::Threads;

/// Has each provider take its turn: the lines of each turn, and `round`.
pub(crate) fn round<X: Threads + Sync, D: Disk + Send, S: Sealer + Sync, J: Judge + Send>(
    rt: &X,
    alloc: Global,
    network: &mut Network<D, S, J>,
    moment: Moment,
) -> Result<Vec<u8>, NoMemory>
where
    J::Spare: Send,
    ensures does { Does D.sight D.faults D.tells (world_of S.seals network.old)
        (Round moment) network.old network.new result }
    ensures carries { Carries D.sight D.tells (world_of S.seals network.old) network.old network.new }
    ensures looked { AllLookAlike network.old.looks network.new.looks }
{
    waiting_frames_are_genuine();
    as_many_providers(network);
    let outcome = network.round(rt, alloc, moment, &FreeGate);
    as_many_providers(network);
    match outcome {
        Ok(turns) => {
            let text = turns_text(alloc, network.directory(), turns.as_slice())?;
            return Ok(text);
        }
        Err(NoMemory) => return Err(NoMemory),
    }
}
