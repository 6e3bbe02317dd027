ghost use Rattle.std.specs.Prelude.{◌≡◌, ◌<◌, ◌≤◌, length};
ghost use Rattle.pec_directory.specs.Directory.{providers_of};
ghost use Rattle.pec_records.specs.Entry.{longest_message, most_addresses};
ghost use Rattle.pec_plays.specs.Commands.{Submit, Tick, Upgrade};
ghost use Rattle.pec_playing.specs.Doing.{Carries, Does};
ghost use Rattle.pec_playing.specs.Looking.{LooksBy};
ghost use Rattle.pec_network.specs.Network.{sites, world_of};

use crate::refusals::refusal_text;
use pec_network::Network;
use pec_outside::Disk;
use pec_screen::Judge;
use pec_script::{Answer, answer_text, marks_text, submitted_text};
use pec_seal::Sealer;
use pec_types::{Address, Moment, NoMemory, Steps};
use std::alloc::Global;

// Commands of one provider, by its number. What it refuses is told in one line.

/// A network has the providers of its directory.
pub(crate) fn as_many_providers<D, S: Sealer, J: Judge>(network: &Network<D, S, J>)
    ensures { length network.now.providers ≡ length network.now.kept }
{
    network.directory();
}

/// Hands in a message: `accepted ID`, or `not-accepted ID CAUSE`.
pub(crate) fn submit<D: Disk, S: Sealer, J: Judge>(
    alloc: Global,
    network: &mut Network<D, S, J>,
    provider: u32,
    moment: Moment,
    sender: &Address,
    path: &[Address],
    message: &[u8],
) -> Result<Vec<u8>, NoMemory>
    requires provider { provider < length network.old.kept }
    requires path { (0 < length path.now) × (length path.now ≤ most_addresses) }
    requires message { length message.now ≤ longest_message }
    ensures does { Does D.sight D.faults D.tells (world_of S.seals network.old)
        (Submit provider moment sender.now path.now message.now) network.old network.new result }
    ensures carries { Carries D.sight D.tells (world_of S.seals network.old) network.old network.new }
    ensures looked { LooksBy (providers_of network.old.kept) (sites network.old)
        (Submit provider moment sender.now path.now message.now) network.old.looks network.new.looks }
{
    as_many_providers(network);
    match network.submit(alloc, provider, moment, sender, path, message) {
        Ok(submitted) => {
            let text = submitted_text(alloc, network.directory(), &submitted)?;
            return Ok(text);
        }
        Err(fault) => {
            let text = refusal_text(alloc, network.directory(), fault)?;
            return Ok(text);
        }
    }
}

/// Has a provider look at the clock: a line for each mark that it set, and `ticked`.
pub(crate) fn tick<D: Disk, S: Sealer, J: Judge>(
    alloc: Global,
    network: &mut Network<D, S, J>,
    provider: u32,
    moment: Moment,
) -> Result<Vec<u8>, NoMemory>
    requires { provider < length network.old.kept }
    ensures does { Does D.sight D.faults D.tells (world_of S.seals network.old)
        (Tick provider moment) network.old network.new result }
    ensures carries { Carries D.sight D.tells (world_of S.seals network.old) network.old network.new }
    ensures looks { network.new.looks ≡ network.old.looks }
{
    as_many_providers(network);
    let mut steps = Steps::new();
    match network.tick(alloc, provider, moment, &mut steps) {
        Ok(marks) => {
            let text = marks_text(alloc, network.directory(), marks.as_slice())?;
            return Ok(text);
        }
        Err(fault) => {
            let text = refusal_text(alloc, network.directory(), fault)?;
            return Ok(text);
        }
    }
}

/// Raises a provider's journal to version 2: `upgraded`.
pub(crate) fn upgrade<D: Disk, S: Sealer, J: Judge>(
    alloc: Global,
    network: &mut Network<D, S, J>,
    provider: u32,
    moment: Moment,
) -> Result<Vec<u8>, NoMemory>
    requires { provider < length network.old.kept }
    ensures does { Does D.sight D.faults D.tells (world_of S.seals network.old)
        (Upgrade provider moment) network.old network.new result }
    ensures carries { Carries D.sight D.tells (world_of S.seals network.old) network.old network.new }
    ensures looks { network.new.looks ≡ network.old.looks }
{
    as_many_providers(network);
    match network.upgrade(alloc, provider, moment) {
        Ok(()) => {
            let text = answer_text(alloc, &Answer::Upgraded)?;
            return Ok(text);
        }
        Err(fault) => {
            let text = refusal_text(alloc, network.directory(), fault)?;
            return Ok(text);
        }
    }
}
