ghost use Rattle.std.specs.Prelude.{◌≡◌};
ghost use Rattle.pec_plays.specs.Commands.{Archive, Book, Mailbox, Show, Vault, VaultShow};
ghost use Rattle.pec_playing.specs.Doing.{Carries, Does};
ghost use Rattle.pec_network.specs.Network.{world_of};

use crate::providers::as_many_providers;
use crate::refusals::refusal_text;
use pec_network::Network;
use pec_outside::Disk;
use pec_screen::Judge;
use pec_script::{Answer, answer_text, book_text, item_text, items_text, vault_text};
use pec_seal::Sealer;
use pec_types::{Address, Moment, NoMemory};
use std::alloc::Global;

// What accounts ask for. Where an account is refused that is told in one line.

/// The lines of an account's book, and `book COUNT`.
pub(crate) fn book<D: Disk, S: Sealer, J: Judge>(
    alloc: Global,
    network: &Network<D, S, J>,
    account: &Address,
) -> Result<Vec<u8>, NoMemory>
    ensures { Does D.sight D.faults D.tells (world_of S.seals network.now)
        (Book account.now) network.now network.now result }
{
    match network.book(alloc, account) {
        Ok(lines) => {
            let text = book_text(alloc, network.directory(), lines.as_slice())?;
            return Ok(text);
        }
        Err(fault) => {
            let text = refusal_text(alloc, network.directory(), fault)?;
            return Ok(text);
        }
    }
}

/// The lines of an account's mailbox, and `mailbox COUNT`.
pub(crate) fn mailbox<D: Disk, S: Sealer, J: Judge>(
    alloc: Global,
    network: &Network<D, S, J>,
    account: &Address,
) -> Result<Vec<u8>, NoMemory>
    ensures { Does D.sight D.faults D.tells (world_of S.seals network.now)
        (Mailbox account.now) network.now network.now result }
{
    match network.mailbox(alloc, account) {
        Ok(lines) => {
            let text = items_text(alloc, network.directory(), lines.as_slice())?;
            return Ok(text);
        }
        Err(fault) => {
            let text = refusal_text(alloc, network.directory(), fault)?;
            return Ok(text);
        }
    }
}

/// The bytes of the item at a place of a mailbox, in base64 on one line. Its entry is read for it: where that fails, or
/// another entry is found than was kept, the provider is down, and the line tells it.
pub(crate) fn show<D: Disk, S: Sealer, J: Judge>(
    alloc: Global,
    network: &mut Network<D, S, J>,
    account: &Address,
    place: u32,
) -> Result<Vec<u8>, NoMemory>
    ensures does { Does D.sight D.faults D.tells (world_of S.seals network.old)
        (Show account.now place) network.old network.new result }
    ensures carries { Carries D.sight D.tells (world_of S.seals network.old) network.old network.new }
    ensures looks { network.new.looks ≡ network.old.looks }
{
    as_many_providers(network);
    let outcome = network.show(alloc, account, place);
    as_many_providers(network);
    match outcome {
        Ok(bytes) => {
            let text = item_text(alloc, bytes.as_slice())?;
            return Ok(text);
        }
        Err(fault) => {
            let text = refusal_text(alloc, network.directory(), fault)?;
            return Ok(text);
        }
    }
}

/// The lines of an account's archive, and `vault COUNT`.
pub(crate) fn vault<D: Disk, S: Sealer, J: Judge>(
    alloc: Global,
    network: &Network<D, S, J>,
    account: &Address,
) -> Result<Vec<u8>, NoMemory>
    ensures { Does D.sight D.faults D.tells (world_of S.seals network.now)
        (Vault account.now) network.now network.now result }
{
    match network.vault(alloc, account) {
        Ok(lines) => {
            let text = vault_text(alloc, network.directory(), lines.as_slice())?;
            return Ok(text);
        }
        Err(fault) => {
            let text = refusal_text(alloc, network.directory(), fault)?;
            return Ok(text);
        }
    }
}

/// The bytes of the item at a place of an archive, as `show` gives those of a mailbox.
pub(crate) fn vault_show<D: Disk, S: Sealer, J: Judge>(
    alloc: Global,
    network: &mut Network<D, S, J>,
    account: &Address,
    place: u32,
) -> Result<Vec<u8>, NoMemory>
    ensures does { Does D.sight D.faults D.tells (world_of S.seals network.old)
        (VaultShow account.now place) network.old network.new result }
    ensures carries { Carries D.sight D.tells (world_of S.seals network.old) network.old network.new }
    ensures looks { network.new.looks ≡ network.old.looks }
{
    as_many_providers(network);
    let outcome = network.vault_item(alloc, account, place);
    as_many_providers(network);
    match outcome {
        Ok(bytes) => {
            let text = item_text(alloc, bytes.as_slice())?;
            return Ok(text);
        }
        Err(fault) => {
            let text = refusal_text(alloc, network.directory(), fault)?;
            return Ok(text);
        }
    }
}

/// Moves the item at a place of a mailbox to the archive: `archived`.
pub(crate) fn archive<D: Disk, S: Sealer, J: Judge>(
    alloc: Global,
    network: &mut Network<D, S, J>,
    account: &Address,
    moment: Moment,
    place: u32,
) -> Result<Vec<u8>, NoMemory>
    ensures does { Does D.sight D.faults D.tells (world_of S.seals network.old)
        (Archive account.now moment place) network.old network.new result }
    ensures carries { Carries D.sight D.tells (world_of S.seals network.old) network.old network.new }
    ensures looks { network.new.looks ≡ network.old.looks }
{
    as_many_providers(network);
    let outcome = network.archive(alloc, moment, account, place);
    as_many_providers(network);
    match outcome {
        Ok(()) => {
            let text = answer_text(alloc, &Answer::Archived)?;
            return Ok(text);
        }
        Err(fault) => {
            let text = refusal_text(alloc, network.directory(), fault)?;
            return Ok(text);
        }
    }
}
