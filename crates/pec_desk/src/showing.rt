ghost use Rattle.std.specs.Prelude.{◌≡◌, ℕ, ◌<◌, ◌≤◌, false, Option, Some, Err, length, IfErr};
ghost use Rattle.pec_outside.specs.Flow.{HasRisen};
ghost use Rattle.pec_types.specs.Answers.{seen_as};
ghost use Rattle.pec_types.specs.declared.turns.ProviderFault.TheVariants as faults;
ghost use Rattle.pec_directory.specs.Directory.{account_home, providers_of};
ghost use Rattle.pec_http.specs.Desks.{IsItemFault, IsLookFault};
ghost use Rattle.pec_plays.specs.Commands.{Book, Mailbox, played};
ghost use Rattle.pec_network.specs.OfProviders.{luck_of};
ghost use Rattle.pec_network.specs.Network.{sites, world_of};
ghost use Rattle.pec_script.specs.Texts.{book_text as book_lines, items_text as item_lines};
ghost use Rattle.pec_desk.specs.Desks.{IsSeen, LooksAt, count_at, items_shown, lines_shown};

use crate::handing::as_many_providers;
use pec_network::Network;
use pec_outside::Disk;
use pec_screen::Judge;
use pec_script::{book_text, items_text};
use pec_seal::Sealer;
use pec_types::{Address, NoMemory, ProviderFault};
use std::alloc::Global;

// What an account is shown. An account is refused for no other cause than that its provider is down, that an item isn't
// there, or that the disk failed or gave back another entry.

/// The lines of an account's book, and `book COUNT`.
pub(crate) fn book<D, S: Sealer, J: Judge>(
    alloc: Global,
    network: &Network<D, S, J>,
    account: &Address,
    number: u32,
) -> Result<Vec<u8>, ProviderFault>
    requires { account_home (providers_of network.now.kept) account.now ≡ Some number }
    ensures seen { IsSeen lines_shown (book_lines (providers_of network.now.kept))
        (played (world_of S.seals network.now) (luck_of false) (sites network.now) (Book account.now))
        (sites network.now) (seen_as (λ bytes. bytes.items) result) }
    ensures refusals { IfErr result IsLookFault }
{
    match network.book(alloc, account) {
        Ok(lines) => match book_text(alloc, network.directory(), lines.as_slice()) {
            Ok(text) => return Ok(text),
            Err(NoMemory) => return Err(ProviderFault::NoMemory),
        },
        Err(fault) => return Err(fault),
    }
}

/// The lines of an account's mailbox, and `mailbox COUNT`.
pub(crate) fn mailbox<D, S: Sealer, J: Judge>(
    alloc: Global,
    network: &Network<D, S, J>,
    account: &Address,
    number: u32,
) -> Result<Vec<u8>, ProviderFault>
    requires { account_home (providers_of network.now.kept) account.now ≡ Some number }
    ensures seen { IsSeen items_shown (item_lines (providers_of network.now.kept))
        (played (world_of S.seals network.now) (luck_of false) (sites network.now) (Mailbox account.now))
        (sites network.now) (seen_as (λ bytes. bytes.items) result) }
    ensures refusals { IfErr result IsLookFault }
{
    match network.mailbox(alloc, account) {
        Ok(lines) => match items_text(alloc, network.directory(), lines.as_slice()) {
            Ok(text) => return Ok(text),
            Err(NoMemory) => return Err(ProviderFault::NoMemory),
        },
        Err(fault) => return Err(fault),
    }
}

/// The bytes of the item at a place of an account's mailbox, from 0. Its provider, by its number, reads the entry from
/// its disk.
pub(crate) fn item<D: Disk, S: Sealer, J: Judge>(
    alloc: Global,
    network: &mut Network<D, S, J>,
    number: u32,
    account: &Address,
    place: u32,
) -> Result<Vec<u8>, ProviderFault>
    requires home { account_home (providers_of network.old.kept) account.now ≡ Some number }
    requires within { number < length network.old.kept }
    ensures looks { (moment : ℕ) → LooksAt D.sight D.faults D.tells S.seals
        (record { network = network.old; moment = moment }) account.now place
        (seen_as (λ bytes. bytes.items) result)
        (record { network = network.new; moment = moment }) }
    ensures same { network.new.kept ≡ network.old.kept }
    ensures refusals { IfErr result IsItemFault }
    ensures later { (home : Option ℕ)
        → count_at D.faults network.old.providers home ≤ count_at D.faults network.new.providers home }
    ensures cause { result ≡ Err faults.DiskFault
        → HasRisen (count_at D.faults network.old.providers (Some number))
        (count_at D.faults network.new.providers (Some number)) }
{
    as_many_providers(network);
    let said = network.show(alloc, account, place);
    as_many_providers(network);
    said
}
