ghost use Rattle.std.specs.Prelude.{◌≡◌, ℕ, ◌<◌, ◌≤◌, Option, Some, Err, length, IfErr};
ghost use Rattle.pec_outside.specs.Flow.{HasRisen};
ghost use Rattle.pec_types.specs.declared.turns.ProviderFault.TheVariants as faults;
ghost use Rattle.pec_directory.specs.Directory.{account_home, providers_of};
ghost use Rattle.pec_http.specs.Desks.{IsSubmitFault};
ghost use Rattle.pec_records.specs.Entry.{longest_message, most_addresses};
ghost use Rattle.pec_desk.specs.Desks.{HandsIn, count_at};

use pec_network::Network;
use pec_outside::Disk;
use pec_screen::Judge;
use pec_seal::Sealer;
use pec_types::{Address, Moment, ProviderFault, Submitted};
use std::alloc::Global;

/// Hands the provider of an account, by its number, a message that the account submits at a moment for a forward path.
pub(crate) fn hand_in<D: Disk, S: Sealer, J: Judge>(
    alloc: Global,
    network: &mut Network<D, S, J>,
    number: u32,
    moment: Moment,
    account: &Address,
    path: &[Address],
    message: &[u8],
) -> Result<Submitted, ProviderFault>
    requires home { account_home (providers_of network.old.kept) account.now ≡ Some number }
    requires within { number < length network.old.kept }
    requires path { (0 < length path.now) × (length path.now ≤ most_addresses) }
    requires message { length message.now ≤ longest_message }
    ensures handed { HandsIn D.sight D.faults D.tells S.seals
        (record { network = network.old; moment = moment })
        account.now path.now message.now result
        (record { network = network.new; moment = moment }) }
    ensures same { (network.new.kept ≡ network.old.kept) × (network.new.sealer ≡ network.old.sealer) }
    ensures refusals { IfErr result IsSubmitFault }
    ensures later { (home : Option ℕ)
        → count_at D.faults network.old.providers home ≤ count_at D.faults network.new.providers home }
    ensures cause { result ≡ Err faults.DiskFault
        → HasRisen (count_at D.faults network.old.providers (Some number))
        (count_at D.faults network.new.providers (Some number)) }
{
    as_many_providers(network);
    let said = network.submit(alloc, number, moment, account, path, message);
    as_many_providers(network);
    said
}

/// A network has the providers of its directory.
pub(crate) fn as_many_providers<D, S: Sealer, J: Judge>(network: &Network<D, S, J>)
    ensures { length network.now.providers ≡ length network.now.kept }
{
    network.directory();
}
