ghost use Rattle.std.specs.Prelude.{◌≡◌, ◌≤◌, List, length};
ghost use Rattle.pec_directory.specs.Directory.{Kept};
ghost use Rattle.pec_directory.specs.Walk.{most_providers};
ghost use Rattle.pec_ledger.specs.OfDirectory.{IsOf};
ghost use Rattle.pec_ledger.specs.Trade.{Trade};
ghost use Rattle.pec_seal.specs.Seals.{Seals};
ghost use Rattle.pec_provider.specs.Summing.{nothing_yet, total_of};
ghost use Rattle.pec_network.specs.Network.{sites, world_of};
ghost use Rattle.pec_network.specs.Summing.{AllRun, total_over};

use crate::network::Network;
use pec_provider::{Provider, Summary, a_trade_says_what_its_parts_say};
use pec_screen::Judge;
use pec_seal::Sealer;

impl<D, S: Sealer, J: Judge> Network<D, S, J> {
    /// What has become of the messages of all providers, in numbers, also of those that are down. It takes no memory.
    pub fn summary(&self) -> Summary
        ensures { result ≡ total_of (world_of S.seals self.now) (sites self.now) }
    {
        a_trade_says_what_its_parts_say();
        self.directory.count();
        summary_of(self.providers.as_slice())
    }
}

/// What has become of the messages of these providers, numbered from 0.
fn summary_of<D>(providers: &[Provider<D>]) -> Summary
    requires { length providers.now ≤ most_providers }
    ensures { (kept : List Kept) (seals : Seals) (trade : Trade) → IsOf kept trade → AllRun kept seals providers.now
        → result ≡ total_over trade nothing_yet 0 providers.now }
{
    let mut summary = Summary::new();
    for provider in providers {
        let own = provider.summary();
        summary = summary.plus(own);
    }
    summary
}
