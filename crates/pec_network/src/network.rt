ghost use Rattle.std.specs.Prelude.{◌≡◌, ◌<◌, length, slice_index_or};
ghost use Rattle.pec_network.specs.Network.{IsOfDirectory};

use pec_directory::Directory;
use pec_posts::Arrivals;
use pec_provider::Provider;
use pec_screen::{Judge, Perhaps};
use pec_seal::Sealer;
use std::marker::Model;

/// A network of certified mail providers, each over its own disk, by their numbers in a directory. `S` seals for them,
/// and a `J` of each judges the messages that come to it.
pub struct Network<D, S: Sealer, J: Judge> {
    pub(crate) directory: Directory,
    pub(crate) sealer: S,
    pub(crate) providers: Vec<Provider<D>>,
    /// The screens of each provider, if it has any.
    pub(crate) judges: Vec<Perhaps<J>>,
    /// What waits for each provider.
    pub(crate) arrivals: Vec<Arrivals>,
}

impl<D, S: Sealer, J: Judge> Model for Network<D, S, J> {
    ghost use Rattle.std.specs.Prelude.{◌≡◌, length};
    ghost use Rattle.pec_network.specs.Judging.{lists_of};
    ghost use Rattle.pec_network.specs.Network.{NetworkState};

    ghost Value = { NetworkState D S };

    ghost use Rattle.pec_network.specs.Network.{IsOfDirectory};

    ghost view = { λ network. record {
      kept = network.directory;
      sealer = network.sealer;
      providers = network.providers.items;
      screens = lists_of J.patterns network.judges.items;
      looks = lists_of J.seen network.judges.items;
      waiting = network.arrivals.items;
    } };

    ghost invariant = { λ network. IsOfDirectory network.directory (S.seals network.sealer) network.providers.items
        network.arrivals.items × (length network.judges.items ≡ length network.directory) };
}

// Written out, so that to drop a network is one call, and not the drops of all that it has wherever one is dropped.
impl<D: Drop, S: Sealer + Drop, J: Judge> Drop for Network<D, S, J> {
    fn drop(self) {
        let Network {
            directory: _,
            sealer: _,
            providers: _,
            judges: _,
            arrivals: _,
        } = self;
    }
}

impl<D, S: Sealer, J: Judge> Network<D, S, J> {
    /// The directory of its providers. It takes no memory.
    pub fn directory(&self) -> &Directory
        ensures value { result.now ≡ self.now.kept }
        // Its providers are those of the directory, for which its sealer seals, each with links from all.
        ensures whole { IsOfDirectory self.now.kept (S.seals self.now.sealer) self.now.providers self.now.waiting }
        // There are screens for each, or none.
        ensures judged { (length self.now.screens ≡ length self.now.kept)
            × (length self.now.looks ≡ length self.now.kept) }
    {
        &self.directory
    }
}

impl<D, S: Sealer, J: Judge> Network<D, S, J> {
    /// Ends the network, and hands out what reads its journals: its directory, its sealer, and its providers by their
    /// numbers. Its screens are dropped, and so is what waits on its links. It takes no memory.
    pub fn into_parts(self) -> (Directory, S, Vec<Provider<D>>)
        ensures directory { result.0 ≡ self.kept }
        ensures sealer { result.1 ≡ self.sealer }
        ensures providers { result.2.items ≡ self.providers }
    {
        let Network {
            directory,
            sealer,
            providers,
            judges: _,
            arrivals: _,
        } = self;
        (directory, sealer, providers)
    }
}

impl<D, S: Sealer + Drop, J: Judge> Network<D, S, J> {
    // Its providers, by their numbers; all else is dropped.
    pub(crate) fn into_providers(self) -> Vec<Provider<D>>
        ensures { result.items ≡ self.providers }
    {
        let Network {
            directory: _,
            sealer: _,
            providers,
            judges: _,
            arrivals: _,
        } = self;
        providers
    }
}
