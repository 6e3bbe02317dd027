ghost use Rattle.std.specs.Prelude.{◌≤◌, length, Some};
ghost use Rattle.pec_outside.specs.Depots.{depot_places};
ghost use Rattle.pec_network.specs.Homes.{AllAt};

use crate::laws::few_providers;
use crate::network::Network;
use pec_outside::{Depot, Disk};
use pec_provider::Provider;
use pec_screen::Judge;
use pec_seal::Sealer;

impl<D: Disk, S: Sealer + Drop, J: Judge> Network<D, S, J> {
    /// Ends the network: each provider's disk is kept in the depot, as it is, and its screens are dropped. It takes no
    /// memory.
    pub fn close<P: Depot<D = D>>(self, depot: &mut P)
        ensures kept { P.tells → AllAt (λ provider. Some provider.chronicle.disk)
            (P.home depot.old) (P.home depot.new) self.providers }
        ensures last { AllAt (λ provider. D.faults provider.chronicle.disk)
            (P.last depot.old) (P.last depot.new) self.providers }
        ensures later { P.faults depot.old ≤ P.faults depot.new }
    {
        few_providers(&self.directory);
        keep_all(self.into_providers(), depot);
    }
}

/// Keeps the disks of providers in the depot, as they are; the providers are numbered from 0 on. It takes no memory.
pub fn keep_all<D: Disk, P: Depot<D = D>>(mut providers: Vec<Provider<D>>, depot: &mut P)
    requires { length providers.items ≤ depot_places }
    ensures kept { P.tells → AllAt (λ provider. Some provider.chronicle.disk)
        (P.home depot.old) (P.home depot.new) providers.items }
    ensures last { AllAt (λ provider. D.faults provider.chronicle.disk)
        (P.last depot.old) (P.last depot.new) providers.items }
    ensures later { P.faults depot.old ≤ P.faults depot.new }
{
    while let Some(provider) = providers.pop() {
        let (disk, _) = provider.into_parts();
        depot.keep(providers.len() as u32, disk);
    }
    providers.destroy_empty();
}
