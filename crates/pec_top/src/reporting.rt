ghost use Rattle.pec_serving.specs.OfNetworks.{sites, world_of};
ghost use Rattle.pec_top.specs.Reporting.{IsTold, Reports};

use pec_screen::Judge;
use pec_seal::Sealer;
use pec_serving::{Network, Summary};

/// What is asked of a network before it is closed, and what is told of it.
#[derive(Clone, Copy, Debug, PartialEq, Eq)]
pub(crate) enum Report {
    /// Nothing is asked.
    Unasked,
    /// What has become of all messages is asked, and how many entries the journals of the first two providers have.
    Asked,
    /// That is it.
    Told(Summary, u64, u64),
    /// It couldn't be told.
    Untold,
}

impl Report {
    /// With what is asked of this network.
    #[tactic(auto, using(crate::proofs::ReportLemmas::unlooked))]
    pub(crate) fn of<D, H: Sealer, J: Judge>(self, network: &Network<D, H, J>) -> Report
        ensures { Reports self result (world_of H.seals network.now) (sites network.now) }
    {
        match self {
            Report::Asked => told(network),
            _ => self,
        }
    }
}

/// What is told of a network of two providers or more.
fn told<D, H: Sealer, J: Judge>(network: &Network<D, H, J>) -> Report
    ensures { IsTold result (world_of H.seals network.now) (sites network.now) }
{
    if network.directory().count() < 2 {
        return Report::Untold;
    }
    Report::Told(network.summary(), network.entries(0), network.entries(1))
}
