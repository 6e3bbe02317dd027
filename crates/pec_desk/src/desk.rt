ghost use Rattle.pec_desk.specs.Desks.{answers_of};

use crate::handing::hand_in;
use crate::keys::is_same_key;
use crate::limits::{limit_at, own_domain};
use crate::showing::{book, item, mailbox};
use pec_http::{Desk, Pass, ProviderFaultView};
use pec_network::Network;
use pec_outside::Disk;
use pec_screen::Judge;
use pec_seal::{HmacSealer, Sealer};
use pec_types::{Address, Moment, Submitted};
use std::alloc::Global;
use std::marker::Model;

/// The desk at which the accounts of all providers of a network hand messages in and look at what is theirs, at one
/// moment. This project's profile.
pub struct NetworkDesk<D, J: Judge> {
    network: Network<D, HmacSealer, J>,
    moment: Moment,
}

impl<D, J: Judge> Model for NetworkDesk<D, J> {
    ghost use Rattle.pec_seal.specs.declared.hmac.HmacSealer.{HmacSealer};
    ghost use Rattle.pec_desk.specs.Desks.{DeskState};

    ghost Value = { DeskState D HmacSealer };

    ghost view = { λ desk. record { network = desk.network; moment = desk.moment } };
}

impl<D, J: Judge> NetworkDesk<D, J> {
    ghost use Rattle.std.specs.Prelude.{◌≡◌, ◌<◌, ◌≤◌, Some, true, is_some, length};
    ghost use Rattle.pec_directory.specs.Directory.{account_home, first_domain, providers_of};

    /// Opens the desk of a network at a moment. It takes no memory.
    pub fn open(network: Network<D, HmacSealer, J>, moment: Moment) -> NetworkDesk<D, J>
        ensures network { result.network ≡ network }
        ensures moment { result.moment ≡ moment }
    {
        NetworkDesk { network, moment }
    }

    /// The network, as the desk left it. It takes no memory.
    pub fn close(self) -> Network<D, HmacSealer, J>
        ensures { result ≡ self.network }
    {
        let NetworkDesk { network, moment: _ } = self;
        network
    }

    /// The number of the provider whose account an address is.
    fn home(&self, address: &Address) -> u32
        requires { is_some (account_home (providers_of self.now.network.kept) address.now) ≡ true }
        ensures home { account_home (providers_of self.now.network.kept) address.now ≡ Some result }
        ensures within { result < length self.now.network.kept }
    {
        match self.network.directory().account_home(address) {
            Some(number) => number,
            None => unreachable!(),
        }
    }
}

/// What a connection may ask for. The refusals are those of the network.
impl<D: Disk, J: Judge> Desk for NetworkDesk<D, J> {
    ghost answers = { answers_of D.sight D.faults D.tells (⟦<HmacSealer as Sealer>⟧.seals) };

    #[tactic(auto, unfolding(pec_service::specs::Passes::pass_of))]
    fn pass(&self, address: &Address, key: &[u8]) -> Pass {
        let directory = self.network.directory();
        let Some(number) = directory.account_home(address) else {
            return Pass::NoAddress;
        };
        // An account of a provider is one of the directory.
        let Some(account) = directory.account(address) else {
            return Pass::WrongKey;
        };
        if !is_same_key(key, account.key().bytes()) {
            return Pass::WrongKey;
        }
        Pass::Admitted(limit_at(directory, number))
    }

    fn domain(&self, address: &Address) -> &[u8] {
        own_domain(self.network.directory(), self.home(address))
    }

    fn submit(
        &mut self,
        alloc: Global,
        address: &Address,
        path: &[Address],
        message: &[u8],
    ) -> Result<Submitted, ProviderFaultView> {
        let home = self.home(address);
        hand_in(
            alloc,
            &mut self.network,
            home,
            self.moment,
            address,
            path,
            message,
        )
    }

    fn book(&self, alloc: Global, address: &Address) -> Result<Vec<u8>, ProviderFaultView> {
        book(alloc, &self.network, address, self.home(address))
    }

    fn items(&self, alloc: Global, address: &Address) -> Result<Vec<u8>, ProviderFaultView> {
        mailbox(alloc, &self.network, address, self.home(address))
    }

    fn item(
        &mut self,
        alloc: Global,
        address: &Address,
        place: u32,
    ) -> Result<Vec<u8>, ProviderFaultView> {
        let home = self.home(address);
        item(alloc, &mut self.network, home, address, place)
    }
}
