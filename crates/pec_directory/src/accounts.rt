use pec_types::{Address, Text};
use std::marker::Model;

/// An account of a provider. Contracts see its address in lower case, its quota and its key.
#[derive(Drop)]
pub struct Account {
    address: Address,
    quota: u64,
    key: Text,
}

impl Model for Account {
    ghost use Rattle.pec_directory.specs.Directory.{Account as Shown};

    ghost Value = { Shown };

    ghost view = { λ account. record { address = account.address; quota = account.quota; key = account.key } };
}

impl Account {
    ghost use Rattle.std.specs.Prelude.{◌≡◌};

    pub(crate) fn new(address: Address, quota: u64, key: Text) -> Account
        ensures { result ≡ record { address = address; quota = quota; key = key } }
    {
        Account {
            address,
            quota,
            key,
        }
    }

    /// The address of the mailbox. It takes no memory.
    pub fn address(&self) -> &Address
        ensures { result.now ≡ self.now.address }
    {
        &self.address
    }

    /// How many envelopes and anomalies the mailbox has room for. It takes no memory.
    pub fn quota(&self) -> u64
        ensures { result ≡ self.now.quota }
    {
        self.quota
    }

    /// The key with which the owner opens the mailbox. It takes no memory.
    pub fn key(&self) -> &Text
        ensures { result.now ≡ self.now.key }
    {
        &self.key
    }
}
