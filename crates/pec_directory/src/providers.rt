use crate::accounts::Account;
use pec_cert::Zone;
use pec_types::{Address, Items, Text, Text8};
use std::marker::Model;

/// A provider of the directory. Contracts see what the directory says of it, and its zone.
#[derive(Drop)]
pub struct Provider {
    pub(crate) name: Text,
    pub(crate) receipts: Address,
    pub(crate) domains: Items<Text>,
    pub(crate) key: Text8,
    pub(crate) rule: Text,
    pub(crate) zone: Zone,
    pub(crate) limit: u64,
    pub(crate) accounts: Items<Account>,
}

impl Model for Provider {
    ghost use Rattle.pec_directory.specs.Directory.{Kept};

    ghost Value = { Kept };

    ghost use Rattle.pec_cert.specs.Zone.{IsRule};
    ghost use Rattle.pec_directory.specs.Directory as shown;

    ghost view = { λ p. record {
      provider = record {
        name = p.name;
        receipts = p.receipts;
        domains = p.domains;
        key = p.key;
        rule = p.rule;
        limit = p.limit;
        accounts = p.accounts;
      };
      zone = p.zone;
    } };

    ghost invariant = { λ p. IsRule p.rule p.zone };
}

impl Provider {
    ghost use Rattle.std.specs.Prelude.{◌≡◌};
    ghost use Rattle.pec_cert.specs.Zone.{IsRule};
    ghost use Rattle.pec_directory.specs.Directory.{first_of};

    /// The name, by which scripts and seals know the provider. It takes no memory.
    pub fn name(&self) -> &Text
        ensures { result.now ≡ self.now.provider.name }
    {
        &self.name
    }

    /// The address that receipts from other providers go to. It takes no memory.
    pub fn receipts(&self) -> &Address
        ensures { result.now ≡ self.now.provider.receipts }
    {
        &self.receipts
    }

    /// The domains that it manages, in the order of the directory. It takes no memory.
    pub fn domains(&self) -> &[Text]
        ensures { result.now ≡ self.now.provider.domains }
    {
        self.domains.as_slice()
    }

    /// The first of its domains, by which its messages are named; nothing where it has none, which no provider of a
    /// directory is. It takes no memory.
    pub fn first_domain(&self) -> &[u8]
        ensures { result.now ≡ first_of self.now.provider.domains }
    {
        match self.domains.as_slice() {
            [] => b"",
            [first, ..] => first.bytes(),
        }
    }

    /// The key of its seals. It takes no memory.
    pub fn key(&self) -> &[u8]
        ensures { result.now ≡ self.now.provider.key }
    {
        self.key.bytes()
    }

    /// The rule of its zone, as the directory has it. It takes no memory.
    pub fn rule(&self) -> &Text
        ensures { result.now ≡ self.now.provider.rule }
    {
        &self.rule
    }

    /// The zone, by the rule that the directory gives. It takes no memory.
    pub fn zone(&self) -> &Zone
        ensures zone { result.now ≡ self.now.zone }
        ensures rule { IsRule self.now.provider.rule result.now }
    {
        &self.zone
    }

    /// The greatest size of a message times its recipients, in bytes. It takes no memory.
    pub fn limit(&self) -> u64
        ensures { result ≡ self.now.provider.limit }
    {
        self.limit
    }

    /// The accounts, in the order of the directory. It takes no memory.
    pub fn accounts(&self) -> &[Account]
        ensures { result.now ≡ self.now.provider.accounts }
    {
        self.accounts.as_slice()
    }
}
