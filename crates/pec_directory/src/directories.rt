ghost use Rattle.std.specs.Prelude.{◌≡◌, ◌<◌, ◌≤◌, Some, length, option_map, IfSome};
ghost use Rattle.pec_directory.specs.Directory.{named, providers_of};
ghost use Rattle.pec_directory.specs.Indexes.{reached};
ghost use Rattle.pec_directory.specs.Walk.{most_providers};

use crate::accounts::Account;
use crate::digesting::digest;
use crate::faults::DirectoryFault;
use crate::ids::id_of;
use crate::laws::{a_directory_is_told_exactly, a_table_is_told_exactly};
use crate::places::Place;
use crate::providers::Provider;
use crate::reading::{read_table, read_text};
use pec_index::Index;
use pec_types::{Address, MsgId, NoMemory};
use std::alloc::Global;
use std::marker::Model;
use toml::Table;

/// The directory of providers. Contracts see the list of what is kept of each.
pub struct Directory {
    providers: Vec<Provider>,
    homes: Index<u32>,
    places: Index<Place>,
}

impl Model for Directory {
    ghost use Rattle.std.specs.Prelude.{List};
    ghost use Rattle.pec_directory.specs.Directory.{Kept};

    ghost Value = { List Kept };

    ghost use Rattle.pec_directory.specs.Directory.{providers_of};
    ghost use Rattle.pec_directory.specs.Indexes.{IsIndexed};
    ghost use Rattle.pec_directory.specs.Lawful.{IsLawful};
    ghost use Rattle.pec_directory.specs.Zones.{AreByRule};

    ghost view = { λ directory. directory.providers.items };

    ghost invariant = { λ directory. IsIndexed directory.providers.items directory.homes directory.places
        × IsLawful (providers_of directory.providers.items) × AreByRule directory.providers.items };
}

// Written out, so that to drop a directory is one call wherever it is done, and not the drops of its lists and indexes.
impl Drop for Directory {
    fn drop(self) {
        let Directory {
            providers: _,
            homes: _,
            places: _,
        } = self;
    }
}

impl Directory {
    ghost use Rattle.std.specs.Prelude.{◌≡◌, ◌↔◌, ◌<◌, ◌≤◌, Some, length, option_map, slice_get, IfOk, IfSome, IsTrue};
    ghost use Rattle.toml.specs.Data.{table};
    ghost use Rattle.toml.specs.View.{table_view};
    ghost use Rattle.pec_types.specs.Answers.{Gives, ReadsExactly, seen_as};
    ghost use Rattle.pec_types.specs.Message.{Id};
    ghost use Rattle.pec_directory.specs.Canonical.{digest_of};
    ghost use Rattle.pec_directory.specs.Directory.{account_home, account_of, first_domain, home_of, is_account_of, is_certified, named, providers_of, rule_of};
    ghost use Rattle.pec_directory.specs.Faults.{IsDirectoryFault, IsTableFault};
    ghost use Rattle.pec_directory.specs.Ids.{Names, id_of};
    ghost use Rattle.pec_directory.specs.Indexes.{IsIndexed};
    ghost use Rattle.pec_directory.specs.Lawful.{IsLawful};
    ghost use Rattle.pec_directory.specs.Tables.{IsDirectory, IsOfTable};
    ghost use Rattle.pec_directory.specs.Walk.{directory_in, directory_of, most_providers};
    ghost use Rattle.pec_directory.specs.Zones.{AreByRule};
    ghost use Rattle.pec_directory.specs.declared.faults.DirectoryFault.TheVariants as faults;

    /// The directory of these providers, with their indexes.
    pub(crate) fn new(
        providers: Vec<Provider>,
        homes: Index<u32>,
        places: Index<Place>,
    ) -> Directory
        requires indexed { IsIndexed providers.items homes places }
        requires lawful { IsLawful (providers_of providers.items) }
        requires zones { AreByRule providers.items }
        ensures { result ≡ providers.items }
    {
        Directory {
            providers,
            homes,
            places,
        }
    }

    /// The directory that a text is, in the form of TOML that docs/formats.md has, or the first fault of its tests.
    /// This project's profile.
    pub fn read(alloc: Global, text: &str) -> Result<Directory, DirectoryFault>
        // Providers are answered exactly where the text's tables say them and they are lawful; and otherwise the fault
        // of the first test that is met.
        ensures reads { ReadsExactly (IsDirectory text.now) (IsDirectoryFault text.now) faults.NoMemory
            (seen_as providers_of result) }
        // The same answer as a function of the text, for definitions that build on it.
        ensures exact { Gives faults.NoMemory providers_of result (directory_of text.now) }
    {
        a_directory_is_told_exactly();
        read_text(alloc, text)
    }

    /// The directory that a table is, of the form that docs/formats.md has, or the first fault of its tests; of the
    /// table only what stands at the keys of that form is looked at. This project's profile.
    pub fn from_table(alloc: Global, whole: &Table) -> Result<Directory, DirectoryFault>
        // Providers are answered exactly where the table says them and they are lawful; and otherwise the fault of the
        // first test that is met.
        ensures reads { ReadsExactly (IsOfTable (table (table_view whole.now))) (IsTableFault (table (table_view whole.now)))
            faults.NoMemory (seen_as providers_of result) }
        // The same answer as a function of the table, for definitions that build on it.
        ensures exact { Gives faults.NoMemory providers_of result (directory_in (table (table_view whole.now))) }
    {
        a_table_is_told_exactly();
        read_table(alloc, whole)
    }

    /// SHA-256 (FIPS 180-4) of the canonical text that docs/formats.md has.
    pub fn digest(&self, alloc: Global) -> Result<[u8; 32], NoMemory>
        ensures { IfOk result (λ digest. digest ≡ digest_of (providers_of self.now)) }
    {
        digest(alloc, self.providers.as_slice())
    }

    /// How many providers there are. It takes no memory.
    pub fn count(&self) -> u32
        ensures count { result ≡ length self.now }
        ensures few { result ≤ most_providers }
        // What holds of every directory, for whoever builds on one.
        ensures lawful { IsLawful (providers_of self.now) }
        ensures zones { AreByRule self.now }
    {
        self.providers.len() as u32
    }

    /// The provider that manages an address's domain, by its number from 0; `None` says that the address is an external
    /// one. It takes no memory.
    pub fn home_of(&self, address: &Address) -> Option<u32>
        ensures home { result ≡ home_of (providers_of self.now) address.now }
        ensures within { IfSome result (λ number. number < length self.now) }
    {
        self.homes.get(address.domain()).copied()
    }

    /// Whether some provider manages the address's domain: any other address is an external one (RFC 6109, section
    /// 2.1). It takes no memory.
    pub fn is_certified(&self, address: &Address) -> bool
        ensures { result ≡ is_certified (providers_of self.now) address.now }
    {
        self.home_of(address).is_some()
    }

    /// The number of the provider whose account the address is; `None` says that it is no account. It takes no memory.
    #[tactic(auto, unfolding(crate::specs::Directory::account_home))]
    pub fn account_home(&self, address: &Address) -> Option<u32>
        ensures home { result ≡ account_home (providers_of self.now) address.now }
        ensures within { IfSome result (λ number. number < length self.now) }
    {
        if self.account(address).is_none() {
            return None;
        }
        self.home_of(address)
    }

    /// Whether the address is an account of the provider of this number. Only a provider of the directory has accounts.
    /// It takes no memory.
    #[tactic(auto, unfolding(crate::specs::Directory::is_account_of))]
    pub fn is_account_of(&self, number: u32, address: &Address) -> bool
        ensures value { result ≡ is_account_of (providers_of self.now) number address.now }
        ensures within { IsTrue result → number < length self.now }
    {
        match self.account_home(address) {
            Some(home) => home == number,
            None => false,
        }
    }

    /// The first domain of the provider of a number, by which its messages are named; nothing where there is no such
    /// provider. It takes no memory.
    #[tactic(auto, unfolding(crate::specs::Directory::first_domain))]
    pub fn first_domain(&self, number: u32) -> &[u8]
        ensures { result.now ≡ first_domain (providers_of self.now) number }
    {
        match self.provider(number) {
            Some(provider) => provider.first_domain(),
            None => b"",
        }
    }

    /// The message that a text names: the one whose name, `pec.NNNNNNN@DOMAIN` of a provider's first domain and a
    /// number below 1,000,000 in seven digits, is the text; `None` says that the text names no message of the
    /// directory's providers. This project's profile.
    pub fn id_of(&self, alloc: Global, text: &[u8]) -> Result<Option<MsgId>, NoMemory>
        ensures names { IfOk result (λ found. (id : Id) →
            (found ≡ Some id) ↔ Names (providers_of self.now) text.now id) }
        // The same answer as a function of the text, for definitions that build on it.
        ensures exact { IfOk result (λ found. found ≡ id_of (providers_of self.now) text.now) }
    {
        id_of(alloc, self.providers.as_slice(), text)
    }

    /// The account of an address. It takes no memory.
    pub fn account(&self, address: &Address) -> Option<&Account>
        ensures { option_map (λ account. account.now) result ≡ account_of (providers_of self.now) address.now }
    {
        let place = self.places.get(address.bytes())?;
        account_at(self.providers.as_slice(), *place)
    }

    /// The provider of a number, from 0. It takes no memory.
    pub fn provider(&self, number: u32) -> Option<&Provider>
        ensures { option_map (λ provider. provider.now) result ≡ slice_get self.now number }
    {
        self.providers.get(number as usize)
    }

    /// The rule of the zone of the provider of a number, from 0, as the directory has it (POSIX.1-2024, TZ). It takes
    /// no memory.
    #[tactic(auto, unfolding(crate::specs::Directory::rule_of))]
    pub fn rule(&self, provider: u32) -> Option<&[u8]>
        ensures { option_map (λ rule. rule.now) result ≡ rule_of (providers_of self.now) provider }
    {
        match self.provider(provider) {
            Some(provider) => Some(provider.rule().bytes()),
            None => None,
        }
    }

    /// The number, from 0, of the provider of a name. It takes no memory.
    pub fn named(&self, name: &[u8]) -> Option<u32>
        ensures number { result ≡ named (providers_of self.now) name.now }
        ensures within { IfSome result (λ number. number < length self.now) }
    {
        place_of_name(self.providers.as_slice(), name)
    }
}

/// The account at a place.
fn account_at(providers: &[Provider], place: Place) -> Option<&Account>
    ensures { option_map (λ account. account.now) result ≡ reached (providers_of providers.now) (Some place) }
{
    let provider = providers.get(place.provider)?;
    provider.accounts().get(place.account)
}

/// The number of the first provider of a name.
#[tactic(auto, unfolding(crate::specs::Directory::named))]
fn place_of_name(providers: &[Provider], name: &[u8]) -> Option<u32>
    requires { length providers.now ≤ most_providers }
    ensures number { result ≡ named (providers_of providers.now) name.now }
    ensures within { IfSome result (λ number. number < length providers.now) }
{
    for (number, provider) in providers.iter().enumerate() {
        if name == provider.name().bytes() {
            return Some(number as u32);
        }
    }
    None
}
