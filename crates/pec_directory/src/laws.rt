ghost use Rattle.std.specs.Prelude.{◌≡◌, ◌↔◌, ◌<◌, ◌≤◌, ℕ, List, Ok, Some, codes, length, true};
ghost use Rattle.toml.specs.Data.{Data, get};
ghost use Rattle.pec_types.specs.Address.{IsLowerAddress};
ghost use Rattle.pec_types.specs.Answers.{TellsExactly};
ghost use Rattle.pec_types.specs.Bytes.{Bytes};
ghost use Rattle.pec_types.specs.Message.{Id};
ghost use Rattle.pec_types.specs.Words.{id_text};
ghost use Rattle.pec_types.specs.declared.messages.TheConstants.{MESSAGES};
ghost use Rattle.pec_directory.specs.Canonical.{canonical};
ghost use Rattle.pec_directory.specs.Directory.{Provider, first_domain, manages};
ghost use Rattle.pec_directory.specs.Faults.{IsDirectoryFault, IsTableFault};
ghost use Rattle.pec_directory.specs.Fields.{service_at};
ghost use Rattle.pec_directory.specs.Ids.{Names, id_of};
ghost use Rattle.pec_directory.specs.Lawful.{IsLawful};
ghost use Rattle.pec_directory.specs.Tables.{IsDirectory, IsOfTable};
ghost use Rattle.pec_directory.specs.Walk.{directory_in, directory_of, domains_of, is_among};

use pec_types::{
    an_address_is_told_exactly, printable_is_said_of_each_byte, what_is_read_is_in_lower_case,
};

/// The law of directories: names differ, each domain is one provider's, receipts go to an address in their provider's
/// domains, no two accounts have one address and each is in its provider's domains; and what else docs/formats.md asks
/// of a directory.
pub fn a_directory_is_lawful()
    ensures { (text : Bytes) (providers : List Provider) → directory_of text ≡ Ok providers → IsLawful providers }
{
    a_directory_is_told_exactly();
}

/// The walk over a text is one with what the text's tables say: it answers providers exactly where the tables say them,
/// field by field, and they are lawful, and a fault exactly where its test is the first that is met.
pub fn a_directory_is_told_exactly()
    ensures { (text : Bytes) → TellsExactly (IsDirectory text) (IsDirectoryFault text) (directory_of text) }
{
    an_address_is_told_exactly();
    what_is_read_is_in_lower_case();
}

/// The law of tables: the walk over a whole table is one with what its tables say, as `a_directory_is_told_exactly`
/// says it of a text; and of the whole table only what stands at its key `provider` counts.
pub fn a_table_is_told_exactly()
    ensures told { (whole : Data) → TellsExactly (IsOfTable whole) (IsTableFault whole) (directory_in whole) }
    ensures looks_up { (whole other : Data) → get (codes "provider") whole ≡ get (codes "provider") other
        → directory_in whole ≡ directory_in other }
{
    an_address_is_told_exactly();
    what_is_read_is_in_lower_case();
}

/// The law of domains: a provider can write from each, as `posta-certificata@` and the domain are an address, for which
/// the domain has at most 236 bytes; and the first domains of two providers differ, so that one names a provider.
pub fn a_first_domain_is_one_providers()
    ensures address { (providers : List Provider) (domain : Bytes) → IsLawful providers
        → is_among domain (domains_of providers) ≡ true → IsLowerAddress (service_at domain) }
    ensures short { (providers : List Provider) (domain : Bytes) → IsLawful providers
        → is_among domain (domains_of providers) ≡ true → length domain ≤ 236 }
    ensures own { (providers : List Provider) (number : ℕ) → IsLawful providers → number < length providers
        → is_among (first_domain providers number) (domains_of providers) ≡ true }
    ensures apart { (providers : List Provider) (number other : ℕ) → IsLawful providers
        → number < length providers → other < length providers
        → first_domain providers number ≡ first_domain providers other → number ≡ other }
{}

/// The law of names: in a lawful directory the text of a message's name, of a provider of the directory and a number
/// below 1,000,000, names that message and no other, and what a text names prints as the text.
pub fn a_text_names_one_message()
    ensures named { (providers : List Provider) (id : Id) → IsLawful providers
        → id.provider < length providers → id.number < MESSAGES
        → id_of providers (id_text (first_domain providers id.provider) id.number) ≡ Some id }
    ensures names { (providers : List Provider) (text : Bytes) (id : Id) → IsLawful providers
        → (id_of providers text ≡ Some id) ↔ Names providers text id }
    ensures one { (providers : List Provider) (text : Bytes) (id other : Id) → IsLawful providers
        → Names providers text id → Names providers text other → id ≡ other }
{}

/// The law of canonical texts: two directories with one canonical text are one.
pub fn a_canonical_text_is_one_directory()
    ensures { (providers others : List Provider) → IsLawful providers → IsLawful others
        → canonical providers ≡ canonical others → providers ≡ others }
{
    printable_is_said_of_each_byte();
}
