ghost use Rattle.std.specs.Prelude.{◌≡◌, ◌↔◌, Ok, IfOk, is_none, option_map};
ghost use Rattle.jiff_tz.specs.PosixReader.{read_whole};
ghost use Rattle.toml.specs.View.{view};
ghost use Rattle.pec_cert.specs.Zone.{IsRule};
ghost use Rattle.pec_types.specs.Answers.{Gives, OrNoMemory};
ghost use Rattle.pec_directory.specs.Views.{fields_shown};
ghost use Rattle.pec_directory.specs.Walk.{fields_of, key_in, receipts_in, rule_in};
ghost use Rattle.pec_directory.specs.declared.faults.DirectoryFault.TheVariants as faults;

use crate::faults::{DirectoryFault, Field};
use crate::fields::{domains_at, key_of, limit_at, name_at, rule_at, text_at};
use pec_cert::Zone;
use pec_types::{Address, Text};
use std::alloc::Global;
use toml::Value;

/// The fields of a provider, but for its accounts.
#[derive(Drop)]
pub(crate) struct Fields {
    pub(crate) name: Text,
    pub(crate) receipts: Address,
    pub(crate) domains: Vec<Text>,
    pub(crate) key: Vec<u8>,
    pub(crate) rule: Text,
    pub(crate) zone: Zone,
    pub(crate) limit: u64,
}

/// The fields of the provider of this number, or the fault of the first that isn't right.
#[tactic(auto, unfolding(crate::specs::Walk::fields_of))]
pub(crate) fn read_fields(
    alloc: Global,
    number: u32,
    provider: &Value,
) -> Result<Fields, DirectoryFault>
    ensures answer { Gives faults.NoMemory fields_shown result (fields_of number (view provider.now)) }
    ensures zone { IfOk result (λ fields. IsRule fields.rule fields.zone) }
{
    let Some(name) = name_at(alloc, provider)? else {
        return Err(DirectoryFault::BadField(number, Field::Name));
    };
    let receipts = read_receipts(alloc, number, provider)?;
    let Some(domains) = domains_at(alloc, provider)? else {
        return Err(DirectoryFault::BadField(number, Field::ManagedDomains));
    };
    let key = read_key(alloc, number, provider)?;
    let (rule, zone) = read_rule(alloc, number, provider)?;
    let Some(limit) = limit_at(provider) else {
        return Err(DirectoryFault::BadField(number, Field::Limit));
    };
    Ok(Fields {
        name,
        receipts,
        domains,
        key,
        rule,
        zone,
        limit,
    })
}

#[tactic(auto, unfolding(crate::specs::Walk::receipts_in))]
fn read_receipts(alloc: Global, number: u32, provider: &Value) -> Result<Address, DirectoryFault>
    ensures { OrNoMemory faults.NoMemory result (receipts_in number (view provider.now)) }
{
    let Some(text) = text_at("mailReceipt", provider) else {
        return Err(DirectoryFault::BadField(number, Field::MailReceipt));
    };
    let Some(address) = Address::find(alloc, text.as_bytes())? else {
        return Err(DirectoryFault::BadAddress(number, 0));
    };
    Ok(address)
}

#[tactic(auto, unfolding(crate::specs::Walk::key_in))]
fn read_key(alloc: Global, number: u32, provider: &Value) -> Result<Vec<u8>, DirectoryFault>
    ensures { Gives faults.NoMemory (λ key. key.items) result (key_in number (view provider.now)) }
{
    let Some(text) = text_at("key", provider) else {
        return Err(DirectoryFault::BadField(number, Field::Key));
    };
    let Some(key) = key_of(alloc, text.as_bytes())? else {
        return Err(DirectoryFault::BadKey(number));
    };
    Ok(key)
}

/// The rule of the provider's zone, and the zone.
#[tactic(auto, unfolding(crate::specs::Walk::rule_in))]
fn read_rule(alloc: Global, number: u32, provider: &Value) -> Result<(Text, Zone), DirectoryFault>
    ensures answer { Gives faults.NoMemory (λ ruled. ruled.0) result (rule_in number (view provider.now)) }
    ensures zone { IfOk result (λ ruled. IsRule ruled.0 ruled.1) }
{
    let Some(rule) = rule_at(alloc, provider)? else {
        return Err(DirectoryFault::BadField(number, Field::Zone));
    };
    match Zone::read(&rule) {
        Ok(zone) => Ok((rule, zone)),
        Err(_) => Err(DirectoryFault::BadZone(number)),
    }
}
