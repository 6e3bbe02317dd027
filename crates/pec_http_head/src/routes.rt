ghost use Rattle.std.specs.Prelude.{◌≡◌, IfOk};
ghost use Rattle.pec_http_head.specs.Patterns.{call_as};
ghost use Rattle.pec_http_head.specs.Routes.{account_in, is_sign, method_of, place_in, route_of, signs_read};

use crate::patterns::{Asked, Patterns, Spelled};
use pec_types::{Address, NoMemory};
use pec_words::number_below;
use std::alloc::Global;

/// The first number of more than nine digits.
const PLACES: u64 = 1_000_000_000;

/// What is asked of an account.
#[derive(Clone, Copy, Debug, PartialEq, Eq)]
pub enum Call {
    /// To submit a message.
    Submit,
    Book,
    /// The list of the mailbox.
    Items,
    /// The item at this place of the mailbox, from 0.
    Item(u32),
}

/// What a target asks, and of which account.
#[derive(Drop)]
pub struct Route {
    pub address: Address,
    pub call: Call,
}

impl Call {
    /// The method of a request that asks so (RFC 9110, section 9.3). It takes no memory.
    pub fn method(self) -> &'static [u8]
        ensures { result.now ≡ method_of self }
    {
        match self {
            Call::Submit => b"POST",
            Call::Book | Call::Items | Call::Item(_) => b"GET",
        }
    }
}

impl Route {
    /// The route of a target, `None` where it has none.
    pub fn read(alloc: Global, target: &[u8]) -> Result<Option<Route>, NoMemory>
        ensures { IfOk result (λ found. found ≡ route_of target.now) }
    {
        let patterns = Patterns::new(alloc)?;
        let Some(found) = patterns.find(target) else {
            return Ok(None);
        };
        let Some(call) = call_of(&found) else {
            return Ok(None);
        };
        let Some(address) = account_in(alloc, found.account)? else {
            return Ok(None);
        };
        Ok(Some(Route { address, call }))
    }
}

/// What is asked of an account, `None` where the place is no number.
#[tactic(auto, unfolding(crate::specs::Patterns::call_as))]
fn call_of(found: &Spelled<'_>) -> Option<Call>
    ensures { result ≡ call_as found.now.asked found.now.place.now }
{
    match found.asked {
        Asked::Submit => Some(Call::Submit),
        Asked::Book => Some(Call::Book),
        Asked::Items => Some(Call::Items),
        Asked::Item => {
            let place = place_in(found.place)?;
            Some(Call::Item(place))
        }
    }
}

#[tactic(auto, unfolding(crate::specs::Routes::place_in))]
fn place_in(text: &[u8]) -> Option<u32>
    ensures { result ≡ place_in text.now }
{
    let place = number_below(text, PLACES)?;
    Some(place as u32)
}

/// The address that a segment spells, each `%40` of it read as `@`.
#[tactic(auto, unfolding(crate::specs::Routes::account_in))]
fn account_in(alloc: Global, segment: &[u8]) -> Result<Option<Address>, NoMemory>
    ensures { IfOk result (λ found. found ≡ account_in segment.now) }
{
    let bytes = signs_read(alloc, segment)?;
    let address = Address::find(alloc, &bytes)?;
    Ok(address)
}

fn signs_read(alloc: Global, text: &[u8]) -> Result<Vec<u8>, NoMemory>
    ensures { IfOk result (λ all. all.items ≡ signs_read 0 text.now) }
{
    let mut all = Vec::new(alloc);
    let mut rest = text;
    while let [first, behind @ ..] = rest {
        if is_sign(rest) {
            all.push(b'@')?;
            rest = &rest[3..];
        } else {
            all.push(*first)?;
            rest = behind;
        }
    }
    Ok(all)
}

fn is_sign(text: &[u8]) -> bool
    ensures value { result ≡ is_sign text.now }
{
    text.starts_with(b"%40")
}
