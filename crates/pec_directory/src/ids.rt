ghost use Rattle.std.specs.Prelude.{◌≡◌, ◌<◌, ◌≤◌, ◌-◌, length, slice_index, IfOk};
ghost use Rattle.pec_types.specs.Bytes.{digit_zero};
ghost use Rattle.pec_types.specs.Words.{number_in};
ghost use Rattle.pec_directory.specs.Directory.{providers_of};
ghost use Rattle.pec_directory.specs.Ids.{id_of, number_named, prints, provider_named};
ghost use Rattle.pec_directory.specs.Walk.{most_providers};

use crate::providers::Provider;
use pec_types::{MESSAGES, MsgId, NoMemory, id_text};
use std::alloc::Global;

/// The message of one of these providers that a text names.
#[tactic(auto, unfolding(crate::specs::Ids::id_of))]
pub(crate) fn id_of(
    alloc: Global,
    providers: &[Provider],
    text: &[u8],
) -> Result<Option<MsgId>, NoMemory>
    requires { length providers.now ≤ most_providers }
    ensures { IfOk result (λ found. found ≡ id_of (providers_of providers.now) text.now) }
{
    let number = number_named(text);
    if number >= MESSAGES {
        return Ok(None);
    }
    let Some(provider) = provider_named(alloc, providers, text, number)? else {
        return Ok(None);
    };
    Ok(Some(MsgId { provider, number }))
}

/// The number of the first provider whose message of this number has the text for its name.
#[tactic(auto, unfolding(crate::specs::Ids::provider_named))]
fn provider_named(
    alloc: Global,
    providers: &[Provider],
    text: &[u8],
    number: u64,
) -> Result<Option<u32>, NoMemory>
    requires { length providers.now ≤ most_providers }
    ensures { IfOk result (λ found. found ≡ provider_named (providers_of providers.now) text.now number) }
{
    for (place, provider) in providers.iter().enumerate() {
        let named = prints(alloc, provider, text, number)?;
        if named {
            return Ok(Some(place as u32));
        }
    }
    Ok(None)
}

/// Whether the name of the provider's message of this number is the text.
fn prints(alloc: Global, provider: &Provider, text: &[u8], number: u64) -> Result<bool, NoMemory>
    ensures { IfOk result (λ named. named ≡ prints text.now number provider.now.provider) }
{
    let name = id_text(alloc, provider.first_domain(), number)?;
    Ok(text == name.as_slice())
}

/// The number in the seven bytes behind `pec.`, whatever they are.
#[tactic(auto, unfolding(crate::specs::Ids::number_named), using(crate::proofs::NumberLemmas::no_seven))]
fn number_named(text: &[u8]) -> u64
    ensures { result ≡ number_named text.now }
{
    match text.get(4..11) {
        Some(seven) => number_in(seven),
        None => 0,
    }
}

/// The number that seven digits stand for.
fn number_in(seven: &[u8]) -> u64
    requires { length seven.now ≡ 7 }
    ensures { result ≡ number_in seven.now }
{
    worth(seven, 0) * 1_000_000
        + worth(seven, 1) * 100_000
        + worth(seven, 2) * 10_000
        + worth(seven, 3) * 1_000
        + worth(seven, 4) * 100
        + worth(seven, 5) * 10
        + worth(seven, 6)
}

/// What the digit at a place is worth.
#[tactic(auto, using(std::proofs::lemmas::List::get_or_read))]
fn worth(digits: &[u8], place: usize) -> u64
    requires { place < length digits.now }
    ensures worth { result ≡ slice_index digits.now place - digit_zero }
    ensures small { result < 256 }
{
    u64::from(digits[place].saturating_sub(b'0'))
}
