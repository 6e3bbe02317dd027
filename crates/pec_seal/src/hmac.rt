ghost use Rattle.std.specs.Prelude.{◌≡◌, ◌≢◌, ℕ, ◌<◌, ◌≤◌, ◌^◌, ◌↔◌, List, [], length, vec_len, All, AllPairs, IsTrue, IfOk, IfSome, slice_index_or, position};
ghost use Rattle.std.specs.Str.{bytes_eq};
ghost use Rattle.pec_types.specs.Text.{AllPrintable};
ghost use Rattle.pec_seal.specs.Hmac.{hmac_seals, IsKey};
ghost use Rattle.pec_seal.specs.HmacLaw.{hmac_lawful};
ghost use Rattle.pec_seal.specs.Pads.{AreAllPads};

use crate::pads::{Pads, pads_of};
use crate::sealers::Sealer;
use pec_types::{NoMemory, Text, Text8};
use std::alloc::Global;

/// Providers that seal by HMAC-SHA-256 (RFC 2104 over FIPS 180-4), each under a key of its own of 1 to 64 bytes. A
/// provider's number is its place in the list of names. The tag under a number without a provider is that of an empty
/// key. A tag begins behind the pads of its key, which were hashed when the sealer was made.
#[derive(Drop)]
pub struct HmacSealer {
    names: Vec<Text>,
    keys: Vec<Text8>,
    pads: Vec<Pads>,
    ghost paired: { vec_len names ≡ vec_len keys },
    ghost ready: { ∥ AreAllPads keys.items pads.items ∥₁ },
    ghost few: { vec_len names < 2 ^ 32 },
    ghost different: { AllPairs ◌≢◌ names.items },
    ghost printable: { All AllPrintable names.items },
    ghost sizes: { All IsKey keys.items },
}

impl HmacSealer {
    /// The sealer of the providers of these names, in the order of their numbers, with their keys in the same order.
    /// Want of memory is its one error.
    pub fn new(alloc: Global, names: Vec<Text>, keys: Vec<Text8>) -> Result<HmacSealer, NoMemory>
        requires paired { vec_len names ≡ vec_len keys }
        requires few { vec_len names < 4_294_967_296 }
        requires different { AllPairs ◌≢◌ names.items }
        requires sizes { All IsKey keys.items }
        ensures { IfOk result (λ sealer. ⟦<HmacSealer as Sealer>⟧.seals sealer ≡ hmac_seals names.items keys.items) }
    {
        // A text is printable, and a proof learns so where it is looked at. No byte is read.
        for name in &names {
            name.bytes();
        }
        let pads = pads_of(alloc, &keys)?;
        Ok(HmacSealer { names, keys, pads })
    }
}

impl Sealer for HmacSealer {
    ghost seals = { λ sealer. hmac_seals sealer.names.items sealer.keys.items };

    ghost lawful = { λ sealer.
        hmac_lawful sealer.names.items sealer.keys.items sealer.different sealer.printable };

    fn number(&self, name: &[u8]) -> Option<u32> {
        let place = place_of(&self.names, name)?;
        Some(place as u32)
    }

    fn name(&self, provider: u32) -> Option<&[u8]> {
        let name = self.names.get(provider as usize)?;
        Some(name.bytes())
    }

    fn tag(&self, provider: u32, bytes: &[u8]) -> [u8; 32] {
        match self.pads.get(provider as usize) {
            Some(pads) => pads.tag(bytes),
            None => Pads::of(&[]).tag(bytes),
        }
    }

    fn agrees(&self, provider: u32, bytes: &[u8], tag: &[u8; 32]) -> bool {
        is_same(&self.tag(provider, bytes), tag)
    }
}

/// The place of a name in a list.
fn place_of(names: &[Text], name: &[u8]) -> Option<usize>
    ensures value { result ≡ position (λ other. bytes_eq other name.now) names.now }
    ensures below { IfSome result (λ place. place < length names.now) }
{
    names.iter().position(|other| other.bytes() == name)
}

/// Whether two tags are one. It goes through all 32 bytes, also after the first that differs.
fn is_same(one: &[u8; 32], other: &[u8; 32]) -> bool
    ensures { IsTrue result ↔ (one.now ≡ other.now) }
{
    let mut same = true;
    for place in 0..32 {
        same &= one[place] == other[place];
    }
    same
}
