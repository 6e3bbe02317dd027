//! HMAC under a key whose pads were hashed once (RFC 2104, sections 2 and 4).

ghost use Rattle.std.specs.Prelude.{◌≡◌, ℕ, ◌≤◌, List, length, All, IfOk};
ghost use Rattle.pec_seal.specs.Hmac.{hmac, key_block, padded, IsKey};
ghost use Rattle.pec_seal.specs.Pads.{AreAllPads, ArePads};

use pec_types::Text8;
use sha2::{Digest, Sha256};
use std::alloc::{AllocError, Global};

/// The pads of RFC 2104, section 2.
const INNER_PAD: u8 = 0x36;

const OUTER_PAD: u8 = 0x5c;

/// What the two hashes of a key hold behind its pads: each tag under the key begins there.
#[derive(Drop)]
pub(crate) struct Pads {
    inner: Sha256,
    outer: Sha256,
}

impl Pads {
    /// The pads of a key.
    pub(crate) fn of(key: &[u8]) -> Pads
        requires { length key.now ≤ 64 }
        ensures { ArePads key.now result }
    {
        let block = key_block(key);
        Pads {
            inner: Sha256::new_with_prefix(padded(block, INNER_PAD)),
            outer: Sha256::new_with_prefix(padded(block, OUTER_PAD)),
        }
    }

    /// HMAC-SHA-256 of a text, which is hashed where it stands.
    #[tactic(auto, unfolding(crate::specs::Hmac::hmac))]
    pub(crate) fn tag(&self, text: &[u8]) -> [u8; 32]
        ensures { (key : List ℕ) → ArePads key self.now → result ≡ hmac key text.now }
    {
        let mut inner = copied(&self.inner);
        inner.update(text);
        let mut outer = copied(&self.outer);
        outer.update(inner.finalize());
        outer.finalize()
    }
}

/// The pads of each key, in the order of the keys.
pub(crate) fn pads_of(alloc: Global, keys: &[Text8]) -> Result<Vec<Pads>, AllocError>
    requires { All IsKey keys.now }
    ensures { IfOk result (λ pads. AreAllPads keys.now pads.items) }
{
    let mut pads = Vec::new(alloc);
    for key in keys {
        pads.push(Pads::of(key.bytes()))?;
    }
    Ok(pads)
}

/// A hash that goes on from where another one is. It takes no memory.
fn copied(hash: &Sha256) -> Sha256
    ensures { result ≡ hash.now }
{
    let Ok(copy) = hash.clone() else {
        unreachable!();
    };
    copy
}

/// The key, filled with zeros to a block of the hash.
#[tactic(auto, unfolding(crate::specs::Hmac::key_block))]
fn key_block(key: &[u8]) -> [u8; 64]
    requires { length key.now ≤ 64 }
    ensures { result ≡ key_block key.now }
{
    let mut block = [0; 64];
    block[..key.len()].copy_from_slice(key);
    block
}

/// The block, with this pad in exclusive or with each of its bytes.
fn padded(mut block: [u8; 64], pad: u8) -> [u8; 64]
    ensures { result ≡ padded block pad }
{
    for byte in block.iter_mut() {
        *byte ^= pad;
    }
    block
}
