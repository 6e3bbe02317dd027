//! Seals of providers, and the tags in them.
ghost use Rattle.std.specs.Prelude.{◌≡◌, IfSome, [], ◌∷◌, codes};
ghost use Rattle.pec_seal.specs.Hmac.{hmac_seals, IsKey};

use crate::rows::{holds, holds_of};
use crate::texts::is_text;
use pec_seal::{HmacSealer, SealFault, Sealer, Text8, opened, seal};
use pec_types::Text;
use std::alloc::Global;

/// Keys, texts and their tags: of RFC 4231, part 4, the test cases whose keys have at most the 64 bytes of a block, and
/// a key of a whole block, by another program.
static TAGS: [(&[u8], &[u8], &str); 5] = [
    // test case 1: a key of 20 bytes
    (
        &[0x0b; 20],
        b"Hi There",
        "b0344c61d8db38535ca8afceaf0bf12b881dc200c9833da726e9376c2e32cff7",
    ),
    // test case 2: a key that is shorter than a tag
    (
        b"Jefe",
        b"what do ya want for nothing?",
        "5bdcc146bf60754e6a042426089575c75a003f089d2739839dec58b964ec3843",
    ),
    // test case 3: key and text together have more than a block
    (
        &[0xaa; 20],
        &[0xdd; 50],
        "773ea91e36800e46854db8ebd09181a72959098b3ef8c122d9635514ced565fe",
    ),
    // test case 4: the same with another key
    (
        b"\x01\x02\x03\x04\x05\x06\x07\x08\x09\x0a\x0b\x0c\x0d\x0e\x0f\x10\x11\x12\x13\x14\x15\x16\x17\x18\x19",
        &[0xcd; 50],
        "82558a389a443c0ea4cc819899f2083a85f0faa3e578f8077a2e3ff46729665b",
    ),
    // a key of 64 bytes, the most that a key may have: nothing is added to it
    (
        &[0xaa; 64],
        b"Hi There",
        "ebef34e13d0a0fe04593d043bc7a865106db0604211d404c18206d862e5d7852",
    ),
];

#[test]
fn a_tag_is_that_of_the_standard(rt: HostRuntime) {
    for (key, text, tag) in &TAGS {
        holds(&rt, is_tag(rt.alloc(), key, text, tag), tag);
    }
}

fn is_tag(alloc: Global, key: &[u8], text: &[u8], wanted: &str) -> bool {
    if key.is_empty() || key.len() > 64 {
        return false;
    }
    match sealer_of(alloc, b"alfa", key) {
        Some(sealer) => is_hexadecimal(alloc, &sealer.tag(0, text), wanted),
        None => false,
    }
}

fn is_hexadecimal(alloc: Global, bytes: &[u8], wanted: &str) -> bool {
    match hex::encode(alloc, bytes) {
        Ok(text) => text.as_str() == wanted,
        Err(_) => false,
    }
}

/// One provider of this name, with this key.
fn sealer_of(alloc: Global, name: &[u8], key: &[u8]) -> Option<HmacSealer>
    requires { IsKey key.now }
    ensures { IfSome result (λ sealer. ⟦<HmacSealer as Sealer>⟧.seals sealer ≡ hmac_seals (name.now ∷ []) (key.now ∷ [])) }
{
    match (name_of(alloc, name), key_of(alloc, key)) {
        (Some(name), Some(key)) => sealer_with(alloc, name, key),
        _ => None,
    }
}

fn sealer_with(alloc: Global, name: Text, key: Text8) -> Option<HmacSealer>
    requires { IsKey key }
    ensures { IfSome result (λ sealer. ⟦<HmacSealer as Sealer>⟧.seals sealer ≡ hmac_seals (name ∷ []) (key ∷ [])) }
{
    match (vec![in alloc; name], vec![in alloc; key]) {
        (Ok(names), Ok(keys)) => HmacSealer::new(alloc, names, keys).ok(),
        _ => None,
    }
}

fn name_of(alloc: Global, bytes: &[u8]) -> Option<Text>
    ensures { IfSome result (λ name. name ≡ bytes.now) }
{
    Text::new(alloc, bytes).ok()
}

fn key_of(alloc: Global, bytes: &[u8]) -> Option<Text8>
    ensures { IfSome result (λ key. key ≡ bytes.now) }
{
    match Vec::from_slice(alloc, bytes) {
        Ok(bytes) => Some(Text8::of(bytes)),
        Err(_) => None,
    }
}

/// The text of test case 2 under its tag, which another program wrote in base64.
const KNOWN: &[u8] =
    b"X-Sigillo: alfa; W9zBRr9gdU5qBCQmCJV1x1oAPwidJzmDnexYuWTsOEM=\r\nwhat do ya want for nothing?";

/// The text, by a function without a clause: the proofs of others are spared it.
fn known() -> &'static [u8] {
    KNOWN
}

#[test]
fn a_seal_is_one_line_before_the_text(rt: HostRuntime) {
    assert!(rt; seals_as_known(rt.alloc()));
}

fn seals_as_known(alloc: Global) -> bool {
    match sealer_of(alloc, b"alfa", b"Jefe") {
        Some(sealer) => {
            is_text(
                sealed(alloc, &sealer, 0, b"what do ya want for nothing?"),
                known(),
            )
        }
        None => false,
    }
}

/// The bytes under the seal of a provider; none where there is no such provider.
fn sealed<S: Sealer>(alloc: Global, sealer: &S, provider: u32, bytes: &[u8]) -> Option<Vec<u8>> {
    if sealer.name(provider).is_none() {
        return None;
    }
    seal(alloc, sealer, provider, bytes).ok()
}

/// What is no seal of `alfa` under the key of [`KNOWN`], each beside its fault.
static FAULTS: [(&[u8], SealFault); 1] = [
    // another last byte
    (
        b"X-Sigillo: alfa; W9zBRr9gdU5qBCQmCJV1x1oAPwidJzmDnexYuWTsOEM=\r\nwhat do ya want for nothing!",
        SealFault::WrongTag,
    ),
];

#[test]
fn what_is_no_seal_has_the_fault_that_comes_first(rt: HostRuntime) {
    for (text, fault) in &FAULTS {
        holds_of(&rt, has_fault(rt.alloc(), text, *fault), text);
    }
}

fn has_fault(alloc: Global, text: &[u8], fault: SealFault) -> bool {
    match sealer_of(alloc, b"alfa", b"Jefe") {
        Some(sealer) => opened(&sealer, text) == Err(fault),
        None => false,
    }
}

/// Seals as any sealer does, and opens what it sealed.
fn seals_and_opens<S: Sealer>(alloc: Global, sealer: &S, provider: u32, bytes: &[u8]) -> bool {
    match sealed(alloc, sealer, provider, bytes) {
        Some(text) => opened(sealer, &text) == Ok((provider, bytes)),
        None => false,
    }
}

/// A name, and a text that is sealed under it.
static SEALED: [(&[u8], &[u8]); 7] = [
    (b"alfa", b""), // nothing to seal
    (b"alfa", KNOWN), // what is sealed already
    (b"alfa", b"\r\n"), // a line end in front
    (b"alfa", &[0; 200]), // bytes that are no text
    (b"", KNOWN), // a name of no byte
    (b"a; b", KNOWN), // a name with what stands behind names
    (b"X-Sigillo: ", KNOWN), // a name as the line begins
];

#[test]
fn what_was_sealed_is_opened_whatever_name_and_text(rt: HostRuntime) {
    for (name, bytes) in &SEALED {
        holds_of(&rt, is_opened_again(rt.alloc(), name, bytes), name);
    }
}

fn is_opened_again(alloc: Global, name: &[u8], bytes: &[u8]) -> bool {
    match sealer_of(alloc, name, b"Jefe") {
        Some(sealer) => seals_and_opens(alloc, &sealer, 0, bytes),
        None => false,
    }
}

#[test]
fn each_provider_has_its_own_name_and_key(rt: HostRuntime) {
    assert!(rt; has_two_providers(rt.alloc()));
}

fn has_two_providers(alloc: Global) -> bool {
    match two_providers(alloc) {
        Some(sealer) => are_two(&sealer) && seals_and_opens(alloc, &sealer, 1, known()),
        None => false,
    }
}

fn are_two<S: Sealer>(sealer: &S) -> bool {
    sealer.number(b"beta") == Some(1)
        && sealer.number(b"gamma").is_none()
        && sealer.name(2).is_none()
        && opened(sealer, known()) == Ok((0, b"what do ya want for nothing?".as_slice()))
}

fn two_providers(alloc: Global) -> Option<HmacSealer> {
    match (two_names(alloc), two_keys(alloc)) {
        (Some(names), Some(keys)) => HmacSealer::new(alloc, names, keys).ok(),
        _ => None,
    }
}

fn two_names(alloc: Global) -> Option<Vec<Text>>
    ensures { IfSome result (λ names. names.items ≡ codes "alfa" ∷ codes "beta" ∷ []) }
{
    match (name_of(alloc, b"alfa"), name_of(alloc, b"beta")) {
        (Some(first), Some(second)) => vec![in alloc; first, second].ok(),
        _ => None,
    }
}

fn two_keys(alloc: Global) -> Option<Vec<Text8>>
    ensures { IfSome result (λ keys. keys.items ≡ codes "Jefe" ∷ codes "k" ∷ []) }
{
    match (key_of(alloc, b"Jefe"), key_of(alloc, b"k")) {
        (Some(first), Some(second)) => vec![in alloc; first, second].ok(),
        _ => None,
    }
}
