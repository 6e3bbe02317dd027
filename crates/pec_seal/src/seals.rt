ghost use Rattle.std.specs.Prelude.{◌≡◌, ℕ, ◌↔◌, List, Some, Ok, Result, IsSome, IfOk, OnErr, IsErrOf};
ghost use Rattle.pec_seal.specs.Seals.{HasLine, HasNoSeal, HasUnknownName, HasWrongTag, IsSealedByNone, Line, Seals, sealed};
ghost use Rattle.pec_seal.specs.Opening.{opened_of};
ghost use Rattle.pec_seal.specs.Views.{opened_shown};

use crate::lines::{read_line, write_line};
use crate::sealers::Sealer;
use pec_types::NoMemory;
use std::alloc::Global;

/// Why a text doesn't open, in the order in which the faults are found.
#[derive(Clone, Copy, Debug, PartialEq, Eq)]
pub enum SealFault {
    /// It doesn't begin with a seal line.
    NoSeal,
    /// The line names no provider.
    UnknownProvider,
    /// The tag isn't the one that the provider gives to the bytes behind the line.
    WrongTag,
}

/// The bytes, sealed by a provider: the line `X-Sigillo: NAME; TAG` CRLF with the provider's name and the base64 (RFC
/// 4648, section 4) of its tag for the bytes, and the bytes. This project's profile.
pub fn seal<S: Sealer>(
    alloc: Global,
    sealer: &S,
    provider: u32,
    bytes: &[u8],
) -> Result<Vec<u8>, NoMemory>
    requires { IsSome ((S.seals sealer.now).name_of provider) }
    ensures text { IfOk result (λ text.
        sealed (S.seals sealer.now) provider bytes.now ≡ Some text.items) }
    // `opened` gives it back.
    ensures opens { IfOk result (λ text.
        opened_of (S.seals sealer.now) text.items ≡ Ok (provider, bytes.now)) }
{
    let Some(name) = sealer.name(provider) else {
        unreachable!();
    };
    let mut text = write_line(alloc, name, &sealer.tag(provider, bytes), bytes.len())?;
    text.extend_from_slice(bytes)?;
    Ok(text)
}

/// Who sealed a text, and the bytes that were sealed: the text behind the seal line. It takes no memory.
#[tactic(auto, unfolding(crate::specs::Opening::opened_of))]
pub fn opened<'a, S: Sealer>(sealer: &S, message: &'a [u8]) -> Result<(u32, &'a [u8]), SealFault>
    // A text opens exactly where it is sealed, as what was sealed.
    ensures sealed { IfOk result (λ found.
        sealed (S.seals sealer.now) found.0 found.1.now ≡ Some message.now) }
    ensures refused { OnErr result (IsSealedByNone (S.seals sealer.now) message.now) }

    // When each fault comes.
    ensures no_seal { IsErrOf result SealFault.NoSeal ↔ HasNoSeal message.now }
    ensures unknown_provider { IsErrOf result SealFault.UnknownProvider
        ↔ HasUnknownName (S.seals sealer.now) message.now }
    ensures wrong_tag { IsErrOf result SealFault.WrongTag
        ↔ HasWrongTag (S.seals sealer.now) message.now }

    // The same, as a function of the text.
    ensures exact { opened_shown result ≡ opened_of (S.seals sealer.now) message.now }
{
    let Some(line) = read_line(message) else {
        return Err(SealFault::NoSeal);
    };
    let Some(provider) = sealer.number(line.name) else {
        return Err(SealFault::UnknownProvider);
    };
    if !sealer.agrees(provider, line.bytes, &line.tag) {
        return Err(SealFault::WrongTag);
    }
    Ok((provider, line.bytes))
}

/// What sealing and opening are to each other, for every sealer and every text.
pub fn sealing_and_opening<S: Sealer>()
    // What is sealed opens as what was sealed, and nothing else opens.
    ensures opens { (sealer : S) (provider : ℕ) (bytes text : List ℕ)
        → (opened_of (S.seals sealer) text ≡ Ok (provider, bytes))
        ↔ (sealed (S.seals sealer) provider bytes ≡ Some text) }

    // No text is sealed in two ways.
    ensures one_way { (sealer : S) (provider other : ℕ) (bytes more text : List ℕ)
        → sealed (S.seals sealer) provider bytes ≡ Some text
        → sealed (S.seals sealer) other more ≡ Some text → (provider ≡ other) × (bytes ≡ more) }

    // No text has two seal lines, whoever sealed it.
    ensures one_line { (line other : Line) (text : List ℕ)
        → HasLine line text → HasLine other text → line ≡ other }
{}
