//! The envelope of a message, read back. The tables of faults are tests/vectors/envelopes.rows and receipts.rows.
use crate::houses::{House, sealed};
use crate::letter_texts::{SALVE, SALVE_ENVELOPE};
use crate::texts::{replaced, written};
use pec_letters::{EnvelopeView, read_envelope};
use pec_types::{Disputed, LetterFault};
use std::alloc::Global;

/// The texts, by functions without a clause: the proofs of the tests are then spared them.
fn salve() -> &'static str {
    SALVE
}

fn salve_envelope() -> &'static str {
    SALVE_ENVELOPE
}

#[test]
fn an_envelope_is_read_as_its_message(rt: HostRuntime) {
    assert!(rt; is_read(rt.alloc()));
}

#[test]
fn one_with_another_wish_disagrees(rt: HostRuntime) {
    assert!(rt; disagrees(rt.alloc()));
}

/// Whether the letter that the first provider sealed is read as the envelope of `SALVE`.
fn is_read(alloc: Global) -> bool {
    match House::of(alloc, "gamma.example") {
        Some(house) => {
            let text = sealed(alloc, &house, 0, salve_envelope());
            let original = written(alloc, salve());
            is_read_in(alloc, &house, &text, original.as_bytes())
        }
        None => false,
    }
}

fn is_read_in(alloc: Global, house: &House, text: &[u8], original: &[u8]) -> bool {
    match read_envelope(alloc, &house.sealer, &house.directory, text) {
        Ok(view) => is_salve(&view, original),
        Err(_) => false,
    }
}

fn is_salve(view: &EnvelopeView<'_>, original: &[u8]) -> bool {
    view.id.provider == 0
        && view.id.number == 0
        && view.moment.seconds() == 1_704_186_000
        && view.facts.sender.bytes() == b"alice@alfa.example".as_slice()
        && view.original == original
}

/// Whether the letter with another wish in its certification text, sealed anew, has that fault.
fn disagrees(alloc: Global) -> bool {
    let letter = replaced(
        alloc,
        salve_envelope(),
        "tipo=\"completa\"",
        "tipo=\"breve\"",
    );
    match House::of(alloc, "gamma.example") {
        Some(house) => {
            let text = sealed(alloc, &house, 0, letter.as_str());
            fault_of(alloc, &house, &text) == Some(LetterFault::Disagree(Disputed::Wish))
        }
        None => false,
    }
}

fn fault_of(alloc: Global, house: &House, text: &[u8]) -> Option<LetterFault> {
    read_envelope(alloc, &house.sealer, &house.directory, text).err()
}
