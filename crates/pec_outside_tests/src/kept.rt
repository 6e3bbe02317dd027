//! Texts, moments and lists.
use crate::texts::{are_these, joined};
use pec_types::{Items, Moment, Text, Text8, TextFault};
use std::alloc::Global;

#[test]
fn texts_moments_and_lists_are_kept(rt: HostRuntime) {
    assert!(rt; are_kept(rt.alloc()));
}

fn are_kept(alloc: Global) -> bool {
    keeps_text(alloc, b" ~")
        && refuses_text(alloc, b"a\n", TextFault::NotPrintable(1))
        && keeps_bytes(alloc, &[0, 255])
        && has_a_last_moment()
        && keeps_list(alloc)
}

fn keeps_text(alloc: Global, bytes: &[u8]) -> bool {
    match Text::new(alloc, bytes) {
        Ok(text) => is_copied(alloc, &text, bytes),
        Err(_) => false,
    }
}

fn is_copied(alloc: Global, text: &Text, bytes: &[u8]) -> bool {
    match text.copy(alloc) {
        Ok(copy) => are_these(copy.bytes(), bytes),
        Err(_) => false,
    }
}

fn refuses_text(alloc: Global, bytes: &[u8], fault: TextFault) -> bool {
    Text::new(alloc, bytes).err() == Some(fault)
}

fn keeps_bytes(alloc: Global, bytes: &[u8]) -> bool {
    let owned = Text8::of(joined(alloc, &[bytes]));
    match owned.copy(alloc) {
        Ok(copy) => are_these(copy.bytes(), bytes),
        Err(_) => false,
    }
}

fn has_a_last_moment() -> bool {
    match Moment::new(4_102_444_799) {
        Some(moment) => moment.seconds() == 4_102_444_799 && Moment::new(4_102_444_800).is_none(),
        None => false,
    }
}

fn keeps_list(alloc: Global) -> bool {
    match vec![in alloc; 3u8, 4u8] {
        Ok(items) => are_these(Items::of(items).as_slice(), &[3, 4]),
        Err(_) => false,
    }
}
