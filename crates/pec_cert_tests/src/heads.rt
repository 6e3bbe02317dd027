//! Heads: where they end, what is found in them, and how they are written.
use crate::rows::holds;
use crate::texts::{are_these, is_value, joined, put, says};
use pec_heads::{Head, HeadFault, ListFault, end_head, put_addresses, put_field};
use pec_types::{Address, AddressFault, Class, Facts, Recipient, Text, Wish};
use std::alloc::Global;

static ENDS: [(&str, Result<usize, HeadFault>); 2] = [
    ("A: b\r\n c\n\nx", Ok(10)), // folded; both line ends
    ("A: b\r\n", Err(HeadFault::NoEnd)), // a field, no empty line
];

#[test]
fn a_head_ends_at_its_empty_line_or_has_the_fault_of_its_first_wrong_line(rt: HostRuntime) {
    for (text, wanted) in &ENDS {
        holds(&rt, is_ended(rt.alloc(), text.as_bytes(), *wanted), text);
    }
}

/// Whether this is the place behind the head, or its fault.
fn is_ended(alloc: Global, text: &[u8], wanted: Result<usize, HeadFault>) -> bool {
    match Head::read(alloc, text) {
        Ok((_, place)) => wanted == Ok(place),
        Err(fault) => wanted == Err(fault),
    }
}

const FOLDED: &[u8] =
    b"Subject: \xc3\xa8\r\n b\r\n\tc \r\nTO:x\nto:\t y\nA:\n x\nC: \n\t\na: w\n\tv\nc:\n\n";

static VALUES: [(&str, usize, &[u8]); 7] = [
    ("sUBJECT", 0, b"\xc3\xa8 b\tc"), // each continuation keeps its blank
    ("To", 0, b"x"),
    ("To", 1, b"y"), // trimmed of a tab
    ("A", 0, b"x"), // nothing in the first line
    ("A", 1, b"w\tv"),
    ("C", 0, b""), // blanks alone, in two lines
    ("C", 1, b""),
];

#[test]
fn values_are_found_by_name_in_any_case_and_unfolded(rt: HostRuntime) {
    assert!(rt; finds_values(rt.alloc()));
}

fn finds_values(alloc: Global) -> bool {
    match head_of(alloc, FOLDED) {
        Some(head) => has_values(&head, &VALUES) && tells_fields(&head),
        None => false,
    }
}

fn has_values(head: &Head, rows: &[(&str, usize, &[u8])]) -> bool {
    for (name, i, wanted) in rows {
        if !is_value(head.value(name.as_bytes(), *i), wanted) {
            return false;
        }
    }
    true
}

fn tells_fields(head: &Head) -> bool {
    head.count(b"To") == 2
        && is_value(head.field(b"tO"), b"x")
        && head.value(b"To", 2).is_none()
        && head.field(b"Subjec").is_none()
        && head.is_filled(b"a")
        && !head.is_filled(b"c")
        && !head.is_filled(b"D")
}

static LISTS: [(&str, &str); 1] = [
    ("\"Rossi, Mario\" <m@a.it>, b@a.it,", "m@a.it b@a.it "), // a quoted comma; a blank entry
];

#[test]
fn a_list_is_its_entries_outside_quotes(rt: HostRuntime) {
    for (value, wanted) in &LISTS {
        holds(&rt, lists(rt.alloc(), value, wanted), value);
    }
}

/// Whether the field `To` with this value has these addresses, each with a space.
fn lists(alloc: Global, value: &str, wanted: &str) -> bool {
    match head_to(alloc, value) {
        Some(head) => are_addresses(alloc, &head, wanted),
        None => false,
    }
}

fn are_addresses(alloc: Global, head: &Head, wanted: &str) -> bool {
    match head.addresses(alloc, b"to") {
        Ok(addresses) => says(listed(alloc, &addresses), wanted.as_bytes()),
        Err(_) => false,
    }
}

fn listed(alloc: Global, addresses: &[Address]) -> Vec<u8> {
    let mut text = Vec::new(alloc);
    for address in addresses {
        put(&mut text, address.bytes());
        put(&mut text, b" ");
    }
    text
}

/// A head of the field `To` with this value.
fn head_to(alloc: Global, value: &str) -> Option<Head> {
    let text = joined(alloc, &[b"To:", value.as_bytes(), b"\n\n"]);
    head_of(alloc, &text)
}

pub(crate) fn head_of(alloc: Global, text: &[u8]) -> Option<Head> {
    match Head::read(alloc, text) {
        Ok((head, _)) => Some(head),
        Err(_) => None,
    }
}

static WRONG_LISTS: [(&str, ListFault); 1] = [
    (
        "a@b (x)",
        ListFault::BadAddress(0, AddressFault::BadDomain(3)),
    ), // no comments
];

#[test]
fn a_wrong_list_has_the_fault_of_its_first_wrong_entry(rt: HostRuntime) {
    for (value, fault) in &WRONG_LISTS {
        holds(&rt, has_list_fault(rt.alloc(), value, *fault), value);
    }
}

fn has_list_fault(alloc: Global, value: &str, wanted: ListFault) -> bool {
    match head_to(alloc, value) {
        Some(head) => head.addresses(alloc, b"to").err() == Some(wanted),
        None => false,
    }
}

const FULL: &[u8] =
    b"From: Anna <A@b>\nTo: c@d, e@f\nTo: C@D\nCc: g@h, e@f, g@h\nX-TipoRicevuta: BREVE\nSubject: \t\xe8\tx \nMessage-ID: <1>\nReply-To: \x80\n\n";

#[test]
fn facts_are_what_the_first_fields_say(rt: HostRuntime) {
    assert!(rt; are_full_facts(rt.alloc()));
}

fn are_full_facts(alloc: Global) -> bool {
    match facts_of(alloc, FULL) {
        Some(facts) => says_all(&facts) && has_recipients(alloc, &facts, b"c@d+e@f+g@h "),
        None => false,
    }
}

fn says_all(facts: &Facts) -> bool {
    are_these(facts.sender.bytes(), b"a@b")
        && facts.wish == Wish::Brief
        && is_said(&facts.subject, b"? x")
        && is_said(&facts.reference, b"<1>")
        && are_these(facts.reply.bytes(), b"?")
}

fn is_said(found: &Option<Text>, wanted: &[u8]) -> bool {
    match found {
        Some(text) => are_these(text.bytes(), wanted),
        None => false,
    }
}

/// Whether these are the recipients, each with a plus where it is primary and a space otherwise.
fn has_recipients(alloc: Global, facts: &Facts, wanted: &[u8]) -> bool {
    says(shown(alloc, facts.recipients.as_slice()), wanted)
}

fn shown(alloc: Global, recipients: &[Recipient]) -> Vec<u8> {
    let mut text = Vec::new(alloc);
    for recipient in recipients {
        put(&mut text, recipient.address.bytes());
        put(&mut text, sign(recipient.class));
    }
    text
}

fn sign(class: Class) -> &'static [u8] {
    match class {
        Class::Primary => b"+",
        Class::Copy => b" ",
    }
}

fn facts_of(alloc: Global, text: &[u8]) -> Option<Facts> {
    match head_of(alloc, text) {
        Some(head) => facts_in(alloc, &head),
        None => None,
    }
}

fn facts_in(alloc: Global, head: &Head) -> Option<Facts> {
    match head.facts(alloc) {
        Ok(facts) => facts,
        Err(_) => None,
    }
}

/// A head that is written field by field, and one byte behind it.
const WHOLE: &[u8] =
    b"From: a@b\r\nTo: anna@alfa.example,\r\n bob@beta.example,\r\n anna@alfa.example\r\nCc: bob@beta.example\r\nBcc: \r\nSubject: POSTA CERTIFICATA: \r\n\r\nx";

static WRITTEN: [(&str, &str); 5] = [
    ("From", "a@b"),
    (
        "To",
        "anna@alfa.example, bob@beta.example, anna@alfa.example",
    ), // unfolded
    ("Cc", "bob@beta.example"),
    ("Bcc", ""),
    ("Subject", "POSTA CERTIFICATA:"), // the blank at the end is cut off
];

/// The text, by a function without a clause: the proofs of others are spared it.
fn whole() -> &'static [u8] {
    WHOLE
}

#[test]
fn a_written_head_has_crlf_at_each_line_and_is_read_as_it_was_written(rt: HostRuntime) {
    assert!(rt; is_written(rt.alloc(), whole()));
    assert!(rt; has_fields(rt.alloc(), whole()));
}

fn is_written(alloc: Global, wanted: &[u8]) -> bool {
    match (
        address(alloc, b"Anna@alfa.example"),
        address(alloc, b"bob@beta.example"),
    ) {
        (Some(first), Some(second)) => says(written(alloc, &first, &second), wanted),
        _ => false,
    }
}

fn address(alloc: Global, text: &[u8]) -> Option<Address> {
    Address::read(alloc, text).ok()
}

/// Whether the text is a head with the fields that were written and one byte behind it.
fn has_fields(alloc: Global, text: &[u8]) -> bool {
    match Head::read(alloc, text) {
        Ok((head, place)) => text.len() == place.saturating_add(1) && are_fields(&head, &WRITTEN),
        Err(_) => false,
    }
}

fn are_fields(head: &Head, rows: &[(&str, &str)]) -> bool {
    for (name, wanted) in rows {
        if !is_value(head.field(name.as_bytes()), wanted.as_bytes()) {
            return false;
        }
    }
    true
}

fn written(alloc: Global, first: &Address, second: &Address) -> Vec<u8> {
    let mut text = Vec::new(alloc);
    let _ = put_field(&mut text, b"From", b"a@b");
    let _ = put_addresses(&mut text, b"To", &[first, second, first]);
    let _ = put_addresses(&mut text, b"Cc", &[second]);
    let _ = put_addresses(&mut text, b"Bcc", &[]);
    let _ = put_field(&mut text, b"Subject", b"POSTA CERTIFICATA: ");
    let _ = end_head(&mut text);
    put(&mut text, b"x");
    text
}
