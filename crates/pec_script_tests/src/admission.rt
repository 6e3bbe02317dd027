//! Admission. The answers were worked out by hand from the admission table of RFC 6109 and from this project's profile.

ghost use Rattle.std.specs.Prelude.{◌<◌, length};

use crate::rows::holds;
use pec_directory::Directory;
use pec_points::{Admission, admit};
use pec_screen::{Judge, NoScreens};
use pec_types::{Address, Cause, Class, Facts, Recipient};
use std::alloc::Global;

/// A directory of two providers, of which the first has the limit `LIMIT` and the second gives none.
const DIRECTORY: &str =
    "[[provider]]\nname = \"alfa\"\nmailReceipt = \"r@a\"\nmanagedDomains = [\"a\"]\n\
key = \"000102030405060708090a0b0c0d0e0f\"\nzone = \"CET-1CEST,M3.5.0,M10.5.0/3\"\nlimit = LIMIT\n\
[[provider]]\nname = \"beta\"\nmailReceipt = \"r@b\"\nmanagedDomains = [\"b\"]\n\
key = \"101112131415161718191a1b1c1d1e1f\"\nzone = \"UTC0\"\n";

/// The limit of the first provider, a path and a message, and the cause for which it isn't accepted.
pub(crate) type Row = (&'static str, &'static str, &'static str, Option<Cause>);

/// Messages at the first provider.
static CAUSES: &[Row] = &[
    // A row each, and what is equal in its eyes.
    // A first line without a colon; no empty line.
    ("1000", "b@b", "From a@a|To: b@b||", Some(Cause::Head)),
    ("1000", "b@b", "From: a@a|To: b@b|", Some(Cause::Head)),
    // No sender; two fields; two addresses.
    ("1000", "b@b", "To: b@b||", Some(Cause::From)),
    (
        "1000",
        "b@b",
        "From: a@a|From: a@a|To: b@b||",
        Some(Cause::From),
    ),
    ("1000", "b@b", "From: a@a, a@a|To: b@b||", Some(Cause::From)),
    // No `To`; one without an address.
    ("1000", "b@b", "From: a@a|Cc: b@b||", Some(Cause::To)),
    ("1000", "b@b", "From: a@a|To: |Cc: b@b||", Some(Cause::To)),
    // Another account.
    (
        "1000",
        "b@b",
        "From: c@a|To: b@b||",
        Some(Cause::ReversePath),
    ),
    // A `Cc` without an address; an address too few in the path; one too many.
    (
        "1000",
        "b@b",
        "From: a@a|To: b@b|Cc:||",
        Some(Cause::ForwardPath),
    ),
    (
        "1000",
        "b@b",
        "From: a@a|To: b@b|Cc: c@c||",
        Some(Cause::ForwardPath),
    ),
    (
        "1000",
        "b@b c@c",
        "From: a@a|To: b@b||",
        Some(Cause::ForwardPath),
    ),
    // The second `Bcc` isn't blank; a comma isn't blank; blanks over two lines are.
    (
        "1000",
        "b@b",
        "From: a@a|To: b@b|Bcc: |BCC: x||",
        Some(Cause::Bcc),
    ),
    (
        "1000",
        "b@b",
        "From: a@a|To: b@b|Bcc: ,||",
        Some(Cause::Bcc),
    ),
    ("1000", "b@b", "From: a@a|To: b@b|Bcc:| \t||", None),
    // The path is compared as a set, and all addresses in lower case.
    (
        "1000",
        "c@c B@b b@b c@c",
        "From: a@a|To: b@b|Cc: c@c, b@b||",
        None,
    ),
    ("1000", "B@B C@C", "FROM: <A@A>|TO: B@B|CC: C@C||X", None),
    // The same of nine addresses, in another order; with repeats; and with one too few in the path and one too many.
    (
        "1000",
        "i@b h@b g@b f@b e@b d@b c@b b@b a@b",
        "From: a@a|To: a@b,b@b,c@b,d@b,e@b|Cc: f@b,g@b,h@b,i@b||",
        None,
    ),
    (
        "1000",
        "a@b b@b c@b d@b e@b f@b g@b h@b i@b A@B i@b",
        "From: a@a|To: i@b,b@b,c@b,d@b,i@b|Cc: f@b,g@b,h@b,a@b,e@b||",
        None,
    ),
    (
        "1000",
        "a@b b@b c@b d@b e@b f@b g@b h@b i@b",
        "From: a@a|To: a@b,b@b,c@b,d@b,e@b|Cc: f@b,g@b,h@b,i@b,j@b||",
        Some(Cause::ForwardPath),
    ),
    (
        "1000",
        "a@b b@b c@b d@b e@b f@b g@b h@b i@b j@b",
        "From: a@a|To: a@b,b@b,c@b,d@b,e@b|Cc: f@b,g@b,h@b,i@b||",
        Some(Cause::ForwardPath),
    ),
    // In each of these messages all rows from one on apply, as far as they can together.
    ("1", "c@c", "Bcc: x|Cc:|", Some(Cause::Head)),
    ("1", "c@c", "Bcc: x|Cc:||", Some(Cause::From)),
    ("1", "c@c", "From: c@a|Bcc: x|Cc:||", Some(Cause::To)),
    (
        "1",
        "c@c",
        "From: c@a|Bcc: x|To: b@b|Cc:||",
        Some(Cause::ReversePath),
    ),
    (
        "1",
        "c@c",
        "From: c@a|Bcc: x|To: b@b||",
        Some(Cause::ReversePath),
    ),
    (
        "1",
        "c@c",
        "From: a@a|Bcc: x|To: b@b||",
        Some(Cause::ForwardPath),
    ),
    ("1", "b@b", "From: a@a|Bcc: x|To: b@b||", Some(Cause::Bcc)),
    ("1", "b@b", "From: a@a|To: b@b||", Some(Cause::Size)),
    // Of two rows that apply it is the earlier. Without a head no other row applies, and without a sender and
    // recipients no size is over.
    ("99", "b@b", "Subject: x||", Some(Cause::From)), // rows 2, 3
    ("99", "b@b", "To: b@b||", Some(Cause::From)), // rows 2, 4
    ("99", "c@c", "From: a@a, a@a|To: b@b||", Some(Cause::From)), // rows 2, 5
    ("99", "b@b", "To: b@b|Bcc: x||", Some(Cause::From)), // rows 2, 6
    ("99", "b@b", "From: c@a||", Some(Cause::To)), // rows 3, 4
    ("99", "b@b", "From: a@a||", Some(Cause::To)), // rows 3, 5
    ("99", "b@b", "From: a@a|Bcc: x||", Some(Cause::To)), // rows 3, 6
    ("99", "c@c", "From: c@a|To: b@b||", Some(Cause::ReversePath)), // rows 4, 5
    (
        "99",
        "b@b",
        "From: c@a|To: b@b|Bcc: x||",
        Some(Cause::ReversePath),
    ), // rows 4, 6
    ("1", "b@b", "From: c@a|To: b@b||", Some(Cause::ReversePath)), // rows 4, 7
    (
        "99",
        "c@c",
        "From: a@a|To: b@b|Bcc: x||",
        Some(Cause::ForwardPath),
    ), // rows 5, 6
    ("1", "c@c", "From: a@a|To: b@b||", Some(Cause::ForwardPath)), // rows 5, 7
    ("1", "b@b", "From: a@a|To: b@b|Bcc: x||", Some(Cause::Bcc)), // rows 6, 7
    // The bytes count once for each different recipient.
    // 19 bytes for one recipient, and a byte more.
    ("19", "b@b", "From: a@a|To: b@b||", None),
    ("18", "b@b", "From: a@a|To: b@b||", Some(Cause::Size)),
    ("19", "b@b", "From: a@a|To: b@b||X", Some(Cause::Size)),
    // 23 bytes for two, and a byte more.
    ("46", "b@b c@c", "From: a@a|To: b@b,c@c||", None),
    (
        "45",
        "b@b c@c",
        "From: a@a|To: b@b,c@c||",
        Some(Cause::Size),
    ),
    (
        "46",
        "b@b c@c",
        "From: a@a|To: b@b,c@c||X",
        Some(Cause::Size),
    ),
    // 31 bytes for one that stands there three times.
    ("31", "b@b", "From: a@a|To: b@b,B@b|Cc: b@b||", None),
    (
        "30",
        "b@b",
        "From: a@a|To: b@b,B@b|Cc: b@b||",
        Some(Cause::Size),
    ),
    // A message that is too long for the first provider.
    ("19", "b@b", "From: a@a|To: b@b||X", Some(Cause::Size)),
];

/// The last of them at the second one, which gives no limit of its own.
static ELSEWHERE: Row = ("19", "b@b", "From: a@a|To: b@b||X", None);

#[test]
fn a_message_is_refused_for_its_cause(rt: HostRuntime) {
    for row in CAUSES {
        holds(&rt, has_cause(rt.alloc(), 0, row), row.2);
    }
    holds(&rt, has_cause(rt.alloc(), 1, &ELSEWHERE), "elsewhere");
}

/// Whether the message of a row is answered by its cause at the provider of this number.
fn has_cause(alloc: Global, provider: u32, row: &Row) -> bool {
    cause(alloc, provider, row, &mut NoScreens) == Some(row.3)
}

/// A message that is accepted.
static ACCEPTED: Row = (
    "1000",
    "c@c b@b",
    "From: a@a|To: b@b|Cc: c@c|Subject: Ciao||",
    None,
);

#[test]
fn an_accepted_message_comes_with_its_facts(rt: HostRuntime) {
    assert!(rt; is_accepted(rt.alloc()));
}

/// Whether [`ACCEPTED`] is accepted with its facts.
fn is_accepted(alloc: Global) -> bool {
    match answer(alloc, 0, &ACCEPTED, &mut NoScreens) {
        Some(Admission::Accepted(facts)) => {
            let told = says(&facts);
            let_go(facts);
            told
        }
        _ => false,
    }
}

/// The facts end here, so that the proofs of others are spared how they do.
fn let_go(_facts: Facts) {}

/// Whether these are the sender and the recipients of [`ACCEPTED`].
fn says(facts: &Facts) -> bool {
    let [first, second] = facts.recipients.as_slice() else {
        return false;
    };
    facts.sender.bytes() == b"a@a".as_slice()
        && is(first, b"b@b", Class::Primary)
        && is(second, b"c@c", Class::Copy)
}

fn is(recipient: &Recipient, address: &[u8], class: Class) -> bool {
    recipient.class == class && recipient.address.bytes() == address
}

/// The cause for which the provider of a number doesn't accept the message of a row, if there is one; none at all where
/// memory is wanting.
pub(crate) fn cause<J: Judge>(
    alloc: Global,
    provider: u32,
    row: &Row,
    screens: &mut J,
) -> Option<Option<Cause>> {
    match answer(alloc, provider, row, screens)? {
        Admission::Accepted(facts) => {
            let_go(facts);
            Some(None)
        }
        Admission::Not(cause) => Some(Some(cause)),
    }
}

/// What it answers on this message, whose lines end with `|`.
fn answer<J: Judge>(alloc: Global, provider: u32, row: &Row, screens: &mut J) -> Option<Admission> {
    let directory = directory_of(alloc, row.0)?;
    if provider >= directory.count() {
        return None;
    }
    answer_in(alloc, &directory, provider, row, screens)
}

/// The same in a directory, where the account a@a hands the message in.
fn answer_in<J: Judge>(
    alloc: Global,
    directory: &Directory,
    provider: u32,
    row: &Row,
    screens: &mut J,
) -> Option<Admission>
    requires { provider < length directory.now }
{
    let path = path_of(alloc, row.1);
    let message = lines_of(alloc, row.2);
    match Address::read(alloc, b"A@a") {
        Ok(sender) => admit(
            alloc,
            directory,
            provider,
            &sender,
            &path,
            message.as_bytes(),
            screens,
        )
        .ok(),
        Err(_) => None,
    }
}

/// A message, whose lines end with `|` in the row. Where memory is wanting it has none, and what comes isn't what has
/// to.
fn lines_of(alloc: Global, text: &str) -> String {
    match text.replace(alloc, "|", "\n") {
        Ok(text) => text,
        Err(_) => String::new(alloc),
    }
}

fn directory_of(alloc: Global, limit: &str) -> Option<Directory> {
    let text = DIRECTORY.replace(alloc, "LIMIT", limit).ok()?;
    Directory::read(alloc, text.as_str()).ok()
}

/// The addresses of a path, which are parted by spaces. Where memory is wanting some lack.
fn path_of(alloc: Global, text: &str) -> Vec<Address> {
    let mut path = Vec::new(alloc);
    for address in text.split(' ') {
        add_address(alloc, &mut path, address);
    }
    path
}

fn add_address(alloc: Global, path: &mut Vec<Address>, text: &str) {
    if let Ok(address) = Address::read(alloc, text.as_bytes()) {
        let _ = path.push(address);
    }
}
