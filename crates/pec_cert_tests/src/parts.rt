//! Bodies that have parts.
use crate::heads::head_of;
use crate::texts::{are_these, is_value};
use pec_bodies::{Part, Parts};
use pec_heads::Head;
use std::alloc::Global;

/// A client's message with two attachments, of which the second has no name.
const MESSAGE: &[u8] =
    b"From: Alice <alice@alfa.example>\r\nTo: \"Bob, Ufficio\" <bob@beta.example>\r\n\
    Subject: =?utf-8?q?Perch=C3=A9?=\r\nMessage-ID: <c1@client.example>\r\nX-TipoRicevuta: breve\r\nMIME-Version: 1.0\r\n\
    Content-Type: multipart/mixed; boundary=XYZ\r\n\r\n";

const BODY: &[u8] = b"--XYZ\r\nContent-Type: text/plain\r\n\r\nBuongiorno\r\n\
    --XYZ\r\nContent-Type: text/plain; name=\"nota.txt\"\r\nContent-Disposition: attachment; filename=\"nota.txt\"\r\n\r\n\
    The quick brown fox jumps over the lazy dog\r\n\
    --XYZ\r\nContent-Type: application/octet-stream\r\nContent-Disposition: attachment\r\n\r\nabc\r\n--XYZ--\r\n";

/// The text, by a function without a clause: the proofs of others are spared it.
fn body() -> &'static [u8] {
    BODY
}

// The body of each part, and its disposition.
static PARTS: [(&str, Option<&str>); 3] = [
    ("Buongiorno", None),
    (
        "The quick brown fox jumps over the lazy dog",
        Some("attachment; filename=\"nota.txt\""),
    ),
    ("abc", Some("attachment")),
];

#[test]
fn each_part_has_its_head_and_its_body(rt: HostRuntime) {
    assert!(rt; has_heads_and_bodies(rt.alloc()));
}

fn has_heads_and_bodies(alloc: Global) -> bool {
    match head_of(alloc, MESSAGE) {
        Some(head) => has_rows(alloc, &head),
        None => false,
    }
}

fn has_rows(alloc: Global, head: &Head) -> bool {
    match Parts::read(alloc, head, body()) {
        Ok(parts) => parts.count() == 3 && are_parts(&parts, &PARTS) && ends_behind(&parts, 3),
        Err(_) => false,
    }
}

fn ends_behind(parts: &Parts<'_>, count: usize) -> bool {
    parts.part(count).is_none() && parts.head(count).is_none()
}

fn are_parts(parts: &Parts<'_>, rows: &[(&str, Option<&str>)]) -> bool {
    for (i, (text, disposition)) in rows.iter().enumerate() {
        if !is_body(parts.part(i), text) || !has_disposition(parts.head(i), *disposition) {
            return false;
        }
    }
    true
}

/// Whether the part has this text, and stands at its place.
fn is_body(part: Option<Part<'_>>, text: &str) -> bool {
    match part {
        Some(part) => are_these(part.body, text.as_bytes()) && stands_at(part.start, part.whole),
        None => false,
    }
}

fn stands_at(start: usize, whole: &[u8]) -> bool {
    match body().get(start..) {
        Some(rest) => rest.starts_with(whole),
        None => false,
    }
}

fn has_disposition(head: Option<&Head>, wanted: Option<&str>) -> bool {
    match head {
        Some(head) => is_disposition(head.field(b"Content-Disposition"), wanted),
        None => false,
    }
}

fn is_disposition(found: Option<&[u8]>, wanted: Option<&str>) -> bool {
    match wanted {
        Some(text) => is_value(found, text.as_bytes()),
        None => found.is_none(),
    }
}
