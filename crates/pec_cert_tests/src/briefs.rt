//! Brief forms of messages.
use crate::texts::says;
use pec_brief::brief;
use std::alloc::Global;

const MESSAGE: &str =
    "From: Alice <alice@alfa.example>\r\nTo: \"Bob, Ufficio\" <bob@beta.example>\r\nSubject: =?utf-8?q?Perch=C3=A9?=\r\nMessage-ID: <c1@client.example>\r\nX-TipoRicevuta: breve\r\nMIME-Version: 1.0\r\nContent-Type: multipart/mixed; boundary=XYZ\r\n\r\n--XYZ\r\nContent-Type: text/plain\r\n\r\nBuongiorno\r\n--XYZ\r\nContent-Type: text/plain; name=\"nota.txt\"\r\nContent-Disposition: attachment; filename=\"nota.txt\"\r\n\r\nThe quick brown fox jumps over the lazy dog\r\n--XYZ\r\nContent-Type: application/octet-stream\r\nContent-Disposition: attachment\r\n\r\nabc\r\n--XYZ--\r\n";

const SHORT: &str =
    "From: Alice <alice@alfa.example>\r\nTo: \"Bob, Ufficio\" <bob@beta.example>\r\nSubject: =?utf-8?q?Perch=C3=A9?=\r\nMessage-ID: <c1@client.example>\r\nX-TipoRicevuta: breve\r\nMIME-Version: 1.0\r\nContent-Type: multipart/mixed; boundary=XYZ\r\n\r\n--XYZ\r\nContent-Type: text/plain\r\n\r\nBuongiorno\r\n--XYZ\r\nContent-Type: text/plain; name=\"nota.txt.hash\"\r\nContent-Disposition: attachment; filename=\"nota.txt.hash\"\r\n\r\nd7a8fbb307d7809469ca9abcb0082e4f8d5651e46d3cdb762d02d0bf37c9e592\r\n--XYZ\r\nContent-Type: text/plain; name=\"allegato.hash\"\r\nContent-Disposition: attachment; filename=\"allegato.hash\"\r\n\r\nba7816bf8f01cfea414140de5dae2223b00361a396177a9cb410ff61f20015ad\r\n--XYZ--\r\n";

#[test]
fn a_message_of_a_usual_client_keeps_all_but_its_two_attachments(rt: HostRuntime) {
    assert!(rt; is_brief(rt.alloc(), MESSAGE.as_bytes(), SHORT.as_bytes()));
}

/// Whether this is the brief form of the message.
fn is_brief(alloc: Global, message: &[u8], wanted: &[u8]) -> bool {
    match brief(alloc, message) {
        Ok(short) => says(short, wanted),
        Err(_) => false,
    }
}
