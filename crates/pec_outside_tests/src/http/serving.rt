//! One request, served at the desk of one account.
ghost use Rattle.std.specs.Prelude.{◌<◌};

use super::desk::{Mood, OneAccountDesk};
use super::wire::Wire;
use crate::texts::{joined, put, put_number, says};
use pec_http::{Served, serve_one};
use std::alloc::Global;

/// The kind of all answers but messages.
pub const TEXT: &str = "text/plain";

/// The number of a call that isn't made.
pub const NEVER: u64 = u64::MAX;

/// What became of a request, of the connection and of the desk.
pub struct Exchange {
    pub served: Served,
    pub wire: Wire,
    pub desk: OneAccountDesk,
}

impl Drop for Exchange {
    fn drop(self) {
        let Exchange {
            served: _,
            wire: _,
            desk: _,
        } = self;
    }
}

/// Serves the request that the input is, in pieces of so many bytes.
pub fn serve(alloc: Global, mood: Mood, input: &[u8], piece: usize, failing: u64) -> Exchange
    requires { 0 < piece }
{
    let mut desk = OneAccountDesk::new(alloc, mood);
    let mut wire = Wire::new(alloc, input, piece, failing);
    let served = serve_one(alloc, &mut wire, &mut desk);
    Exchange { served, wire, desk }
}

/// Whether the request is answered with this status, and so many submissions reached the desk.
pub fn answers(alloc: Global, input: &[u8], piece: usize, status: u16, submissions: u64) -> bool
    requires { 0 < piece }
{
    let exchange = serve(alloc, Mood::Accepts, input, piece, NEVER);
    has_status(exchange.served, status) && exchange.desk.submissions == submissions
}

/// Whether the request is answered with this status and this body of this kind, and nothing else is written.
pub fn is_answered(
    alloc: Global,
    mood: Mood,
    input: &[u8],
    piece: usize,
    kind: &str,
    wanted: (u16, &str),
) -> bool
    requires { 0 < piece }
{
    let exchange = serve(alloc, mood, input, piece, NEVER);
    has_status(exchange.served, wanted.0)
        && says(
            written(alloc, kind, wanted.0, wanted.1),
            exchange.wire.written.as_slice(),
        )
}

pub fn has_status(served: Served, wanted: u16) -> bool {
    match served {
        Served::Answered(status) => status == wanted,
        Served::ReadFault | Served::WriteFault => false,
    }
}

/// The answer, written out by hand.
fn written(alloc: Global, kind: &str, status: u16, body: &str) -> Vec<u8> {
    let mut text = joined(alloc, &[b"HTTP/1.1 "]);
    put(&mut text, status_text(status).as_bytes());
    put(&mut text, b"\r\ncontent-type: ");
    put(&mut text, kind.as_bytes());
    put(&mut text, b"\r\ncontent-length: ");
    put_number(alloc, &mut text, body.len() as u64);
    put(&mut text, b"\r\nconnection: close\r\n\r\n");
    put(&mut text, body.as_bytes());
    text
}

/// Statuses with the phrases of RFC 9110, section 15, RFC 6585, section 5, and RFC 4918, section 11.5.
fn status_text(status: u16) -> &'static str {
    match status {
        200 => "200 OK",
        201 => "201 Created",
        400 => "400 Bad Request",
        401 => "401 Unauthorized",
        403 => "403 Forbidden",
        404 => "404 Not Found",
        405 => "405 Method Not Allowed",
        409 => "409 Conflict",
        411 => "411 Length Required",
        413 => "413 Payload Too Large",
        422 => "422 Unprocessable Entity",
        431 => "431 Request Header Fields Too Large",
        500 => "500 Internal Server Error",
        503 => "503 Service Unavailable",
        507 => "507 Insufficient Storage",
        _ => "",
    }
}
