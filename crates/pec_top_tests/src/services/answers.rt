//! Answers of HTTP, written out by hand, and whether a service came to them.

use super::serving::{Service, served};
use crate::running::{System, joined, written_out};
use pec_outside::MemDoor;
use pec_top::Status;
use std::alloc::Global;

/// What is written to a connection: the status with its phrase, and the body, a text; where there is no status,
/// nothing. Whether the connection has faults: then a front of it is written.
pub(crate) type Answer = (&'static str, &'static str, bool);

/// Whether a service ends so, with these lines written and these answers in order.
pub(crate) fn comes(
    rt: &impl System,
    service: &Service<'_>,
    lines: &str,
    answers: &[Answer],
    status: Status,
) -> bool {
    let came = served(rt, service);
    came.ran.writes(rt.alloc(), lines, status) && are_replied(rt.alloc(), &came.door, answers)
}

/// Whether these are the replies, in order, and no others.
fn are_replied(alloc: Global, door: &MemDoor, answers: &[Answer]) -> bool {
    let replies = door.replies();
    let raised = door.raised();
    if replies.len() != answers.len() || raised.len() != answers.len() {
        return false;
    }
    for (place, answer) in answers.iter().enumerate() {
        if !is_replied(alloc, replies[place].bytes(), raised[place], answer) {
            return false;
        }
    }
    true
}

/// Whether this was written to a connection for an answer, and it has faults where the answer says so.
fn is_replied(alloc: Global, written: &[u8], raised: bool, answer: &Answer) -> bool {
    let text = text_of(alloc, answer);
    raised == answer.2 && is_written(text.as_bytes(), written, answer.2)
}

/// Whether the text was written, or over a faulty connection a front of it.
fn is_written(text: &[u8], written: &[u8], faulty: bool) -> bool {
    if faulty {
        return text.starts_with(written) && (text.is_empty() || written.len() < text.len());
    }
    text == written
}

/// The text of an answer (RFC 9112).
fn text_of(alloc: Global, answer: &Answer) -> String {
    if answer.0.is_empty() {
        return String::new(alloc);
    }
    let body = written_out(alloc, answer.1);
    let length = body.len().to_string(alloc).unwrap_or(String::new(alloc));
    let parts = [
        "HTTP/1.1 ",
        answer.0,
        "\r\ncontent-type: text/plain\r\ncontent-length: ",
        length.as_str(),
        "\r\nconnection: close\r\n\r\n",
        body.as_str(),
    ];
    joined(alloc, &parts)
}
