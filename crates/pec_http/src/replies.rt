ghost use Rattle.std.specs.Prelude.{◌≡◌, ℕ, ◌+◌, ◌≤◌, ◌++◌, [], length, codes, decimal, IfOk, IfErr, vec_len, vec_capacity};
ghost use Rattle.pec_types.specs.Bytes.{Bytes};
ghost use Rattle.pec_http.specs.Replies.{Reply as ReplyShown, fields_behind, reply_text, status_line};
ghost use Rattle.pec_http.specs.Statuses.{kind_text, number_of, phrase_of};
ghost use Rattle.pec_http.specs.Writing.{IsReply};
ghost use Rattle.pec_http.specs.declared.stops.Stop.TheVariants as stops;

use crate::statuses::{Kind, Status};
use crate::stops::Stop;
use itoa::Buffer;
use std::alloc::Global;

/// How many bytes stand before an answer's body, at most.
pub(crate) const HEAD_ROOM: usize = 256;

/// An answer: its status, and all its bytes.
#[derive(Drop)]
pub struct Reply {
    pub status: Status,
    pub text: Vec<u8>,
}

/// The answer with this status and this body.
pub(crate) fn composed(
    alloc: Global,
    status: Status,
    kind: Kind,
    body: &[u8],
) -> Result<Reply, Stop>
    ensures ok { IfOk result (λ reply. IsReply reply (record { status = status; kind = kind; body = body.now })) }
    ensures err { IfErr result (λ stop. stop ≡ stops.NoMemory) }
{
    let mut text = Vec::with_capacity(alloc, HEAD_ROOM + body.len())?;
    put_reply(&mut text, status, kind, body);
    Ok(Reply { status, text })
}

/// Puts an answer's bytes where there is room for them. It takes no memory.
#[tactic(auto, unfolding(crate::specs::Replies::reply_text))]
pub(crate) fn put_reply(room: &mut Vec<u8>, status: Status, kind: Kind, body: &[u8])
    requires empty { room.old.items ≡ [] }
    requires fits { 256 + length body.now ≤ vec_capacity room.old }
    ensures { room.new.items ≡ reply_text (record { status = status; kind = kind; body = body.now }) }
{
    put_status(room, status);
    put_fields(room, kind, body.len());
    put(room, body);
}

#[tactic(auto, unfolding(crate::specs::Replies::status_line))]
fn put_status(room: &mut Vec<u8>, status: Status)
    requires empty { room.old.items ≡ [] }
    requires fits { 81 ≤ vec_capacity room.old }
    ensures items { room.new.items ≡ status_line status }
    ensures len { vec_len room.new ≤ 81 }
    ensures capacity { vec_capacity room.old ≤ vec_capacity room.new }
{
    put(room, b"HTTP/1.1 ");
    put_number(room, u64::from(status.number()));
    put(room, b" ");
    put(room, status.phrase());
}

#[tactic(auto, unfolding(crate::specs::Replies::fields_behind))]
fn put_fields(room: &mut Vec<u8>, kind: Kind, bytes: usize)
    requires { vec_len room.old + 120 ≤ vec_capacity room.old }
    ensures items { room.new.items ≡ fields_behind room.old.items kind bytes }
    ensures len { vec_len room.new ≤ vec_len room.old + 120 }
    ensures capacity { vec_capacity room.old ≤ vec_capacity room.new }
{
    put(room, b"\r\ncontent-type: ");
    put(room, kind.text());
    put(room, b"\r\ncontent-length: ");
    put_number(room, bytes as u64);
    put(room, b"\r\nconnection: close\r\n\r\n");
}

/// Puts a number in decimal, in at most 40 digits.
pub(crate) fn put_number(room: &mut Vec<u8>, number: u64)
    requires { vec_len room.old + 40 ≤ vec_capacity room.old }
    ensures items { room.new.items ≡ room.old.items ++ decimal number }
    ensures len { vec_len room.new ≤ vec_len room.old + 40 }
    ensures capacity { vec_capacity room.old ≤ vec_capacity room.new }
{
    let mut buffer = Buffer::new();
    let digits = buffer.format(number);
    put(room, digits.as_bytes());
}

/// Puts bytes where there is room for them. It takes no memory.
pub(crate) fn put(room: &mut Vec<u8>, piece: &[u8])
    requires { vec_len room.old + length piece.now ≤ vec_capacity room.old }
    ensures items { room.new.items ≡ room.old.items ++ piece.now }
    ensures len { vec_len room.new ≡ vec_len room.old + length piece.now }
    ensures capacity { vec_capacity room.old ≤ vec_capacity room.new }
{
    let Ok(()) = room.extend_from_slice(piece) else {
        unreachable!()
    };
}
