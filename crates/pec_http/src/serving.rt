ghost use Rattle.std.specs.Prelude.{◌≡◌, ◌⊎◌, ◌≤◌};
ghost use Rattle.pec_outside.specs.Flow.{HasRisen};
ghost use Rattle.pec_types.specs.Bytes.{Bytes};
ghost use Rattle.pec_http.specs.Replies.{Reply as ReplyShown, memory_reply, reply_text, stop_reply};
ghost use Rattle.pec_http.specs.Serving.{Sends, Serves};
ghost use Rattle.pec_http.specs.declared.serving.Served.TheVariants as served;

use crate::answers::refused;
use crate::desk::Desk;
use crate::exchange::exchange;
use crate::statuses::Status;
use crate::stops::Stop;
use pec_outside::{Sink, Source, write_all};
use std::alloc::Global;

/// The answer where memory ran out.
const OUT_OF_MEMORY: &[u8] =
    b"HTTP/1.1 500 Internal Server Error\r\ncontent-type: text/plain\r\ncontent-length: 10\r\nconnection: close\r\n\r\nno-memory\n";

/// What became of a connection.
#[derive(Clone, Copy, Debug, PartialEq, Eq)]
pub enum Served {
    /// It was answered with this status.
    Answered(u16),
    /// It failed before its request was read. Nothing was asked of the desk.
    ReadFault,
    /// It failed before its answer was written. What was asked of the desk stands.
    WriteFault,
}

/// Reads one request of a connection, puts it to a desk, and writes the answer (RFC 9110, RFC 9112, within this
/// project's profile).
pub fn serve_one<C: Source + Sink, K: Desk>(
    alloc: Global,
    connection: &mut C,
    desk: &mut K,
) -> Served
    // What is written, behind what the connection held, is the answer to the bytes of the request at this desk, or a
    // front of it after a fault of writing, and nothing after one of reading. The desk is asked to take a submission
    // once where no row from 1 to 11 applies to one, and never otherwise.
    ensures serves { Serves K.answers (C.left connection.old) (C.held connection.old) desk.old desk.new
        (C.held connection.new) result }
    // A fault is told only where the connection's count rose in this call.
    ensures read_fault { result ≡ served.ReadFault → HasRisen (C.faults connection.old) (C.faults connection.new) }
    ensures write_fault { result ≡ served.WriteFault → HasRisen (C.faults connection.old) (C.faults connection.new) }
    ensures later { C.faults connection.old ≤ C.faults connection.new }
{
    match exchange(alloc, connection, desk) {
        Ok(reply) => send(connection, reply.status, &reply.text),
        Err(stop) => match stop {
            Stop::ReadFault => Served::ReadFault,
            _ => refuse(alloc, connection, stop),
        },
    }
}

/// Answers a request that wasn't put to the desk.
fn refuse<W: Sink>(alloc: Global, out: &mut W, stop: Stop) -> Served
    ensures sends { (reply : ReplyShown) × ((reply ≡ stop_reply stop) ⊎ (reply ≡ memory_reply))
        × Sends (W.held out.old) (W.held out.new) result reply.status (reply_text reply) }
    ensures cause { result ≡ served.WriteFault → HasRisen (W.faults out.old) (W.faults out.new) }
    ensures later { W.faults out.old ≤ W.faults out.new }
{
    match refused(alloc, stop) {
        Ok(reply) => send(out, reply.status, &reply.text),
        Err(_) => send(out, Status::InternalServerError, out_of_memory()),
    }
}

#[tactic(auto, unfolding(crate::specs::Replies::reply_text, crate::specs::Replies::fields_behind, crate::specs::Replies::status_line, crate::specs::Statuses::phrase_of))]
fn out_of_memory() -> &'static [u8]
    ensures { result.now ≡ reply_text memory_reply }
{
    OUT_OF_MEMORY
}

fn send<W: Sink>(out: &mut W, status: Status, text: &[u8]) -> Served
    ensures sends { Sends (W.held out.old) (W.held out.new) result status text.now }
    ensures cause { result ≡ served.WriteFault → HasRisen (W.faults out.old) (W.faults out.new) }
    ensures later { W.faults out.old ≤ W.faults out.new }
{
    match write_all(out, text) {
        Ok(()) => Served::Answered(status.number()),
        Err(_) => Served::WriteFault,
    }
}
