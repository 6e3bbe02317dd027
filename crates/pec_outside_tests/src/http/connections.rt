//! What is read of a connection, and connections that fail. Heads at their bounds are rows of tests/vectors/requests.rows.
use super::desk::Mood;
use super::serving::{Exchange, NEVER, answers, has_status, serve};
use crate::texts::joined;
use pec_http::Served;
use std::alloc::Global;

const REQUEST: &[u8] = b"GET /mail/anna@alfa.example/book HTTP/1.1\r\nx-key: chiave\r\n\r\n";

// Where bytes come one by one, those of a second request stay unread.
#[test]
fn a_second_request_is_not_read(rt: HostRuntime) {
    assert!(rt; reads_one(rt.alloc()));
}

fn reads_one(alloc: Global) -> bool {
    let both = joined(alloc, &[REQUEST, REQUEST]);
    has_read(alloc, &both, REQUEST.len())
}

/// Whether the request is answered when so many bytes of the input were read.
fn has_read(alloc: Global, input: &[u8], bytes: usize) -> bool {
    let exchange = serve(alloc, Mood::Accepts, input, 1, NEVER);
    has_status(exchange.served, 200) && exchange.wire.at == bytes
}

const SUBMISSION: &[u8] =
    b"POST /mail/anna@alfa.example/submit HTTP/1.1\r\nx-key: chiave\r\nx-path: bob@beta.example\r\n\
     content-length: 5\r\n\r\nSalve";

// Each call of the connection fails in turn: a read is told as such and nothing is asked of the desk, and after a write
// a front of the answer stands.
#[test]
fn each_call_of_a_connection_can_fail(rt: HostRuntime) {
    assert!(rt; answers(rt.alloc(), SUBMISSION, 16, 201, 1));
    assert!(rt; first_untold_fault(rt.alloc()).is_none());
}

/// The first call whose failure isn't told truly; none where each one's is.
fn first_untold_fault(alloc: Global) -> Option<u64> {
    let calm = serve(alloc, Mood::Accepts, SUBMISSION, 16, NEVER);
    first_untold_of(alloc, &calm)
}

fn first_untold_of(alloc: Global, calm: &Exchange) -> Option<u64> {
    for number in 0..calm.wire.calls {
        if !has_fault_told(alloc, calm, number) {
            return Some(number);
        }
    }
    None
}

fn has_fault_told(alloc: Global, calm: &Exchange, number: u64) -> bool {
    let failed = serve(alloc, Mood::Accepts, SUBMISSION, 16, number);
    is_front_of(calm, &failed)
}

/// Whether one call failed, and what was written and asked is told truly.
fn is_front_of(calm: &Exchange, failed: &Exchange) -> bool {
    let asked = match failed.served {
        Served::ReadFault => 0,
        Served::WriteFault => 1,
        Served::Answered(_) => return false,
    };
    failed.wire.faults == 1
        && failed.desk.submissions == asked
        && failed.wire.written.len() < calm.wire.written.len()
        && calm.wire.written.starts_with(&failed.wire.written)
}

/// The bytes that random requests are made of.
const LETTERS: &[u8; 32] = b"GETPOSTmail/anna@alf.exbook \r\n:1";

// Random bytes are answered, and nothing is asked of the desk.
#[test]
fn a_thousand_random_requests_are_answered(rt: HostRuntime) {
    assert!(rt; first_random_wrong(rt.alloc(), 1000).is_none());
}

/// The number of the first of so many random requests that isn't refused; none where each is.
fn first_random_wrong(alloc: Global, count: u32) -> Option<u32> {
    let mut state = 1_704_186_000;
    for number in 0..count {
        if !is_random_refused(alloc, &mut state) {
            return Some(number);
        }
    }
    None
}

fn is_random_refused(alloc: Global, state: &mut u64) -> bool {
    let request = random(alloc, state);
    answers(alloc, &request, 64, 400, 0)
}

/// The next of the random requests, of 255 bytes at most (xorshift of 64 bits).
fn random(alloc: Global, state: &mut u64) -> Vec<u8> {
    let mut bytes = Vec::new(alloc);
    let count = *state % 256;
    for _ in 0..count {
        *state ^= *state << 13;
        *state ^= *state >> 7;
        *state ^= *state << 17;
        let _ = bytes.push(LETTERS[(*state % 32) as usize]);
    }
    *state = state.wrapping_add(1);
    bytes
}
