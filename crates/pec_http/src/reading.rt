ghost use Rattle.std.specs.Prelude.{◌≡◌, ◌≢◌, ◌↔◌, ◌+◌, ◌<◌, ◌≤◌, ◌++◌, [], length, take, drop, Err, IfOk, OnOk, IfErr, IfSome, IsErrOf, vec_len};
ghost use Rattle.pec_outside.specs.Flow.{HasRisen, behind};
ghost use Rattle.pec_types.specs.Bytes.{Bytes};
ghost use Rattle.pec_http_head.specs.Cuts.{Ends, cut_of};
ghost use Rattle.pec_http.specs.Input.{IsReadStop, StopsBody, StopsHead, TakesMore, TakesPiece};
ghost use Rattle.pec_http.specs.declared.stops.Stop.TheVariants as stops;

use crate::stops::Stop;
use pec_http_head::{Cut, Scan};
use pec_outside::Source;
use std::alloc::Global;

/// How many bytes are read at once, at most.
const PIECE: usize = 4096;

/// Reads a request's head and tells where it ends. What came behind it in the last piece is kept too. No byte is read
/// once the head is known to be too large.
pub(crate) fn read_head<S: Source>(connection: &mut S, came: &mut Vec<u8>) -> Result<usize, Stop>
    requires { came.old.items ≡ [] }
    ensures came { OnOk result (S.left connection.old ≡ behind came.new.items (S.left connection.new)) }
    ensures end { IfOk result (λ end. (more : Bytes) → cut_of (came.new.items ++ more) ≡ Ends end) }
    ensures within { IfOk result (λ end. end ≤ length came.new.items) }
    ensures stop { IfErr result (StopsHead (S.left connection.old)) }
    ensures kept { S.held connection.new ≡ S.held connection.old }
    ensures later { S.faults connection.old ≤ S.faults connection.new }
    ensures cause { IsErrOf result stops.ReadFault → HasRisen (S.faults connection.old) (S.faults connection.new) }
{
    let mut scan = Scan::new();
    'pieces: loop {
        let before = came.len();
        let count = read_piece(connection, came, PIECE)?;
        if count == 0 {
            return Err(Stop::BadHead);
        }
        match scan.further(&came[before..]) {
            Cut::Ends(end) => return Ok(end as usize),
            Cut::TooLarge => return Err(Stop::LargeHead),
            Cut::GoesOn(next) => scan = next,
        }
    }
}

/// Reads on until so many bytes came in all.
pub(crate) fn read_body<S: Source>(
    connection: &mut S,
    came: &mut Vec<u8>,
    until: usize,
) -> Result<(), Stop>
    ensures came { OnOk result (TakesMore (S.left connection.old) came.old.items (S.left connection.new) came.new.items) }
    ensures whole { OnOk result (until ≤ length came.new.items) }
    ensures stop { IfErr result (StopsBody (S.left connection.old) came.old.items until) }
    ensures kept { S.held connection.new ≡ S.held connection.old }
    ensures later { S.faults connection.old ≤ S.faults connection.new }
    ensures cause { IsErrOf result stops.ReadFault → HasRisen (S.faults connection.old) (S.faults connection.new) }
{
    'pieces: while came.len() < until {
        let missing = until - came.len();
        let count = read_piece(connection, came, missing)?;
        if count == 0 {
            return Err(Stop::CutBody);
        }
    }
    Ok(())
}

/// Reads a piece of at most so many bytes onto what came, and tells how many these are: none at the end of the input
/// alone.
fn read_piece<S: Source>(connection: &mut S, came: &mut Vec<u8>, most: usize) -> Result<usize, Stop>
    requires { 0 < most }
    ensures piece { IfOk result (TakesPiece (S.left connection.old) came.old.items (S.left connection.new) came.new.items) }
    ensures most { IfOk result (λ count. count ≤ most) }
    ensures end { IfOk result (λ count. IfSome (S.left connection.old) (λ bytes. (count ≡ 0) ↔ (bytes ≡ []))) }
    ensures stop { IfErr result IsReadStop }
    ensures kept { S.held connection.new ≡ S.held connection.old }
    ensures later { S.faults connection.old ≤ S.faults connection.new }
    ensures cause { IsErrOf result stops.ReadFault → HasRisen (S.faults connection.old) (S.faults connection.new) }
{
    let mut room = [0; PIECE];
    let part = &mut room[..most.min(PIECE)];
    let count = connection.read(part)?;
    came.extend_from_slice(&part[..count])?;
    Ok(count)
}
