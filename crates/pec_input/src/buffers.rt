ghost use Rattle.std.specs.Prelude.{◌≡◌, ◌<◌, ◌≤◌, ◌^◌, [], ◌++◌, length, drop, MatchBool, IfOk, OnOk, IsErrOf};
ghost use Rattle.memchr.specs.Find.{IsFirstByte};
ghost use Rattle.pec_outside.specs.Flow.{behind, HasRisen};
ghost use Rattle.pec_types.specs.Bytes.{Bytes};
ghost use Rattle.pec_input.specs.Finding.{IsAtEnd, IsFound, found_in};
ghost use Rattle.pec_input.specs.Pieces.{after_piece, first_piece, has_feed, is_feed};
ghost use Rattle.pec_input.specs.declared.buffers.InputFault.TheVariants as faults;

use crate::lines::content;
use memchr::memchr;
use pec_outside::{Failed, Source};
use std::alloc::{AllocError, Global};
use std::marker::Model;

/// How many bytes are asked of the source at once.
pub(crate) const PIECE: usize = 32_768;

/// Why the input couldn't be read on.
#[derive(Clone, Copy, Debug, PartialEq, Eq)]
pub enum InputFault {
    NoMemory,
    /// The source failed.
    ReadFault,
}

impl From<AllocError> for InputFault {
    ghost from_gives = { λ _ fault. fault ≡ faults.NoMemory };

    fn from(_: AllocError) -> Self {
        InputFault::NoMemory
    }
}

impl From<Failed> for InputFault {
    ghost from_gives = { λ _ fault. fault ≡ faults.ReadFault };

    fn from(_: Failed) -> Self {
        InputFault::ReadFault
    }
}

/// What stands next in an input.
#[derive(Clone, Copy, Debug, PartialEq, Eq)]
pub enum Found {
    /// Nothing is left.
    End,
    /// A line, with its end.
    Line,
    /// A line of more bytes than were asked for, of which a front was taken.
    Long,
}

/// Bytes that were read from a source and aren't used up. Contracts see these bytes, which stand before what the source
/// has left.
#[derive(Drop)]
pub struct Buffer {
    bytes: Vec<u8>,
    at: usize,
}

impl Model for Buffer {
    ghost Value = { Bytes };

    ghost view = { λ buffer. drop buffer.at buffer.bytes.items };

    ghost invariant = { λ buffer. buffer.at ≤ length buffer.bytes.items };
}

impl Buffer {
    /// Nothing was read yet.
    pub fn new(alloc: Global) -> Buffer
        ensures { result ≡ [] }
    {
        Buffer {
            bytes: Vec::new(alloc),
            at: 0,
        }
    }

    /// Whether all is used up.
    fn is_empty(&self) -> bool
        ensures { MatchBool result (self.now ≡ []) (0 < length self.now) }
    {
        self.at >= self.bytes.as_slice().len()
    }

    /// Puts these bytes in the place of what was there.
    fn put(&mut self, bytes: &[u8]) -> Result<(), AllocError>
        ensures { OnOk result (self.new ≡ bytes.now) }
    {
        self.at = 0;
        self.bytes.clear();
        self.bytes.extend_from_slice(bytes)?;
        Ok(())
    }

    /// Moves the bytes up to the first line feed, and this too, to the end of a line; all of them where there is
    /// none. The answer is whether a line feed was moved.
    fn move_line(&mut self, line: &mut Vec<u8>) -> Result<bool, AllocError>
        ensures rest { OnOk result (self.new ≡ after_piece self.old) }
        ensures line { OnOk result (line.new.items ≡ line.old.items ++ first_piece self.old) }
        ensures ended { IfOk result (λ ended. ended ≡ has_feed self.old) }
    {
        let rest = &self.bytes.as_slice()[self.at..];
        let (piece, ended) = cut_piece(rest);
        let count = piece.len();
        line.extend_from_slice(piece)?;
        self.at += count;
        Ok(ended)
    }
}

/// Takes the next line off an input, with its end, where it has at most `most` bytes without that. Of a longer one a
/// front is taken, longer than `most`. Where it fails, how far it read is open. This project's profile.
pub fn next_line<S: Source>(
    source: &mut S,
    buffer: &mut Buffer,
    line: &mut Vec<u8>,
    most: usize,
) -> Result<Found, InputFault>
    requires empty { line.old.items ≡ [] }
    requires bound { most < 2 ^ 32 }
    // What was taken is the front of what there was, and nothing is lost.
    ensures read { OnOk result (behind buffer.old (S.left source.old)
        ≡ behind line.new.items (behind buffer.new (S.left source.new))) }
    ensures found { IfOk result (λ found. IsFound most found line.new.items
        (behind buffer.old (S.left source.old)) (behind buffer.new (S.left source.new))) }
    // A fault is told only where the source's count of faults rose.
    ensures later { S.faults source.old ≤ S.faults source.new }
    ensures cause { IsErrOf result InputFault.ReadFault → HasRisen (S.faults source.old) (S.faults source.new) }
{
    'pieces: while line.as_slice().len() <= most + 2 {
        if !refill(source, buffer)? {
            return Ok(found_in(line, most));
        }
        if buffer.move_line(line)? {
            return Ok(found_in(line, most));
        }
    }
    Ok(Found::Long)
}

/// What bytes are that were taken up to the end of a line, or of the input.
#[tactic(auto, unfolding(crate::specs::Finding::found_in))]
fn found_in(line: &[u8], most: usize) -> Found
    ensures { result ≡ found_in most line.now }
{
    if line.is_empty() {
        return Found::End;
    }
    if content(line).len() > most {
        return Found::Long;
    }
    Found::Line
}

/// Reads on where all is used up. The answer is whether there is something.
fn refill<S: Source>(source: &mut S, buffer: &mut Buffer) -> Result<bool, InputFault>
    ensures read { OnOk result (behind buffer.old (S.left source.old) ≡ behind buffer.new (S.left source.new)) }
    ensures more { IfOk result (λ more. MatchBool more (0 < length buffer.new)
        ((buffer.new ≡ []) × IsAtEnd (S.left source.new))) }
    ensures later { S.faults source.old ≤ S.faults source.new }
    ensures cause { IsErrOf result InputFault.ReadFault → HasRisen (S.faults source.old) (S.faults source.new) }
{
    if !buffer.is_empty() {
        return Ok(true);
    }
    let mut room = [0u8; PIECE];
    let count = source.read(&mut room)?;
    buffer.put(&room[..count])?;
    Ok(count > 0)
}

/// The bytes up to the first line feed, and this too, or all of them; and whether there is one.
fn cut_piece(bytes: &[u8]) -> (&[u8], bool)
    ensures piece { result.0.now ≡ first_piece bytes.now }
    ensures rest { drop (length result.0.now) bytes.now ≡ after_piece bytes.now }
    ensures ended { result.1 ≡ has_feed bytes.now }
    ensures within { length result.0.now ≤ length bytes.now }
{
    match line_feed(bytes) {
        Some(at) => (&bytes[..at + 1], true),
        None => (bytes, false),
    }
}

fn line_feed(bytes: &[u8]) -> Option<usize>
    ensures { IsFirstByte is_feed bytes.now result }
{
    memchr(b'\n', bytes)
}
