ghost use Rattle.std.specs.Prelude.{◌≡◌, ◌≤◌, ◌<◌, ◌++◌, ℕ, drop, length, IfOk, IsErrOf, OnOk};
ghost use Rattle.std.specs.List.{AllByRecursion};
ghost use Rattle.pec_types.specs.Address.{IsLowerAddress};
ghost use Rattle.pec_types.specs.Answers.{Gives, ReadsExactly, TellsExactly, seen_as};
ghost use Rattle.pec_types.specs.Bytes.{Bytes, Path};
ghost use Rattle.pec_frames.specs.Entries.{behind_address};
ghost use Rattle.pec_frames.specs.Frames.{HasFrame, IsFrame, IsFrameFault, frame_text, message_at, path_line, with_path};
ghost use Rattle.pec_frames.specs.FramesReading.{framed_of};
ghost use Rattle.pec_frames.specs.declared.TheConstants.{FRAME_LIMIT, MOST_ADDRESSES};
ghost use Rattle.pec_frames.specs.declared.faults.FrameFault.TheVariants as faults;

use crate::FRAME_LIMIT;
use crate::faults::{FrameFault, FrameMade};
use crate::paths::{line_feed, read_path};
use pec_types::{Address, Frame, Text8, an_address_is_told_exactly, lower_addresses_pass};
use std::alloc::{AllocError, Global};

const FRONT: &[u8] = b"Per: ";

const END: &[u8] = b"\r\n";

/// The law of frames: each text is a frame, of one path and with its message at one place, or has one fault;
/// `framed_of` tells which.
pub fn a_text_is_one_frame()
    ensures { (text : Bytes) → TellsExactly (λ (read : Path × ℕ). IsFrame text read.0 read.1) (IsFrameFault text) (framed_of text) }
{
    an_address_is_told_exactly();
}

/// A frame that was made is read as the path and the message that it was made of, and one text is made of these alone.
pub fn a_frame_is_read_as_it_was_made()
    ensures path { (path : Path) (message : Bytes) → HasFrame path message
        → IsFrame (frame_text path message) path (message_at (path_line path)) }
    ensures message { (path : Path) (message : Bytes) → drop (message_at (path_line path)) (frame_text path message) ≡ message }
    ensures one { (path other : Path) (message content : Bytes) → HasFrame path message → HasFrame other content
        → frame_text path message ≡ frame_text other content → (path ≡ other) × (message ≡ content) }
{
    an_address_is_told_exactly();
    lower_addresses_pass();
}

/// The frame of a path and a message. `TooLong` comes exactly where it would have more than 50,331,648 bytes.
pub fn frame_of(alloc: Global, path: &[Address], message: &[u8]) -> Result<Frame, FrameMade>
    requires some { 0 < length path.now }
    requires few { length path.now ≤ MOST_ADDRESSES }
    ensures text { IfOk result (λ frame. frame ≡ frame_text path.now message.now) }
    // It is read as that path, and the message stands behind its line.
    ensures frame { IfOk result (λ frame. IsFrame frame path.now (message_at (path_line path.now))) }
    ensures short { IfOk result (λ frame. length frame ≤ FRAME_LIMIT) }
    ensures too_long { IsErrOf result FrameMade.TooLong → FRAME_LIMIT < length (frame_text path.now message.now) }
{
    let line = path_line(alloc, path)?;
    let front = FRONT.len() + line.len() + END.len();
    if front.saturating_add(message.len()) > FRAME_LIMIT {
        return Err(FrameMade::TooLong);
    }
    let bytes = joined(alloc, line.as_slice(), message)?;
    a_frame_is_read_as_it_was_made();
    Ok(Frame::of(Text8::of(bytes)))
}

/// The path of a frame, in lower case, and the place where its message begins. The faults are looked for in the order
/// of the type: a place in a path is that of the first entry that is no address, or of the 1,001st.
pub fn read_frame(alloc: Global, frame: &[u8]) -> Result<(Vec<Address>, usize), FrameFault>
    ensures reads { ReadsExactly (λ (read : Path × ℕ). IsFrame frame.now read.0 read.1) (IsFrameFault frame.now) faults.NoMemory
        (seen_as (λ read. (read.0.items, read.1)) result) }
    // The same answer as a function of the bytes, for definitions that build on it.
    ensures exact { Gives faults.NoMemory (λ read. (read.0.items, read.1)) result (framed_of frame.now) }
{
    a_text_is_one_frame();
    read_text(alloc, frame)
}

#[tactic(auto, unfolding(crate::specs::FramesReading::framed_of, pec_types::specs::Bytes::after_front))]
fn read_text(alloc: Global, frame: &[u8]) -> Result<(Vec<Address>, usize), FrameFault>
    ensures { Gives faults.NoMemory (λ read. (read.0.items, read.1)) result (framed_of frame.now) }
{
    if frame.len() > FRAME_LIMIT {
        return Err(FrameFault::TooLong);
    }
    let Some(rest) = frame.strip_prefix(FRONT) else {
        return Err(FrameFault::NoPath);
    };
    let Some(feed) = line_feed(rest) else {
        return Err(FrameFault::NoPath);
    };
    let path = read_path(alloc, &rest[..feed.saturating_sub(1)], FRONT.len())?;
    Ok((path, FRONT.len() + feed + 1))
}

/// A path in its line, before a message.
fn joined(alloc: Global, line: &[u8], message: &[u8]) -> Result<Vec<u8>, AllocError>
    ensures { IfOk result (λ bytes. bytes.items ≡ with_path line.now message.now) }
{
    let framing = FRONT.len() + END.len();
    let room = line
        .len()
        .saturating_add(message.len())
        .saturating_add(framing);
    let mut bytes = Vec::with_capacity(alloc, room)?;
    bytes.extend_from_slice(FRONT)?;
    bytes.extend_from_slice(line)?;
    bytes.extend_from_slice(END)?;
    bytes.extend_from_slice(message)?;
    Ok(bytes)
}

/// Addresses joined by commas.
fn path_line(alloc: Global, path: &[Address]) -> Result<Vec<u8>, AllocError>
    ensures line { IfOk result (λ line. line.items ≡ path_line path.now) }
    ensures lower { OnOk result (AllByRecursion IsLowerAddress path.now) }
{
    let mut line = Vec::new(alloc);
    let mut rest = path;
    while let [address, behind @ ..] = rest {
        put_address(&mut line, address, behind.is_empty())?;
        rest = behind;
    }
    Ok(line)
}

fn put_address(line: &mut Vec<u8>, address: &Address, is_last: bool) -> Result<(), AllocError>
    ensures line { OnOk result (line.new.items ≡ line.old.items ++ (address.now ++ behind_address is_last)) }
    ensures lower { OnOk result (IsLowerAddress address.now) }
{
    line.extend_from_slice(address.bytes())?;
    if !is_last {
        line.push(b',')?;
    }
    Ok(())
}
