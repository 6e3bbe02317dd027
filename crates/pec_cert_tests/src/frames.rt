//! Frames: their faults, their paths, and how they are made.
use crate::rows::holds_of;
use crate::texts::are_these;
use pec_frames::{FRAME_LIMIT, FrameMade, frame_of, read_frame};
use pec_types::{Address, Frame};
use std::alloc::Global;

/// The frame of docs/formats.md: its path has one address, and its message begins at 23. Capitals are read as small
/// letters.
static PATHS: [(&[u8], &[u8], usize); 1] = [(
    b"Per: bob@beta.example\r\nFrom: x@y.example\r\n\r\nciao",
    b"bob@beta.example",
    23,
)];

#[test]
fn a_path_is_read_in_lower_case(rt: HostRuntime) {
    for (frame, address, place) in &PATHS {
        holds_of(&rt, has_path(rt.alloc(), frame, address, *place), frame);
    }
}

/// Whether the frame has a path of this address alone, and its message begins there.
fn has_path(alloc: Global, frame: &[u8], address: &[u8], place: usize) -> bool {
    match read_frame(alloc, frame) {
        Ok((path, begin)) => begin == place && is_one(&path, address),
        Err(_) => false,
    }
}

fn is_one(path: &[Address], wanted: &[u8]) -> bool {
    match path {
        [address] => are_these(address.bytes(), wanted),
        _ => false,
    }
}

#[test]
fn a_frame_is_made_and_read_again(rt: HostRuntime) {
    assert!(rt; is_made_and_read(rt.alloc()));
}

// The line takes 41 bytes.
#[test]
fn a_frame_is_made_up_to_the_limit(rt: HostRuntime) {
    assert!(rt; has_fault(rt.alloc(), FRAME_LIMIT - 41, None));
    assert!(rt; has_fault(rt.alloc(), FRAME_LIMIT - 40, Some(FrameMade::TooLong)));
}

fn is_made_and_read(alloc: Global) -> bool {
    match path_of_two(alloc) {
        Some(path) => match frame_of(alloc, &path, b"ciao") {
            Ok(frame) => is_frame_to(alloc, &frame, &path),
            Err(_) => false,
        },
        None => false,
    }
}

fn is_frame_to(alloc: Global, frame: &Frame, path: &[Address]) -> bool {
    are_these(
        frame.bytes(),
        b"Per: bob@beta.example,eva@gamma.example\r\nciao",
    ) && is_read_to(alloc, frame.bytes(), path)
}

fn is_read_to(alloc: Global, frame: &[u8], path: &[Address]) -> bool {
    match read_frame(alloc, frame) {
        Ok((read, begin)) => begin == 41 && read.as_slice() == path,
        Err(_) => false,
    }
}

/// Whether a frame of two addresses and so many bytes isn't made for this, or is made where there is no fault.
fn has_fault(alloc: Global, bytes: usize, fault: Option<FrameMade>) -> bool {
    match (path_of_two(alloc), vec![in alloc; b'x'; bytes]) {
        (Some(path), Ok(message)) => made(alloc, &path, &message) == fault,
        _ => false,
    }
}

fn made(alloc: Global, path: &[Address; 2], message: &[u8]) -> Option<FrameMade> {
    frame_of(alloc, path, message).err()
}

fn path_of_two(alloc: Global) -> Option<[Address; 2]> {
    match (
        address(alloc, b"bob@beta.example"),
        address(alloc, b"eva@gamma.example"),
    ) {
        (Some(bob), Some(eva)) => Some([bob, eva]),
        _ => None,
    }
}

fn address(alloc: Global, text: &[u8]) -> Option<Address> {
    Address::read(alloc, text).ok()
}
