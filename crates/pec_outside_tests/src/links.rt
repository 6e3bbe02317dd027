//! Links: the frames that wait, and what befalls them.
ghost use Rattle.pec_link.specs.Ends.{ArePair};

use crate::texts::are_these;
use pec_link::{Link, LinkFault, Putter, Taker, new_link, waiting};
use pec_types::{Frame, Text8};
use std::alloc::Global;

#[test]
fn frames_come_in_their_order_and_the_sixty_fifth_comes_back(rt: HostRuntime) {
    assert!(rt; keeps_64_frames(rt.alloc()));
}

fn keeps_64_frames(alloc: Global) -> bool {
    match Link::new(alloc) {
        Ok(mut link) => {
            is_filled(alloc, &mut link) && is_full(alloc, &mut link) && drains_in_order(&mut link)
        }
        Err(_) => false,
    }
}

/// Puts the frames of the bytes 0 to 63. Whether there is room for each.
fn is_filled(alloc: Global, link: &mut Link) -> bool {
    for byte in 0..64 {
        if link.waiting() + link.room() != 64 || !is_put(alloc, link, byte) {
            return false;
        }
    }
    true
}

fn is_put(alloc: Global, link: &mut Link, byte: u8) -> bool {
    link.put(frame_of(alloc, byte)).is_ok()
}

fn is_full(alloc: Global, link: &mut Link) -> bool {
    comes_back(alloc, link)
        && is_fault(link.repeat(alloc, 0), LinkFault::Full)
        && is_fault(link.repeat(alloc, 64), LinkFault::NoFrame)
}

fn is_fault(answer: Result<(), LinkFault>, wanted: LinkFault) -> bool {
    answer == Err(wanted)
}

fn comes_back(alloc: Global, link: &mut Link) -> bool {
    match link.put(frame_of(alloc, 64)) {
        Ok(()) => false,
        Err(back) => are_these(back.bytes(), b"@"),
    }
}

/// Takes the frames of the bytes 0 to 63, and none behind them.
fn drains_in_order(link: &mut Link) -> bool {
    drains_from(link, 0)
}

/// Takes the frames of the bytes from this one to 63, and none behind them.
fn drains_from(link: &mut Link, first: u8) -> bool {
    for byte in first..64 {
        if !is_taken(link, byte) {
            return false;
        }
    }
    link.take().is_none()
}

/// Whether the next frame is that of this byte. It waits no more.
fn is_taken(link: &mut Link, byte: u8) -> bool {
    match link.take() {
        Some(frame) => are_these(frame.bytes(), &[byte]),
        None => false,
    }
}

#[test]
fn frames_are_lost_exchanged_and_repeated_at_their_places(rt: HostRuntime) {
    assert!(rt; changes_at_places(rt.alloc()));
}

fn changes_at_places(alloc: Global) -> bool {
    match Link::new(alloc) {
        Ok(mut link) => {
            are_put(alloc, &mut link, b"abcd")
                && is_changed(alloc, &mut link)
                && are_taken(&mut link, b"adca")
                && is_fault(link.swap(0), LinkFault::NoFrame)
        }
        Err(_) => false,
    }
}

fn are_put(alloc: Global, link: &mut Link, bytes: &[u8]) -> bool {
    for byte in bytes {
        if !is_put(alloc, link, *byte) {
            return false;
        }
    }
    true
}

fn is_changed(alloc: Global, link: &mut Link) -> bool {
    link.lose(1).is_ok()
        && link.swap(1).is_ok()
        && link.repeat(alloc, 0).is_ok()
        && is_fault(link.lose(4), LinkFault::NoFrame)
        && is_fault(link.swap(3), LinkFault::NoFrame)
}

/// Takes the frames of these bytes, and none behind them.
fn are_taken(link: &mut Link, bytes: &[u8]) -> bool {
    for byte in bytes {
        if !is_taken(link, *byte) {
            return false;
        }
    }
    link.take().is_none()
}

#[test]
fn a_full_ring_is_turned(rt: HostRuntime) {
    assert!(rt; turns_when_full(rt.alloc()));
}

/// Of the frames 0 to 63 the first is lost, the next repeated, the last two exchanged, and the repeated one lost again.
fn turns_when_full(alloc: Global) -> bool {
    match Link::new(alloc) {
        Ok(mut link) => {
            is_filled(alloc, &mut link) && is_turned(alloc, &mut link) && drains_from(&mut link, 1)
        }
        Err(_) => false,
    }
}

fn is_turned(alloc: Global, link: &mut Link) -> bool {
    link.lose(0).is_ok()
        && link.repeat(alloc, 0).is_ok()
        && link.swap(62).is_ok()
        && link.lose(62).is_ok()
}

#[test]
fn a_frame_is_taken_once_both_ends_were_together(rt: HostRuntime) {
    assert!(rt; is_seen_in_time(rt.alloc()));
}

fn is_seen_in_time(alloc: Global) -> bool {
    match new_link(alloc) {
        Ok((mut putter, mut taker)) => {
            putter.put(frame_of(alloc, 7)).is_ok() && is_seen_by(&mut putter, &mut taker)
        }
        Err(_) => false,
    }
}

/// Whether one frame waits that the taker doesn't know, until both ends are together.
fn is_seen_by(putter: &mut Putter, taker: &mut Taker) -> bool
    requires { ArePair putter.old taker.old }
{
    taker.take().is_none()
        && waiting(putter, taker) == 1
        && taker.take().is_some()
        && taker.take().is_none()
}

/// The frame of one byte.
fn frame_of(alloc: Global, byte: u8) -> Frame {
    let mut bytes = Vec::new(alloc);
    let _ = bytes.push(byte);
    Frame::of(Text8::of(bytes))
}
