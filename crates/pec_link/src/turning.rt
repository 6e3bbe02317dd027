ghost use Rattle.std.specs.Prelude.{◌≡◌, ◌+◌, ◌<◌, ◌≤◌, [], ◌∷◌, ◌++◌, length, take, drop, OnOk, OnErr, IfErr};
ghost use Rattle.pec_link.specs.Ends.{ArePair, AreSettled, waiting_on};
ghost use Rattle.pec_link.specs.Links.{repeated, swapped, without};
ghost use Rattle.pec_link.specs.declared.ends.TheConstants.{MOST_FRAMES};
ghost use Rattle.pec_link.specs.declared.faults.LinkFault.TheVariants as faults;

use crate::ends::{MOST_FRAMES, Putter, Taker, waiting};
use crate::faults::LinkFault;
use pec_types::Frame;
use std::alloc::Global;

/// Takes out the frame at a place of the link of these two ends, counted from 0, and forgets it. `NoFrame` exactly
/// where no frame waits there. All frames that waited are taken, each once, and the others put again in their order. It
/// takes no memory.
pub fn lose(putter: &mut Putter, taker: &mut Taker, place: usize) -> Result<(), LinkFault>
    requires { ArePair putter.old taker.old }
    ensures settled { AreSettled putter.new taker.new }
    ensures ring { putter.new.ring ≡ putter.old.ring }
    ensures lost { OnOk result ((place < length (waiting_on putter.old taker.old))
        × (taker.new.waiting ≡ without place (waiting_on putter.old taker.old))) }
    ensures turned { OnOk result (taker.new.taken ≡ taker.old.taken ++ waiting_on putter.old taker.old) }
    ensures no_frame { IfErr result (λ fault. (fault ≡ faults.NoFrame) × (length (waiting_on putter.old taker.old) ≤ place)) }
    ensures unchanged { OnErr result ((taker.new.taken ≡ taker.old.taken) × (putter.new.put ≡ putter.old.put)) }
{
    let count = waiting(putter, taker);
    if place >= count {
        return Err(LinkFault::NoFrame);
    }
    take_at(putter, taker, place);
    turn(putter, taker, count - place - 1);
    Ok(())
}

/// Exchanges the frame at a place of the link of these two ends, counted from 0, with the next one. `NoFrame` exactly
/// where one of the two doesn't wait. All frames that waited are taken, each once, and put again. It takes no memory.
pub fn swap(putter: &mut Putter, taker: &mut Taker, place: usize) -> Result<(), LinkFault>
    requires { ArePair putter.old taker.old }
    ensures settled { AreSettled putter.new taker.new }
    ensures ring { putter.new.ring ≡ putter.old.ring }
    ensures swapped { OnOk result ((place + 1 < length (waiting_on putter.old taker.old))
        × (taker.new.waiting ≡ swapped place (waiting_on putter.old taker.old))) }
    ensures turned { OnOk result (taker.new.taken ≡ taker.old.taken ++ waiting_on putter.old taker.old) }
    ensures no_frame { IfErr result (λ fault. (fault ≡ faults.NoFrame) × (length (waiting_on putter.old taker.old) ≤ place + 1)) }
    ensures unchanged { OnErr result ((taker.new.taken ≡ taker.old.taken) × (putter.new.put ≡ putter.old.put)) }
{
    let count = waiting(putter, taker);
    if count < 2 || place >= count - 1 {
        return Err(LinkFault::NoFrame);
    }
    let first = take_at(putter, taker, place);
    turn(putter, taker, 1);
    put_last(putter, taker, first);
    turn(putter, taker, count - place - 2);
    Ok(())
}

/// Puts a copy of the frame at a place of the link of these two ends, counted from 0, behind those that wait. `NoFrame`
/// exactly where no frame waits there, and otherwise `Full` exactly where 64 wait. All frames that waited are taken,
/// each once, and put again in their order, also where there is no memory for the copy.
pub fn repeat(
    alloc: Global,
    putter: &mut Putter,
    taker: &mut Taker,
    place: usize,
) -> Result<(), LinkFault>
    requires { ArePair putter.old taker.old }
    ensures settled { AreSettled putter.new taker.new }
    ensures ring { putter.new.ring ≡ putter.old.ring }
    ensures repeated { OnOk result ((place < length (waiting_on putter.old taker.old))
        × (length (waiting_on putter.old taker.old) < MOST_FRAMES)
        × (taker.new.waiting ≡ repeated place (waiting_on putter.old taker.old))) }
    ensures turned { OnOk result (taker.new.taken ≡ taker.old.taken ++ waiting_on putter.old taker.old) }
    ensures no_frame { IfErr result (λ fault. fault ≡ faults.NoFrame → length (waiting_on putter.old taker.old) ≤ place) }
    ensures full { IfErr result (λ fault. fault ≡ faults.Full → (place < length (waiting_on putter.old taker.old))
        × (length (waiting_on putter.old taker.old) ≡ MOST_FRAMES)) }
    ensures unchanged { OnErr result (taker.new.waiting ≡ waiting_on putter.old taker.old) }
{
    let count = waiting(putter, taker);
    if place >= count {
        return Err(LinkFault::NoFrame);
    }
    if count >= MOST_FRAMES {
        return Err(LinkFault::Full);
    }
    let frame = take_at(putter, taker, place);
    let copy = frame.copy(alloc);
    put_last(putter, taker, frame);
    turn(putter, taker, count - place - 1);
    put_last(putter, taker, copy?);
    Ok(())
}

/// Takes the frame at a place, counted from 0, and before it those in front of it, each of which is put again behind
/// the others.
fn take_at(putter: &mut Putter, taker: &mut Taker, place: usize) -> Frame
    requires settled { AreSettled putter.old taker.old }
    requires within { place < length taker.old.waiting }
    ensures settled { AreSettled putter.new taker.new }
    ensures ring { putter.new.ring ≡ putter.old.ring }
    ensures frame { drop place taker.old.waiting ≡ result ∷ drop (place + 1) taker.old.waiting }
    ensures waiting { taker.new.waiting ≡ drop (place + 1) taker.old.waiting ++ take place taker.old.waiting }
    ensures taken { taker.new.taken ≡ taker.old.taken ++ take (place + 1) taker.old.waiting }
{
    turn(putter, taker, place);
    take_first(putter, taker)
}

/// Takes so many frames that wait, from the first on, and puts each again behind the others.
fn turn(putter: &mut Putter, taker: &mut Taker, count: usize)
    requires settled { AreSettled putter.old taker.old }
    requires count { count ≤ length taker.old.waiting }
    ensures settled { AreSettled putter.new taker.new }
    ensures ring { putter.new.ring ≡ putter.old.ring }
    ensures waiting { taker.new.waiting ≡ drop count taker.old.waiting ++ take count taker.old.waiting }
    ensures taken { taker.new.taken ≡ taker.old.taken ++ take count taker.old.waiting }
{
    for _ in 0..count {
        let frame = take_first(putter, taker);
        put_last(putter, taker, frame);
    }
}

/// Takes the first frame that waits, and lets the putter know its place.
fn take_first(putter: &mut Putter, taker: &mut Taker) -> Frame
    requires settled { AreSettled putter.old taker.old }
    requires some { 0 < length taker.old.waiting }
    ensures settled { AreSettled putter.new taker.new }
    ensures ring { putter.new.ring ≡ putter.old.ring }
    ensures waiting { taker.old.waiting ≡ result ∷ taker.new.waiting }
    ensures taken { taker.new.taken ≡ taker.old.taken ++ result ∷ [] }
{
    let Some(frame) = taker.take() else {
        unreachable!();
    };
    waiting(putter, taker);
    frame
}

/// Puts a frame behind those that wait, and lets the taker know it.
pub(crate) fn put_last(putter: &mut Putter, taker: &mut Taker, frame: Frame)
    requires settled { AreSettled putter.old taker.old }
    requires room { length taker.old.waiting < MOST_FRAMES }
    ensures settled { AreSettled putter.new taker.new }
    ensures ring { putter.new.ring ≡ putter.old.ring }
    ensures waiting { taker.new.waiting ≡ taker.old.waiting ++ frame ∷ [] }
    ensures taken { taker.new.taken ≡ taker.old.taken }
{
    let Ok(()) = putter.put(frame) else {
        unreachable!();
    };
    waiting(putter, taker);
}
