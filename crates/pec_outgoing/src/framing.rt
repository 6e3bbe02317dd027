ghost use Rattle.std.specs.Prelude.{◌≡◌, ◌↔◌, ◌<◌, ◌≤◌, ℕ, List, Some, length, slice_get, IfOk, IsErrOf, IsTrue};
ghost use Rattle.pec_frames.specs.declared.TheConstants.{MOST_ADDRESSES};
ghost use Rattle.pec_records.specs.declared.entries.Entry.{Entry as SomeEntry};
ghost use Rattle.pec_plays.specs.Frames.{frame_of};
ghost use Rattle.pec_trade.specs.Houses.{world_at};
ghost use Rattle.pec_trade.specs.Texts.{frame_along};
ghost use Rattle.pec_outgoing.specs.Desk.{IsHalfOf};
ghost use Rattle.pec_outgoing.specs.Needs.{FramedOf, Serves, needed};
ghost use Rattle.pec_outgoing.specs.declared.faults.ComposeFault.TheVariants as faults;

use crate::asking::asked_by;
use crate::desks::Desk;
use crate::faults::ComposeFault;
use crate::letters::{Outgoing, composed};
use pec_frames::{FrameMade, MOST_ADDRESSES, frame_of};
use pec_records::Entry;
use pec_seal::Sealer;
use pec_shelf::Shelf;
use pec_trade::{House, a_trade_says_what_its_parts_say};
use pec_types::{Address, Frame, Letter, NoMemory, what_is_read_is_in_lower_case};
use std::alloc::Global;

/// The frame of a letter, composed of an entry and sealed in the provider's own name (RFC 6109, section 3, within this
/// project's profile). `None` comes where the frame isn't put though nothing is amiss: it would have more than
/// 50,331,648 bytes, or it has no text or nobody to go to. `Changed` comes exactly where the entry isn't what the
/// letter is composed of, as where the provider has nothing for the letter (`needed`).
pub fn framed<'a, S: Sealer>(
    alloc: Global,
    house: &House<'_, S>,
    shelf: &'a Shelf,
    letter: &'a Letter,
    entry: &Entry,
) -> Result<Option<Frame>, ComposeFault>
    ensures changed { IsErrOf result faults.Changed
        → Serves (world_at house.now) shelf.now.me shelf.now.half letter.now entry.now → ⊥ }
    // Of whatever entry this is, what is composed of it is framed.
    ensures of { IfOk result (FramedOf (world_at house.now) shelf.now.me shelf.now.half letter.now entry.now) }
    // Of the entry that stands at the needed number of its journal, the frame is the one that is due.
    ensures frame { IfOk result (λ found. (journal : List SomeEntry) (number : ℕ)
        → IsHalfOf (world_at house.now) journal shelf.now
        → needed shelf.now.me shelf.now.half letter.now ≡ Some number → slice_get journal number ≡ Some entry.now
        → found ≡ frame_of (world_at house.now) shelf.now.me journal letter.now) }
{
    let desk = Desk {
        alloc,
        house,
        shelf,
    };
    let Some(asked) = asked_by(shelf, letter) else {
        return Err(ComposeFault::Changed);
    };
    let Some(made) = composed(&desk, &asked, entry)? else {
        return Ok(None);
    };
    let frame = in_frame(&desk, &made)?;
    Ok(frame)
}

/// The frame of a letter, where it can be made.
fn in_frame<S: Sealer>(desk: &Desk<'_, S>, letter: &Outgoing) -> Result<Option<Frame>, NoMemory>
    ensures { IfOk result (λ frame. frame ≡ frame_along letter.now.path letter.now.message) }
{
    a_trade_says_what_its_parts_say();
    if !is_path(letter.path()) {
        return Ok(None);
    }
    let frame = in_frame_along(desk, letter.path(), letter.text())?;
    Ok(frame)
}

/// Whether so many addresses can stand in a frame.
fn is_path(path: &[Address]) -> bool
    ensures { IsTrue result ↔ ((0 < length path.now) × (length path.now ≤ MOST_ADDRESSES)) }
{
    !path.is_empty() && path.len() <= MOST_ADDRESSES
}

/// The frame of a path and a text, unless it would be too long.
fn in_frame_along<S: Sealer>(
    desk: &Desk<'_, S>,
    path: &[Address],
    text: &[u8],
) -> Result<Option<Frame>, NoMemory>
    requires some { 0 < length path.now }
    requires few { length path.now ≤ MOST_ADDRESSES }
    ensures { IfOk result (λ frame. frame ≡ frame_along path.now text.now) }
{
    a_trade_says_what_its_parts_say();
    what_is_read_is_in_lower_case();
    match frame_of(desk.alloc, path, text) {
        Ok(frame) => Ok(Some(frame)),
        Err(FrameMade::NoMemory) => Err(NoMemory),
        Err(FrameMade::TooLong) => Ok(None),
    }
}
