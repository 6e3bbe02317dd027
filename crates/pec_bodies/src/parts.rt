ghost use Rattle.std.specs.Prelude.{◌≡◌, ◌⊎◌, ℕ, List, Ok, Err, [], length, slice_get};
ghost use Rattle.std.specs.Option.{option_map};
ghost use Rattle.pec_heads.specs.Heads.{NamedValue};
ghost use Rattle.pec_types.specs.Bytes.{Bytes};
ghost use Rattle.pec_types.specs.Answers.{Gives, OrNoMemory, ReadsExactly, TellsExactly};
ghost use Rattle.pec_bodies.specs.declared.faults.BodyFault.TheVariants as faults;
ghost use Rattle.pec_bodies.specs.Multiparts.{HasFaultOf, HasParts, IsBodyFault, IsParts, ReadPart, StandInOrder, with_parts};
ghost use Rattle.pec_bodies.specs.PartsReading.{parts_from, parts_of};
ghost use Rattle.pec_bodies.specs.Views.{entries_shown, wholes_shown};

use crate::cutting::{Whole, cut};
use crate::entries::Entry;
use crate::faults::BodyFault;
use crate::parameters::boundary;
use pec_heads::{Head, a_text_has_one_reading, lines_have_their_size};
use std::alloc::Global;
use std::marker::Model;

/// The law of parts: each body has parts by a head or a fault, never both, and one list of parts or one fault;
/// `parts_of` gives it.
pub fn a_body_has_one_reading()
    ensures some { (head : List NamedValue) (body : Bytes) → HasParts head body ⊎ HasFaultOf head body }
    ensures either { (head : List NamedValue) (body : Bytes) → HasParts head body → HasFaultOf head body → ⊥ }
    ensures parts { (head : List NamedValue) (body : Bytes) (parts others : List ReadPart)
        → IsParts head body parts → IsParts head body others → parts ≡ others }
    ensures fault { (head : List NamedValue) (body : Bytes) (fault other : BodyFault)
        → IsBodyFault head body fault → IsBodyFault head body other → fault ≡ other }
    ensures told { (head : List NamedValue) (body : Bytes)
        → TellsExactly (IsParts head body) (IsBodyFault head body) (parts_of head body) }
{
    a_text_has_one_reading();
}

/// The law of places: each part stands where it says, and further on in the body than the one before it ends. So other
/// bytes can be put in the place of some parts, and all that stands between them stays: with each part in its own place
/// the body is as it was.
pub fn parts_stand_in_order()
    ensures order { (head : List NamedValue) (body : Bytes) (parts : List ReadPart)
        → IsParts head body parts → StandInOrder 0 body parts }
    ensures unchanged { (head : List NamedValue) (body : Bytes) (parts : List ReadPart)
        → IsParts head body parts → with_parts (λ part. part.whole) 0 body parts ≡ body }
{
    lines_have_their_size();
}

/// A part of a body, as slices of the message.
#[derive(Clone, Copy, Drop)]
pub struct Part<'a> {
    /// The place of the part's first byte in the body, from 0.
    pub start: usize,
    /// The part's head and body: the bytes of the body from `start` on.
    pub whole: &'a [u8],
    /// What is behind the part's head.
    pub body: &'a [u8],
}

/// The parts of a multipart body (RFC 2046, section 5.1), in their order. Contracts see of each its place in the body,
/// its bytes, the fields of its head, and the bytes behind the head.
#[derive(Drop)]
pub struct Parts<'a> {
    parts: Vec<Entry<'a>>,
}

impl<'a> Model for Parts<'a> {
    ghost Value = { List ReadPart };

    ghost view = { λ parts. entries_shown parts.parts.items };
}

impl<'a> Parts<'a> {
    /// The parts of a body with this head, as slices of the body. The boundary is the parameter `boundary` of the first
    /// `Content-Type`, where that begins with `multipart/`. A delimiter is a line of two dashes and the boundary, a
    /// closing one has two dashes more, and blanks may stand at the end of both; a closing one may be the last piece of
    /// the body, without a line feed. A part stands between a delimiter and the next one or a closing one, without the
    /// line end before that; what is before the first and behind the closing one is passed over. Of the faults
    /// `NoBoundary` comes first, then `NoOpening`, `NoClosing` and `PartHead`.
    pub fn read(alloc: Global, head: &Head, body: &'a [u8]) -> Result<Parts<'a>, BodyFault>
        ensures reads { ReadsExactly (IsParts head.now body.now) (IsBodyFault head.now body.now) faults.NoMemory
            result }
        // The same answer as a function of the head and the body, for definitions that build on it.
        ensures exact { OrNoMemory faults.NoMemory result (parts_of head.now body.now) }
    {
        a_body_has_one_reading();
        Parts::cut(alloc, head, body)
    }

    #[tactic(auto, unfolding(crate::specs::PartsReading::parts_of))]
    fn cut(alloc: Global, head: &Head, body: &'a [u8]) -> Result<Parts<'a>, BodyFault>
        ensures { OrNoMemory faults.NoMemory result (parts_of head.now body.now) }
    {
        let Some(boundary) = boundary(head) else {
            return Err(BodyFault::NoBoundary);
        };
        let wholes = cut(alloc, body, boundary)?;
        let parts = read_parts(alloc, wholes.as_slice())?;
        Ok(Parts { parts })
    }

    /// How many parts there are.
    pub fn count(&self) -> usize
        ensures { result ≡ length self.now }
    {
        self.parts.len()
    }

    /// The part with number i, from 0. It takes no memory.
    pub fn part(&self, i: usize) -> Option<Part<'a>>
        ensures start { option_map (λ part. part.start) result
            ≡ option_map (λ part. part.start) (slice_get self.now i) }
        ensures whole { option_map (λ part. part.whole.now) result
            ≡ option_map (λ part. part.whole) (slice_get self.now i) }
        ensures body { option_map (λ part. part.body.now) result
            ≡ option_map (λ part. part.body) (slice_get self.now i) }
    {
        let entry = self.parts.get(i)?;
        Some(Part {
            start: entry.start,
            whole: entry.whole,
            body: entry.body,
        })
    }

    /// The head of the part with number i, from 0. It takes no memory.
    pub fn head(&self, i: usize) -> Option<&Head>
        ensures { option_map (λ head. head.now) result ≡ option_map (λ part. part.head) (slice_get self.now i) }
    {
        let entry = self.parts.get(i)?;
        Some(&entry.head)
    }
}

/// The parts with their heads read.
fn read_parts<'a>(alloc: Global, wholes: &[Whole<'a>]) -> Result<Vec<Entry<'a>>, BodyFault>
    ensures { Gives faults.NoMemory (λ parts. entries_shown parts.items) result
        (parts_from [] (wholes_shown wholes.now)) }
{
    let mut parts = Vec::new(alloc);
    for whole in wholes {
        let part = Entry::read(alloc, *whole, parts.len())?;
        parts.push(part)?;
    }
    Ok(parts)
}
