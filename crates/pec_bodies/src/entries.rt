ghost use Rattle.std.specs.Prelude.{◌≡◌};
ghost use Rattle.pec_heads.specs.HeadReading.{read_of};
ghost use Rattle.pec_types.specs.Answers.{Gives};
ghost use Rattle.pec_bodies.specs.declared.faults.BodyFault.TheVariants as faults;
ghost use Rattle.pec_bodies.specs.PartsReading.{read_part};

use crate::cutting::Whole;
use crate::faults::BodyFault;
use pec_heads::{Head, HeadFault};
use std::alloc::Global;

/// A part of a body: its place, its bytes, what is behind its head, and the head.
#[derive(Drop)]
pub(crate) struct Entry<'a> {
    pub(crate) start: usize,
    pub(crate) whole: &'a [u8],
    pub(crate) body: &'a [u8],
    pub(crate) head: Head,
}

impl<'a> Entry<'a> {
    ghost use Rattle.pec_bodies.specs.Views.{entry_shown, whole_shown};

    /// The part with number i, its head read.
    pub(crate) fn read(alloc: Global, whole: Whole<'a>, i: usize) -> Result<Entry<'a>, BodyFault>
        ensures { Gives faults.NoMemory (λ part. entry_shown part) result
            (read_part i (whole_shown whole.entry) (read_of whole.entry.bytes.now)) }
    {
        match Head::read(alloc, whole.bytes) {
            Ok((head, place)) => Ok(Entry {
                start: whole.start,
                whole: whole.bytes,
                body: &whole.bytes[place..],
                head,
            }),
            Err(HeadFault::NoMemory) => Err(BodyFault::NoMemory),
            Err(fault) => Err(BodyFault::PartHead(i, fault)),
        }
    }
}
