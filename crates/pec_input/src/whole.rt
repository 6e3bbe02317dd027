ghost use Rattle.std.specs.Prelude.{◌≤◌, IfOk, IsErrOf};
ghost use Rattle.pec_outside.specs.Flow.{HasRisen};
ghost use Rattle.pec_input.specs.Whole.{IsWhole};

use crate::buffers::{InputFault, PIECE};
use crate::opening::LONGEST_DIRECTORY;
use pec_outside::Source;
use std::alloc::Global;

/// The whole of an input.
#[derive(Drop)]
pub enum Whole {
    All(Vec<u8>),
    /// There are more bytes than a directory has.
    TooLong,
}

/// Reads an input to its end, all of which is a directory, a line `%%` too. One that is too long isn't read further.
/// Where it fails, how far it read is open. This project's profile.
pub fn read_whole<S: Source>(alloc: Global, source: &mut S) -> Result<Whole, InputFault>
    ensures whole { IfOk result (λ whole. IsWhole whole (S.left source.old) (S.left source.new)) }
    // A fault is told only where the source's count of faults rose.
    ensures later { S.faults source.old ≤ S.faults source.new }
    ensures cause { IsErrOf result InputFault.ReadFault → HasRisen (S.faults source.old) (S.faults source.new) }
{
    let mut room = [0u8; PIECE];
    let mut bytes = Vec::new(alloc);
    'pieces: while bytes.as_slice().len() <= LONGEST_DIRECTORY {
        let count = source.read(&mut room)?;
        if count == 0 {
            return Ok(Whole::All(bytes));
        }
        bytes.extend_from_slice(&room[..count])?;
    }
    Ok(Whole::TooLong)
}
