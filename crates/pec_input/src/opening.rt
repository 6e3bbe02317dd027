ghost use Rattle.std.specs.Prelude.{◌≡◌, ◌≤◌, IfOk, IsErrOf};
ghost use Rattle.pec_outside.specs.Flow.{behind, HasRisen};
ghost use Rattle.pec_input.specs.Opening.{Opens};
ghost use Rattle.pec_input.specs.Parts.{is_mark};

use crate::buffers::{Buffer, Found, InputFault, next_line};
use crate::lines::content;
use pec_outside::Source;
use std::alloc::Global;

/// How many bytes a directory has at most. This project's profile.
pub const LONGEST_DIRECTORY: usize = 1_048_576;

/// What stands in front of the script.
#[derive(Drop)]
pub enum Opening {
    /// The bytes before the line `%%`.
    Script(Vec<u8>),
    /// No line is `%%`.
    NoScript,
    /// There are more bytes than a directory has.
    TooLong,
}

/// Reads the directory, which stands before the first line that says `%%`, and this line too; then the script is left.
/// An input whose directory is too long isn't read further. Where it fails, how far it read is open. This project's
/// profile.
pub fn read_directory<S: Source>(
    alloc: Global,
    source: &mut S,
    buffer: &mut Buffer,
) -> Result<Opening, InputFault>
    ensures opens { IfOk result (λ opening. Opens opening
        (behind buffer.old (S.left source.old)) (behind buffer.new (S.left source.new))) }
    // A fault is told only where the source's count of faults rose.
    ensures later { S.faults source.old ≤ S.faults source.new }
    ensures cause { IsErrOf result InputFault.ReadFault → HasRisen (S.faults source.old) (S.faults source.new) }
{
    let mut directory = Vec::new(alloc);
    let mut line = Vec::new(alloc);
    'lines: while directory.as_slice().len() <= LONGEST_DIRECTORY {
        line.clear();
        match next_line(source, buffer, &mut line, LONGEST_DIRECTORY)? {
            Found::End => return Ok(Opening::NoScript),
            Found::Long => return Ok(Opening::TooLong),
            Found::Line => (),
        }
        if is_mark(&line) {
            return Ok(Opening::Script(directory));
        }
        directory.extend_from_slice(&line)?;
    }
    Ok(Opening::TooLong)
}

fn is_mark(line: &[u8]) -> bool
    ensures { result ≡ is_mark line.now }
{
    content(line) == b"%%".as_slice()
}
