ghost use Rattle.std.specs.Prelude.{◌≡◌, ◌≤◌, length, option_map, IfOk, []};
ghost use Rattle.pec_types.specs.Bytes.{Bytes};
ghost use Rattle.pec_input.specs.Lines.{content_of};
ghost use Rattle.pec_script.specs.LinesReading.{message_of};
ghost use Rattle.pec_runs.specs.Endings.{end_text};
ghost use Rattle.pec_runs.specs.ScriptLines.{is_passed_over, longest_line, most_lines};
ghost use Rattle.pec_dossier.specs.Reading.{GoesOn, IsEarly, IsLineSaid, IsSaid, end_past};

use crate::ending::Last;
use crate::texts::long_line_text;
use base64::DecodeAllocError;
use base64::engine::general_purpose::STANDARD;
use pec_input::{Found, content};
use pec_script::{LineFault, refused_text};
use pec_types::NoMemory;
use std::alloc::Global;

/// How many lines a dossier may have.
const MOST_LINES: u64 = 1_000_000;

/// How many bytes a line may have, without its end.
pub(crate) const LONGEST_LINE: usize = 67_108_864;

/// What a line of a dossier says.
#[derive(Drop)]
pub(crate) enum Said {
    /// It is empty, or a remark.
    Nothing,
    /// A message that was saved.
    Message(Vec<u8>),
    /// No line is left.
    End,
    /// The dossier ends here, with this last line.
    Last(Vec<u8>, Last),
}

impl Said {
    /// What was found at the line of a number, from 1 on, says. The line is given with its end.
    pub(crate) fn of(
        alloc: Global,
        number: u64,
        found: Found,
        line: &[u8],
    ) -> Result<Said, NoMemory>
        requires { found ≡ Found.Line → length (content_of line.now) ≤ longest_line }
        ensures says { IfOk result (λ said. IsSaid number found line.now said) }
        ensures few { IfOk result (λ said. GoesOn said → number ≤ most_lines) }
        ensures early { IfOk result (λ said. IsEarly said) }
    {
        match found {
            Found::End => Ok(Said::End),
            Found::Line => {
                let said = Said::of_line(alloc, number, content(line))?;
                Ok(said)
            }
            Found::Long => {
                let text = past_limit(alloc, number)?;
                Ok(Said::Last(text, Last::TooLong))
            }
        }
    }

    /// What a line says that isn't too long, given without its end.
    fn of_line(alloc: Global, number: u64, content: &[u8]) -> Result<Said, NoMemory>
        requires { length content.now ≤ longest_line }
        ensures says { (line : Bytes) → content_of line ≡ content.now → IfOk result (λ said.
            IsLineSaid number line said) }
        ensures few { IfOk result (λ said. GoesOn said → number ≤ most_lines) }
        ensures early { IfOk result (λ said. IsEarly said) }
    {
        if number > MOST_LINES {
            let text = past_limit(alloc, number)?;
            return Ok(Said::Last(text, Last::TooLong));
        }
        if is_passed_over(content) {
            return Ok(Said::Nothing);
        }
        match decoded(alloc, content)? {
            Some(message) => Ok(Said::Message(message)),
            None => {
                let text = refused_text(alloc, number, LineFault::BadBase64(1))?;
                Ok(Said::Last(text, Last::Refused))
            }
        }
    }
}

/// The last line of a dossier with too many lines, or with one that is too long.
fn past_limit(alloc: Global, number: u64) -> Result<Vec<u8>, NoMemory>
    ensures { IfOk result (λ text. text.items ≡ end_text [] (end_past number)) }
{
    if number > MOST_LINES {
        let text = Vec::from_slice(alloc, b"too-long script\n")?;
        return Ok(text);
    }
    let text = long_line_text(alloc, number)?;
    Ok(text)
}

/// The bytes of which a text is the base64 (RFC 4648, section 4), padded.
#[tactic(auto, unfolding(pec_script::specs::LinesReading::message_of))]
fn decoded(alloc: Global, text: &[u8]) -> Result<Option<Vec<u8>>, NoMemory>
    ensures { IfOk result (λ found. option_map (λ bytes. bytes.items) found ≡ message_of text.now) }
{
    match STANDARD.decode(alloc, text) {
        Ok(bytes) => Ok(Some(bytes)),
        Err(DecodeAllocError::DecodeError(_)) => Ok(None),
        Err(DecodeAllocError::OutOfMemory) => Err(NoMemory),
    }
}

/// An empty line or a remark.
fn is_passed_over(said: &[u8]) -> bool
    ensures { result ≡ is_passed_over said.now }
{
    match said {
        [] => true,
        [first, ..] => *first == b'#',
    }
}
