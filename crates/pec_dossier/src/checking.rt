ghost use Rattle.std.specs.Prelude.{◌≡◌, IfOk};
ghost use Rattle.pec_outside.specs.Flow.{behind};
ghost use Rattle.pec_directory.specs.Directory.{providers_of};
ghost use Rattle.pec_input.specs.Finding.{IsAtEnd};
ghost use Rattle.pec_dossier.specs.Checks.{AreChecked};
ghost use Rattle.pec_dossier.specs.Reading.{BlamesDevices, result_shown};

use crate::ending::{Last, Stop};
use crate::lines::{LONGEST_LINE, Said};
use crate::tallies::Tally;
use pec_directory::Directory;
use pec_input::{Buffer, lines_are_the_text, next_line};
use pec_outside::{Sink, Source, write_all};
use pec_trade::sealer_of;
use std::alloc::Global;

/// Checks the messages that the lines of an input save, each of which is the base64 of one (RFC 4648, section 4): which
/// are genuine letters of the directory's providers, and what they prove together. What is told of a message is written
/// before the next line is read. Empty lines and those that begin with `#` are passed over. This project's profile.
pub fn check_lines<S: Source, W: Sink>(
    alloc: Global,
    directory: &Directory,
    source: &mut S,
    buffer: &mut Buffer,
    out: &mut W,
) -> Result<Last, Stop>
    // What was written, and the end, are those of the lines that were left.
    ensures checked { AreChecked (providers_of directory.now) (result_shown result)
        (behind buffer.old (S.left source.old)) (W.held out.old) (W.held out.new) }
    // Where they were read to their end, so was the input.
    ensures all_read { IfOk result (λ last. last ≡ Last.Done → IsAtEnd (behind buffer.new (S.left source.new))) }
    // A device is blamed only where its count of faults rose.
    ensures blame { BlamesDevices result (S.faults source.old) (S.faults source.new) (W.faults out.old) (W.faults out.new) }
{
    lines_are_the_text();
    let sealer = sealer_of(alloc, directory)?;
    let mut tally = Tally::new(alloc);
    let mut line = Vec::new(alloc);
    let mut number = 1u64;
    'lines: loop {
        line.clear();
        let found = next_line(source, buffer, &mut line, LONGEST_LINE)?;
        let said = Said::of(alloc, number, found, &line)?;
        match said {
            Said::Nothing => {
                number += 1;
                continue 'lines;
            }
            Said::Message(message) => {
                let text = tally.check(alloc, &sealer, directory, &message)?;
                write_all(out, &text)?;
                number += 1;
            }
            Said::End => {
                let text = tally.summary(alloc, directory)?;
                write_all(out, &text)?;
                return Ok(Last::Done);
            }
            Said::Last(text, last) => {
                write_all(out, &text)?;
                return Ok(last);
            }
        }
    }
}
