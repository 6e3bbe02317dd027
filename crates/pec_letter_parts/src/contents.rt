ghost use Rattle.std.specs.Prelude.{◌≡◌, ◌++◌, [], IfOk, OnOk, map};
ghost use Rattle.pec_letter_parts.specs.Contents.{behind_line, lines_text, part_text};

use pec_types::NoMemory;
use std::alloc::{AllocError, Global};

/// What a part of a letter is: the text for people, the message that the letter carries (`postacert.eml`), or what it
/// certifies (`daticert.xml`).
#[derive(Clone, Copy, Debug, PartialEq, Eq)]
pub enum PartKind {
    Text,
    Message,
    Certificate,
}

impl PartKind {
    /// The part's head, with the empty line that ends it. It takes no memory.
    pub(crate) fn head(self) -> &'static [u8]
        ensures { result.now ≡ part_text self [] }
    {
        match self {
            PartKind::Text => b"Content-Type: text/plain; charset=us-ascii\r\n\r\n",
            PartKind::Message =>
                b"Content-Type: message/rfc822; name=\"postacert.eml\"\r\nContent-Disposition: attachment; filename=\"postacert.eml\"\r\n\r\n",
            PartKind::Certificate =>
                b"Content-Type: application/xml; name=\"daticert.xml\"\r\nContent-Disposition: attachment; filename=\"daticert.xml\"\r\n\r\n",
        }
    }
}

/// What stands in the parts of a letter. The message and the certification text are slices: they are copied into the
/// letter alone.
#[derive(Clone, Copy)]
pub struct Contents<'a> {
    /// The text for people.
    pub text: &'a [u8],
    pub message: Option<&'a [u8]>,
    pub certificate: Option<&'a [u8]>,
}

/// Lines joined by CRLF, for the text of a letter.
pub fn join_lines(alloc: Global, lines: &[&[u8]]) -> Result<Vec<u8>, NoMemory>
    ensures { IfOk result (λ text. text.items ≡ lines_text (map (λ line. line.now) lines.now)) }
{
    let mut text = Vec::with_capacity(alloc, room_for(lines))?;
    let mut rest = lines;
    while let [line, behind @ ..] = rest {
        add_line(&mut text, line, behind.is_empty())?;
        rest = behind;
    }
    Ok(text)
}

/// How much room is made for lines and their ends. A wrong guess would cost time alone.
fn room_for(lines: &[&[u8]]) -> usize {
    let mut room: usize = 0;
    for line in lines {
        room = room.saturating_add(line.len()).saturating_add(2);
    }
    room
}

fn add_line(text: &mut Vec<u8>, line: &[u8], is_last: bool) -> Result<(), AllocError>
    ensures { OnOk result (text.new.items ≡ text.old.items ++ (line.now ++ behind_line is_last)) }
{
    text.extend_from_slice(line)?;
    if !is_last {
        text.extend_from_slice(b"\r\n")?;
    }
    Ok(())
}
