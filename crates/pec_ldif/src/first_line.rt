ghost use Rattle.std.specs.Prelude.{◌≡◌, codes};
ghost use Rattle.std.specs.Str.{bytes_eq};
ghost use Rattle.pec_ldif.specs.FirstLine.{is_ldif, is_passed};

use crate::lines::{begins_with, content, first_size, is_empty};

/// Whether a text of a directory is LDIF: its first line that isn't empty and is no comment is exactly `version: 1`. It
/// takes no memory. This project's profile.
#[tactic(auto, unfolding(crate::specs::FirstLine::is_ldif))]
pub fn is_ldif(text: &[u8]) -> bool
    ensures { result ≡ is_ldif text.now }
{
    let mut rest = text;
    while !rest.is_empty() {
        let size = first_size(rest);
        let said = content(&rest[..size]);
        if !is_passed(said) {
            return is_version(said);
        }
        rest = &rest[size..];
    }
    false
}

/// Whether the line is empty, or a comment.
fn is_passed(said: &[u8]) -> bool
    ensures { result ≡ is_passed said.now }
{
    is_empty(said) || begins_with(said, b'#')
}

fn is_version(said: &[u8]) -> bool
    ensures { result ≡ bytes_eq said.now (codes "version: 1") }
{
    said == b"version: 1".as_slice()
}
