ghost use Rattle.std.specs.Prelude.{◌≡◌};
ghost use Rattle.pec_input.specs.Lines.{content_of, ends_with};

/// What a line says: the line without its line feed, and without a carriage return before that. It takes no memory.
/// This project's profile.
#[tactic(auto, unfolding(crate::specs::Lines::content_of))]
pub fn content(line: &[u8]) -> &[u8]
    ensures { result.now ≡ content_of line.now }
{
    if !has_at_end(line, b'\n') {
        return line;
    }
    let said = &line[..line.len() - 1];
    if has_at_end(said, b'\r') {
        return &said[..said.len() - 1];
    }
    said
}

fn has_at_end(bytes: &[u8], last: u8) -> bool
    ensures { result ≡ ends_with last bytes.now }
{
    !bytes.is_empty() && bytes[bytes.len() - 1] == last
}
