ghost use Rattle.std.specs.Prelude.{◌≡◌, ◌+◌, ◌<◌, ◌≤◌, List, [], ◌∷◌, ◌++◌, drop, length, position, IfNone, IfSome};
ghost use Rattle.std.specs.List.{flat_map};
ghost use Rattle.pec_types.specs.Bytes.{Bytes, line_feed, carriage_return};
ghost use Rattle.pec_heads.specs.Lines.{is_feed, AllHaveNoFeed, HasNoFeed, IsLines, ended, size, whole_lines, last_piece, content_of};

use memchr::memchr;

/// The law of lines: those of a text are what stands before its line feeds, and are found one after another.
pub fn lines_are_the_text()
    ensures whole { (text : Bytes) → IsLines text (whole_lines text) }
    ensures next { (line more : Bytes) → HasNoFeed line
        → whole_lines (line ++ line_feed ∷ more) ≡ line ∷ whole_lines more }
    ensures last { (piece : Bytes) → HasNoFeed piece → whole_lines piece ≡ [] }
    ensures next_returned { (line more : Bytes) → HasNoFeed line
        → whole_lines (line ++ carriage_return ∷ line_feed ∷ more) ≡ (line ++ carriage_return ∷ []) ∷ whole_lines more }
    ensures several { (lines : List Bytes) (more : Bytes) → AllHaveNoFeed lines
        → whole_lines (flat_map ended lines ++ more) ≡ lines ++ whole_lines more }
    // The last piece is what stands behind the last line feed.
    ensures behind { (text : Bytes) → text ≡ flat_map ended (whole_lines text) ++ last_piece text }
    ensures piece { (text : Bytes) → HasNoFeed (last_piece text) }
    // A carriage return at its end is no part of a line, and any other line is its own content.
    ensures returned { (line : Bytes) → content_of (line ++ carriage_return ∷ []) ≡ line }
    ensures own { (line : Bytes) → ((front : Bytes) → line ≡ front ++ carriage_return ∷ [] → ⊥)
        → content_of line ≡ line }
{}

/// The law of sizes: how many bytes lines and texts take.
pub fn lines_have_their_size()
    ensures several { (lines others : List Bytes) → size (lines ++ others) ≡ size lines + size others }
    ensures ended { (lines : List Bytes) → length (flat_map ended lines) ≡ size lines }
    ensures text { (text : Bytes) → size (whole_lines text) + length (last_piece text) ≡ length text }
{}

/// The first line of a text without its line feed, and what is behind that; `None` where no line feed is left, so that
/// the text is the last piece, which is no line (RFC 5322, section 2.1). It takes no memory.
pub fn first_line(text: &[u8]) -> Option<(&[u8], &[u8])>
    ensures none { IfNone result (whole_lines text.now ≡ []) }
    ensures piece { IfNone result (last_piece text.now ≡ text.now) }
    ensures first { IfSome result (λ cut. whole_lines text.now ≡ cut.0.now ∷ whole_lines cut.1.now) }
    ensures last { IfSome result (λ cut. last_piece text.now ≡ last_piece cut.1.now) }
    ensures behind { IfSome result (λ cut. cut.1.now ≡ drop (length cut.0.now + 1) text.now) }
    ensures shorter { IfSome result (λ cut. length cut.0.now + 1 + length cut.1.now ≡ length text.now) }
{
    let at = line_feed(text)?;
    Some((&text[..at], &text[at + 1..]))
}

fn line_feed(text: &[u8]) -> Option<usize>
    ensures value { result ≡ position is_feed text.now }
    ensures below { IfSome result (λ at. at < length text.now) }
{
    memchr(b'\n', text)
}

/// A line without a carriage return at its end (RFC 5322, section 2.1; that LF alone ends a line too is this project's
/// profile). It takes no memory.
#[tactic(auto, unfolding(crate::specs::Lines::content_of))]
pub fn content(line: &[u8]) -> &[u8]
    ensures value { result.now ≡ content_of line.now }
    ensures within { length result.now ≤ length line.now }
{
    if !line.is_empty() && line[line.len() - 1] == b'\r' {
        &line[..line.len() - 1]
    } else {
        line
    }
}
