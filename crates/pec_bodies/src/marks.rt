ghost use Rattle.std.specs.Prelude.{◌≡◌, ◌↔◌, ℕ, List};
ghost use Rattle.std.specs.Option.{option_map};
ghost use Rattle.pec_types.specs.Bytes.{Bytes, after_front};
ghost use Rattle.pec_bodies.specs.Marks.{IsClosing, IsDelimiter, behind_dashed, mark_of, mark_behind};
ghost use Rattle.pec_bodies.specs.declared.marks.Mark.TheVariants as marks;

use pec_heads::is_all_blank;

/// The law of delimiters: a line, without its line end, is one where it is two dashes, the boundary and blanks, and a
/// closing one where two dashes stand before the blanks.
pub fn delimiters_are_dashes_and_the_boundary()
    ensures delimiter { (boundary line : Bytes)
        → (mark_of boundary line ≡ marks.Delimiter ↔ IsDelimiter boundary line) }
    ensures closing { (boundary line : Bytes)
        → (mark_of boundary line ≡ marks.Closing ↔ IsClosing boundary line) }
{}

/// What a line of a body is to a boundary.
#[derive(Clone, Copy, PartialEq, Eq)]
pub(crate) enum Mark {
    /// A part begins behind it.
    Delimiter,
    /// No part is behind it.
    Closing,
    Text,
}

/// What a line is, given without its line end.
#[tactic(auto, unfolding(crate::specs::Marks::mark_of))]
pub(crate) fn mark_of(line: &[u8], boundary: &[u8]) -> Mark
    ensures { result ≡ mark_of boundary.now line.now }
{
    match behind_dashed(line, boundary) {
        Some(rest) => mark_behind(rest),
        None => Mark::Text,
    }
}

/// What is behind two dashes and the boundary.
#[tactic(auto, unfolding(crate::specs::Marks::behind_dashed))]
fn behind_dashed<'a>(line: &'a [u8], boundary: &[u8]) -> Option<&'a [u8]>
    ensures { option_map (λ rest. rest.now) result ≡ behind_dashed boundary.now line.now }
{
    let behind = after_front(line, b"--".as_slice())?;
    let rest = after_front(behind, boundary)?;
    Some(rest)
}

/// What a line is with this behind its two dashes and the boundary.
#[tactic(auto, unfolding(crate::specs::Marks::mark_behind))]
fn mark_behind(rest: &[u8]) -> Mark
    ensures { result ≡ mark_behind rest.now }
{
    if is_all_blank(rest) {
        return Mark::Delimiter;
    }
    let Some(last) = after_front(rest, b"--".as_slice()) else {
        return Mark::Text;
    };
    if is_all_blank(last) {
        Mark::Closing
    } else {
        Mark::Text
    }
}

#[tactic(auto, unfolding(pec_types::specs::Bytes::after_front))]
fn after_front<'a>(text: &'a [u8], front: &[u8]) -> Option<&'a [u8]>
    ensures { option_map (λ rest. rest.now) result ≡ after_front front.now text.now }
{
    text.strip_prefix(front)
}
