ghost use Rattle.std.specs.Prelude.{◌≡◌, ◌↔◌, ◌<◌, ℕ, List, [], ◌∷◌, ◌++◌, true, false, length, position, Some, None, IfSome};
ghost use Rattle.std.specs.Option.{option_map};
ghost use Rattle.pec_heads.specs.Heads.{NamedValue};
ghost use Rattle.pec_types.specs.Bytes.{Bytes, semicolon};
ghost use Rattle.pec_bodies.specs.Parameters.{ArePieces, HasNoBoundary, HasNoParameter, HasNoQuote, IsBoundary, IsFirstPiece, IsParameter, IsParameterName, is_equals, is_multipart, with_parameter};
ghost use Rattle.pec_bodies.specs.ParametersReading.{before, boundary_of, parameter_of, pieces_of, sized, semicolon_from, unquoted, value_named};
ghost use Rattle.std.specs.Str.{str_eq_ignore_ascii_case};

use crate::BOUNDARY_LIMIT;
use pec_heads::{Head, blanks_are_cut_at_both_ends, trim};

/// The law of parameters: `parameter_of` gives a value where the first piece of the name has it, and nothing where no
/// piece has the name; `boundary_of` gives a head's boundary.
pub fn a_value_has_one_parameter_of_a_name()
    ensures found { (name value found : Bytes) → (parameter_of name value ≡ Some found ↔ IsParameter name value found) }
    ensures none { (name value : Bytes) → (parameter_of name value ≡ None ↔ HasNoParameter name value) }
    ensures boundary { (head : List NamedValue) (boundary : Bytes)
        → (boundary_of head ≡ Some boundary ↔ IsBoundary head boundary) }
    ensures no_boundary { (head : List NamedValue) → (boundary_of head ≡ None ↔ HasNoBoundary head) }
{}

/// The law of written parameters: a parameter in quotes is read as it was written, by its name in whatever case.
pub fn a_written_parameter_is_read()
    ensures { (first name wanted value : Bytes) → IsFirstPiece first → IsParameterName name
        → str_eq_ignore_ascii_case name wanted ≡ true → HasNoQuote value
        → parameter_of wanted (with_parameter first name value) ≡ Some value }
{
    blanks_are_cut_at_both_ends();
}

/// The law of pieces: a value is cut at each `;` outside double quotes, in one way, and `pieces_of` gives it.
pub fn values_are_cut_outside_quotes()
    ensures { (value : Bytes) (pieces : List Bytes) → (pieces_of value ≡ pieces ↔ ArePieces value pieces) }
{}

/// The value of the first parameter of this name, whatever the case of its letters (RFC 2045, section 5.1, within this
/// project's profile): `value` is cut at each `;` outside double quotes, and the pieces behind the first are looked at,
/// without blanks at their ends, as `name=value`. A value in double quotes is what stands between them, unchanged.
/// `None` where no parameter has the name. It takes no memory.
#[tactic(auto, using(crate::proofs::PieceLemmas::no_more), unfolding(crate::specs::ParametersReading::parameter_of))]
pub fn parameter<'a>(value: &'a [u8], name: &[u8]) -> Option<&'a [u8]>
    ensures { option_map (λ found. found.now) result ≡ parameter_of name.now value.now }
{
    let mut rest = value;
    while let Some(at) = semicolon(rest) {
        rest = &rest[at + 1..];
        if let Some(found) = value_named(first_piece(rest), name) {
            return Some(found);
        }
    }
    None
}

/// The boundary of a multipart's head: 1 to 70 bytes.
#[tactic(auto, unfolding(crate::specs::ParametersReading::boundary_of))]
pub(crate) fn boundary(head: &Head) -> Option<&[u8]>
    ensures { option_map (λ found. found.now) result ≡ boundary_of head.now }
{
    let value = head.field(b"Content-Type".as_slice())?;
    if !is_multipart(value) {
        return None;
    }
    let found = parameter(value, b"boundary".as_slice())?;
    if found.is_empty() || found.len() > BOUNDARY_LIMIT {
        return None;
    }
    Some(found)
}

#[tactic(auto, unfolding(crate::specs::Parameters::is_multipart))]
fn is_multipart(value: &[u8]) -> bool
    ensures { result ≡ is_multipart value.now }
{
    let front = &value[..value.len().min(10)];
    front.eq_ignore_ascii_case(b"multipart/".as_slice())
}

/// What stands before the first `;` outside quotes.
fn first_piece(text: &[u8]) -> &[u8]
    ensures { result.now ≡ before text.now (semicolon_from false text.now) }
{
    match semicolon(text) {
        Some(at) => &text[..at],
        None => text,
    }
}

/// The place of the first `;` outside quotes.
fn semicolon(text: &[u8]) -> Option<usize>
    ensures value { result ≡ semicolon_from false text.now }
    ensures below { IfSome result (λ at. at < length text.now) }
{
    let mut quoted = false;
    for (i, b) in text.iter().enumerate() {
        if !quoted && *b == b';' {
            return Some(i);
        }
        quoted = if *b == b'"' { !quoted } else { quoted };
    }
    None
}

/// The value of a piece, where it has this name.
#[tactic(auto, unfolding(crate::specs::ParametersReading::value_named))]
fn value_named<'a>(piece: &'a [u8], name: &[u8]) -> Option<&'a [u8]>
    ensures { option_map (λ found. found.now) result ≡ value_named name.now piece.now }
{
    let piece = trim(piece);
    let at = equals(piece)?;
    if !is_same(&piece[..at], name) {
        return None;
    }
    Some(unquoted(&piece[at + 1..]))
}

fn is_same(one: &[u8], other: &[u8]) -> bool
    ensures { result ≡ str_eq_ignore_ascii_case one.now other.now }
{
    one.eq_ignore_ascii_case(other)
}

fn equals(piece: &[u8]) -> Option<usize>
    ensures value { result ≡ position is_equals piece.now }
    ensures below { IfSome result (λ at. at < length piece.now) }
{
    piece.iter().position(|b| *b == b'=')
}

/// What stands between double quotes, where the value begins and ends with one; otherwise the value.
#[tactic(auto, unfolding(crate::specs::ParametersReading::unquoted))]
fn unquoted(value: &[u8]) -> &[u8]
    ensures { result.now ≡ unquoted value.now }
{
    if value.len() >= 2 && value[0] == b'"' && value[value.len() - 1] == b'"' {
        &value[1..value.len() - 1]
    } else {
        value
    }
}
