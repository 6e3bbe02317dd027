ghost use Rattle.std.specs.Prelude.{◌≡◌, ◌↔◌, ℕ, ◌<◌, ◌≤◌, ◌^◌, List, ◌++◌, ◌∷◌, [], length, map, codes, Some, IfOk, OnOk};
ghost use Rattle.pec_bodies.specs.Composing.{AllHaveHeads, IsComposed, IsLeastFree, IsReadAgain, boundary_number, bytes_of, composed_body, composed_number, composed_type, delimited, joined_parts, wholes_of};
ghost use Rattle.pec_bodies.specs.Multiparts.{ReadPart};
ghost use Rattle.pec_bodies.specs.Marks.{dashed};
ghost use Rattle.pec_types.specs.Bytes.{Bytes, hyphen};
ghost use Rattle.pec_heads.specs.Heads.{NamedValue, values_of};
ghost use Rattle.pec_heads.specs.Lines.{ended_line};
ghost use Rattle.pec_heads.specs.WrittenHeads.{CanStand, field, shown};
ghost use Rattle.pec_bodies.specs.Parameters.{IsBoundary};

use crate::numbers::free_number;
use pec_heads::{
    a_line_is_read_as_its_value, blanks_are_cut_at_both_ends, lines_are_the_text,
    lines_have_their_size,
};
use pec_types::{NoMemory, Text8};
use std::alloc::{AllocError, Global};

/// The most bytes of a boundary that is made here, and of a type with it.
const BOUNDARY_LENGTH: usize = 26;

const TYPE_LENGTH: usize = 54;

/// The law of composing: by a head with the boundary, the body is read as the parts that were handed in, where there is
/// one and each begins with a head.
pub fn what_is_composed_is_read_again()
    ensures { (parts : List ReadPart) (n : ℕ) (body : Bytes) → 0 < length parts → AllHaveHeads parts
        → IsComposed (wholes_of parts) n body → IsReadAgain parts n body }
{
    lines_are_the_text();
    lines_have_their_size();
}

/// The law of composed bodies: parts are composed to one body at most, the one that the functions give, and to one
/// where they have less than 2^64 bytes together. The number of its boundary is at most the number of these bytes.
pub fn parts_have_one_composed_body()
    ensures number { (parts : List Bytes) (n : ℕ) → (composed_number parts ≡ Some n ↔ IsLeastFree parts n) }
    ensures body { (parts : List Bytes) (n : ℕ) (body : Bytes)
        → (((composed_number parts ≡ Some n) × (composed_body parts ≡ Some body)) ↔ IsComposed parts n body) }
    ensures there { (parts : List Bytes) → bytes_of parts < 2 ^ 64
        → (n : ℕ) × ((composed_number parts ≡ Some n) × (n ≤ bytes_of parts)) }
{
    lines_have_their_size();
}

/// The law of composed types: a head that begins its `Content-Type` fields with the one of a composed body has that
/// boundary; such a field may be written, and is read as it was written.
pub fn a_composed_type_has_its_boundary()
    ensures boundary { (head : List NamedValue) (n : ℕ) (others : List Bytes) → n < 2 ^ 64
        → values_of (codes "Content-Type") head ≡ composed_type n ∷ others
        → IsBoundary head (boundary_number n) }
    ensures stands { (n : ℕ) → n < 2 ^ 64 → CanStand (field (codes "Content-Type") (composed_type n)) }
    ensures shown { (n : ℕ) → shown (field (codes "Content-Type") (composed_type n))
        ≡ record { name = codes "Content-Type"; value = composed_type n } }
{
    blanks_are_cut_at_both_ends();
    a_line_is_read_as_its_value();
}

/// A body of these parts, and the number n of its boundary `=_pec_n`: the least for which no line of a part begins with
/// `--=_pec_n`, where the last piece of a part counts as a line. Each part stands behind a delimiter and before a line
/// end.
pub fn compose(alloc: Global, parts: &[Text8]) -> Result<(u64, Vec<u8>), NoMemory>
    ensures composed { IfOk result (λ made. IsComposed parts.now made.0 made.1.items) }
    // The same answer as functions of the parts, for definitions that build on it.
    ensures number { IfOk result (λ made. composed_number parts.now ≡ Some made.0) }
    ensures body { IfOk result (λ made. composed_body parts.now ≡ Some made.1.items) }
{
    parts_have_one_composed_body();
    let made = compose_parts(alloc, parts)?;
    Ok(made)
}

fn compose_parts(alloc: Global, parts: &[Text8]) -> Result<(u64, Vec<u8>), NoMemory>
    ensures { IfOk result (λ made. IsComposed parts.now made.0 made.1.items) }
{
    let pieces = slices(alloc, parts)?;
    let number = free_number(alloc, pieces.as_slice())?;
    let boundary = boundary(alloc, number)?;
    let body = join(alloc, boundary.as_slice(), parts)?;
    Ok((number, body))
}

/// The value of the `Content-Type` of a body with the boundary of this number (RFC 2046, section 5.1.1).
pub fn composed_type(alloc: Global, number: u64) -> Result<Vec<u8>, NoMemory>
    ensures { IfOk result (λ value. value.items ≡ composed_type number) }
{
    let boundary = boundary(alloc, number)?;
    let mut value = Vec::with_capacity(alloc, TYPE_LENGTH)?;
    value.extend_from_slice(b"multipart/mixed; boundary=\"".as_slice())?;
    value.extend_from_slice(boundary.as_slice())?;
    value.push(b'"')?;
    Ok(value)
}

/// The parts as slices.
fn slices(alloc: Global, parts: &[Text8]) -> Result<Vec<&[u8]>, AllocError>
    ensures { IfOk result (λ pieces. map (λ piece. piece.now) pieces.items ≡ parts.now) }
{
    let mut pieces = Vec::new(alloc);
    for part in parts {
        pieces.push(part.bytes())?;
    }
    Ok(pieces)
}

/// The boundary with this number, `=_pec_n`.
#[tactic(auto, unfolding(crate::specs::Composing::boundary_number))]
pub fn boundary(alloc: Global, number: u64) -> Result<Vec<u8>, NoMemory>
    ensures { IfOk result (λ bytes. bytes.items ≡ boundary_number number) }
{
    let digits = number.to_string(alloc)?;
    let mut bytes = Vec::with_capacity(alloc, BOUNDARY_LENGTH)?;
    bytes.extend_from_slice(b"=_pec_".as_slice())?;
    bytes.extend_from_slice(digits.as_bytes())?;
    Ok(bytes)
}

/// Each part behind a delimiter, and a closing delimiter.
fn join(alloc: Global, boundary: &[u8], parts: &[Text8]) -> Result<Vec<u8>, AllocError>
    ensures { IfOk result (λ body. body.items ≡ joined_parts boundary.now parts.now) }
{
    let mut body = Vec::new(alloc);
    for part in parts {
        add_part(&mut body, boundary, part.bytes())?;
    }
    add_closing(&mut body, boundary)?;
    Ok(body)
}

fn add_part(body: &mut Vec<u8>, boundary: &[u8], part: &[u8]) -> Result<(), AllocError>
    ensures { OnOk result (body.new.items ≡ body.old.items ++ delimited boundary.now part.now) }
{
    body.extend_from_slice(b"--".as_slice())?;
    add_line(body, boundary)?;
    add_line(body, part)?;
    Ok(())
}

fn add_closing(body: &mut Vec<u8>, boundary: &[u8]) -> Result<(), AllocError>
    ensures { OnOk result (body.new.items
        ≡ body.old.items ++ ended_line (dashed boundary.now ++ hyphen ∷ hyphen ∷ [])) }
{
    body.extend_from_slice(b"--".as_slice())?;
    body.extend_from_slice(boundary)?;
    add_line(body, b"--".as_slice())?;
    Ok(())
}

fn add_line(body: &mut Vec<u8>, bytes: &[u8]) -> Result<(), AllocError>
    ensures { OnOk result (body.new.items ≡ body.old.items ++ ended_line bytes.now) }
{
    body.extend_from_slice(bytes)?;
    body.extend_from_slice(b"\r\n".as_slice())?;
    Ok(())
}
