ghost use Rattle.std.specs.Prelude.{◌≡◌, ℕ, ◌+◌, ◌-◌, ◌*◌, ◌<◌, ◌≤◌, ◌++◌, map, min, true, false, length, IfNone, IfOk, IfSome, vec_len};
ghost use Rattle.std.specs.Char.{is_ascii_digit};
ghost use Rattle.std.specs.Fmt.{decimal};
ghost use Rattle.std.specs.List.{list_any, prefix_len};
ghost use Rattle.pec_bodies.specs.Composing.{IsLeastFree, all_lines, begins, boundary_number, boundary_taken};
ghost use Rattle.pec_bodies.specs.Marks.{dashed};
ghost use Rattle.pec_bodies.specs.Numbers.{MarksMore, digits_of, is_marked, number_front, room_for, room_in};

use pec_heads::{first_line, lines_have_their_size};
use pec_types::NoMemory;
use std::alloc::Global;

/// The least number whose boundary is free: no line of a part begins with `--=_pec_n`, where the last piece of a part
/// counts as a line. The parts are looked at where they stand, and may be handed in as pieces of whole lines.
pub fn free_number(alloc: Global, parts: &[&[u8]]) -> Result<u64, NoMemory>
    ensures { IfOk result (λ n. IsLeastFree (map (λ part. part.now) parts.now) n) }
{
    // Where no line has room for a number, none is taken.
    if let Some(1) = room(parts) {
        return Ok(0);
    }
    // One of the numbers that are looked at is free: there are more of them than the lines can take.
    let marks = numbers_taken(alloc, parts)?;
    let Some(number) = first_unmarked(marks.as_slice()) else {
        unreachable!()
    };
    Ok(number as u64)
}

fn first_unmarked(marks: &[bool]) -> Option<usize>
    ensures none { IfNone result ((k : ℕ) → k < length marks.now → is_marked marks.now k ≡ true) }
    ensures below { IfSome result (λ n. n < length marks.now) }
    ensures unmarked { IfSome result (λ n. is_marked marks.now n ≡ false) }
    ensures first { IfSome result (λ n. (k : ℕ) → k < n → is_marked marks.now k ≡ true) }
{
    marks.iter().position(|marked| !*marked)
}

/// For each number that is looked at whether it is taken.
fn numbers_taken(alloc: Global, parts: &[&[u8]]) -> Result<Vec<bool>, NoMemory>
    ensures room { IfOk result (λ marks. vec_len marks ≡ room_for (map (λ part. part.now) parts.now) + 1) }
    ensures taken { IfOk result (λ marks. (k : ℕ) → k < vec_len marks
        → is_marked marks.items k ≡ boundary_taken (boundary_number k) (map (λ part. part.now) parts.now)) }
{
    let Some(room) = room(parts) else {
        return Err(NoMemory);
    };
    let mut marks = vec![in alloc; false; room]?;
    mark_parts(marks.as_mut_slice(), parts);
    Ok(marks)
}

/// How many numbers are looked at: one more than the lines can take. They can't take more than they have bytes, so it
/// is hardly more than the parts' bytes, and mostly 1. `None` where there are more of them than a list has places.
fn room(parts: &[&[u8]]) -> Option<usize>
    ensures { IfSome result (λ room. room ≡ room_for (map (λ part. part.now) parts.now) + 1) }
{
    let mut room: usize = 1;
    for part in parts {
        room = room.checked_add(room_in(part))?;
    }
    Some(room)
}

fn room_in(part: &[u8]) -> usize
    ensures { result ≡ room_in part.now }
{
    // A text is no shorter than its lines: that bounds the sum.
    lines_have_their_size();
    let mut room: usize = 0;
    let mut rest = part;
    while let Some((line, behind)) = first_line(rest) {
        room += digits_of(line);
        rest = behind;
    }
    room + digits_of(rest)
}

/// How many digits a line has where its number stands.
fn digits_of(line: &[u8]) -> usize
    ensures { result ≡ digits_of line.now }
{
    match tail(line) {
        Some(text) => digits(text),
        None => 0,
    }
}

/// How many digits a text begins with.
fn digits(text: &[u8]) -> usize
    ensures { result ≡ prefix_len is_ascii_digit text.now }
{
    for (i, byte) in text.iter().enumerate() {
        if !byte.is_ascii_digit() {
            return i;
        }
    }
    text.len()
}

fn mark_parts(marks: &mut [bool], parts: &[&[u8]])
    ensures { MarksMore (λ k. boundary_taken (boundary_number k) (map (λ part. part.now) parts.now)) marks.old marks.new }
{
    for part in parts {
        mark_part(marks, part);
    }
}

fn mark_part(marks: &mut [bool], part: &[u8])
    ensures { MarksMore (λ k. list_any (begins (dashed (boundary_number k))) (all_lines part.now)) marks.old marks.new }
{
    let mut rest = part;
    while let Some((line, behind)) = first_line(rest) {
        mark_line(marks, line);
        rest = behind;
    }
    mark_line(marks, rest);
}

/// Marks each number whose delimiter the line begins with.
fn mark_line(marks: &mut [bool], line: &[u8])
    ensures { MarksMore (λ k. begins (dashed (boundary_number k)) line.now) marks.old marks.new }
{
    if let Some(digits) = tail(line) {
        mark_fronts(marks, digits);
    }
}

/// What stands where a line has its number.
fn tail(line: &[u8]) -> Option<&[u8]>
    ensures none { IfNone result (begins number_front line.now ≡ false) }
    ensures some { IfSome result (λ tail. line.now ≡ number_front ++ tail.now) }
{
    line.strip_prefix(b"--=_pec_".as_slice())
}

/// Marks each number that the text begins with.
fn mark_fronts(marks: &mut [bool], text: &[u8])
    ensures { MarksMore (λ k. begins (decimal k) text.now) marks.old marks.new }
{
    let mut number: usize = 0;
    for byte in text {
        if !byte.is_ascii_digit() {
            return;
        }
        number = with_digit(number, *byte);
        if number >= marks.len() {
            return;
        }
        marks[number] = true;
        // Behind a leading zero stands no digit of a number.
        if number == 0 {
            return;
        }
    }
}

/// A number with one more digit, or the greatest one where that is too large.
fn with_digit(number: usize, digit: u8) -> usize
    requires { 48 ≤ digit }
    ensures { result ≡ min usize.MAX (10 * number + (digit - 48)) }
{
    number
        .saturating_mul(10)
        .saturating_add(usize::from(digit - b'0'))
}
