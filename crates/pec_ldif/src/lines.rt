ghost use Rattle.std.specs.Prelude.{◌≡◌, ◌+◌, ◌<◌, ◌≤◌, ◌∷◌, ◌++◌, [], drop, length, take, true, IfOk, IfSome, OnOk};
ghost use Rattle.pec_ldif.specs.Lines.{begins_with, content_of, ends_with, is_empty, is_said, lines_of, raw_lines};
ghost use Rattle.pec_ldif.specs.LinesReading.{feed_at, first_goes_on, kept, left_from, takes_in};

use pec_types::{NoMemory, Text8};
use std::alloc::Global;
use std::marker::Model;

/// A line of a text, with the lines that go on with it. Contracts see the place where it begins, in bytes from 0, and
/// what it says.
#[derive(Drop)]
pub struct Line {
    place: usize,
    bytes: Text8,
}

impl Model for Line {
    ghost use Rattle.pec_ldif.specs.Lines.{Line as Shown};

    ghost Value = { Shown };

    ghost view = { λ line. record { place = line.place; bytes = line.bytes } };
}

impl Line {
    ghost use Rattle.std.specs.Prelude.{◌≡◌};

    /// The place where the line begins in its text, in bytes from 0. It takes no memory.
    pub fn place(&self) -> usize
        ensures { result ≡ self.now.place }
    {
        self.place
    }

    /// What it says, with the lines that go on with it. It takes no memory.
    pub fn bytes(&self) -> &[u8]
        ensures { result.now ≡ self.now.bytes }
    {
        self.bytes.bytes()
    }
}

/// The lines of a text of LDIF (RFC 2849), but for comments. A line that begins with a space goes on with the line
/// before it, where that isn't empty. This project's profile.
#[tactic(auto, unfolding(crate::specs::Lines::lines_of))]
pub fn read_lines(alloc: Global, text: &[u8]) -> Result<Vec<Line>, NoMemory>
    ensures { IfOk result (λ lines. lines.items ≡ lines_of text.now) }
{
    let mut lines = Vec::new(alloc);
    let mut at = 0;
    let mut rest = text;
    while !rest.is_empty() {
        let (line, size) = next_line(alloc, rest, at)?;
        keep(&mut lines, line)?;
        at += size;
        rest = &rest[size..];
    }
    Ok(lines)
}

/// Keeps a line that is no comment.
fn keep(lines: &mut Vec<Line>, line: Line) -> Result<(), NoMemory>
    ensures { OnOk result (lines.new.items ≡ lines.old.items ++ kept (line ∷ [])) }
{
    if !is_said(&line) {
        return Ok(());
    }
    lines.push(line)?;
    Ok(())
}

fn is_said(line: &Line) -> bool
    ensures { result ≡ is_said line.now }
{
    !begins_with(line.bytes(), b'#')
}

/// The first line of a text that begins at this place, with those that go on with it, and how many bytes they are.
fn next_line(alloc: Global, text: &[u8], at: usize) -> Result<(Line, usize), NoMemory>
    requires some { 0 < length text.now }
    ensures line { IfOk result (λ read.
        left_from at text.now ≡ read.0 ∷ left_from (at + read.1) (drop read.1 text.now)) }
    ensures some { IfOk result (λ read. 0 < read.1) }
    ensures within { IfOk result (λ read. read.1 ≤ length text.now) }
{
    let mut size = first_size(text);
    let mut bytes = Vec::from_slice(alloc, content(&text[..size]))?;
    while takes_in(bytes.as_slice(), &text[size..]) {
        size += add_first(&mut bytes, &text[size..])?;
    }
    let line = Line {
        place: at,
        bytes: Text8::of(bytes),
    };
    Ok((line, size))
}

/// Adds what the first line of a text says behind its first byte. The answer is how many bytes the line has.
fn add_first(bytes: &mut Vec<u8>, text: &[u8]) -> Result<usize, NoMemory>
    requires some { 0 < length text.now }
    ensures bytes { IfOk result (λ size. bytes.new.items ≡ bytes.old.items ++ drop 1 (content_of (take size text.now))) }
    ensures cut { IfOk result (λ size. raw_lines text.now ≡ take size text.now ∷ raw_lines (drop size text.now)) }
    ensures some { IfOk result (λ size. 0 < size) }
    ensures within { IfOk result (λ size. size ≤ length text.now) }
{
    let size = first_size(text);
    bytes.extend_from_slice(behind_first(content(&text[..size])))?;
    Ok(size)
}

/// Whether a line that begins with these bytes goes on with the first line of this text.
#[tactic(auto, unfolding(crate::specs::LinesReading::takes_in))]
fn takes_in(bytes: &[u8], text: &[u8]) -> bool
    ensures value { result ≡ takes_in bytes.now text.now }
    ensures some { result ≡ true → 0 < length text.now }
{
    !is_empty(bytes) && first_goes_on(text)
}

/// Whether the first line of a text begins with a space.
fn first_goes_on(text: &[u8]) -> bool
    ensures value { result ≡ first_goes_on (raw_lines text.now) }
    ensures some { result ≡ true → 0 < length text.now }
{
    if text.is_empty() {
        return false;
    }
    let size = first_size(text);
    begins_with(content(&text[..size]), b' ')
}

/// How many bytes the first line has, its end among them.
pub(crate) fn first_size(text: &[u8]) -> usize
    requires { 0 < length text.now }
    ensures cut { raw_lines text.now ≡ take result text.now ∷ raw_lines (drop result text.now) }
    ensures some { 0 < result }
    ensures within { result ≤ length text.now }
{
    match line_feed(text) {
        Some(at) => at + 1,
        None => text.len(),
    }
}

/// The place of the first line feed.
fn line_feed(text: &[u8]) -> Option<usize>
    ensures value { result ≡ feed_at text.now }
    ensures below { IfSome result (λ at. at < length text.now) }
{
    for (i, b) in text.iter().enumerate() {
        if *b == b'\n' {
            return Some(i);
        }
    }
    None
}

/// What a line says: the line without its line feed, and without a carriage return before that.
#[tactic(auto, unfolding(crate::specs::Lines::content_of))]
pub(crate) fn content(line: &[u8]) -> &[u8]
    ensures { result.now ≡ content_of line.now }
{
    if !has_at_end(line, b'\n') {
        return line;
    }
    let said = &line[..line.len() - 1];
    if has_at_end(said, b'\r') {
        return &said[..said.len() - 1];
    }
    said
}

fn has_at_end(bytes: &[u8], last: u8) -> bool
    ensures { result ≡ ends_with last bytes.now }
{
    !bytes.is_empty() && bytes[bytes.len() - 1] == last
}

pub(crate) fn begins_with(bytes: &[u8], first: u8) -> bool
    ensures { result ≡ begins_with first bytes.now }
{
    match bytes {
        [] => false,
        [b, ..] => *b == first,
    }
}

pub(crate) fn is_empty(bytes: &[u8]) -> bool
    ensures { result ≡ is_empty bytes.now }
{
    match bytes {
        [] => true,
        [_, ..] => false,
    }
}

pub(crate) fn behind_first(bytes: &[u8]) -> &[u8]
    ensures { result.now ≡ drop 1 bytes.now }
{
    match bytes {
        [] => bytes,
        [_, rest @ ..] => rest,
    }
}
