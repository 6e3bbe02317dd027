ghost use Rattle.std.specs.Prelude.{◌≡◌, ◌<◌, IfSome, Option, length, position};
ghost use Rattle.pec_types.specs.Bytes.{is_quote};
ghost use Rattle.pec_heads.specs.Lists.{is_comma, is_phrase_byte};
ghost use Rattle.pec_heads.specs.ListReading.{angle_from, comma_from};
ghost use Rattle.pec_heads.specs.declared.quoting.Quoting.TheVariants as quotings;

use memchr::memchr;

/// Where a byte of a list stands: outside double quotes, inside, or inside behind a backslash that takes it with it.
#[derive(Clone, Copy)]
pub(crate) enum Quoting {
    Outside,
    Inside,
    Escaped,
}

impl Quoting {
    ghost use Rattle.std.specs.Prelude.{◌≡◌};
    ghost use Rattle.pec_heads.specs.ListReading.{after, is_outside};

    /// Where the next byte stands.
    fn after(self, b: u8) -> Quoting
        ensures { result ≡ after self b }
    {
        match self {
            Quoting::Outside => {
                if b == b'"' {
                    Quoting::Inside
                } else {
                    Quoting::Outside
                }
            }
            Quoting::Inside => {
                if b == b'"' {
                    Quoting::Outside
                } else if b == b'\\' {
                    Quoting::Escaped
                } else {
                    Quoting::Inside
                }
            }
            Quoting::Escaped => Quoting::Inside,
        }
    }

    fn is_outside(self) -> bool
        ensures { result ≡ is_outside self }
    {
        match self {
            Quoting::Outside => true,
            Quoting::Inside => false,
            Quoting::Escaped => false,
        }
    }
}

/// The place of the first comma outside quotes: that of the first of all, where no quote stands before it.
pub(crate) fn comma(text: &[u8]) -> Option<usize>
    ensures value { result ≡ comma_from quotings.Outside text.now }
    ensures below { IfSome result (λ at. at < length text.now) }
{
    let first = first_comma(text)?;
    match quote(&text[..first]) {
        None => Some(first),
        Some(_) => comma_outside(text),
    }
}

fn first_comma(text: &[u8]) -> Option<usize>
    ensures value { result ≡ position is_comma text.now }
    ensures below { IfSome result (λ at. at < length text.now) }
{
    memchr(b',', text)
}

fn quote(text: &[u8]) -> Option<usize>
    ensures { result ≡ position is_quote text.now }
{
    memchr(b'"', text)
}

/// As `comma`, byte by byte.
fn comma_outside(text: &[u8]) -> Option<usize>
    ensures value { result ≡ comma_from quotings.Outside text.now }
    ensures below { IfSome result (λ at. at < length text.now) }
{
    let mut quoting = Quoting::Outside;
    for (i, b) in text.iter().enumerate() {
        if quoting.is_outside() && *b == b',' {
            return Some(i);
        }
        quoting = quoting.after(*b);
    }
    None
}

/// The place of the first `<` outside quotes, where only a phrase stands before it.
pub(crate) fn angle(entry: &[u8]) -> Option<usize>
    ensures value { result ≡ angle_from quotings.Outside entry.now }
    ensures below { IfSome result (λ at. at < length entry.now) }
{
    let mut quoting = Quoting::Outside;
    for (i, b) in entry.iter().enumerate() {
        if quoting.is_outside() && *b == b'<' {
            return Some(i);
        }
        if quoting.is_outside() && *b != b'"' && !is_phrase_byte(*b) {
            return None;
        }
        quoting = quoting.after(*b);
    }
    None
}

#[tactic(auto, unfolding(crate::specs::Lists::is_phrase_byte))]
fn is_phrase_byte(b: u8) -> bool
    ensures { result ≡ is_phrase_byte b }
{
    !matches!(
        b,
        b'"' | b'<' | b'>' | b',' | b'@' | b';' | b':' | b'(' | b')' | b'\\'
    )
}
