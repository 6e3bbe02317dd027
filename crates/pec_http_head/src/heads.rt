ghost use Rattle.std.specs.Prelude.{◌≡◌, ℕ, ◌<◌, ◌≤◌, List, [], length, drop, map, All, IfOk, IfSome, IsNone};
ghost use Rattle.std.specs.Option.{option_map};
ghost use Rattle.httparse.specs.Grammar.{ReadsRequest, RequestHead};
ghost use Rattle.httparse.specs.Spans.{IsHeaderWithin, IsRequestAt, IsRequestWithin, header_bytes};
ghost use Rattle.pec_http_head.specs.Fields.{declared_in, key_of, length_in, length_of, path_of};
ghost use Rattle.pec_http_head.specs.Requests.{ReadsHead};
ghost use Rattle.pec_http_head.specs.Views.{field_shown, request_shown};

use crate::fields::{count, first, only};
use crate::paths::addresses_in;
use httparse::Status;
use httparse::spans::{EMPTY_HEADER_SPAN, HeaderSpan, RequestSpans, parse_request};
use pec_types::{Address, NoMemory};
use pec_words::{a_path_has_one_reading, digits_number};
use std::alloc::Global;

/// A field of a head, its value without the blanks around it (RFC 9112, section 5).
#[derive(Clone, Copy)]
pub struct Field<'a> {
    pub name: &'a [u8],
    pub value: &'a [u8],
}

/// The head of a request: its request line and its fields in their order (RFC 9112, section 3).
#[derive(Drop)]
pub struct Head<'a> {
    pub method: &'a [u8],
    pub target: &'a [u8],
    pub fields: Vec<Field<'a>>,
}

impl<'a> Head<'a> {
    /// The head that these bytes are as a whole, `None` where they are none with at most 64 fields.
    pub fn read(alloc: Global, text: &'a [u8]) -> Result<Option<Head<'a>>, NoMemory>
        ensures { IfOk result (λ found. ReadsHead text.now (option_map request_shown found)) }
    {
        let mut spans = [EMPTY_HEADER_SPAN; 64];
        let Some(parts) = parse(text, &mut spans) else {
            return Ok(None);
        };
        let fields = fields(alloc, text, &spans[..parts.headers])?;
        Ok(Some(Head {
            method: parts.method.of(text),
            target: parts.path.of(text),
            fields,
        }))
    }

    /// The account's key: the value of the first `x-key`. It takes no memory.
    #[tactic(auto, unfolding(crate::specs::Fields::key_of))]
    pub fn key(&self) -> Option<&'a [u8]>
        ensures { option_map (λ key. key.now) result ≡ key_of (request_shown self.now) }
    {
        first(&self.fields, b"x-key".as_slice())
    }

    /// The declared length of the body in bytes: exactly one `content-length` of 1 to 10 digits, and no
    /// `transfer-encoding` (RFC 9112, section 6). It takes no memory.
    #[tactic(auto, unfolding(crate::specs::Fields::length_of))]
    pub fn length(&self) -> Option<u64>
        ensures { result ≡ length_of (request_shown self.now) }
    {
        if count(&self.fields, b"transfer-encoding".as_slice()) == 0 {
            declared(&self.fields)
        } else {
            None
        }
    }

    /// The forward path: exactly one `x-path`, of 1 to 1,000 addresses joined by commas with blanks round them.
    #[tactic(auto, unfolding(crate::specs::Fields::path_of))]
    pub fn path(&self, alloc: Global) -> Result<Option<Vec<Address>>, NoMemory>
        ensures exact { IfOk result (λ found. option_map (λ path. path.items) found ≡ path_of (request_shown self.now)) }
        ensures some { IfOk result (λ found. IfSome found (λ path. 0 < length path.items)) }
        ensures few { IfOk result (λ found. IfSome found (λ path. length path.items ≤ 1000)) }
    {
        let Some(text) = only(&self.fields, b"x-path".as_slice()) else {
            return Ok(None);
        };
        a_path_has_one_reading();
        let path = addresses_in(alloc, text)?;
        Ok(path)
    }
}

/// The length that the only `content-length` declares.
fn declared(fields: &[Field<'_>]) -> Option<u64>
    ensures { result ≡ declared_in (map field_shown fields.now) }
{
    let text = only(fields, b"content-length".as_slice())?;
    length_in(text)
}

/// The length that 1 to 10 digits give, with zeros in front or without.
fn length_in(text: &[u8]) -> Option<u64>
    ensures { result ≡ length_in text.now }
{
    if text.len() <= 10 {
        digits_number(text)
    } else {
        None
    }
}

/// Where the parts of a head are that is the whole text and has room here for its fields.
fn parse(text: &[u8], spans: &mut [HeaderSpan]) -> Option<RequestSpans>
    ensures within { IfSome result (IsRequestWithin text.now spans.new) }
    ensures whole { IfSome result (λ parts. parts.len ≡ length text.now) }
    ensures some { IfSome result (λ parts. (head : RequestHead) × IsRequestAt text.now spans.new parts head) }
    ensures none { IsNone result → (head : RequestHead) → ReadsRequest text.now head [] →
        length head.fields ≤ length spans.old → ⊥ }
{
    match parse_request(text, spans) {
        Ok(Status::Complete(parts)) if parts.len == text.len() => Some(parts),
        _ => None,
    }
}

fn fields<'a>(
    alloc: Global,
    text: &'a [u8],
    spans: &[HeaderSpan],
) -> Result<Vec<Field<'a>>, NoMemory>
    requires { All (IsHeaderWithin (length text.now)) spans.now }
    ensures { IfOk result (λ all. map field_shown all.items ≡ map (header_bytes text.now) spans.now) }
{
    let mut all = Vec::new(alloc);
    for span in spans {
        all.push(Field {
            name: span.name.of(text),
            value: span.value.of(text),
        })?;
    }
    Ok(all)
}
