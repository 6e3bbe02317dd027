ghost use Rattle.std.specs.Prelude.{◌≡◌, ◌++◌, ◌∷◌, [], map, codes, IfOk, OnOk, option_map};
ghost use Rattle.pec_types.specs.Bytes.{carriage_return, line_feed};
ghost use Rattle.pec_heads.specs.WrittenHeads.{field_text, head_text};
ghost use Rattle.pec_bodies.specs.Parameters.{with_parameter};
ghost use Rattle.pec_brief.specs.Attachments.{begins_attachment, disposition_field, given_name, hash_name, is_attachment, named_in, replacement, replacement_fields, safe_byte, type_field};

use pec_bodies::parameter;
use pec_heads::{Head, end_head, put_field};
use pec_types::NoMemory;
use sha2::{Digest, Sha256};
use std::alloc::{AllocError, Global};

/// Whether a part with this head is an attachment: its first `Content-Disposition` begins with `attachment` (RFC 2183,
/// section 2.2).
#[tactic(auto, unfolding(crate::specs::Attachments::is_attachment))]
pub(crate) fn is_attachment(head: &Head) -> bool
    ensures { result ≡ is_attachment head.now }
{
    match head.field(b"Content-Disposition") {
        Some(value) => begins_attachment(value),
        None => false,
    }
}

#[tactic(auto, unfolding(crate::specs::Attachments::begins_attachment))]
fn begins_attachment(value: &[u8]) -> bool
    ensures { result ≡ begins_attachment value.now }
{
    let front = &value[..value.len().min(10)];
    front.eq_ignore_ascii_case(b"attachment".as_slice())
}

/// Puts what stands for an attachment: a head with its name, and the digest of its body as it stands.
#[tactic(auto, unfolding(crate::specs::Attachments::replacement))]
pub(crate) fn put_replacement(
    alloc: Global,
    out: &mut Vec<u8>,
    head: &Head,
    body: &[u8],
) -> Result<(), NoMemory>
    ensures { OnOk result (out.new.items ≡ out.old.items ++ replacement head.now body.now) }
{
    let name = hash_name(alloc, head)?;
    let digits = hex::encode(alloc, Sha256::digest(body))?;
    put_head(alloc, out, name.as_slice())?;
    out.extend_from_slice(digits.as_bytes())?;
    Ok(())
}

/// Puts the head of what stands for an attachment, with the empty line that ends it.
fn put_head(alloc: Global, out: &mut Vec<u8>, name: &[u8]) -> Result<(), NoMemory>
    ensures { OnOk result (out.new.items
        ≡ out.old.items ++ (head_text (replacement_fields name.now) ++ carriage_return ∷ line_feed ∷ [])) }
{
    put_type(alloc, out, name)?;
    put_disposition(alloc, out, name)?;
    end_head(out)?;
    Ok(())
}

fn put_type(alloc: Global, out: &mut Vec<u8>, name: &[u8]) -> Result<(), NoMemory>
    ensures { OnOk result (out.new.items ≡ out.old.items ++ field_text (type_field name.now)) }
{
    let value = type_value(alloc, name)?;
    put_field(out, b"Content-Type", value.as_slice())?;
    Ok(())
}

fn put_disposition(alloc: Global, out: &mut Vec<u8>, name: &[u8]) -> Result<(), NoMemory>
    ensures { OnOk result (out.new.items ≡ out.old.items ++ field_text (disposition_field name.now)) }
{
    let value = disposition_value(alloc, name)?;
    put_field(out, b"Content-Disposition", value.as_slice())?;
    Ok(())
}

/// `text/plain; name="NAME"`
fn type_value(alloc: Global, name: &[u8]) -> Result<Vec<u8>, AllocError>
    ensures { IfOk result (λ value. value.items ≡ with_parameter (codes "text/plain") (codes "name") name.now) }
{
    let mut value = Vec::from_slice(alloc, b"text/plain; name=\"".as_slice())?;
    value.extend_from_slice(name)?;
    value.push(b'"')?;
    Ok(value)
}

/// `attachment; filename="NAME"`
fn disposition_value(alloc: Global, name: &[u8]) -> Result<Vec<u8>, AllocError>
    ensures { IfOk result (λ value. value.items ≡ with_parameter (codes "attachment") (codes "filename") name.now) }
{
    let mut value = Vec::from_slice(alloc, b"attachment; filename=\"".as_slice())?;
    value.extend_from_slice(name)?;
    value.push(b'"')?;
    Ok(value)
}

/// The name of what stands for an attachment: its own, each byte that can't stand in quotes made `_`, and `.hash`.
#[tactic(auto, unfolding(crate::specs::Attachments::hash_name))]
fn hash_name(alloc: Global, head: &Head) -> Result<Vec<u8>, AllocError>
    ensures { IfOk result (λ name. name.items ≡ hash_name head.now) }
{
    let mut name = safe_bytes(alloc, given_name(head))?;
    name.extend_from_slice(b".hash")?;
    Ok(name)
}

fn safe_bytes(alloc: Global, name: &[u8]) -> Result<Vec<u8>, AllocError>
    ensures { IfOk result (λ safe. safe.items ≡ map safe_byte name.now) }
{
    let mut safe = Vec::new(alloc);
    for byte in name {
        safe.push(safe_byte(*byte))?;
    }
    Ok(safe)
}

/// A byte as it may stand in quotes.
fn safe_byte(byte: u8) -> u8
    ensures { result ≡ safe_byte byte }
{
    if byte < b' ' || b'~' < byte || byte == b'"' || byte == b'\\' {
        b'_'
    } else {
        byte
    }
}

/// The name that a head gives an attachment: `filename` of its `Content-Disposition`, or else `name` of its
/// `Content-Type` (RFC 2183, section 2.3).
#[tactic(auto, unfolding(crate::specs::Attachments::given_name))]
fn given_name(head: &Head) -> &[u8]
    ensures { result.now ≡ given_name head.now }
{
    if let Some(name) = named_in(head, b"Content-Disposition", b"filename") {
        return name;
    }
    match named_in(head, b"Content-Type", b"name") {
        Some(name) => name,
        None => b"allegato",
    }
}

/// A parameter of the first field of a name, where it isn't empty.
#[tactic(auto, unfolding(crate::specs::Attachments::named_in))]
fn named_in<'a>(head: &'a Head, name: &[u8], wanted: &[u8]) -> Option<&'a [u8]>
    ensures { option_map (λ found. found.now) result ≡ named_in wanted.now name.now head.now }
{
    let value = head.field(name)?;
    let found = parameter(value, wanted)?;
    if found.is_empty() {
        return None;
    }
    Some(found)
}
