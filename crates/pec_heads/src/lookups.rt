ghost use Rattle.std.specs.Prelude.{◌≡◌, [], ◌∷◌, length, map, not, slice_get, IfNone, IfSome};
ghost use Rattle.std.specs.List.{list_any};
ghost use Rattle.std.specs.Option.{option_map};
ghost use Rattle.std.specs.Str.{str_eq_ignore_ascii_case};
ghost use Rattle.pec_heads.specs.Bytes.{part_of, trimmed};
ghost use Rattle.pec_heads.specs.FactsReading.{only_one};
ghost use Rattle.pec_heads.specs.Heads.{cut, values_of};
ghost use Rattle.pec_heads.specs.Lists.{is_all_blank};
ghost use Rattle.pec_heads.specs.Views.{end_before, field_at, fields_at, fields_shown};

use crate::blanks::{is_all_blank, trim};
use crate::fields::{Fields, Start};
use crate::parts::part;

/// How many fields have this name.
pub(crate) fn count(fields: &Fields, name: &[u8]) -> usize
    ensures { result ≡ length (values_of name.now (fields_shown fields.now)) }
{
    let bytes = fields.bytes.as_slice();
    let mut rest = fields.starts.as_slice();
    let mut count = 0;
    while let [start, behind @ ..] = rest {
        if has_name(bytes, *start, name) {
            count += 1;
        }
        rest = behind;
    }
    count
}

/// The value of the field of this name with number i, from 0.
pub(crate) fn value<'a>(fields: &'a Fields, name: &[u8], i: usize) -> Option<&'a [u8]>
    ensures { option_map (λ v. v.now) result ≡ slice_get (values_of name.now (fields_shown fields.now)) i }
{
    let bytes = fields.bytes.as_slice();
    let mut rest = fields.starts.as_slice();
    let mut before = i;
    while let [start, behind @ ..] = rest {
        if has_name(bytes, *start, name) {
            if before == 0 {
                return Some(value_at(bytes, *start, behind));
            }
            before -= 1;
        }
        rest = behind;
    }
    None
}

/// The value of the field of this name, where there is one such field.
pub(crate) fn only_value<'a>(fields: &'a Fields, name: &[u8]) -> Option<&'a [u8]>
    ensures { option_map (λ v. v.now) result ≡ only_one (values_of name.now (fields_shown fields.now)) }
{
    let bytes = fields.bytes.as_slice();
    let (value, behind) = next_value(bytes, fields.starts.as_slice(), name)?;
    match next_value(bytes, behind, name) {
        Some(_) => None,
        None => Some(value),
    }
}

/// The value of the first field of this name that starts there, and where those behind it start.
fn next_value<'a>(
    bytes: &'a [u8],
    starts: &'a [Start],
    name: &[u8],
) -> Option<(&'a [u8], &'a [Start])>
    ensures none { IfNone result (values_of name.now (map cut (fields_at bytes.now starts.now)) ≡ []) }
    ensures some { IfSome result (λ found. values_of name.now (map cut (fields_at bytes.now starts.now))
        ≡ found.0.now ∷ values_of name.now (map cut (fields_at bytes.now found.1.now))) }
{
    let mut rest = starts;
    while let [start, behind @ ..] = rest {
        if has_name(bytes, *start, name) {
            return Some((value_at(bytes, *start, behind), behind));
        }
        rest = behind;
    }
    None
}

/// Whether a field of this name has a value that isn't blank.
pub(crate) fn is_filled(fields: &Fields, name: &[u8]) -> bool
    ensures { result ≡ list_any (λ value. not (is_all_blank value))
        (values_of name.now (fields_shown fields.now)) }
{
    let bytes = fields.bytes.as_slice();
    let mut rest = fields.starts.as_slice();
    while let [start, behind @ ..] = rest {
        if fills(bytes, *start, behind, name) {
            return true;
        }
        rest = behind;
    }
    false
}

/// Whether the field that starts there, before those behind it, has this name and a value that isn't blank.
fn fills(bytes: &[u8], start: Start, behind: &[Start], name: &[u8]) -> bool
    ensures { result ≡ list_any (λ value. not (is_all_blank value))
        (values_of name.now (cut (field_at bytes.now start behind.now) ∷ [])) }
{
    has_name(bytes, start, name) && !is_all_blank(value_at(bytes, start, behind))
}

/// Whether the field that starts there has this name.
pub(crate) fn has_name(bytes: &[u8], start: Start, name: &[u8]) -> bool
    ensures { result ≡ str_eq_ignore_ascii_case (part_of start.name start.value bytes.now) name.now }
{
    part(bytes, start.name, start.value).eq_ignore_ascii_case(name)
}

/// The value of the field that starts there, before those behind it.
pub(crate) fn value_at<'a>(bytes: &'a [u8], start: Start, behind: &[Start]) -> &'a [u8]
    ensures { result.now ≡ trimmed (part_of start.value (end_before behind.now (length bytes.now)) bytes.now) }
{
    let end = match behind {
        [next, ..] => next.name,
        [] => bytes.len(),
    };
    trim(part(bytes, start.value, end))
}
