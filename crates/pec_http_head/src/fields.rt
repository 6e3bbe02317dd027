ghost use Rattle.std.specs.Prelude.{◌≡◌, ℕ, List, length, map};
ghost use Rattle.std.specs.List.{slice_get};
ghost use Rattle.std.specs.Option.{option_map};
ghost use Rattle.std.specs.Str.{str_eq_ignore_ascii_case};
ghost use Rattle.pec_http_head.specs.Fields.{only_value, values_of};
ghost use Rattle.pec_http_head.specs.Views.{field_shown};

use crate::heads::Field;

/// The value of the only field of this name, whatever the case of its letters. `None` where there is none, and where
/// there are several.
pub(crate) fn only<'a>(fields: &[Field<'a>], name: &[u8]) -> Option<&'a [u8]>
    ensures { option_map (λ value. value.now) result ≡ only_value name.now (map field_shown fields.now) }
{
    if count(fields, name) == 1 {
        first(fields, name)
    } else {
        None
    }
}

/// The value of the first field of this name.
pub(crate) fn first<'a>(fields: &[Field<'a>], name: &[u8]) -> Option<&'a [u8]>
    ensures { option_map (λ value. value.now) result ≡ slice_get (values_of name.now (map field_shown fields.now)) 0 }
{
    for field in fields {
        if has_name(field, name) {
            return Some(field.value);
        }
    }
    None
}

/// How many fields have this name.
pub(crate) fn count(fields: &[Field<'_>], name: &[u8]) -> usize
    ensures { result ≡ length (values_of name.now (map field_shown fields.now)) }
{
    let mut count = 0;
    for field in fields {
        if has_name(field, name) {
            count += 1;
        }
    }
    count
}

fn has_name(field: &Field<'_>, name: &[u8]) -> bool
    ensures { result ≡ str_eq_ignore_ascii_case field.now.name.now name.now }
{
    field.name.eq_ignore_ascii_case(name)
}
