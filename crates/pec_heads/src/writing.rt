ghost use Rattle.std.specs.Prelude.{◌≡◌, ◌≤◌, ◌<◌, ◌+◌, ◌++◌, ◌∷◌, List, [], length, drop, false, map, true, Ok, OnOk};
ghost use Rattle.std.specs.List.{AllByRecursion, join_with_byte};
ghost use Rattle.pec_types.specs.Bytes.{Bytes, Path, line_feed, carriage_return, space, comma, colon};
ghost use Rattle.pec_types.specs.Address.{IsLowerAddress};
ghost use Rattle.pec_types.specs.Text.{AllPrintable};
ghost use Rattle.pec_heads.specs.Bytes.{NonePass, trimmed};
ghost use Rattle.pec_heads.specs.Heads.{NamedValue, IsHead, is_control, is_name, is_named, values_of};
ghost use Rattle.pec_heads.specs.HeadReading.{read_of};
ghost use Rattle.pec_heads.specs.Lists.{AllBare, IsList};
ghost use Rattle.pec_heads.specs.WrittenHeads.{Written, AllStand, CanStand, addresses_text, behind_address, field, field_text, folded_from, head_text, list_field, shown, with_head};
ghost use Rattle.pec_heads.specs.declared.TheConstants.{LINE_LIMIT};

use pec_types::{Address, NoMemory};
use std::alloc::AllocError;

/// The law of heads as they are written: what is read of fields that may be written is these fields, unfolded, and the
/// place of the body behind their empty line.
pub fn what_is_written_is_read()
    ensures head { (fields : List Written) (body : Bytes) → AllStand fields
        → IsHead (with_head fields body) (map shown fields) (length (head_text fields) + 2) }
    ensures given { (fields : List Written) (body : Bytes) → AllStand fields
        → read_of (with_head fields body) ≡ Ok (map shown fields, length (head_text fields) + 2) }
    ensures body { (fields : List Written) (body : Bytes)
        → drop (length (head_text fields) + 2) (with_head fields body) ≡ body }
    // A head is written field by field.
    ensures next { (fields : List Written) (last : Written)
        → head_text (fields ++ last ∷ []) ≡ head_text fields ++ field_text last }
{}

/// The law of a field of one line: it may be written where its bytes aren't control bytes and the line isn't too long,
/// and what is read of it is its value without the blanks at its ends.
pub fn a_line_is_read_as_its_value()
    ensures stands { (name value : Bytes) → is_name name ≡ true → NonePass is_control value
        → length name + 2 + length value ≤ LINE_LIMIT
        → CanStand (field name value) }
    ensures printable { (value : Bytes) → AllPrintable value → NonePass is_control value }
    ensures shown { (name value : Bytes) → shown (field name value) ≡ record { name = name; value = trimmed value } }
{}

/// The law of addresses joined by commas: with blanks round them, as where a field of them was folded, they are read as
/// that list.
pub fn joined_addresses_are_a_list()
    ensures bare { (entries : List Bytes) (addresses : Path) → 0 < length addresses → AllBare entries addresses
        → IsList (join_with_byte comma entries) addresses }
    ensures lower { (addresses : Path) → 0 < length addresses → AllByRecursion IsLowerAddress addresses
        → IsList (addresses_text addresses) addresses }
{}

/// The law of a field of addresses in lower case, folded behind its commas: it may be written, and its value is read as
/// these addresses on one line.
pub fn a_folded_list_is_read_as_its_addresses()
    // A line holds the name, a colon, a space, an address of at most 254 bytes and a comma.
    ensures stands { (name : Bytes) (addresses : Path) → is_name name ≡ true → length name + 257 ≤ LINE_LIMIT
        → AllByRecursion IsLowerAddress addresses → CanStand (list_field name addresses) }
    ensures shown { (name : Bytes) (addresses : Path) → AllByRecursion IsLowerAddress addresses
        → shown (list_field name addresses) ≡ record { name = name; value = addresses_text addresses } }
    ensures list { (name : Bytes) (addresses : Path) → 0 < length addresses → AllByRecursion IsLowerAddress addresses
        → IsList (shown (list_field name addresses)).value addresses }
{}

/// The law of look-ups over fields that stand one behind another.
pub fn fields_are_found_by_their_names()
    ensures here { (name : Bytes) (found : NamedValue) (fields : List NamedValue) → is_named name found ≡ true
        → values_of name (found ∷ fields) ≡ found.value ∷ values_of name fields }
    ensures elsewhere { (name : Bytes) (other : NamedValue) (fields : List NamedValue) → is_named name other ≡ false
        → values_of name (other ∷ fields) ≡ values_of name fields }
    ensures several { (name : Bytes) (fields others : List NamedValue)
        → values_of name (fields ++ others) ≡ values_of name fields ++ values_of name others }
{}

/// Puts a field of one line: the name, a colon, a space, the value and CRLF (RFC 5322, section 2.2). What is put is
/// read again where the field may stand in a head, as the laws above say. For want of memory a part of it may have been
/// put.
pub fn put_field(out: &mut Vec<u8>, name: &[u8], value: &[u8]) -> Result<(), NoMemory>
    ensures { OnOk result (out.new.items ≡ out.old.items ++ field_text (field name.now value.now)) }
{
    put_name(out, name)?;
    out.extend_from_slice(value)?;
    put_line_end(out)?;
    Ok(())
}

/// Puts a field of addresses, one address a line: a comma and CRLF behind each but the last, and a space before each
/// (RFC 5322, section 2.2.3). For want of memory a part of it may have been put.
pub fn put_addresses(out: &mut Vec<u8>, name: &[u8], addresses: &[&Address]) -> Result<(), NoMemory>
    ensures { OnOk result (out.new.items
        ≡ out.old.items ++ field_text (list_field name.now (map (λ address. address.now) addresses.now))) }
{
    put_name(out, name)?;
    if addresses.is_empty() {
        put_line_end(out)?;
        return Ok(());
    }
    put_lines(out, addresses)?;
    Ok(())
}

/// Puts the empty line that ends a head.
pub fn end_head(out: &mut Vec<u8>) -> Result<(), NoMemory>
    ensures { OnOk result (out.new.items ≡ out.old.items ++ carriage_return ∷ line_feed ∷ []) }
{
    put_line_end(out)?;
    Ok(())
}

fn put_name(out: &mut Vec<u8>, name: &[u8]) -> Result<(), AllocError>
    ensures { OnOk result (out.new.items ≡ out.old.items ++ (name.now ++ colon ∷ space ∷ [])) }
{
    out.extend_from_slice(name)?;
    out.extend_from_slice(b": ".as_slice())?;
    Ok(())
}

fn put_line_end(out: &mut Vec<u8>) -> Result<(), AllocError>
    ensures { OnOk result (out.new.items ≡ out.old.items ++ carriage_return ∷ line_feed ∷ []) }
{
    out.extend_from_slice(b"\r\n".as_slice())?;
    Ok(())
}

/// Puts the addresses, one a line, where there are any.
fn put_lines(out: &mut Vec<u8>, addresses: &[&Address]) -> Result<(), AllocError>
    ensures { OnOk result (out.new.items ≡ out.old.items ++ folded_from (map (λ address. address.now) addresses.now)) }
{
    let mut rest = addresses;
    while let [address, behind @ ..] = rest {
        put_line(out, address, behind.is_empty())?;
        rest = behind;
    }
    Ok(())
}

/// Puts an address and what stands behind it: the end of the line, and where others follow a comma before it and a
/// space behind.
fn put_line(out: &mut Vec<u8>, address: &Address, is_last: bool) -> Result<(), AllocError>
    ensures { OnOk result (out.new.items ≡ out.old.items ++ (address.now ++ behind_address is_last)) }
{
    out.extend_from_slice(address.bytes())?;
    if is_last {
        return put_line_end(out);
    }
    out.extend_from_slice(b",\r\n ".as_slice())?;
    Ok(())
}
