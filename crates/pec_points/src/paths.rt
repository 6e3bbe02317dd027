//! A forward path beside the recipients of a message.

ghost use Rattle.std.specs.Prelude.{◌≡◌, ◌||◌, is_some, IfOk, OnOk};
ghost use Rattle.std.specs.List.{list_all, list_any};
ghost use Rattle.std.specs.Str.{bytes_eq};
ghost use Rattle.pec_heads.specs.FactsOfHeads.{has_address};
ghost use Rattle.pec_index.specs.Entries.{Key, value_at};
ghost use Rattle.pec_points.specs.AdmissionReading.{has_recipient, is_path_of};
ghost use Rattle.pec_points.specs.Known.{AreKnown, has_key, is_in_order};

use pec_index::Index;
use pec_types::{Address, NoMemory, Recipient};
use std::alloc::Global;

/// A path of up to so many addresses is compared with each recipient, and the addresses of a longer one are found in a
/// tree.
const FEW: usize = 8;

/// The path is the set of the recipients' addresses. A path of up to eight is compared with no more of these than it
/// has, and one. Mail clients give a longer one in the order of the head, and then it takes no memory.
pub(crate) fn is_path_of(
    alloc: Global,
    path: &[Address],
    recipients: &[Recipient],
) -> Result<bool, NoMemory>
    ensures { IfOk result (λ is. is ≡ is_path_of path.now recipients.now) }
{
    if path.len() <= FEW {
        return Ok(is_short_path_of(path, recipients));
    }
    if is_in_order(path, recipients) {
        return Ok(true);
    }
    let is = is_long_path_of(alloc, path, recipients)?;
    Ok(is)
}

#[tactic(auto, unfolding(crate::specs::AdmissionReading::is_path_of))]
fn is_short_path_of(path: &[Address], recipients: &[Recipient]) -> bool
    ensures { result ≡ is_path_of path.now recipients.now }
{
    are_on(path, recipients) && are_among(recipients, path)
}

fn are_on(path: &[Address], recipients: &[Recipient]) -> bool
    ensures { result ≡ list_all (λ r. has_address path.now r.address) recipients.now }
{
    recipients.iter().all(|r| is_on(path, r.address.bytes()))
}

fn is_on(path: &[Address], address: &[u8]) -> bool
    ensures { result ≡ has_address path.now address.now }
{
    path.iter().any(|other| other.bytes() == address)
}

fn are_among(recipients: &[Recipient], path: &[Address]) -> bool
    ensures { result ≡ list_all (λ address. has_recipient recipients.now address) path.now }
{
    path.iter()
        .all(|address| is_among(recipients, address.bytes()))
}

fn is_among(recipients: &[Recipient], address: &[u8]) -> bool
    ensures { result ≡ has_recipient recipients.now address.now }
{
    recipients.iter().any(|r| r.address.bytes() == address)
}

/// The path has the addresses of the recipients in their order.
fn is_in_order(path: &[Address], recipients: &[Recipient]) -> bool
    ensures { result ≡ is_in_order path.now recipients.now }
{
    let mut rest = path;
    let mut others = recipients;
    while let [address, behind @ ..] = rest {
        let [other, further @ ..] = others else {
            return false;
        };
        if address.bytes() != other.address.bytes() {
            return false;
        }
        rest = behind;
        others = further;
    }
    others.is_empty()
}

/// As `is_path_of`, by trees of both, in which an address is found without going over all of them, whatever addresses
/// a message has.
fn is_long_path_of(
    alloc: Global,
    path: &[Address],
    recipients: &[Recipient],
) -> Result<bool, NoMemory>
    ensures { IfOk result (λ is. is ≡ is_path_of path.now recipients.now) }
{
    let on_path = known_of(alloc, path)?;
    if !are_all_known(&on_path, recipients) {
        return Ok(false);
    }
    let named = known_recipients(alloc, recipients)?;
    Ok(is_all_known(&named, path))
}

/// The addresses of a path in a tree.
fn known_of(alloc: Global, path: &[Address]) -> Result<Index<bool>, NoMemory>
    ensures { IfOk result (λ known. AreKnown known (has_address path.now)) }
{
    let mut known = Index::new(alloc);
    for address in path {
        add(alloc, &mut known, address)?;
    }
    Ok(known)
}

/// The addresses of recipients in a tree.
fn known_recipients(alloc: Global, recipients: &[Recipient]) -> Result<Index<bool>, NoMemory>
    ensures { IfOk result (λ known. AreKnown known (has_recipient recipients.now)) }
{
    let mut known = Index::new(alloc);
    for recipient in recipients {
        add(alloc, &mut known, &recipient.address)?;
    }
    Ok(known)
}

/// Adds an address, unless it is there.
fn add(alloc: Global, known: &mut Index<bool>, address: &Address) -> Result<(), NoMemory>
    ensures { OnOk result ((key : Key) → has_key known.new key ≡ (has_key known.old key || bytes_eq address.now key)) }
{
    known.add(alloc, address.bytes(), true)?;
    Ok(())
}

fn are_all_known(known: &Index<bool>, recipients: &[Recipient]) -> bool
    ensures { result ≡ list_all (λ r. has_key known.now r.address) recipients.now }
{
    recipients
        .iter()
        .all(|r| known.get(r.address.bytes()).is_some())
}

fn is_all_known(known: &Index<bool>, path: &[Address]) -> bool
    ensures { result ≡ list_all (has_key known.now) path.now }
{
    path.iter()
        .all(|address| known.get(address.bytes()).is_some())
}
