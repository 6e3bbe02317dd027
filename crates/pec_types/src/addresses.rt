ghost use Rattle.std.specs.Prelude.{◌≡◌, ℕ, Bool, true, not, List, IfOk, IfSome, Some, position, length, refl, ◌<◌};
ghost use Rattle.std.specs.Cmp.{partial_equiv_from_equiv};
ghost use Rattle.std.specs.Cmp.Lexicographic.{slice_cmp, nat_list_eq_equiv, nat_list_cmp_total, texts_ties, texts_po};
ghost use Rattle.std.specs.List.{list_all};
ghost use Rattle.std.specs.Ordering.{nat_cmp};
ghost use Rattle.std.specs.Result.{result_ok};
ghost use Rattle.std.specs.Str.{bytes_eq};
ghost use Rattle.pec_types.specs.Address.{Avoids, IsAddress, IsReadAs, HasDomain, IsAddressFault, IsLowerAddress, lowered};
ghost use Rattle.pec_types.specs.AddressReading.{address_of, domain_of, is_at_sign};
ghost use Rattle.pec_types.specs.Answers.{OrNoMemory, ReadsExactly, TellsExactly};
ghost use Rattle.pec_types.specs.Bytes.{Bytes};
ghost use Rattle.pec_types.specs.declared.addresses.AddressFault.TheVariants as faults;

use crate::faults::NoMemory;
use crate::scanning::{Stand, stop};
use std::alloc::{AllocError, Global};
use std::cmp::Ordering;
use std::marker::Model;
use std::sync::Arc;

/// Why a text is no address, in the order in which the faults are looked for.
#[derive(Clone, Copy, Debug, PartialEq, Eq)]
pub enum AddressFault {
    Empty,
    /// More than 254 bytes.
    TooLong,
    NoAt,
    /// The first byte from which the local part can't be continued to a right one, or the place of the `@` where
    /// only its end is wrong.
    BadLocal(usize),
    /// The first byte from which the domain can't be continued to a right one, or the text's end where only its end is
    /// wrong.
    BadDomain(usize),
    NoMemory,
}

impl From<AllocError> for AddressFault {
    ghost from_gives = { λ _ fault. fault ≡ faults.NoMemory };

    fn from(_: AllocError) -> Self {
        AddressFault::NoMemory
    }
}

/// A mail address in lower case: contracts see its bytes, which stand once for it and for its copies.
#[derive(Drop)]
pub struct Address {
    bytes: Arc<Vec<u8>>,
}

/// The function that tells an address, or a text's fault, is one with the grammar: definitions above may take either.
pub fn an_address_is_told_exactly()
    ensures { (text : Bytes) → TellsExactly (IsReadAs text) (IsAddressFault text) (address_of text) }
{}

/// What is read as an address is one, in lower case.
pub fn what_is_read_is_in_lower_case()
    ensures { (text address : Bytes) → IsReadAs text address → IsLowerAddress address }
{}

/// A test that passes for no byte that addresses have passes for no byte of an address.
pub fn an_address_has_its_bytes_alone()
    ensures { (test : ℕ → Bool) → Avoids test → (bytes : Bytes) → IsAddress bytes
        → list_all (λ byte. not (test byte)) bytes ≡ true }
{}

impl Model for Address {
    ghost Value = { List ℕ };

    ghost view = { λ address. address.bytes.value.items };

    ghost invariant = { λ address. IsLowerAddress address.bytes.value.items };
}

impl Address {
    /// The address that a text is, in lower case (RFC 5322, section 3.4.1, within this project's profile).
    /// Places count bytes of the text from 0.
    pub fn read(alloc: Global, text: &[u8]) -> Result<Address, AddressFault>
        // An address is answered in lower case, exactly where the text is one, and otherwise the one fault that it has.
        ensures reads { ReadsExactly (IsReadAs text.now) (IsAddressFault text.now) faults.NoMemory result }
        // The same answer as a function of the bytes, for definitions that build on it.
        ensures exact { OrNoMemory faults.NoMemory result (address_of text.now) }
    {
        read_address(alloc, text)
    }

    /// The address that a text is, `None` where it is none, for those who don't ask why.
    pub fn find(alloc: Global, text: &[u8]) -> Result<Option<Address>, NoMemory>
        ensures { IfOk result (λ found. found ≡ result_ok (address_of text.now)) }
    {
        match Address::read(alloc, text) {
            Ok(address) => Ok(Some(address)),
            Err(AddressFault::NoMemory) => Err(NoMemory),
            Err(_) => Ok(None),
        }
    }

    /// The address of bytes that are known to be one in lower case.
    pub fn of_lower(alloc: Global, bytes: Vec<u8>) -> Result<Address, NoMemory>
        requires { IsLowerAddress bytes.items }
        ensures { IfOk result (λ address. address ≡ bytes.items) }
    {
        match Arc::new(alloc, bytes) {
            Ok(bytes) => Ok(Address { bytes }),
            Err(_) => Err(NoMemory),
        }
    }

    /// The bytes of the address. It takes no memory.
    pub fn bytes(&self) -> &[u8]
        ensures value { result.now ≡ self.now }
        ensures is { IsLowerAddress self.now }
    {
        self.bytes.as_slice()
    }

    /// What stands behind the `@`. It takes no memory.
    pub fn domain(&self) -> &[u8]
        ensures domain { HasDomain self.now result.now }
        ensures exact { result.now ≡ domain_of self.now }
    {
        behind_sign(self.bytes())
    }

    /// An equal address. It has its bytes together with this one, unless these have as many owners as can be counted.
    pub fn copy(&self, alloc: Global) -> Result<Address, NoMemory>
        ensures { IfOk result (λ address. address ≡ self.now) }
    {
        if let Ok(bytes) = self.bytes.clone() {
            return Ok(Address { bytes });
        }
        let bytes = Vec::from_slice(alloc, self.bytes.as_slice())?;
        Address::of_lower(alloc, bytes)
    }
}

/// Two addresses are equal where their bytes are, and in the order of their bytes.
impl PartialEq for Address {
    ghost eq = { λ a b. bytes_eq a b };

    ghost laws = { partial_equiv_from_equiv nat_list_eq_equiv };

    fn eq(&self, other: &Address) -> bool {
        self.bytes.as_slice() == other.bytes.as_slice()
    }
}

impl Eq for Address {
    ghost laws = { nat_list_eq_equiv };
}

impl PartialOrd for Address {
    ghost partial_cmp = { λ a b. Some (slice_cmp nat_cmp a b) };

    ghost laws = { texts_po };

    fn partial_cmp(&self, other: &Address) -> Option<Ordering> {
        Some(self.cmp(other))
    }
}

impl Ord for Address {
    ghost cmp = { λ a b. slice_cmp nat_cmp a b };

    ghost total = { nat_list_cmp_total };

    ghost matches_partial_cmp = { λ a b. refl };

    ghost matches_eq = { λ a b. texts_ties a b };

    fn cmp(&self, other: &Address) -> Ordering {
        self.bytes.as_slice().cmp(other.bytes.as_slice())
    }
}

#[tactic(auto, unfolding(crate::specs::AddressReading::address_of))]
fn read_address(alloc: Global, text: &[u8]) -> Result<Address, AddressFault>
    ensures { OrNoMemory faults.NoMemory result (address_of text.now) }
{
    if text.is_empty() {
        return Err(AddressFault::Empty);
    }
    if text.len() > 254 {
        return Err(AddressFault::TooLong);
    }
    let Some(sign) = at_sign(text) else {
        return Err(AddressFault::NoAt);
    };
    if let Some(place) = stop(Stand::AtomBegins, &text[..sign]) {
        return Err(AddressFault::BadLocal(place));
    }
    if let Some(place) = stop(Stand::LabelBegins, &text[sign + 1..]) {
        return Err(AddressFault::BadDomain(sign + 1 + place));
    }
    let bytes = lowercase(alloc, text)?;
    match Address::of_lower(alloc, bytes) {
        Ok(address) => Ok(address),
        Err(NoMemory) => Err(AddressFault::NoMemory),
    }
}

#[tactic(auto, unfolding(crate::specs::AddressReading::domain_of))]
fn behind_sign(address: &[u8]) -> &[u8]
    ensures { result.now ≡ domain_of address.now }
{
    match at_sign(address) {
        Some(sign) => &address[sign + 1..],
        None => &[],
    }
}

fn lowercase(alloc: Global, text: &[u8]) -> Result<Vec<u8>, AllocError>
    ensures { IfOk result (λ bytes. bytes.items ≡ lowered text.now) }
{
    text.to_ascii_lowercase(alloc)
}

fn at_sign(text: &[u8]) -> Option<usize>
    ensures sign { result ≡ position is_at_sign text.now }
    ensures within { IfSome result (λ at. at < length text.now) }
{
    text.iter().position(|b| *b == b'@')
}
