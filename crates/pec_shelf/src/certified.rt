ghost use Rattle.std.specs.Prelude.{◌≡◌};
ghost use Rattle.pec_shelf.specs.Lines.{is_for};

use pec_types::{Address, Class};

/// A certified recipient of a message, and the number of the provider where it is at home.
#[derive(Drop)]
pub struct Certified {
    pub address: Address,
    pub class: Class,
    pub home: u32,
}

impl Certified {
    /// Whether this is the recipient of an address.
    pub(crate) fn is_for(&self, address: &Address) -> bool
        ensures { result ≡ is_for address.now self.now }
    {
        address.bytes() == self.address.bytes()
    }
}
