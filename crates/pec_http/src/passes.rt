/// Whether someone may ask in the name of an address.
#[derive(Clone, Copy, Debug, PartialEq, Eq)]
pub enum Pass {
    /// The address is no account.
    NoAddress,
    /// The key isn't the account's.
    WrongKey,
    /// The key is the account's, whose provider takes messages of at most so many bytes.
    Admitted(u64),
}
