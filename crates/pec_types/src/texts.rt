ghost use Rattle.std.specs.Prelude.{◌≡◌, ◌↔◌, ℕ, List, ◌<◌, false, length, IfOk, IfSome, position};
ghost use Rattle.std.specs.List.{AllByRecursion};
ghost use Rattle.pec_types.specs.Address.{IsLowerAddress};
ghost use Rattle.pec_types.specs.Answers.{ReadsExactly};
ghost use Rattle.pec_types.specs.Bytes.{Bytes};
ghost use Rattle.pec_types.specs.Text.{is_unprintable, AllPrintable, IsTextFault, IsTextOf};
ghost use Rattle.pec_types.specs.declared.texts.TextFault.TheVariants as faults;

use crate::faults::NoMemory;
use std::alloc::{AllocError, Global};
use std::marker::Model;

/// Why bytes are no [`Text`].
#[derive(Clone, Copy, Debug, PartialEq, Eq)]
pub enum TextFault {
    /// The place of the first byte outside 0x20 to 0x7e.
    NotPrintable(usize),
    NoMemory,
}

impl From<AllocError> for TextFault {
    ghost from_gives = { λ _ fault. fault ≡ faults.NoMemory };

    fn from(_: AllocError) -> Self {
        TextFault::NoMemory
    }
}

/// Bytes from 0x20 to 0x7e, as many as there are. This project's profile.
#[derive(Drop)]
pub struct Text {
    bytes: Vec<u8>,
}

impl Model for Text {
    ghost Value = { List ℕ };

    ghost view = { λ text. text.bytes.items };

    ghost invariant = { λ text. AllPrintable text.bytes.items };
}

impl Text {
    /// The text of these bytes. `NotPrintable` gives the first byte outside 0x20 to 0x7e.
    pub fn new(alloc: Global, bytes: &[u8]) -> Result<Text, TextFault>
        ensures { ReadsExactly (IsTextOf bytes.now) (IsTextFault bytes.now) faults.NoMemory result }
    {
        if let Some(place) = first_unprintable(bytes) {
            return Err(TextFault::NotPrintable(place));
        }
        let bytes = Vec::from_slice(alloc, bytes)?;
        Ok(Text { bytes })
    }

    /// The text of bytes that are known to be from 0x20 to 0x7e.
    pub fn of_printable(alloc: Global, bytes: &[u8]) -> Result<Text, NoMemory>
        requires { AllPrintable bytes.now }
        ensures { IfOk result (λ text. text ≡ bytes.now) }
    {
        let bytes = Vec::from_slice(alloc, bytes)?;
        Ok(Text { bytes })
    }

    /// The bytes of the text. It takes no memory.
    pub fn bytes(&self) -> &[u8]
        ensures value { result.now ≡ self.now }
        ensures printable { AllPrintable self.now }
    {
        self.bytes.as_slice()
    }

    /// An equal text.
    pub fn copy(&self, alloc: Global) -> Result<Text, NoMemory>
        ensures { IfOk result (λ text. text ≡ self.now) }
    {
        let bytes = Vec::from_slice(alloc, self.bytes.as_slice())?;
        Ok(Text { bytes })
    }
}

/// The place of the first byte outside 0x20 to 0x7e. It takes no memory.
pub fn first_unprintable(bytes: &[u8]) -> Option<usize>
    ensures first { result ≡ position is_unprintable bytes.now }
    ensures within { IfSome result (λ place. place < length bytes.now) }
{
    bytes.iter().position(|b| *b < 0x20 || 0x7e < *b)
}

/// A text is printable exactly where each of its bytes is, and an address is a printable text.
pub fn printable_is_said_of_each_byte()
    ensures each { (bytes : Bytes) → AllPrintable bytes ↔ AllByRecursion (λ b. is_unprintable b ≡ false) bytes }
    ensures address { (address : Bytes) → IsLowerAddress address → AllPrintable address }
{}

/// A list of any bytes.
#[derive(Drop)]
pub struct Text8 {
    bytes: Vec<u8>,
}

impl Model for Text8 {
    ghost Value = { List ℕ };

    ghost view = { λ text. text.bytes.items };
}

impl Text8 {
    /// The list of these bytes. It takes no memory.
    pub fn of(bytes: Vec<u8>) -> Text8
        ensures { result ≡ bytes.items }
    {
        Text8 { bytes }
    }

    /// The bytes. It takes no memory.
    pub fn bytes(&self) -> &[u8]
        ensures { result.now ≡ self.now }
    {
        self.bytes.as_slice()
    }

    /// The list itself. It takes no memory.
    pub fn into_vec(self) -> Vec<u8>
        ensures { result.items ≡ self }
    {
        self.bytes
    }

    /// An equal list of bytes.
    pub fn copy(&self, alloc: Global) -> Result<Text8, NoMemory>
        ensures { IfOk result (λ text. text ≡ self.now) }
    {
        let bytes = Vec::from_slice(alloc, self.bytes.as_slice())?;
        Ok(Text8 { bytes })
    }
}
