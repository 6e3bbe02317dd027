ghost use Rattle.std.specs.Prelude.{◌≡◌, ◌≢◌, IfOk, IfErr};
ghost use Rattle.pec_records.specs.Entry.{CanBeWritten, HasCounts, IsEntry, entry_text};
ghost use Rattle.pec_records.specs.declared.entries.Entry.{Entry};
ghost use Rattle.pec_records.specs.declared.faults.EntryFault.TheVariants as faults;

use pec_records::{Entry, EntryFault, an_entry_is_told_exactly, decode, encode};
use pec_types::{NoMemory, Text8};
use std::alloc::Global;
use std::marker::Model;

/// An entry as the bytes that it is in a journal, kept for its append. Contracts see the entry.
#[derive(Drop)]
pub struct Encoded {
    bytes: Vec<u8>,
}

impl Model for Encoded {
    ghost use Rattle.pec_records.specs.declared.entries.Entry.{Entry};

    ghost Value = { Entry };

    ghost use Rattle.pec_records.specs.Entry.{IsEntry};
    ghost use Rattle.pec_chronicle.specs.Encoding.{told_entry};

    ghost view = { λ encoded. told_entry encoded.bytes.items };

    ghost invariant = { λ encoded. IsEntry (told_entry encoded.bytes.items) encoded.bytes.items };
}

impl Encoded {
    /// The entry's bytes, and the entry kept as these.
    pub(crate) fn encode(alloc: Global, entry: &Entry) -> Result<Encoded, NoMemory>
        requires { HasCounts entry.now }
        ensures same { IfOk result (λ encoded. encoded ≡ entry.now) }
        ensures can { IfOk result (λ _. CanBeWritten entry.now) }
    {
        let bytes = encode(alloc, entry)?;
        Ok(Encoded::of(bytes, entry))
    }

    /// The entry that these bytes are, kept as these bytes and as it is.
    pub(crate) fn decode(alloc: Global, bytes: Vec<u8>) -> Result<(Encoded, Entry), EntryFault>
        ensures is { IfOk result (λ read. IsEntry read.1 bytes.items) }
        ensures same { IfOk result (λ read. read.0 ≡ read.1) }
        ensures none { IfErr result (λ fault. fault ≢ faults.NoMemory → (entry : Entry) → IsEntry entry bytes.items →
            ⊥) }
    {
        let entry = decode(alloc, &bytes)?;
        Ok((Encoded::of(bytes, &entry), entry))
    }

    fn of(bytes: Vec<u8>, entry: &Entry) -> Encoded
        requires { IsEntry entry.now bytes.items }
        ensures { result ≡ entry.now }
    {
        an_entry_is_told_exactly();
        Encoded { bytes }
    }

    /// The bytes. It takes no memory.
    pub(crate) fn bytes(&self) -> &[u8]
        ensures text { result.now ≡ entry_text self.now }
        ensures can { CanBeWritten self.now }
    {
        self.bytes.as_slice()
    }

    /// The bytes themselves. It takes no memory.
    pub(crate) fn into_bytes(self) -> Text8
        ensures { result ≡ entry_text self }
    {
        Text8::of(self.bytes)
    }
}
