ghost use Rattle.std.specs.Prelude.{◌≡◌, [], ◌∷◌, ◌++◌, ◌==◌, length, IfOk, OnOk};
ghost use Rattle.pec_heads.specs.HeadReading.{onto_last};

use std::alloc::{AllocError, Global};

/// How many bytes the names and values of a head seldom exceed. Room for so many is made at once, and for more as they
/// come.
const USUAL_BYTES: usize = 1024;

/// How many fields a head seldom exceeds.
const USUAL_FIELDS: usize = 16;

/// Where the name and the value of a field start. The name ends where its value starts, and that where the next field
/// does.
#[derive(Clone, Copy)]
pub(crate) struct Start {
    pub(crate) name: usize,
    pub(crate) value: usize,
}

/// Fields in their order. The bytes of all names and unfolded values stand one behind the other in one store, so that a
/// field takes no memory of its own but for its start.
#[derive(Drop)]
pub(crate) struct Fields {
    pub(crate) bytes: Vec<u8>,
    pub(crate) starts: Vec<Start>,
}

impl Fields {
    ghost use Rattle.pec_heads.specs.Views.{AreStored, raw_fields};

    /// No fields, with room for those at the front of a text of this size.
    pub(crate) fn new(alloc: Global, size: usize) -> Result<Fields, AllocError>
        ensures none { IfOk result (λ fields. raw_fields fields ≡ []) }
        ensures stored { IfOk result AreStored }
    {
        let bytes = Vec::with_capacity(alloc, size.min(USUAL_BYTES))?;
        let starts = Vec::with_capacity(alloc, USUAL_FIELDS)?;
        Ok(Fields { bytes, starts })
    }

    pub(crate) fn is_empty(&self) -> bool
        ensures { result ≡ (length (raw_fields self.now) == 0) }
    {
        self.starts.is_empty()
    }

    /// Adds a field.
    pub(crate) fn open(&mut self, name: &[u8], rest: &[u8]) -> Result<(), AllocError>
        requires { AreStored self.old }
        ensures opened { OnOk result (raw_fields self.new
            ≡ raw_fields self.old ++ record { name = name.now; value = rest.now } ∷ []) }
        ensures stored { OnOk result (AreStored self.new) }
    {
        let at = self.bytes.len();
        self.bytes.extend_from_slice(name)?;
        let value = self.bytes.len();
        self.bytes.extend_from_slice(rest)?;
        self.starts.push(Start { name: at, value })?;
        Ok(())
    }

    /// Puts the bytes of a line that goes on with the last field at the end of its value.
    pub(crate) fn go_on(&mut self, bytes: &[u8]) -> Result<(), AllocError>
        requires { AreStored self.old }
        ensures grown { OnOk result (raw_fields self.new ≡ onto_last (raw_fields self.old) bytes.now) }
        ensures stored { OnOk result (AreStored self.new) }
    {
        self.bytes.extend_from_slice(bytes)?;
        Ok(())
    }
}
