ghost use Rattle.std.specs.Prelude.{◌≡◌, IfOk};

use crate::faults::NoMemory;
use crate::texts::Text8;
use std::alloc::Global;
use std::marker::Model;

/// What one provider hands to another: a letter, and the addresses that it is for. Contracts see its bytes.
#[derive(Drop)]
pub struct Frame {
    bytes: Text8,
}

impl Model for Frame {
    ghost use Rattle.std.specs.Prelude.{ℕ, List};

    ghost Value = { List ℕ };

    ghost view = { λ frame. frame.bytes };
}

impl Frame {
    /// The frame of these bytes, whatever they are. It takes no memory.
    pub fn of(bytes: Text8) -> Frame
        ensures { result ≡ bytes }
    {
        Frame { bytes }
    }

    /// The bytes of the frame. It takes no memory.
    pub fn bytes(&self) -> &[u8]
        ensures { result.now ≡ self.now }
    {
        self.bytes.bytes()
    }

    /// An equal frame.
    pub fn copy(&self, alloc: Global) -> Result<Frame, NoMemory>
        ensures { IfOk result (λ frame. frame ≡ self.now) }
    {
        let bytes = self.bytes.copy(alloc)?;
        Ok(Frame { bytes })
    }
}
