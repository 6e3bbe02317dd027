ghost use Rattle.std.specs.Prelude.{◌≤◌, [], length};
ghost use Rattle.pec_outside.specs.Flow.{as_u64, u64_of};

use pec_outside::{Counted, Disk, Failed};

/// A disk that keeps nothing: to whoever reads a journal from it, gate by gate, it deals entries of these lengths.
pub(crate) struct Dealt {
    lengths: Vec<u32>,
    reads: usize,
    faults: u64,
}

impl Drop for Dealt {
    fn drop(self) {
        let Dealt {
            lengths: _,
            reads: _,
            faults: _,
        } = self;
    }
}

impl Dealt {
    pub(crate) fn new(lengths: Vec<u32>) -> Dealt {
        Dealt {
            lengths,
            reads: 0,
            faults: 0,
        }
    }
}

impl Counted for Dealt {
    ghost faults = { λ disk. as_u64 disk.faults };

    ghost counted = { λ disk. u64_of disk.faults };
}

impl Disk for Dealt {
    ghost tells = { ⊥ };

    ghost sight = { λ _. record { seen = []; may_leave = λ _. ⊥; moment = 0; left_since = λ _ _. ⊥ } };

    ghost counts_now = { λ nothing. absurd nothing };

    ghost only_now = { λ nothing. absurd nothing };

    ghost reads_so = { λ nothing. absurd nothing };

    fn size(&mut self) -> Result<u64, Failed> {
        Ok(u64::MAX)
    }

    // The header, then each gate in turn.
    fn read_at(&mut self, _at: u64, room: &mut [u8]) -> Result<usize, Failed> {
        let read = self.reads;
        self.reads = read.saturating_add(1);
        if read == 0 {
            return Ok(put(room, b"PECJRN1\n"));
        }
        match self.lengths.get(read - 1) {
            Some(length) => {
                let [first, second, third, last] = length.to_be_bytes();
                Ok(put(room, &[1, first, second, third, last]))
            }
            None => Ok(put(room, &[0])),
        }
    }

    fn write_at(&mut self, _at: u64, _piece: &[u8]) -> Result<(), Failed> {
        Ok(())
    }

    fn sync(&mut self) -> Result<(), Failed> {
        Ok(())
    }
}

/// Puts bytes at the front of the room, and answers how many.
fn put(room: &mut [u8], bytes: &[u8]) -> usize
    ensures { result ≤ length room.old }
{
    let count = room.len().min(bytes.len());
    room[..count].copy_from_slice(&bytes[..count]);
    count
}
