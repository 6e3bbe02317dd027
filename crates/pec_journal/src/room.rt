ghost use Rattle.std.specs.Prelude.{◌≡◌, ◌+◌, ◌<◌, ◌≤◌, ◌^◌, [], ◌∷◌, ◌++◌, length, IfSome, OnOk, vec_capacity};
ghost use Rattle.pec_journal.specs.JournalFile.{framed, framing, closed_gate};
ghost use Rattle.pec_journal.specs.Room.{RoomState, room_of, empty_frame};

use pec_types::NoMemory;
use std::alloc::Global;
use std::marker::Model;

/// How many bytes frame an entry: its length before it, and a closed gate behind it.
const FRAMING: usize = 5;

const CLOSED_GATE: u8 = 0;

const EMPTY_FRAME: [u8; 5] = [0; 5];

/// Room in which an entry is framed, so that one write puts it on a disk.
#[derive(Drop)]
pub(crate) struct Room {
    // None, until room was asked for: an entry of no bytes needs none.
    bytes: Option<Vec<u8>>,
}

impl Model for Room {
    ghost Value = { RoomState };

    ghost view = { λ room. room_of room.bytes };

    ghost invariant = { λ room. IfSome room.bytes (λ bytes. framing ≤ vec_capacity bytes) };
}

impl Room {
    pub(crate) fn none() -> Room
        ensures { result ≡ record { spare = 0; bytes = empty_frame } }
    {
        Room { bytes: None }
    }

    /// Makes room for an entry of so many bytes with its framing.
    pub(crate) fn reserve(&mut self, alloc: Global, length: usize) -> Result<(), NoMemory>
        ensures { OnOk result (length ≤ self.new.spare) }
    {
        let Some(needed) = length.checked_add(FRAMING) else {
            return Err(NoMemory);
        };
        match &mut self.bytes {
            Some(bytes) => {
                bytes.clear();
                bytes.reserve(needed)?;
            }
            None => self.bytes = Some(Vec::with_capacity(alloc, needed)?),
        }
        Ok(())
    }

    /// Frames the entry. It takes no memory.
    pub(crate) fn fill(&mut self, entry: &[u8])
        requires room { length entry.now ≤ self.old.spare }
        requires short { length entry.now < 2 ^ 32 }
        ensures { self.new.bytes ≡ framed entry.now ++ closed_gate ∷ [] }
    {
        if let Some(bytes) = &mut self.bytes {
            frame(bytes, entry);
        }
    }

    /// What was framed last.
    pub(crate) fn bytes(&self) -> &[u8]
        ensures { result.now ≡ self.now.bytes }
    {
        match &self.bytes {
            Some(bytes) => bytes.as_slice(),
            None => &EMPTY_FRAME,
        }
    }
}

fn frame(bytes: &mut Vec<u8>, entry: &[u8])
    requires room { length entry.now + framing ≤ vec_capacity bytes.old }
    requires short { length entry.now < 2 ^ 32 }
    ensures { bytes.new.items ≡ framed entry.now ++ closed_gate ∷ [] }
{
    let length = (entry.len() as u32).to_be_bytes();
    bytes.clear();
    add(bytes, &length);
    add(bytes, entry);
    add(bytes, &[CLOSED_GATE]);
}

fn add(bytes: &mut Vec<u8>, more: &[u8])
    requires { length bytes.old.items + length more.now ≤ vec_capacity bytes.old }
    ensures items { bytes.new.items ≡ bytes.old.items ++ more.now }
    ensures capacity { vec_capacity bytes.old ≤ vec_capacity bytes.new }
{
    match bytes.extend_from_slice(more) {
        Ok(()) => (),
        Err(_) => unreachable!(),
    }
}
