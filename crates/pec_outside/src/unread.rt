ghost use Rattle.std.specs.Prelude.{◌≡◌, ℕ, ◌≤◌, min, List, ◌++◌, length, take, drop, vec_len};

use std::marker::Model;

/// Bytes in memory that are read from the front. Contracts see those that are left.
pub(crate) struct Unread {
    bytes: Vec<u8>,
    at: usize,
}

impl Model for Unread {
    ghost Value = { List ℕ };

    ghost view = { λ unread. drop unread.at unread.bytes.items };

    ghost invariant = { λ unread. unread.at ≤ vec_len unread.bytes };
}

impl Drop for Unread {
    fn drop(self) {
        let Unread { bytes: _, at: _ } = self;
    }
}

impl Unread {
    pub(crate) fn new(bytes: Vec<u8>) -> Unread
        ensures { result ≡ bytes.items }
    {
        Unread { bytes, at: 0 }
    }

    /// Puts the next bytes at the front of the room, `most` at most, and answers how many.
    pub(crate) fn read(&mut self, room: &mut [u8], most: usize) -> usize
        ensures count { result ≡ min most (min (length room.old) (length self.old)) }
        ensures given { room.new ≡ take result self.old ++ drop result room.old }
        ensures after { self.new ≡ drop result self.old }
        ensures taken { self.old ≡ take result room.new ++ self.new }
    {
        let rest = &self.bytes[self.at..];
        let count = most.min(room.len()).min(rest.len());
        room[..count].copy_from_slice(&rest[..count]);
        self.at += count;
        count
    }
}
