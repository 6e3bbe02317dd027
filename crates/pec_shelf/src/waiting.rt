ghost use Rattle.std.specs.Prelude.{◌≡◌, ◌+◌, ◌<◌, ◌≤◌, ◌^◌, [], ◌∷◌, ◌++◌, length, slice_get, Some, IfSome, OnOk};
ghost use Rattle.std.specs.List.{range_with_len, remove};

use pec_types::NoMemory;
use std::alloc::Global;
use std::marker::Model;

/// Places of rows of which something may still come, rising.
#[derive(Drop)]
pub(crate) struct Waiting {
    places: Vec<u64>,
    room: usize,
}

impl Model for Waiting {
    ghost use Rattle.std.specs.Prelude.{◌+◌, ◌≤◌, vec_capacity, vec_len};
    ghost use Rattle.pec_shelf.specs.Waiting.{Places};

    ghost Value = { Places };

    ghost view = { λ waiting. record { places = waiting.places.items; room = waiting.room } };

    ghost invariant = { λ waiting. vec_len waiting.places + waiting.room ≤ vec_capacity waiting.places };
}

impl Waiting {
    /// Nothing to wait for. It takes no memory.
    pub(crate) fn new(alloc: Global) -> Waiting
        ensures { result ≡ record { places = []; room = 0 } }
    {
        Waiting {
            places: Vec::new(alloc),
            room: 0,
        }
    }

    /// Makes room for so many further places.
    pub(crate) fn reserve(&mut self, more: usize) -> Result<(), NoMemory>
        ensures room { OnOk result (more ≤ self.new.room) }
        ensures kept { self.old.room ≤ self.new.room }
        ensures places { self.new.places ≡ self.old.places }
    {
        if more <= self.room {
            return Ok(());
        }
        self.places.reserve(more)?;
        self.room = more;
        Ok(())
    }

    /// Adds a place for which there is room. It takes no memory.
    fn push(&mut self, place: u64)
        requires { 0 < self.old.room }
        ensures places { self.new.places ≡ self.old.places ++ place ∷ [] }
        ensures room { self.new.room + 1 ≡ self.old.room }
    {
        self.places.push_reserved(place);
        self.room -= 1;
    }

    /// Adds so many places, one after the other, for which there is room. It takes no memory.
    pub(crate) fn add(&mut self, first: u64, count: usize)
        requires room { count ≤ self.old.room }
        requires below { first + count < 2 ^ 64 }
        ensures places { self.new.places ≡ self.old.places ++ range_with_len first count }
        ensures room { self.new.room + count ≡ self.old.room }
    {
        for offset in 0..count {
            self.push(first + offset as u64);
        }
    }

    /// Where a place stands among them, if it is found there. It takes no memory.
    pub(crate) fn position(&self, place: u64) -> Option<usize>
        ensures { IfSome result (λ index. slice_get self.now.places index ≡ Some place) }
    {
        let index = match self.places.as_slice().binary_search(&place) {
            Ok(index) => index,
            Err(_) => return None,
        };
        let found = self.at(index)?;
        if found != place {
            return None;
        }
        Some(index)
    }

    /// Takes a place out. It takes no memory.
    pub(crate) fn remove(&mut self, index: usize)
        requires { index < length self.old.places }
        ensures places { self.new.places ≡ remove self.old.places index }
        ensures room { self.old.room ≤ self.new.room }
    {
        let _ = self.places.remove(index);
    }

    /// All of them. It takes no memory.
    pub(crate) fn places(&self) -> &[u64]
        ensures { result.now ≡ self.now.places }
    {
        self.places.as_slice()
    }

    /// The place at an index. It takes no memory.
    fn at(&self, index: usize) -> Option<u64>
        ensures { result ≡ slice_get self.now.places index }
    {
        self.places.as_slice().get(index).copied()
    }
}
