ghost use Rattle.std.specs.Prelude.{◌≡◌, ◌<◌, ◌≤◌, ◌++◌, [], ◌∷◌, slice_get, OnOk};

use pec_types::{NoMemory, Place};
use std::alloc::Global;
use std::marker::Model;

/// Where the bytes of each entry stand, in order of taking in.
#[derive(Drop)]
pub(crate) struct EntryPlaces {
    places: Vec<Place>,
    room: usize,
}

impl Model for EntryPlaces {
    ghost use Rattle.std.specs.Prelude.{◌+◌, ◌≤◌, vec_capacity, vec_len};
    ghost use Rattle.pec_shelf.specs.Sides.{Standing};

    ghost Value = { Standing };

    ghost view = { λ all. record { places = all.places.items; room = all.room } };

    ghost invariant = { λ all. vec_len all.places + all.room ≤ vec_capacity all.places };
}

impl EntryPlaces {
    /// No entry yet. It takes no memory.
    pub(crate) fn new(alloc: Global) -> EntryPlaces
        ensures { result ≡ record { places = []; room = 0 } }
    {
        EntryPlaces {
            places: Vec::new(alloc),
            room: 0,
        }
    }

    /// Makes room for so many further places.
    pub(crate) fn reserve(&mut self, more: usize) -> Result<(), NoMemory>
        ensures room { OnOk result (more ≤ self.new.room) }
        ensures kept { self.old.room ≤ self.new.room }
        ensures same { self.new ≡ record self.old { room = self.new.room } }
    {
        if more <= self.room {
            return Ok(());
        }
        self.places.reserve(more)?;
        self.room = more;
        Ok(())
    }

    /// Adds the place of the next entry, for which there is room. It takes no memory.
    pub(crate) fn push(&mut self, place: Place)
        requires { 0 < self.old.room }
        ensures { self.new.places ≡ self.old.places ++ place ∷ [] }
    {
        self.places.push_reserved(place);
        self.room -= 1;
    }

    /// The place of the entry of a number. It takes no memory.
    pub(crate) fn get(&self, entry: u64) -> Option<Place>
        ensures { result ≡ slice_get self.now.places entry }
    {
        self.places.as_slice().get(entry as usize).copied()
    }
}
