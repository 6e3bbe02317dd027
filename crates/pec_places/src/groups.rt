ghost use Rattle.std.specs.Prelude.{◌≡◌, ℕ, ◌+◌, ◌<◌, ◌≤◌, [], ◌∷◌, ◌++◌, find, map, max, option_map, OnOk};
ghost use Rattle.pec_places.specs.Places.{last_place};
ghost use Rattle.pec_places.specs.Rows.{Rows};

use crate::tables::{Numbered, Sought, Table};
use std::alloc::{AllocError, Global};
use std::collections::HashMap;
use std::marker::Model;

/// A row of a group, whose number tells the group from most others.
pub trait InGroup {
    ghost group_of: { Self → ℕ };

    /// The number of the group. It takes no memory.
    fn group(&self) -> u64
        ensures { result ≡ group_of self.now };
}

/// A table that also tells the last row of each group.
#[derive(Drop)]
pub struct Grouped<R: Numbered + InGroup> {
    table: Table<R>,
    last: HashMap<u64, usize>,
    room: usize,
}

impl<R: Numbered + InGroup> Model for Grouped<R> {
    ghost use Rattle.std.specs.Prelude.{◌≤◌, map};
    ghost use Rattle.std.specs.HashMap.{spare};
    ghost use Rattle.pec_places.specs.Places.{AreLast};
    ghost use Rattle.pec_places.specs.Rows.{Rows};

    ghost Value = { Rows R };

    ghost view = { λ grouped. record { rows = grouped.table.rows; room = grouped.room } };

    ghost invariant = { λ grouped. record {
      table : grouped.room ≤ grouped.table.room;
      mapped : grouped.room ≤ spare grouped.last;
      last : AreLast grouped.last (map R.group_of grouped.table.rows);
    } };
}

impl<R: Numbered + InGroup + Drop> Grouped<R> {
    /// No row yet. It takes no memory.
    pub fn new(alloc: Global) -> Grouped<R>
        ensures { result ≡ record { rows = []; room = 0 } }
    {
        Grouped {
            table: Table::new(alloc),
            last: HashMap::new(alloc),
            room: 0,
        }
    }

    /// Makes room for so many further rows.
    pub fn reserve(&mut self, more: usize) -> Result<(), AllocError>
        ensures room { OnOk result (more ≤ self.new.room) }
        ensures kept { self.old.room ≤ self.new.room }
        ensures most { self.new.room ≤ max self.old.room more }
        ensures rows { self.new.rows ≡ self.old.rows }
    {
        if more <= self.room {
            return Ok(());
        }
        self.table.reserve(more)?;
        self.last.reserve(more)?;
        self.room = more;
        Ok(())
    }

    /// Adds a row for which there is room. It takes no memory.
    pub fn push(&mut self, row: R)
        requires { 0 < self.old.room }
        ensures rows { self.new.rows ≡ self.old.rows ++ row ∷ [] }
        ensures room { self.new.room + 1 ≡ self.old.room }
    {
        let _ = self.last.insert(row.group(), self.table.rows().len());
        self.table.push(row);
        self.room -= 1;
    }

    /// All rows, in order of adding. It takes no memory.
    pub fn rows(&self) -> &[R]
        ensures { result.now ≡ self.now.rows }
    {
        self.table.rows()
    }

    /// The first row that is about something. It takes no memory.
    pub fn find<S: Sought<R>>(&self, key: &S) -> Option<&R>
        ensures { option_map (λ row. row.now) result ≡ find (S.finds key.now) self.now.rows }
    {
        self.table.find(key)
    }

    /// The last place at which a row has this number of its group.
    pub fn last(&self, group: u64) -> Option<usize>
        ensures { result ≡ last_place group (map R.group_of self.now.rows) }
    {
        self.last.get(&group).copied()
    }
}
