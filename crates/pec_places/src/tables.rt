ghost use Rattle.std.specs.Prelude.{◌≡◌, ℕ, Bool, true, ◌+◌, ◌<◌, ◌≤◌, [], ◌∷◌, ◌++◌, length, map, max, find, slice_get, slice_index, take, option_map, OnOk, Some, if◌then◌else◌};
ghost use Rattle.std.specs.Option.{option_and_then};
ghost use Rattle.pec_places.specs.Places.{last_place};
ghost use Rattle.pec_places.specs.Rows.{Rows};

use crate::links::Link;
use std::alloc::{AllocError, Global};
use std::collections::HashMap;
use std::marker::Model;

/// A row, with a number that tells it from most rows about something else.
pub trait Numbered {
    ghost number_of: { Self → ℕ };

    /// The number of what the row is about. It takes no memory.
    fn number(&self) -> u64
        ensures { result ≡ number_of self.now };
}

/// What rows may be about.
pub trait Sought<R: Numbered> {
    ghost sought: { Self → ℕ };

    ghost finds: { Self → R → Bool };

    /// The number of rows that are about it.
    fn number(&self) -> u64
        ensures { result ≡ sought self.now };

    /// Whether a row is about it.
    fn finds(&self, row: &R) -> bool
        ensures { result ≡ finds self.now row.now };

    ghost agrees: { (key : Self) (row : R) → finds key row ≡ true → R.number_of row ≡ sought key };
}

/// Rows in order of adding, each found by what it is about.
#[derive(Drop)]
pub struct Table<R: Numbered> {
    rows: Vec<R>,
    /// For each row, the place before it at which a row has the same number.
    links: Vec<Link>,
    last: HashMap<u64, usize>,
    room: usize,
}

impl<R: Numbered> Model for Table<R> {
    ghost use Rattle.std.specs.Prelude.{◌≡◌, ◌+◌, ◌≤◌, map, vec_capacity, vec_len};
    ghost use Rattle.std.specs.HashMap.{spare};
    ghost use Rattle.pec_places.specs.Places.{AreLast, links_of};
    ghost use Rattle.pec_places.specs.Rows.{Rows};

    ghost Value = { Rows R };

    ghost view = { λ table. record { rows = table.rows.items; room = table.room } };

    ghost invariant = { λ table. record {
      list : vec_len table.rows + table.room ≤ vec_capacity table.rows;
      beside : vec_len table.links + table.room ≤ vec_capacity table.links;
      mapped : table.room ≤ spare table.last;
      linked : table.links.items ≡ links_of (map R.number_of table.rows.items);
      last : AreLast table.last (map R.number_of table.rows.items);
    } };
}

impl<R: Numbered + Drop> Table<R> {
    /// No row yet. It takes no memory.
    pub fn new(alloc: Global) -> Table<R>
        ensures { result ≡ record { rows = []; room = 0 } }
    {
        Table {
            rows: Vec::new(alloc),
            links: Vec::new(alloc),
            last: HashMap::new(alloc),
            room: 0,
        }
    }

    /// Makes room for so many further rows.
    pub fn reserve(&mut self, more: usize) -> Result<(), AllocError>
        ensures room { OnOk result (more ≤ self.new.room) }
        ensures kept { self.old.room ≤ self.new.room }
        ensures most { self.new.room ≤ max self.old.room more }
        ensures rows { self.new.rows ≡ self.old.rows }
    {
        if more <= self.room {
            return Ok(());
        }
        self.rows.reserve(more)?;
        self.links.reserve(more)?;
        self.last.reserve(more)?;
        self.room = more;
        Ok(())
    }

    /// Adds a row for which there is room. It takes no memory.
    pub fn push(&mut self, row: R)
        requires { 0 < self.old.room }
        ensures rows { self.new.rows ≡ self.old.rows ++ row ∷ [] }
        ensures room { self.new.room + 1 ≡ self.old.room }
    {
        let number = row.number();
        let place = self.rows.as_slice().len();
        let before = self.last(number);
        self.links.push_reserved(Link::to(before));
        let _ = self.last.insert(number, place);
        self.rows.push_reserved(row);
        self.room -= 1;
    }

    /// Adds rows for which there is room. It takes no memory.
    pub fn append(&mut self, rows: Vec<R>)
        requires { length rows.items ≤ self.old.room }
        ensures rows { self.new.rows ≡ self.old.rows ++ rows.items }
        ensures room { self.new.room + length rows.items ≡ self.old.room }
    {
        for row in rows {
            self.push(row);
        }
    }

    /// All rows, in order of adding. It takes no memory.
    pub fn rows(&self) -> &[R]
        ensures { result.now ≡ self.now.rows }
    {
        self.rows.as_slice()
    }

    /// The first row that is about something. It takes no memory.
    pub fn find<S: Sought<R>>(&self, key: &S) -> Option<&R>
        ensures { option_map (λ row. row.now) result ≡ find (S.finds key.now) self.now.rows }
    {
        let mut found = None;
        let mut next = self.last(key.number());
        while let Some(place) = next {
            found = first(key.finds(&self.rows[place]), place, found);
            next = self.before(place);
        }
        self.at(found)
    }

    /// The last place at which a row has a number.
    fn last(&self, number: u64) -> Option<usize>
        ensures { result ≡ last_place number (map R.number_of self.now.rows) }
    {
        self.last.get(&number).copied()
    }

    /// The place before this one at which a row has the same number.
    fn before(&self, place: usize) -> Option<usize>
        requires { place < length self.now.rows }
        ensures { result ≡ last_place (slice_index (map R.number_of self.now.rows) place)
            (take place (map R.number_of self.now.rows)) }
    {
        self.links[place].place()
    }

    /// The row at a place, if there is one.
    fn at(&self, place: Option<usize>) -> Option<&R>
        ensures { option_map (λ row. row.now) result ≡ option_and_then (slice_get self.now.rows) place }
    {
        let row = self.rows.get(place?)?;
        Some(row)
    }
}

/// A place that passes, and otherwise the one that was found behind it.
fn first(passes: bool, place: usize, found: Option<usize>) -> Option<usize>
    ensures { result ≡ (if passes then Some place else found) }
{
    if passes {
        return Some(place);
    }
    found
}
