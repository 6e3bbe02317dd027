ghost use Rattle.std.specs.Prelude.{◌≡◌, ◌≤◌, ◌++◌, [], Some, length, filter, option_map, slice_get, OnOk};
ghost use Rattle.std.specs.Str.{bytes_eq};
ghost use Rattle.pec_ledger.specs.Along.{times};
ghost use Rattle.pec_ledger.specs.Half.{Posted};
ghost use Rattle.pec_ledger.specs.Lookups.{takes_room};

use crate::drawers::{Drawers, Owned};
use crate::rows::PostedRow;
use pec_types::{Address, NoMemory};
use std::alloc::Global;
use std::marker::Model;

/// All items that were ever placed in the mailboxes of a provider, in order.
#[derive(Drop)]
pub(crate) struct Boxes {
    items: Drawers<PostedRow>,
}

impl Model for Boxes {
    ghost use Rattle.pec_shelf.specs.Sides.{Boxed};

    ghost Value = { Boxed };

    ghost view = { λ boxes. record { items = boxes.items.rows; room = boxes.items.room } };
}

impl Owned for PostedRow {
    ghost owner_of = { λ (posted : Posted). Some posted.account };

    ghost counts_in = { λ (posted : Posted). takes_room posted.item };

    fn owner(&self) -> Option<&Address> {
        Some(&self.account)
    }

    fn counts(&self) -> bool {
        self.takes_room()
    }
}

impl Boxes {
    /// Nothing was placed yet. It takes no memory.
    pub(crate) fn new(alloc: Global) -> Boxes
        ensures { result ≡ record { items = []; room = 0 } }
    {
        Boxes {
            items: Drawers::new(alloc),
        }
    }

    /// Makes room for so many further items.
    pub(crate) fn reserve(&mut self, rows: usize) -> Result<(), NoMemory>
        ensures room { OnOk result (rows ≤ self.new.room) }
        ensures more { self.old.room ≤ self.new.room }
        ensures same { self.new ≡ record self.old { room = self.new.room } }
    {
        self.items.reserve(rows)?;
        Ok(())
    }

    /// Adds items for which there is room. It takes no memory.
    pub(crate) fn add(&mut self, rows: Vec<PostedRow>)
        requires { length rows.items ≤ self.old.room }
        ensures { self.new.items ≡ self.old.items ++ rows.items }
    {
        self.items.append(rows);
    }

    /// How many of the items that were ever placed with an account take room: envelopes and anomalies. It takes no
    /// memory.
    pub(crate) fn counted(&self, account: &Address) -> u64
        ensures { result ≡ times (λ (posted : Posted). takes_room posted.item)
            (filter (λ (posted : Posted). bytes_eq account.now posted.account) self.now.items) }
    {
        self.items.counted(account)
    }

    /// How many items were ever placed with an account. It takes no memory.
    pub(crate) fn count(&self, account: &Address) -> u64
        ensures { result ≡ length (filter (λ (posted : Posted). bytes_eq account.now posted.account) self.now.items) }
    {
        self.items.count(account)
    }

    /// The item of a rank, from 0, among all that were ever placed with an account. It takes no memory.
    pub(crate) fn at(&self, account: &Address, rank: u64) -> Option<&PostedRow>
        ensures { option_map (λ row. row.now) result
            ≡ slice_get (filter (λ (posted : Posted). bytes_eq account.now posted.account) self.now.items) rank }
    {
        self.items.nth(account, rank)
    }
}
