ghost use Rattle.std.specs.Prelude.{◌≡◌, ◌<◌, ◌≤◌, ◌^◌, ◌++◌, [], length, find, option_map, is_some, OnOk};
ghost use Rattle.pec_ledger.specs.Half.{Fate, Taken};
ghost use Rattle.pec_ledger.specs.Pairs.{pair_of, same_id, same_pair};
ghost use Rattle.pec_shelf.specs.Still.{IsHeard};
ghost use Rattle.pec_shelf.specs.Undecided.{is_open, pairs_taken};
ghost use Rattle.pec_shelf.specs.Waiting.{AllElseDone};

use crate::keys::{OfId, OfPair};
use crate::rows::{AckedRow, FateRow, TakenRow};
use crate::still::heard_index;
use crate::undecided::{decided_index, first_undecided};
use crate::waiting::Waiting;
use pec_places::Table;
use pec_types::{Address, MsgId, NoMemory};
use std::alloc::Global;
use std::marker::Model;

/// The recipient's side of a provider: what it took, and what became of it here.
pub(crate) struct Inbox {
    taken: Table<TakenRow>,
    decided: Table<FateRow>,
    acked: Table<AckedRow>,
    undecided: Waiting,
    unheard: Waiting,
    room: usize,
}

impl Model for Inbox {
    ghost use Rattle.std.specs.Prelude.{◌≤◌};
    ghost use Rattle.pec_shelf.specs.Sides.{Received};
    ghost use Rattle.pec_shelf.specs.Still.{IsHeard};
    ghost use Rattle.pec_shelf.specs.Undecided.{IsDecided};
    ghost use Rattle.pec_shelf.specs.Waiting.{AllElseDone};

    ghost Value = { Received };

    ghost view = { λ inbox. record {
      taken = inbox.taken.rows;
      decided = inbox.decided.rows;
      acked = inbox.acked.rows;
      room = inbox.room;
    } };

    ghost invariant = { λ inbox. record {
      taken : inbox.room ≤ inbox.taken.room;
      decided : inbox.room ≤ inbox.decided.room;
      acked : inbox.room ≤ inbox.acked.room;
      places : inbox.room ≤ inbox.undecided.room;
      outcomes : inbox.room ≤ inbox.unheard.room;
      undecided : AllElseDone (IsDecided inbox.decided.rows) 0 inbox.taken.rows inbox.undecided.places;
      unheard : AllElseDone (IsHeard inbox.acked.rows) 0 inbox.decided.rows inbox.unheard.places;
    } };
}

// Written out, so that to drop it is one call, and not the drops of all its lists wherever a shelf is dropped.
impl Drop for Inbox {
    fn drop(self) {
        let Inbox {
            taken: _,
            decided: _,
            acked: _,
            undecided: _,
            unheard: _,
            room: _,
        } = self;
    }
}

/// Rows for the recipient's side.
#[derive(Drop)]
pub(crate) struct ReceivedRows {
    pub(crate) taken: Vec<TakenRow>,
    pub(crate) decided: Vec<FateRow>,
    pub(crate) acked: Vec<AckedRow>,
}

impl Inbox {
    /// Nothing was taken yet. It takes no memory.
    pub(crate) fn new(alloc: Global) -> Inbox
        ensures { result ≡ record { taken = []; decided = []; acked = []; room = 0 } }
    {
        Inbox {
            taken: Table::new(alloc),
            decided: Table::new(alloc),
            acked: Table::new(alloc),
            undecided: Waiting::new(alloc),
            unheard: Waiting::new(alloc),
            room: 0,
        }
    }

    /// Makes room for so many further rows in each list.
    pub(crate) fn reserve(&mut self, rows: usize) -> Result<(), NoMemory>
        ensures room { OnOk result (rows ≤ self.new.room) }
        ensures more { self.old.room ≤ self.new.room }
        ensures same { self.new ≡ record self.old { room = self.new.room } }
    {
        if rows <= self.room {
            return Ok(());
        }
        self.taken.reserve(rows)?;
        self.decided.reserve(rows)?;
        self.acked.reserve(rows)?;
        self.undecided.reserve(rows)?;
        self.unheard.reserve(rows)?;
        self.room = rows;
        Ok(())
    }

    /// Adds rows for which there is room. It takes no memory.
    pub(crate) fn add(&mut self, rows: ReceivedRows)
        requires taken { length rows.taken.items ≤ self.old.room }
        requires decided { length rows.decided.items ≤ self.old.room }
        requires acked { length rows.acked.items ≤ self.old.room }
        ensures { self.new ≡ record {
          taken = self.old.taken ++ rows.taken.items;
          decided = self.old.decided ++ rows.decided.items;
          acked = self.old.acked ++ rows.acked.items;
          room = 0;
        } }
    {
        let decided = self.decided.rows().len();
        let acked = self.acked.rows().len();
        self.append(rows);
        self.close_decided(decided);
        self.close_heard(acked);
    }

    /// Adds rows for which there is room: of each that was taken something may still come. It takes no memory.
    fn append(&mut self, rows: ReceivedRows)
        requires taken { length rows.taken.items ≤ self.old.room }
        requires decided { length rows.decided.items ≤ self.old.room }
        requires acked { length rows.acked.items ≤ self.old.room }
        ensures { self.new ≡ record {
          taken = self.old.taken ++ rows.taken.items;
          decided = self.old.decided ++ rows.decided.items;
          acked = self.old.acked ++ rows.acked.items;
          room = 0;
        } }
    {
        let taken = self.count_taken();
        let decided = self.count_decided();
        let ids = rows.taken.as_slice().len();
        let fates = rows.decided.as_slice().len();
        self.undecided.add(taken, ids);
        self.unheard.add(decided, fates);
        self.taken.append(rows.taken);
        self.decided.append(rows.decided);
        self.acked.append(rows.acked);
        self.room = 0;
    }

    /// Of the decisions from a place on, lets go what was taken and is now decided. It takes no memory.
    fn close_decided(&mut self, first: usize)
        ensures { self.new ≡ self.old }
    {
        for place in first..self.decided.rows().len() {
            self.close(place);
        }
    }

    /// Lets go what was taken, where all of it is decided, and this is one of the decisions. It takes no memory.
    fn close(&mut self, place: usize)
        ensures { self.new ≡ self.old }
    {
        let Some(fate) = self.decided.rows().get(place) else {
            return;
        };
        let id = fate.id();
        let Some(index) = decided_index(&self.taken, &self.decided, &self.undecided, id) else {
            return;
        };
        self.undecided.remove(index);
    }

    /// Of the acknowledgements from a place on, lets go what was decided and is now acknowledged. It takes no memory.
    fn close_heard(&mut self, first: usize)
        ensures { self.new ≡ self.old }
    {
        for place in first..self.acked.rows().len() {
            self.close_outcome(place);
        }
    }

    /// Lets go what was decided, where this is its acknowledgement. It takes no memory.
    fn close_outcome(&mut self, place: usize)
        ensures { self.new ≡ self.old }
    {
        let Some(row) = self.acked.rows().get(place) else {
            return;
        };
        let Some(index) = heard_index(&self.decided, &self.acked, &self.unheard, row) else {
            return;
        };
        self.unheard.remove(index);
    }

    /// The places of decisions of which something may still be owed: every other one is acknowledged. It takes no
    /// memory.
    pub(crate) fn unheard(&self) -> &[u64]
        ensures { AllElseDone (IsHeard self.now.acked) 0 self.now.decided result.now }
    {
        self.unheard.places()
    }

    /// How many decisions there are. It takes no memory.
    pub(crate) fn count_decided(&self) -> u64
        ensures value { result ≡ length self.now.decided }
        ensures below { result < 2 ^ 63 }
    {
        self.decided.rows().len() as u64
    }

    /// How many ids were taken. It takes no memory.
    pub(crate) fn count_taken(&self) -> u64
        ensures value { result ≡ length self.now.taken }
        ensures below { result < 2 ^ 63 }
    {
        self.taken.rows().len() as u64
    }

    /// The first taken pair that isn't decided, in order of taking and of recipients. It takes no memory.
    pub(crate) fn next_undecided(&self) -> Option<(MsgId, &Address)>
        ensures { option_map (λ pair. pair_of pair.0 pair.1.now) result
            ≡ find (is_open self.now.decided) (pairs_taken self.now.taken) }
    {
        first_undecided(&self.taken, &self.decided, self.undecided.places())
    }

    /// All decisions, in order.
    pub(crate) fn all_decided(&self) -> &[FateRow]
        ensures { result.now ≡ self.now.decided }
    {
        self.decided.rows()
    }

    /// How an id was taken.
    pub(crate) fn taken(&self, id: MsgId) -> Option<&TakenRow>
        ensures { option_map (λ row. row.now) result ≡ find (λ (taken : Taken). same_id id taken.id) self.now.taken }
    {
        self.taken.find(&OfId { id })
    }

    /// What was decided on a pair.
    pub(crate) fn fate(&self, id: MsgId, recipient: &Address) -> Option<&FateRow>
        ensures { option_map (λ row. row.now) result
            ≡ find (λ (fate : Fate). same_pair (pair_of id recipient.now) fate.pair) self.now.decided }
    {
        self.decided.find(&OfPair { id, recipient })
    }

    /// Whether the sender's provider knows what was decided on a pair.
    pub(crate) fn is_acked(&self, id: MsgId, recipient: &Address) -> bool
        ensures { result ≡ is_some (find (same_pair (pair_of id recipient.now)) self.now.acked) }
    {
        self.acked.find(&OfPair { id, recipient }).is_some()
    }
}
