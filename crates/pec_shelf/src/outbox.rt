ghost use Rattle.std.specs.Prelude.{◌≡◌, false, ◌&&◌, ◌==◌, ◌≤◌, ◌++◌, [], length, find, option_map, slice_get, OnOk};
ghost use Rattle.pec_ledger.specs.Half.{Charge, Known, Mark};
ghost use Rattle.pec_ledger.specs.Lookups.{is_notice, is_warning};
ghost use Rattle.pec_ledger.specs.Pairs.{pair_of, same_id, same_pair};
ghost use Rattle.pec_shelf.specs.Sides.{Kept, booked_by};
ghost use Rattle.pec_shelf.specs.Still.{IsAnswered};
ghost use Rattle.pec_shelf.specs.Waiting.{AllElseDone};

use crate::drawers::{Drawers, Owned};
use crate::keys::{Noticed, OfCharge, OfPair, Warned};
use crate::rows::{ChargeRow, KnownRow, MarkRow, MessageRow};
use crate::still::answered_index;
use crate::waiting::Waiting;
use pec_places::Table;
use pec_types::{Address, MESSAGES, MsgId, NoMemory};
use std::alloc::Global;
use std::marker::Model;

/// The sender's side of a provider: its messages, and what is known of their pairs.
pub(crate) struct Outbox {
    me: u32,
    messages: Drawers<MessageRow>,
    charged: Table<ChargeRow>,
    marks: Table<MarkRow>,
    known: Table<KnownRow>,
    unanswered: Waiting,
    room: usize,
}

impl Model for Outbox {
    ghost use Rattle.std.specs.Prelude.{◌≤◌};
    ghost use Rattle.pec_shelf.specs.Sides.{Sent};
    ghost use Rattle.pec_shelf.specs.Still.{IsAnswered};
    ghost use Rattle.pec_shelf.specs.Waiting.{AllElseDone};

    ghost Value = { Sent };

    ghost view = { λ outbox. record {
      me = outbox.me;
      messages = outbox.messages.rows;
      charged = outbox.charged.rows;
      marks = outbox.marks.rows;
      known = outbox.known.rows;
      room = outbox.room;
    } };

    ghost invariant = { λ outbox. record {
      messages : outbox.room ≤ outbox.messages.room;
      charged : outbox.room ≤ outbox.charged.room;
      marks : outbox.room ≤ outbox.marks.room;
      known : outbox.room ≤ outbox.known.room;
      places : outbox.room ≤ outbox.unanswered.room;
      unanswered : AllElseDone (IsAnswered outbox.me outbox.charged.rows outbox.known.rows) 0 outbox.messages.rows
          outbox.unanswered.places;
    } };
}

// Written out, so that to drop it is one call, and not the drops of all its lists wherever a shelf is dropped.
impl Drop for Outbox {
    fn drop(self) {
        let Outbox {
            me: _,
            messages: _,
            charged: _,
            marks: _,
            known: _,
            unanswered: _,
            room: _,
        } = self;
    }
}

/// Rows for the sender's side.
#[derive(Drop)]
pub(crate) struct SentRows {
    pub(crate) messages: Vec<MessageRow>,
    pub(crate) charged: Vec<ChargeRow>,
    pub(crate) marks: Vec<MarkRow>,
    pub(crate) known: Vec<KnownRow>,
}

/// A message is its sender's where its book has lines of it: where it has certified recipients. No message is counted.
impl Owned for MessageRow {
    ghost owner_of = { λ (kept : Kept). booked_by kept };

    ghost counts_in = { λ (kept : Kept). false };

    fn owner(&self) -> Option<&Address> {
        if self.certified.as_slice().is_empty() {
            return None;
        }
        Some(&self.sender)
    }

    fn counts(&self) -> bool {
        false
    }
}

impl Outbox {
    /// Nothing was submitted yet. It takes no memory.
    pub(crate) fn new(alloc: Global, me: u32) -> Outbox
        ensures { result ≡ record { me = me; messages = []; charged = []; marks = []; known = []; room = 0 } }
    {
        Outbox {
            me,
            messages: Drawers::new(alloc),
            charged: Table::new(alloc),
            marks: Table::new(alloc),
            known: Table::new(alloc),
            unanswered: Waiting::new(alloc),
            room: 0,
        }
    }

    /// Makes room for so many further rows in each list.
    pub(crate) fn reserve(&mut self, rows: usize) -> Result<(), NoMemory>
        ensures room { OnOk result (rows ≤ self.new.room) }
        ensures more { self.old.room ≤ self.new.room }
        ensures same { self.new ≡ record self.old { room = self.new.room } }
    {
        if rows <= self.room {
            return Ok(());
        }
        self.messages.reserve(rows)?;
        self.charged.reserve(rows)?;
        self.marks.reserve(rows)?;
        self.known.reserve(rows)?;
        self.unanswered.reserve(rows)?;
        self.room = rows;
        Ok(())
    }

    /// Adds rows for which there is room. It takes no memory.
    pub(crate) fn add(&mut self, rows: SentRows)
        requires messages { length rows.messages.items ≤ self.old.room }
        requires charged { length rows.charged.items ≤ self.old.room }
        requires marks { length rows.marks.items ≤ self.old.room }
        requires known { length rows.known.items ≤ self.old.room }
        ensures { self.new ≡ record {
          me = self.old.me;
          messages = self.old.messages ++ rows.messages.items;
          charged = self.old.charged ++ rows.charged.items;
          marks = self.old.marks ++ rows.marks.items;
          known = self.old.known ++ rows.known.items;
          room = 0;
        } }
    {
        let messages = self.messages.len();
        let charged = self.charged.rows().len();
        let known = self.known.rows().len();
        self.append(rows);
        self.close_messages(messages);
        self.close_charged(charged);
        self.close_known(known);
    }

    /// Adds rows for which there is room: of each message something may still come. It takes no memory.
    fn append(&mut self, rows: SentRows)
        requires messages { length rows.messages.items ≤ self.old.room }
        requires charged { length rows.charged.items ≤ self.old.room }
        requires marks { length rows.marks.items ≤ self.old.room }
        requires known { length rows.known.items ≤ self.old.room }
        ensures { self.new ≡ record {
          me = self.old.me;
          messages = self.old.messages ++ rows.messages.items;
          charged = self.old.charged ++ rows.charged.items;
          marks = self.old.marks ++ rows.marks.items;
          known = self.old.known ++ rows.known.items;
          room = 0;
        } }
    {
        let first = self.messages.len();
        let count = rows.messages.as_slice().len();
        self.unanswered.add(first, count);
        self.messages.append(rows.messages);
        self.charged.append(rows.charged);
        self.marks.append(rows.marks);
        self.known.append(rows.known);
        self.room = 0;
    }

    /// Of the messages from a number on, lets go those of which nobody is owed anything. It takes no memory.
    fn close_messages(&mut self, first: u64)
        ensures { self.new ≡ self.old }
    {
        for number in first..self.messages.len() {
            if number >= MESSAGES {
                return;
            }
            let provider = self.me;
            self.close(MsgId { provider, number });
        }
    }

    /// Of the charges from a place on, lets go messages of which nobody is owed anything any more. It takes no memory.
    fn close_charged(&mut self, first: usize)
        ensures { self.new ≡ self.old }
    {
        for place in first..self.charged.rows().len() {
            let Some(row) = self.charged.rows().get(place) else {
                return;
            };
            let id = row.id();
            self.close(id);
        }
    }

    /// Of the outcomes from a place on, lets go messages of which nobody is owed anything any more. It takes no memory.
    fn close_known(&mut self, first: usize)
        ensures { self.new ≡ self.old }
    {
        for place in first..self.known.rows().len() {
            let Some(row) = self.known.rows().get(place) else {
                return;
            };
            let id = row.id();
            self.close(id);
        }
    }

    /// Lets go the message of an id, where each of its certified recipients is heard of. It takes no memory.
    fn close(&mut self, id: MsgId)
        ensures { self.new ≡ self.old }
    {
        if id.provider != self.me {
            return;
        }
        let Some(index) = answered_index(
            &self.messages,
            &self.charged,
            &self.known,
            &self.unanswered,
            id,
        ) else {
            return;
        };
        self.unanswered.remove(index);
    }

    /// The numbers of messages of which something may still be owed: each certified recipient of every other one is
    /// heard of. It takes no memory.
    pub(crate) fn unanswered(&self) -> &[u64]
        ensures { AllElseDone (IsAnswered self.now.me self.now.charged self.now.known) 0 self.now.messages result.now }
    {
        self.unanswered.places()
    }

    /// The number of the provider. It takes no memory.
    pub(crate) fn me(&self) -> u32
        ensures { result ≡ self.now.me }
    {
        self.me
    }

    /// All messages, in order of number.
    pub(crate) fn messages(&self) -> &Drawers<MessageRow>
        ensures { result.now.rows ≡ self.now.messages }
    {
        &self.messages
    }

    /// The message of a number.
    pub(crate) fn message(&self, number: u64) -> Option<&MessageRow>
        ensures { option_map (λ row. row.now) result ≡ slice_get self.now.messages number }
    {
        self.messages.row(number)
    }

    /// What a provider said of taking charge of a message.
    pub(crate) fn charge(&self, id: MsgId, by: u32) -> Option<&ChargeRow>
        ensures { option_map (λ row. row.now) result
            ≡ find (λ (charge : Charge). same_id id charge.id && (by == charge.by)) self.now.charged }
    {
        self.charged.find(&OfCharge { id, by })
    }

    /// The warning of a pair.
    pub(crate) fn warning(&self, id: MsgId, recipient: &Address) -> Option<&MarkRow>
        ensures { option_map (λ row. row.now) result
            ≡ find (λ (mark : Mark). is_warning mark.due && same_pair (pair_of id recipient.now) mark.pair) self.now.marks }
    {
        self.marks.find(&Warned { id, recipient })
    }

    /// The notice of a pair.
    pub(crate) fn notice(&self, id: MsgId, recipient: &Address) -> Option<&MarkRow>
        ensures { option_map (λ row. row.now) result
            ≡ find (λ (mark : Mark). is_notice mark.due && same_pair (pair_of id recipient.now) mark.pair) self.now.marks }
    {
        self.marks.find(&Noticed { id, recipient })
    }

    /// The outcome of a pair.
    pub(crate) fn known(&self, id: MsgId, recipient: &Address) -> Option<&KnownRow>
        ensures { option_map (λ row. row.now) result
            ≡ find (λ (known : Known). same_pair (pair_of id recipient.now) known.pair) self.now.known }
    {
        self.known.find(&OfPair { id, recipient })
    }
}
