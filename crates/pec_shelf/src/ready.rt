ghost use Rattle.std.specs.Prelude.{◌≡◌, [], ◌∷◌, ◌++◌, map, Some, OnOk};
ghost use Rattle.std.specs.Option.{option_to_list};
ghost use Rattle.pec_shelf.specs.Prepared.{AreWithin, nothing, told};
ghost use Rattle.pec_shelf.specs.Longest.{IsLongest};
ghost use Rattle.pec_shelf.specs.Sides.{certified_of_rows, messages_of};

use crate::deadlines::Clock;
use crate::inbox::ReceivedRows;
use crate::moves::MoveRow;
use crate::outbox::SentRows;
use crate::rows::{
    AckedRow, ChargeRow, FateRow, KnownRow, MarkRow, MessageRow, PostedRow, TakenRow,
};
use pec_types::{Mark, NoMemory, Place};
use std::alloc::Global;
use std::marker::Model;

/// An entry that was prepared: contracts see what it adds to the half of a provider.
pub struct Ready {
    pub(crate) moment: u64,
    pub(crate) version: u64,
    pub(crate) size: u64,
    pub(crate) sent: SentRows,
    pub(crate) received: ReceivedRows,
    pub(crate) items: Vec<PostedRow>,
    pub(crate) moved: Option<MoveRow>,
    pub(crate) answer: Vec<Mark>,
    /// How many certified recipients its messages have.
    pub(crate) pairs: usize,
    pub(crate) clock: Option<Clock>,
    pub(crate) place: Place,
}

impl Model for Ready {
    ghost use Rattle.std.specs.Prelude.{◌≡◌, length, map};
    ghost use Rattle.std.specs.Option.{option_to_list};
    ghost use Rattle.pec_shelf.specs.Prepared.{Prepared, all_of, told};
    ghost use Rattle.pec_shelf.specs.Sides.{certified_of_rows, messages_of};

    ghost Value = { Prepared };

    ghost view = { λ ready. record {
      adds = record {
        moment = ready.moment;
        version = ready.version;
        size = ready.size;
        messages = messages_of ready.sent.messages.items;
        charged = ready.sent.charged.items;
        marks = ready.sent.marks.items;
        known = ready.sent.known.items;
        taken = ready.received.taken.items;
        decided = ready.received.decided.items;
        acked = ready.received.acked.items;
        items = ready.items.items;
        moves = option_to_list ready.moved;
      };
      certified = certified_of_rows ready.sent.messages.items;
      clock = ready.clock;
      place = ready.place;
    } };

    ghost invariant = { λ ready. record {
      answer : ready.answer.items ≡ map told ready.sent.marks.items;
      pairs : ready.pairs ≡ length (all_of (certified_of_rows ready.sent.messages.items));
    } };
}

// Written out, so that to drop what was prepared is one call, and not the drops of all its lists wherever it is
// dropped.
impl Drop for Ready {
    fn drop(self) {
        let Ready {
            moment: _,
            version: _,
            size: _,
            sent: _,
            received: _,
            items: _,
            moved: _,
            answer: _,
            pairs: _,
            clock: _,
            place: _,
        } = self;
    }
}

impl Ready {
    /// Nothing is added. It takes no memory.
    pub(crate) fn nothing(alloc: Global) -> Ready
        ensures { result ≡ nothing }
    {
        Ready {
            moment: 0,
            version: 0,
            size: 0,
            sent: SentRows {
                messages: Vec::new(alloc),
                charged: Vec::new(alloc),
                marks: Vec::new(alloc),
                known: Vec::new(alloc),
            },
            received: ReceivedRows {
                taken: Vec::new(alloc),
                decided: Vec::new(alloc),
                acked: Vec::new(alloc),
            },
            items: Vec::new(alloc),
            moved: None,
            answer: Vec::new(alloc),
            pairs: 0,
            clock: None,
            place: Place { at: 0, length: 0 },
        }
    }

    /// Adds a message.
    pub(crate) fn push_message(&mut self, row: MessageRow) -> Result<(), NoMemory>
        ensures { OnOk result (self.new ≡ record {
          adds = record self.old.adds { messages = self.old.adds.messages ++ row.message ∷ [] };
          certified = self.old.certified ++ row.certified ∷ [];
          clock = self.old.clock;
          place = self.old.place;
        }) }
    {
        let Some(pairs) = self.pairs.checked_add(row.certified().len()) else {
            return Err(NoMemory);
        };
        self.sent.messages.push(row)?;
        self.pairs = pairs;
        Ok(())
    }

    /// Adds a charge.
    pub(crate) fn push_charge(&mut self, row: ChargeRow) -> Result<(), NoMemory>
        ensures { OnOk result (self.new ≡ record self.old { adds = record self.old.adds { charged = self.old.adds.charged ++ row ∷ [] } }) }
    {
        self.sent.charged.push(row)?;
        Ok(())
    }

    /// Adds an outcome that is known.
    pub(crate) fn push_known(&mut self, row: KnownRow) -> Result<(), NoMemory>
        ensures { OnOk result (self.new ≡ record self.old { adds = record self.old.adds { known = self.old.adds.known ++ row ∷ [] } }) }
    {
        self.sent.known.push(row)?;
        Ok(())
    }

    /// Adds an id that was taken.
    pub(crate) fn push_taken(&mut self, row: TakenRow) -> Result<(), NoMemory>
        ensures { OnOk result (self.new ≡ record self.old { adds = record self.old.adds { taken = self.old.adds.taken ++ row ∷ [] } }) }
    {
        self.received.taken.push(row)?;
        Ok(())
    }

    /// Adds a decision.
    pub(crate) fn push_fate(&mut self, row: FateRow) -> Result<(), NoMemory>
        ensures { OnOk result (self.new ≡ record self.old { adds = record self.old.adds { decided = self.old.adds.decided ++ row ∷ [] } }) }
    {
        self.received.decided.push(row)?;
        Ok(())
    }

    /// Adds an acknowledgement.
    pub(crate) fn push_acked(&mut self, row: AckedRow) -> Result<(), NoMemory>
        ensures { OnOk result (self.new ≡ record self.old { adds = record self.old.adds { acked = self.old.adds.acked ++ row ∷ [] } }) }
    {
        self.received.acked.push(row)?;
        Ok(())
    }

    /// Adds an item.
    pub(crate) fn push_item(&mut self, row: PostedRow) -> Result<(), NoMemory>
        ensures { OnOk result (self.new ≡ record self.old { adds = record self.old.adds { items = self.old.adds.items ++ row ∷ [] } }) }
    {
        self.items.push(row)?;
        Ok(())
    }

    /// Adds a mark, and what a clock call tells of it.
    pub(crate) fn push_mark(&mut self, row: MarkRow, answer: Mark) -> Result<(), NoMemory>
        requires { answer ≡ told row }
        ensures { OnOk result (self.new ≡ record self.old { adds = record self.old.adds { marks = self.old.adds.marks ++ row ∷ [] } }) }
    {
        self.answer.reserve(1)?;
        self.sent.marks.push(row)?;
        self.answer.push_reserved(answer);
        Ok(())
    }

    /// With where the cursors stand behind a clock call. It takes no memory.
    pub(crate) fn with_clock(mut self, clock: Clock) -> Ready
        ensures { result ≡ record self { clock = Some clock } }
    {
        self.clock = Some(clock);
        self
    }

    /// With the move of an item into an archive. It takes no memory.
    pub(crate) fn with_move(mut self, row: MoveRow) -> Ready
        ensures { result ≡ record self { adds = record self.adds { moves = row ∷ [] } } }
    {
        self.moved = Some(row);
        self
    }

    /// At a moment, in seconds, with the version that it makes of the journal, of so many bytes there, and at this
    /// place. It takes no memory.
    pub(crate) fn with_figures(
        mut self,
        moment: u64,
        version: u64,
        size: u64,
        place: Place,
    ) -> Ready
        ensures { result ≡ record self {
          adds = record self.adds { moment = moment; version = version; size = size };
          place = place;
        } }
    {
        self.moment = moment;
        self.version = version;
        self.size = size;
        self.place = place;
        self
    }

    /// Its lists: the rows of both sides, the items, the answer, and the move. It takes no memory.
    pub(crate) fn taken_apart(
        self,
    ) -> (
        SentRows,
        ReceivedRows,
        Vec<PostedRow>,
        Vec<Mark>,
        Option<MoveRow>,
    )
        ensures messages { messages_of result.0.messages.items ≡ self.adds.messages }
        ensures certified { certified_of_rows result.0.messages.items ≡ self.certified }
        ensures charged { result.0.charged.items ≡ self.adds.charged }
        ensures marks { result.0.marks.items ≡ self.adds.marks }
        ensures known { result.0.known.items ≡ self.adds.known }
        ensures taken { result.1.taken.items ≡ self.adds.taken }
        ensures decided { result.1.decided.items ≡ self.adds.decided }
        ensures acked { result.1.acked.items ≡ self.adds.acked }
        ensures items { result.2.items ≡ self.adds.items }
        ensures answer { result.3.items ≡ map told self.adds.marks }
        ensures moves { option_to_list result.4 ≡ self.adds.moves }
    {
        let Ready {
            moment: _,
            version: _,
            size: _,
            sent,
            received,
            items,
            moved,
            answer,
            pairs: _,
            clock: _,
            place: _,
        } = self;
        (sent, received, items, answer, moved)
    }

    /// The length of its longest list, the number of its pairs, or 1 for its place and a move, whichever is most. It
    /// takes no memory.
    #[tactic(auto, using(crate::proofs::ArchiveLemmas::one_at_most))]
    pub(crate) fn rows(&self) -> usize
        ensures { AreWithin self.now result }
    {
        longest(&self.sent, &self.received, self.items.len())
            .max(self.pairs)
            .max(1)
    }
}

fn longest(sent: &SentRows, received: &ReceivedRows, items: usize) -> usize
    ensures { IsLongest sent.now received.now items result }
{
    let sender = sent.messages.len().max(sent.charged.len());
    let sender = sender.max(sent.marks.len()).max(sent.known.len());
    let recipient = received.taken.len().max(received.decided.len());
    let recipient = recipient.max(received.acked.len());
    sender.max(recipient).max(items)
}
