ghost use Rattle.std.specs.Prelude.{◌≡◌, ◌+◌, ◌^◌, ◌<◌, ◌≤◌, ◌↔◌, [], map, option_map, slice_get, IfOk, IsSome, OnOk};
ghost use Rattle.std.specs.Option.{option_and_then};
ghost use Rattle.pec_ledger.specs.Books.{archive_lines, book, mailbox_lines};
ghost use Rattle.pec_ledger.specs.Due.{due_letters};
ghost use Rattle.pec_ledger.specs.Half.{Message, Posted, Taken};
ghost use Rattle.pec_ledger.specs.Lookups.{archive, counted, mailbox, taken_of};
ghost use Rattle.pec_ledger.specs.OfDirectory.{IsOf};
ghost use Rattle.pec_ledger.specs.Pairs.{pair_of};
ghost use Rattle.pec_ledger.specs.Steps.{moment_of, size_of};
ghost use Rattle.pec_ledger.specs.Trade.{Trade};
ghost use Rattle.pec_shelf.specs.Looked.{Looked, LookedSo, acceptances_seen, clock_seen};
ghost use Rattle.pec_shelf.specs.Prepared.{CameFrom, Goes, HasRoomFor, IsStepOf, prepared, told};
ghost use Rattle.pec_shelf.specs.Seen.{HoldsAs, IsFor, IsNew};
ghost use Rattle.pec_shelf.specs.Undecided.{next_undecided};

use crate::booking::book_lines;
use crate::deadlines::{Clock, Deadlines};
use crate::drafts::Draft;
use crate::entry_places::EntryPlaces;
use crate::inbox::Inbox;
use crate::mailboxes::Mailboxes;
use crate::outbox::Outbox;
use crate::owing::owed;
use crate::preparing::{moment_of, rows_of, version_by};
use crate::ready::Ready;
use crate::sizes::size_of;
use pec_directory::Directory;
use pec_records::Entry;
use pec_types::{Address, BookLine, Facts, ItemLine, Letter, Mark, MsgId, NoMemory, Place, Steps};
use std::alloc::Global;
use std::marker::Model;

/// One provider's half of the ledger: facts, places and numbers, and no bytes of messages.
pub struct Shelf {
    pub(crate) alloc: Global,
    pub(crate) me: u32,
    pub(crate) entries: u64,
    pub(crate) last: u64,
    pub(crate) version: u64,
    pub(crate) end: u64,
    pub(crate) outbox: Outbox,
    pub(crate) inbox: Inbox,
    pub(crate) boxes: Mailboxes,
    pub(crate) deadlines: Deadlines,
    pub(crate) places: EntryPlaces,
}

impl Model for Shelf {
    ghost use Rattle.std.specs.Prelude.{◌≡◌, ◌*◌, ◌≤◌, length, min};
    ghost use Rattle.pec_types.specs.declared.messages.TheConstants.{MESSAGES};
    ghost use Rattle.pec_shelf.specs.Deadlines.{IsWatched, pairs_in};
    ghost use Rattle.pec_shelf.specs.Seen.{Seen};
    ghost use Rattle.pec_shelf.specs.Sides.{certified_of_rows, messages_of};

    ghost Value = { Seen };

    ghost view = { λ shelf. record {
      me = shelf.me;
      half = record {
        entries = shelf.entries;
        last = shelf.last;
        version = shelf.version;
        end = shelf.end;
        messages = messages_of shelf.outbox.messages;
        charged = shelf.outbox.charged;
        marks = shelf.outbox.marks;
        known = shelf.outbox.known;
        taken = shelf.inbox.taken;
        decided = shelf.inbox.decided;
        acked = shelf.inbox.acked;
        items = shelf.boxes.items;
        moves = shelf.boxes.moves;
      };
      certified = certified_of_rows shelf.outbox.messages;
      room = min shelf.outbox.room (min shelf.inbox.room (min shelf.boxes.room (min shelf.deadlines.room shelf.places.room)));
      ticked = shelf.deadlines.ticked;
      looks = shelf.deadlines.looks;
      places = shelf.places.places;
    } };

    ghost invariant = { λ shelf. record {
      own : shelf.outbox.me ≡ shelf.me;
      few : length shelf.outbox.messages ≤ MESSAGES;
      full : length (pairs_in 0 shelf.outbox.messages) ≤ 1000 * length shelf.outbox.messages;
      watched : IsWatched shelf.deadlines shelf.last shelf.outbox;
      placed : length shelf.places.places ≡ shelf.entries;
    } };
}

// Written out, so that to drop a shelf is one call, and not the drops of all its lists wherever one is dropped.
impl Drop for Shelf {
    fn drop(self) {
        let Shelf {
            alloc: _,
            me: _,
            entries: _,
            last: _,
            version: _,
            end: _,
            outbox: _,
            inbox: _,
            boxes: _,
            deadlines: _,
            places: _,
        } = self;
    }
}

impl Shelf {
    /// The shelf of a provider before its first entry. It takes no memory.
    pub fn new(alloc: Global, me: u32) -> Shelf
        ensures { IsNew me result }
    {
        Shelf {
            alloc,
            me,
            entries: 0,
            last: 0,
            version: 0,
            end: 8,
            outbox: Outbox::new(alloc, me),
            inbox: Inbox::new(alloc),
            boxes: Mailboxes::new(alloc),
            deadlines: Deadlines::new(alloc),
            places: EntryPlaces::new(alloc),
        }
    }

    /// Prepares an entry that is a step of this provider's half as what it adds. Its bytes will stand at this place.
    /// Room is made for what it adds, and nothing that is seen changes but the number of look-ups. All entries of one
    /// shelf are prepared with one directory. A clock call looks acceptances up one by one, each of which counts as a
    /// step.
    pub fn prepare(
        &mut self,
        directory: &Directory,
        draft: &Draft,
        place: Place,
        steps: &mut Steps,
    ) -> Result<Ready, NoMemory>
        requires homes { (trade : Trade) → IsOf directory.now trade → IsFor trade self.old }
        requires step { IsStepOf directory.now self.old draft.now }
        ensures is { (trade : Trade) → IsOf directory.now trade
            → IfOk result (λ ready. ready ≡ prepared trade self.old.me self.old.half draft.now place) }
        ensures came { IfOk result (CameFrom self.new) }
        ensures room { IfOk result (HasRoomFor self.new) }
        ensures same { HoldsAs self.old self.new }
        // In a clock call at most two more look-ups than limits of pairs pass in it, and as many as pass where it is
        // prepared.
        ensures looked { (trade : Trade) → IsOf directory.now trade
            → Looked trade self.old draft.now self.new.looks steps.old steps.new result }
    {
        let clock = self.look(draft.entry(), steps);
        let ready = self.prepared(directory, draft, place, clock)?;
        self.reserve(ready.rows())?;
        Ok(ready)
    }

    /// Takes in what was prepared with this shelf as it is, and gives the marks of a clock call, in order of number and
    /// recipients: of every other entry none. It takes no memory and can't fail.
    pub fn commit(&mut self, ready: Ready) -> Vec<Mark>
        requires came { CameFrom self.old ready }
        requires room { HasRoomFor self.old ready }
        ensures after { Goes self.old self.new ready }
        ensures marks { result.items ≡ map told ready.adds.marks }
        ensures looks { self.new.looks ≡ self.old.looks }
    {
        self.entries += 1;
        self.last = self.last.max(ready.moment);
        self.version = self.version.max(ready.version);
        self.end += ready.size;
        self.deadlines.set(ready.clock);
        let first = self.outbox.messages().len();
        self.places.push(ready.place);
        let (sent, received, items, answer, moved) = ready.taken_apart();
        self.deadlines.add(first, sent.messages.as_slice());
        self.outbox.add(sent);
        self.inbox.add(received);
        self.boxes.add(items, moved);
        answer
    }

    /// Where the bytes of the entry of a number stand. It takes no memory.
    pub fn place(&self, entry: u64) -> Option<Place>
        ensures is { result ≡ slice_get self.now.places entry }
        ensures there { IsSome result ↔ (entry < self.now.half.entries) }
    {
        self.places.get(entry)
    }

    /// The facts of this provider's accepted message of a number. It takes no memory.
    pub fn facts(&self, number: u64) -> Option<&Facts>
        ensures { option_map (λ facts. facts.now) result
            ≡ option_and_then (λ (message : Message). message.facts) (slice_get self.now.half.messages number) }
    {
        self.outbox.message(number)?.facts()
    }

    /// How many items of an account's mailbox take room: envelopes and anomalies. It takes no memory.
    pub fn counted(&self, account: &Address) -> u64
        ensures { result ≡ counted self.now.half account.now }
    {
        self.boxes.counted(account)
    }

    /// The number of the entry by which the message of a number was accepted or refused. It takes no memory.
    pub fn own(&self, number: u64) -> Option<u64>
        ensures { result ≡ option_map (λ (message : Message). message.entry) (slice_get self.now.half.messages number) }
    {
        let row = self.outbox.message(number)?;
        Some(row.entry())
    }

    /// The number of the entry by which an id was taken here. It takes no memory.
    pub fn took(&self, id: MsgId) -> Option<u64>
        ensures { result ≡ option_map (λ (taken : Taken). taken.entry) (taken_of self.now.half id) }
    {
        let row = self.taken(id)?;
        Some(row.entry())
    }

    /// The number of the entry by which the item at a place of an account's mailbox, counted from 0, was placed. It
    /// takes no memory.
    pub fn source(&self, account: &Address, place: u32) -> Option<u64>
        ensures { result ≡ option_map (λ (posted : Posted). posted.entry) (slice_get (mailbox self.now.half account.now) place) }
    {
        let row = self.posted(account, place)?;
        Some(row.entry())
    }

    /// The number of the entry by which the item at a place of an account's archive, counted from 0, was placed in its
    /// mailbox. It takes no memory.
    pub fn vault_source(&self, account: &Address, place: u32) -> Option<u64>
        ensures { result ≡ option_map (λ (posted : Posted). posted.entry) (slice_get (archive self.now.half account.now) place) }
    {
        let row = self.vault_posted(account, place)?;
        Some(row.entry())
    }

    /// What this provider owes another one beside answers: outcomes that nobody acknowledged, in order of decision, and
    /// then envelopes of messages of which nothing was heard, in order of number; no more than there is room for.
    pub fn due(&self, to: u32, room: usize) -> Result<Vec<Letter>, NoMemory>
        ensures { (trade : Trade) → IsFor trade self.now
            → IfOk result (λ letters. letters.items ≡ due_letters trade self.now.me self.now.half to room []) }
    {
        let mut letters = owed(self, &self.outbox, &self.inbox, to)?;
        letters.truncate(room);
        Ok(letters)
    }

    /// The first taken pair, in order of taking and of recipients, that isn't decided. It takes no memory.
    pub fn next_undecided(&self) -> Option<(MsgId, &Address)>
        ensures { option_map (λ pair. pair_of pair.0 pair.1.now) result ≡ next_undecided self.now.half }
    {
        self.inbox.next_undecided()
    }

    /// The book of an account of this provider: a line for each of its accepted messages and certified recipients, in
    /// order of number and recipients.
    pub fn book(&self, account: &Address) -> Result<Vec<BookLine>, NoMemory>
        ensures { (trade : Trade) → IsFor trade self.now
            → IfOk result (λ lines. lines.items ≡ book trade self.now.me self.now.half account.now) }
    {
        let lines = book_lines(self, self.me(), account, self.messages())?;
        Ok(lines)
    }

    /// The lines of an account's mailbox, in order of placing.
    #[tactic(auto, unfolding(pec_ledger::specs::Books::mailbox_lines))]
    pub fn items(&self, account: &Address) -> Result<Vec<ItemLine>, NoMemory>
        ensures { IfOk result (λ lines. lines.items ≡ mailbox_lines self.now.half account.now) }
    {
        self.boxes.lines(self.alloc, account)
    }

    /// The lines of an account's archive, in the order in which the items were moved there.
    #[tactic(auto, unfolding(pec_ledger::specs::Books::archive_lines))]
    pub fn vault(&self, account: &Address) -> Result<Vec<ItemLine>, NoMemory>
        ensures { IfOk result (λ lines. lines.items ≡ archive_lines self.now.half account.now) }
    {
        self.boxes.vault_lines(self.alloc, account)
    }

    /// Where the cursors stand behind an entry, if it is a clock call whose moment isn't before the greatest one.
    fn look(&mut self, entry: &Entry, steps: &mut Steps) -> Option<Clock>
        ensures clock { self.old.half.last ≤ moment_of entry.now → result ≡ clock_seen (acceptances_seen self.old) entry.now }
        ensures same { self.new ≡ record self.old { looks = self.new.looks } }
        ensures looked { LookedSo self.old entry.now self.new.looks steps.old steps.new }
    {
        let Entry::Ticked { moment } = entry else {
            return None;
        };
        if moment.seconds() < self.last {
            return None;
        }
        Some(self.deadlines.pass(*moment, steps))
    }

    /// What an entry that is a step is prepared as, whose bytes will stand at this place. It is told where the cursors
    /// stand behind a clock call.
    fn prepared(
        &self,
        directory: &Directory,
        draft: &Draft,
        place: Place,
        clock: Option<Clock>,
    ) -> Result<Ready, NoMemory>
        requires homes { (trade : Trade) → IsOf directory.now trade → IsFor trade self.now }
        requires step { IsStepOf directory.now self.now draft.now }
        requires clock { clock ≡ clock_seen (acceptances_seen self.now) draft.now }
        ensures is { (trade : Trade) → IsOf directory.now trade
            → IfOk result (λ ready. ready ≡ prepared trade self.now.me self.now.half draft.now place) }
        ensures entries { IfOk result (λ _. self.now.half.entries + 1 < 2 ^ 64) }
        ensures bytes { IfOk result (λ ready. self.now.half.end + ready.adds.size < 2 ^ 64) }
    {
        let moment = moment_of(draft.entry());
        let version = version_by(draft.entry());
        let size = self.size(draft.entry())?;
        let rows = rows_of(self, directory, draft, clock)?;
        Ok(rows.with_figures(moment, version, size, place))
    }

    /// How many bytes longer an entry makes the journal, as long as 64 bits tell its length and its entries: no memory
    /// holds more.
    fn size(&self, entry: &Entry) -> Result<u64, NoMemory>
        ensures size { IfOk result (λ size. size ≡ size_of entry.now) }
        ensures entries { OnOk result (self.now.half.entries + 1 < 2 ^ 64) }
        ensures bytes { IfOk result (λ size. self.now.half.end + size < 2 ^ 64) }
    {
        let size = size_of(entry).ok_or(NoMemory)?;
        if self.entries == u64::MAX || self.end > u64::MAX - size {
            return Err(NoMemory);
        }
        Ok(size)
    }

    /// Makes room for so many further rows in each list.
    fn reserve(&mut self, rows: usize) -> Result<(), NoMemory>
        ensures room { OnOk result (rows ≤ self.new.room) }
        ensures same { self.new ≡ record self.old { room = self.new.room } }
    {
        self.outbox.reserve(rows)?;
        self.inbox.reserve(rows)?;
        self.boxes.reserve(rows)?;
        self.deadlines.reserve(rows)?;
        self.places.reserve(rows)?;
        Ok(())
    }
}
