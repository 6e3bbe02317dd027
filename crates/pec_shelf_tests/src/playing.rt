//! A shelf to which the steps of scripts are done, and the lines that come of them.

ghost use Rattle.pec_ledger.specs.OfDirectory.{IsOf};
ghost use Rattle.pec_ledger.specs.Trade.{Trade};
ghost use Rattle.pec_shelf.specs.Seen.{IsFor};

use crate::lines::{Log, add_facts, add_letters, add_pair, add_row};
use crate::reading::step_of;
use crate::steps::{Act, Id, Question, Step, address_of, entry_of, id_of};
use pec_directory::Directory;
use pec_records::Entry;
use pec_script::{book_text, items_text, marks_text, vault_text};
use pec_shelf::{DraftFault, Shelf, a_directory_has_a_trade, drafted, what_is_kept_goes_on};
use pec_trial::two;
use pec_types::{Address, Mark, NoMemory, Place, Steps};
use std::alloc::Global;

/// A shelf and its directory. An entry that is no step has a line that says so, a clock call its marks, and any other
/// entry none.
pub(crate) struct Desk {
    alloc: Global,
    directory: Directory,
    shelf: Shelf,
    // How many entries were taken in.
    taken: u64,
    ghost homes: { (trade : Trade) → IsOf directory trade → IsFor trade shelf },
}

impl Drop for Desk {
    fn drop(self) {
        let Desk {
            alloc: _,
            directory: _,
            shelf: _,
            taken: _,
        } = self;
    }
}

impl Desk {
    /// The shelf of a provider before its first entry.
    pub(crate) fn new(alloc: Global, me: u32) -> Option<Desk> {
        match Directory::read(alloc, two()) {
            Ok(directory) => Some(Desk {
                alloc,
                directory,
                shelf: Shelf::new(alloc, me),
                taken: 0,
            }),
            Err(_) => None,
        }
    }

    /// Does the steps of a script, line by line.
    pub(crate) fn play_script(&mut self, log: &mut Log, script: &'static str) {
        for line in script.split('\n') {
            if !line.is_empty() {
                self.play_line(log, line);
            }
        }
    }

    pub(crate) fn play_line(&mut self, log: &mut Log, line: &'static str) {
        match step_of(line) {
            Some(step) => self.step(log, &step),
            None => log.fail(),
        }
    }

    /// Does a step, and adds the lines that come of it.
    pub(crate) fn step(&mut self, log: &mut Log, step: &Step) {
        match step {
            Step::Enter(moment, act) => self.enter(log, *moment, act),
            Step::Ask(question) => self.answer(log, question),
        }
    }

    fn enter(&mut self, log: &mut Log, moment: u64, act: &Act) {
        match entry_of(self.alloc, moment, act) {
            Some(entry) => self.take_in(log, act, entry),
            None => log.fail(),
        }
    }

    fn take_in(&mut self, log: &mut Log, act: &Act, entry: Entry) {
        match self.taken_in(entry) {
            Ok(Some(marks)) => self.add_marks(log, act, &marks),
            Ok(None) => log.put(b"not-a-step\n"),
            Err(_) => log.fail(),
        }
    }

    fn add_marks(&self, log: &mut Log, act: &Act, marks: &[Mark]) {
        if !marks.is_empty() || is_tick(act) {
            log.put_text(marks_text(self.alloc, &self.directory, marks));
        }
    }

    /// The marks of an entry, where it is a step. Its place is that of its number.
    pub(crate) fn taken_in(&mut self, entry: Entry) -> Result<Option<Vec<Mark>>, NoMemory> {
        a_directory_has_a_trade();
        what_is_kept_goes_on();
        let draft = match drafted(&self.shelf, &self.directory, entry) {
            Ok(draft) => draft,
            Err(DraftFault::NotAStep) => return Ok(None),
            Err(DraftFault::NoMemory) => return Err(NoMemory),
        };
        let place = place_of(self.taken);
        let ready = self
            .shelf
            .prepare(&self.directory, &draft, place, &mut Steps::new())?;
        self.taken = self.taken.saturating_add(1);
        Ok(Some(self.shelf.commit(ready)))
    }

    /// The shelf keeps the place of the entry of a number.
    pub(crate) fn has_place(&self, number: u64) -> bool {
        self.shelf.place(number) == Some(place_of(number))
    }

    /// The shelf keeps no place for the entry of a number.
    pub(crate) fn has_no_place(&self, number: u64) -> bool {
        self.shelf.place(number).is_none()
    }

    fn answer(&self, log: &mut Log, question: &Question) {
        match *question {
            Question::Due(to, room) => self.add_due(log, to, room),
            Question::Undecided => self.add_undecided(log),
            Question::Facts(number) => self.add_facts(log, number),
            Question::Own(number) => log.add_found(self.shelf.own(number)),
            Question::Took(id) => self.add_took(log, id),
            Question::Version => log.add_found(Some(self.shelf.version())),
            Question::Book(account)
            | Question::Items(account)
            | Question::Counted(account)
            | Question::Source(account, _)
            | Question::Vault(account)
            | Question::VaultSource(account, _)
            | Question::Row(_, account) => self.answer_of(log, account, question),
        }
    }

    /// Adds the lines of an answer on an account or a recipient.
    fn answer_of(&self, log: &mut Log, account: &str, question: &Question) {
        match address_of(self.alloc, account) {
            Some(account) => self.answer_on(log, &account, question),
            None => log.fail(),
        }
    }

    fn answer_on(&self, log: &mut Log, account: &Address, question: &Question) {
        match *question {
            Question::Book(_) => self.add_book(log, account),
            Question::Items(_) => self.add_items(log, account),
            Question::Source(_, place) => log.add_found(self.shelf.source(account, place)),
            Question::Vault(_) => self.add_vault(log, account),
            Question::VaultSource(_, place) => {
                log.add_found(self.shelf.vault_source(account, place))
            }
            Question::Row(id, _) => self.add_row(log, id, account),
            _ => log.add_found(Some(self.shelf.counted(account))),
        }
    }

    fn add_took(&self, log: &mut Log, id: Id) {
        match id_of(id) {
            Some(id) => log.add_found(self.shelf.took(id)),
            None => log.fail(),
        }
    }

    fn add_due(&self, log: &mut Log, to: u32, room: usize) {
        match self.shelf.due(to, room) {
            Ok(letters) => add_letters(log, &self.directory, &letters),
            Err(_) => log.fail(),
        }
    }

    fn add_book(&self, log: &mut Log, account: &Address) {
        match self.shelf.book(account) {
            Ok(lines) => log.put_text(book_text(self.alloc, &self.directory, &lines)),
            Err(_) => log.fail(),
        }
    }

    fn add_items(&self, log: &mut Log, account: &Address) {
        match self.shelf.items(account) {
            Ok(lines) => log.put_text(items_text(self.alloc, &self.directory, &lines)),
            Err(_) => log.fail(),
        }
    }

    fn add_vault(&self, log: &mut Log, account: &Address) {
        match self.shelf.vault(account) {
            Ok(lines) => log.put_text(vault_text(self.alloc, &self.directory, &lines)),
            Err(_) => log.fail(),
        }
    }

    fn add_undecided(&self, log: &mut Log) {
        match self.shelf.next_undecided() {
            Some((id, recipient)) => add_pair(log, &self.directory, id, recipient.bytes()),
            None => log.add_nothing(),
        }
    }

    fn add_facts(&self, log: &mut Log, number: u64) {
        match self.shelf.facts(number) {
            Some(facts) => add_facts(log, facts),
            None => log.add_nothing(),
        }
    }

    fn add_row(&self, log: &mut Log, id: Id, recipient: &Address) {
        let Some(id) = id_of(id) else {
            return log.fail();
        };
        match self.shelf.row(id, recipient) {
            Some(row) => add_row(log, row),
            None => log.add_nothing(),
        }
    }
}

/// A place that is no other entry's.
fn place_of(number: u64) -> Place {
    Place {
        at: number,
        length: 1,
    }
}

fn is_tick(act: &Act) -> bool {
    match act {
        Act::Ticks => true,
        _ => false,
    }
}
