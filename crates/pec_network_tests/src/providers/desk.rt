//! One provider of the directory of the tests over a disk in memory, which is asked by lines.

ghost use Rattle.std.specs.Prelude.{◌<◌, ◌≤◌, length};
ghost use Rattle.pec_records.specs.Entry.{longest_message, most_addresses};

use super::home::Home;
use pec_extract::{ExtractFault, Totals, write_provider};
use pec_outside::{MemDisk, MemSink};
use pec_provider::{
    CreateFault, Event, House, Provider, ProviderFault, ReopenFault, Submitted, SwapFault,
};
use pec_screen::PatternScreen;
use pec_seal::{HmacSealer, Sealer};
use pec_trial::{
    Submission, account_at, add, add_number, moment_of, number, small, submission_of, told,
    told_all, told_item, told_list, told_word, word,
};
use pec_types::{Frame, Steps, Text8};
use std::alloc::Global;
use std::marker::Model;
use std::test::Fail;

/// The two providers of the directory of the tests.
#[derive(Clone, Copy)]
pub(crate) enum Who {
    Alfa,
    Beta,
}

impl Who {
    /// The number of the provider.
    fn number(self) -> u32
        ensures { result < 2 }
    {
        match self {
            Who::Alfa => 0,
            Who::Beta => 1,
        }
    }
}

/// One provider with one screen, and the frames that it put last.
pub(crate) struct Desk {
    alloc: Global,
    home: Home,
    me: u32,
    provider: Provider<MemDisk>,
    screen: PatternScreen,
    put: Vec<Frame>,
}

impl Model for Desk {
    ghost use Rattle.pec_outside.specs.MemoryDisk.{DiskState};
    ghost use Rattle.pec_provider.specs.Provider.{ProviderState, Runs};

    ghost Value = { ProviderState DiskState };

    ghost view = { λ desk. desk.provider };

    ghost invariant = { λ desk. Runs desk.home.directory (⟦<HmacSealer as Sealer>⟧.seals desk.home.sealer) desk.me
        desk.provider };
}

impl Drop for Desk {
    fn drop(self) {
        let Desk {
            alloc: _,
            home: _,
            me: _,
            provider: _,
            screen: _,
            put: _,
        } = self;
    }
}

impl Desk {
    /// A provider on a disk, on which it makes its journal; or why it can't.
    pub(crate) fn made(
        alloc: Global,
        home: Home,
        who: Who,
        disk: MemDisk,
    ) -> Result<Desk, CreateFault> {
        let me = who.number();
        let house = House {
            directory: &home.directory,
            sealer: &home.sealer,
            me,
        };
        match Provider::create(alloc, &house, disk) {
            Ok(provider) => Ok(Desk {
                alloc,
                home,
                me,
                provider,
                screen: PatternScreen::new(Vec::new(alloc)),
                put: Vec::new(alloc),
            }),
            Err((fault, _)) => Err(fault),
        }
    }

    /// The provider whose journal is on a disk; or why it isn't opened.
    pub(crate) fn opened(
        alloc: Global,
        home: Home,
        who: Who,
        disk: MemDisk,
    ) -> Result<Desk, ReopenFault> {
        let me = who.number();
        let house = House {
            directory: &home.directory,
            sealer: &home.sealer,
            me,
        };
        match Provider::reopen(alloc, &house, disk) {
            Ok(provider) => Ok(Desk {
                alloc,
                home,
                me,
                provider,
                screen: PatternScreen::new(Vec::new(alloc)),
                put: Vec::new(alloc),
            }),
            Err((fault, _)) => Err(fault),
        }
    }

    /// The provider opened again over its disk, and whether an entry of it was interrupted; none where it isn't opened.
    pub(crate) fn reopened(self, who: Who) -> Option<(Desk, bool)> {
        let Desk {
            alloc,
            home,
            me: _,
            provider,
            screen: _,
            put: _,
        } = self;
        let (disk, interrupted) = provider.into_parts();
        let was_interrupted = interrupted.is_some();
        match Desk::opened(alloc, home, who, disk) {
            Ok(desk) => Some((desk, was_interrupted)),
            Err(_) => None,
        }
    }

    pub(crate) fn put(&self) -> &[Frame] {
        &self.put
    }
}

/// A verb of a line.
#[derive(Clone, Copy)]
enum Verb {
    Submit,
    Tick,
    Arrive,
    Decide,
    Put,
    EndTurn,
    Book,
    Mailbox,
    Item,
    Archive,
    Upgrade,
    Vault,
    VaultItem,
    Screen,
    Looks,
    Figures,
    Log,
    Unknown,
}

const VERBS: [(&str, Verb); 17] = [
    ("submit", Verb::Submit),
    ("tick", Verb::Tick),
    ("arrive", Verb::Arrive),
    ("decide", Verb::Decide),
    ("put", Verb::Put),
    ("end-turn", Verb::EndTurn),
    ("book", Verb::Book),
    ("mailbox", Verb::Mailbox),
    ("item", Verb::Item),
    ("archive", Verb::Archive),
    ("upgrade", Verb::Upgrade),
    ("vault", Verb::Vault),
    ("vault-item", Verb::VaultItem),
    ("screen", Verb::Screen),
    ("looks", Verb::Looks),
    ("figures", Verb::Figures),
    ("log", Verb::Log),
];

fn verb_of(word: &str) -> Verb {
    let mut found = Verb::Unknown;
    for (name, verb) in &VERBS {
        if *name == word {
            found = *verb;
        }
    }
    found
}

impl Desk {
    /// What a line asks of it, as words: a provider, a verb, and what each verb has below. A frame that a line names is
    /// given beside it.
    pub(crate) fn answer(&mut self, line: &str, frame: &[u8]) -> Result<Vec<u8>, Fail> {
        match verb_of(word(line, 1)) {
            Verb::Submit => self.submit(line),
            Verb::Tick => self.tick(line),
            Verb::Arrive => self.arrive(line, frame),
            Verb::Decide => self.decide(line),
            Verb::Put => self.put_due(line),
            Verb::EndTurn => self.end_turn(),
            Verb::Book => self.book(line),
            Verb::Mailbox => self.mailbox(line),
            Verb::Item => self.item(line),
            Verb::Archive => self.archive(line),
            Verb::Upgrade => self.upgrade(line),
            Verb::Vault => self.vault(line),
            Verb::VaultItem => self.vault_item(line),
            Verb::Screen => self.screen(line),
            Verb::Looks => self.looks(),
            Verb::Figures => self.figures(),
            Verb::Log => self.log(line),
            Verb::Unknown => Err("no such verb".into()),
        }
    }

    /// `submit MOMENT SENDER PATH MESSAGE`
    fn submit(&mut self, line: &str) -> Result<Vec<u8>, Fail> {
        let asked = submission_of(self.alloc, line)?;
        let answer = self.submitted(&asked);
        told(self.alloc, answer)
    }

    fn submitted(&mut self, asked: &Submission) -> Result<Submitted, ProviderFault>
        requires path { (0 < length asked.now.path.items) × (length asked.now.path.items ≤ most_addresses) }
        requires message { length asked.now.message.items ≤ longest_message }
    {
        let home = &self.home;
        let house = House {
            directory: &home.directory,
            sealer: &home.sealer,
            me: self.me,
        };
        self.provider.submit(
            self.alloc,
            &house,
            asked.moment,
            &asked.sender,
            &asked.path,
            &asked.message,
            &mut self.screen,
        )
    }

    /// `tick MOMENT`
    fn tick(&mut self, line: &str) -> Result<Vec<u8>, Fail> {
        let moment = moment_of(line, 2)?;
        let home = &self.home;
        let house = House {
            directory: &home.directory,
            sealer: &home.sealer,
            me: self.me,
        };
        let answer = self
            .provider
            .tick(self.alloc, &house, moment, &mut Steps::new());
        told_all(self.alloc, answer, b"marks")
    }

    /// `arrive MOMENT ..`
    fn arrive(&mut self, line: &str, frame: &[u8]) -> Result<Vec<u8>, Fail> {
        let moment = moment_of(line, 2)?;
        let home = &self.home;
        let house = House {
            directory: &home.directory,
            sealer: &home.sealer,
            me: self.me,
        };
        let answer = self.provider.arrive(self.alloc, &house, moment, frame);
        told(self.alloc, answer)
    }

    /// `decide MOMENT`
    fn decide(&mut self, line: &str) -> Result<Vec<u8>, Fail> {
        let moment = moment_of(line, 2)?;
        let home = &self.home;
        let house = House {
            directory: &home.directory,
            sealer: &home.sealer,
            me: self.me,
        };
        let answer = self
            .provider
            .decide_next(self.alloc, &house, moment, &mut self.screen);
        told(self.alloc, answer)
    }

    /// `put TO ROOM`: what is put, or why nothing is.
    fn put_due(&mut self, line: &str) -> Result<Vec<u8>, Fail> {
        let to = small(line, 2)?;
        let room = number(line, 3)? as usize;
        match self.due(to, room) {
            Ok(frames) => {
                self.put = frames;
                told_list(self.alloc, &self.put, b"frames")
            }
            Err(fault) => {
                self.put = Vec::new(self.alloc);
                told_all::<Frame>(self.alloc, Err(fault), b"frames")
            }
        }
    }

    fn due(&mut self, to: u32, room: usize) -> Result<Vec<Frame>, ProviderFault> {
        let home = &self.home;
        let house = House {
            directory: &home.directory,
            sealer: &home.sealer,
            me: self.me,
        };
        self.provider.put_due(self.alloc, &house, to, room)
    }

    /// `end-turn`
    fn end_turn(&mut self) -> Result<Vec<u8>, Fail> {
        self.provider.end_turn();
        told_word(self.alloc, b"ended")
    }

    /// `book ACCOUNT`
    fn book(&self, line: &str) -> Result<Vec<u8>, Fail> {
        let account = account_at(self.alloc, line, 2)?;
        let home = &self.home;
        let house = House {
            directory: &home.directory,
            sealer: &home.sealer,
            me: self.me,
        };
        let answer = self.provider.book(self.alloc, &house, &account);
        told_all(self.alloc, answer, b"rows")
    }

    /// `mailbox ACCOUNT`
    fn mailbox(&self, line: &str) -> Result<Vec<u8>, Fail> {
        let account = account_at(self.alloc, line, 2)?;
        let home = &self.home;
        let house = House {
            directory: &home.directory,
            sealer: &home.sealer,
            me: self.me,
        };
        let answer = self.provider.mailbox(self.alloc, &house, &account);
        told_all(self.alloc, answer, b"items")
    }

    /// `item ACCOUNT PLACE`
    fn item(&mut self, line: &str) -> Result<Vec<u8>, Fail> {
        let place = small(line, 3)?;
        let account = account_at(self.alloc, line, 2)?;
        let home = &self.home;
        let house = House {
            directory: &home.directory,
            sealer: &home.sealer,
            me: self.me,
        };
        let answer = self.provider.item(self.alloc, &house, &account, place);
        told_item(self.alloc, answer)
    }

    /// `archive MOMENT ACCOUNT PLACE`
    fn archive(&mut self, line: &str) -> Result<Vec<u8>, Fail> {
        let moment = moment_of(line, 2)?;
        let account = account_at(self.alloc, line, 3)?;
        let place = small(line, 4)?;
        let home = &self.home;
        let house = House {
            directory: &home.directory,
            sealer: &home.sealer,
            me: self.me,
        };
        let answer = self
            .provider
            .archive(self.alloc, &house, moment, &account, place);
        told_done(self.alloc, answer, b"archived")
    }

    /// `upgrade MOMENT`
    fn upgrade(&mut self, line: &str) -> Result<Vec<u8>, Fail> {
        let moment = moment_of(line, 2)?;
        let home = &self.home;
        let house = House {
            directory: &home.directory,
            sealer: &home.sealer,
            me: self.me,
        };
        let answer = self.provider.upgrade(self.alloc, &house, moment);
        told_done(self.alloc, answer, b"upgraded")
    }

    /// `vault ACCOUNT`
    fn vault(&self, line: &str) -> Result<Vec<u8>, Fail> {
        let account = account_at(self.alloc, line, 2)?;
        let home = &self.home;
        let house = House {
            directory: &home.directory,
            sealer: &home.sealer,
            me: self.me,
        };
        let answer = self.provider.vault(self.alloc, &house, &account);
        told_all(self.alloc, answer, b"items")
    }

    /// `vault-item ACCOUNT PLACE`
    fn vault_item(&mut self, line: &str) -> Result<Vec<u8>, Fail> {
        let place = small(line, 3)?;
        let account = account_at(self.alloc, line, 2)?;
        let home = &self.home;
        let house = House {
            directory: &home.directory,
            sealer: &home.sealer,
            me: self.me,
        };
        let answer = self
            .provider
            .vault_item(self.alloc, &house, &account, place);
        told_item(self.alloc, answer)
    }

    /// `screen PLACE PATTERN`: a screen of that pattern takes the place of one.
    fn screen(&mut self, line: &str) -> Result<Vec<u8>, Fail> {
        let place = small(line, 2)? as usize;
        let pattern = Vec::from_slice(self.alloc, word(line, 3).as_bytes())?;
        let mut patterns = Vec::new(self.alloc);
        patterns.push(Text8::of(pattern))?;
        let spare = PatternScreen::new(patterns);
        match self.provider.replace(&mut self.screen, place, spare) {
            Ok(()) => told_word(self.alloc, b"screened"),
            Err((_, SwapFault::Down)) => told_word(self.alloc, b"down"),
            Err((_, SwapFault::NoSuchPlace)) => told_word(self.alloc, b"no-screen"),
        }
    }

    /// `looks`: how often the screen has looked.
    fn looks(&self) -> Result<Vec<u8>, Fail> {
        let mut words = Vec::new(self.alloc);
        add_number(self.alloc, &mut words, self.screen.seen())?;
        Ok(words)
    }

    /// `figures`: entries, the last moment, messages, the end of the journal, and whether the provider is down.
    fn figures(&self) -> Result<Vec<u8>, Fail> {
        let provider = &self.provider;
        let numbers = [
            provider.entries(),
            provider.last().seconds(),
            provider.messages(),
            provider.fill(),
        ];
        let words = figures_text(self.alloc, numbers, provider.is_down());
        told_word(self.alloc, &words)
    }

    /// `log FROM UPTO`: the rows of a range, with ` | ` behind each, and the four totals.
    fn log(&mut self, line: &str) -> Result<Vec<u8>, Fail> {
        let from = moment_of(line, 2)?;
        let upto = moment_of(line, 3)?;
        if self.provider.is_down() {
            return told_word(self.alloc, b"down");
        }
        let home = &self.home;
        let house = House {
            directory: &home.directory,
            sealer: &home.sealer,
            me: self.me,
        };
        let mut out = MemSink::new(self.alloc, Vec::new(self.alloc));
        let answer = write_provider(self.alloc, &house, &mut self.provider, from, upto, &mut out);
        let mut words = rows_text(self.alloc, out.bytes())?;
        told_log(self.alloc, &mut words, answer)?;
        Ok(words)
    }
}

/// Rows as one line: ` | ` in the place of each line feed.
fn rows_text(alloc: Global, rows: &[u8]) -> Result<Vec<u8>, Fail> {
    let mut text = Vec::new(alloc);
    for byte in rows {
        if *byte == b'\n' {
            text.extend_from_slice(b" |")?;
        } else {
            text.push(*byte)?;
        }
    }
    Ok(text)
}

/// The totals of an extract behind its rows, or why it ended.
fn told_log(
    alloc: Global,
    words: &mut Vec<u8>,
    answer: Result<Totals, ExtractFault>,
) -> Result<(), Fail> {
    match answer {
        Ok(totals) => {
            for number in [
                totals.accepted,
                totals.delivered,
                totals.refused,
                totals.pending,
            ] {
                add_number(alloc, words, number)?;
            }
        }
        Err(ExtractFault::DiskFault) => add(words, b"disk-fault")?,
        Err(ExtractFault::Changed(number)) => {
            add(words, b"changed")?;
            add_number(alloc, words, number)?;
        }
        Err(_) => add(words, b"no more")?,
    }
    Ok(())
}

/// What was done, as a word, or why it wasn't.
fn told_done(
    alloc: Global,
    answer: Result<(), ProviderFault>,
    done: &[u8],
) -> Result<Vec<u8>, Fail> {
    match answer {
        Ok(()) => told_word(alloc, done),
        Err(fault) => told::<Event>(alloc, Err(fault)),
    }
}

fn figures_text(alloc: Global, numbers: [u64; 4], is_down: bool) -> Vec<u8> {
    let mut words = Vec::new(alloc);
    for number in numbers {
        let _ = add_number(alloc, &mut words, number);
    }
    let _ = add(&mut words, if is_down { b"down" } else { b"up" });
    words
}
