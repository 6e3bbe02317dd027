//! A network of two providers over disks in memory, and the depot of its disks: it answers lines of words.

ghost use Rattle.std.specs.Prelude.{◌<◌, length, IfOk};

use crate::words::link_word;
use pec_directory::Directory;
use pec_link::LinkFault;
use pec_network::{Form, FreeGate, Network, StartFault};
use pec_outside::{MemDepot, MemDisk};
use pec_screen::PatternScreen;
use pec_seal::HmacSealer;
use pec_trade::sealer_of;
use pec_trial::{
    account_at, moment_of, number, small, submission_of, text_of, told, told_all, told_turns,
    told_word, two, word,
};
use pec_types::{Frame, NoMemory, Text8};
use std::alloc::{AllocError, Global};
use std::test::Fail;
use std::thread::Threads;

/// A network of the directory of the tests.
struct Net<'a, X: Threads + Sync> {
    rt: &'a X,
    alloc: Global,
    network: Network<MemDisk, HmacSealer, PatternScreen>,
    depot: MemDepot,
}

impl<X: Threads + Sync> Drop for Net<'_, X> {
    fn drop(self) {
        let Net {
            rt: _,
            alloc: _,
            network: _,
            depot: _,
        } = self;
    }
}

/// How a script was played: why its network didn't begin, the first line that isn't answered as it says, with what
/// came, and the depot, which has all disks again.
pub(crate) struct Outcome {
    fault: Option<StartFault>,
    wrong: Option<String>,
    depot: MemDepot,
}

impl Drop for Outcome {
    fn drop(self) {
        let Outcome {
            fault: _,
            wrong: _,
            depot: _,
        } = self;
    }
}

impl Outcome {
    /// All that it has, in the order of its fields.
    pub(crate) fn parts(self) -> (Option<StartFault>, Option<String>, MemDepot) {
        let Outcome {
            fault,
            wrong,
            depot,
        } = self;
        (fault, wrong, depot)
    }
}

/// Plays a script in a network of the directory of the tests, which begins over a depot and ends behind the script.
pub(crate) fn played<X: Threads + Sync>(
    rt: &X,
    alloc: Global,
    form: Form,
    mut depot: MemDepot,
    script: &str,
) -> Result<Outcome, Fail> {
    match begun(alloc, form, &mut depot) {
        Ok(network) => within(
            Net {
                rt,
                alloc,
                network,
                depot,
            },
            script,
        ),
        Err(fault) => Ok(Outcome {
            fault: Some(fault),
            wrong: None,
            depot,
        }),
    }
}

/// A network of the directory of the tests, whose journals are made, or opened.
pub(crate) fn begun(
    alloc: Global,
    form: Form,
    depot: &mut MemDepot,
) -> Result<Network<MemDisk, HmacSealer, PatternScreen>, StartFault> {
    match Directory::read(alloc, two()) {
        Ok(directory) => begun_in(alloc, form, directory, depot),
        Err(_) => Err(StartFault::NoMemory),
    }
}

fn begun_in(
    alloc: Global,
    form: Form,
    directory: Directory,
    depot: &mut MemDepot,
) -> Result<Network<MemDisk, HmacSealer, PatternScreen>, StartFault> {
    let sealer = sealer_of(alloc, &directory)?;
    match form {
        Form::Make => Network::create(alloc, directory, sealer, screens(alloc)?, depot),
        Form::Open => Network::resume(alloc, directory, sealer, screens(alloc)?, depot),
    }
}

/// A screen for each of the two providers, whose pattern no message of the tests has.
fn screens(alloc: Global) -> Result<Vec<PatternScreen>, NoMemory> {
    let mut screens = Vec::with_capacity(alloc, 2)?;
    screens.push_reserved(screen_of(alloc, b"@@")?);
    screens.push_reserved(screen_of(alloc, b"@@")?);
    Ok(screens)
}

/// A screen of one pattern.
fn screen_of(alloc: Global, pattern: &[u8]) -> Result<PatternScreen, NoMemory> {
    let mut patterns = Vec::with_capacity(alloc, 1)?;
    patterns.push_reserved(Text8::of(Vec::from_slice(alloc, pattern)?));
    Ok(PatternScreen::new(patterns))
}

fn within<X: Threads + Sync>(mut net: Net<'_, X>, script: &str) -> Result<Outcome, Fail> {
    match net.first_wrong(script) {
        Ok(wrong) => Ok(Outcome {
            fault: None,
            wrong,
            depot: net.closed(),
        }),
        Err(fail) => Err(fail),
    }
}

/// A link, and a place on it.
#[derive(Clone, Copy)]
struct Spot {
    from: u32,
    to: u32,
    place: usize,
}

/// A verb of a line.
#[derive(Clone, Copy)]
enum Verb {
    Submit,
    Round,
    Lose,
    Inject,
    Book,
    Entries,
    Unknown,
}

const VERBS: [(&str, Verb); 6] = [
    ("submit", Verb::Submit),
    ("round", Verb::Round),
    ("lose", Verb::Lose),
    ("inject", Verb::Inject),
    ("book", Verb::Book),
    ("entries", Verb::Entries),
];

fn verb_of(word: &str) -> Verb {
    let mut found = Verb::Unknown;
    for (name, verb) in &VERBS {
        if *name == word {
            found = *verb;
        }
    }
    found
}

/// A line of a script is `CALL -> ANSWER`, or empty. Of a network on threads no trait's method can be asked, so scripts
/// are gone over here.
impl<X: Threads + Sync> Net<'_, X> {
    /// The first line of a script that isn't answered as it says, and what came.
    fn first_wrong(&mut self, script: &str) -> Result<Option<String>, Fail> {
        for line in script.split('\n') {
            let wrong = self.wrong_at(line)?;
            if wrong.is_some() {
                return Ok(wrong);
            }
        }
        Ok(None)
    }

    fn wrong_at(&mut self, line: &str) -> Result<Option<String>, Fail> {
        if line.is_empty() {
            return Ok(None);
        }
        let Some((call, answer)) = line.split_once(" -> ") else {
            return Err("a line without an answer".into());
        };
        let came = self.answer(call)?;
        if came.as_slice() == answer.as_bytes() {
            return Ok(None);
        }
        Ok(Some(told_wrong(self.alloc, line, &came)?))
    }

    /// What a call comes to, which is a verb and the words that it has below.
    fn answer(&mut self, call: &str) -> Result<Vec<u8>, Fail> {
        match verb_of(word(call, 0)) {
            Verb::Submit => self.submit(call),
            Verb::Round => self.round(call),
            Verb::Lose => self.lose(call),
            Verb::Inject => self.inject(call),
            Verb::Book => self.book(call),
            Verb::Entries => self.entries(call),
            Verb::Unknown => Err("no such verb".into()),
        }
    }
}

impl<X: Threads + Sync> Net<'_, X> {
    /// Ends the network. Its depot has all disks again.
    fn closed(self) -> MemDepot {
        let Net {
            rt: _,
            alloc: _,
            network,
            mut depot,
        } = self;
        network.close(&mut depot);
        depot
    }

    /// The number of one of its providers, at a place of a line.
    fn who(&self, line: &str, place: usize) -> Result<u32, Fail>
        ensures { IfOk result (λ number. number < length self.now.network.kept) }
    {
        let number = small(line, place)?;
        if number < self.network.directory().count() {
            Ok(number)
        } else {
            Err("no such provider".into())
        }
    }

    /// `VERB FROM TO PLACE`
    fn spot(&self, line: &str) -> Result<Spot, Fail>
        ensures { IfOk result (λ spot. (spot.from < length self.now.network.kept)
            × (spot.to < length self.now.network.kept)) }
    {
        let from = self.who(line, 1)?;
        let to = self.who(line, 2)?;
        let place = number(line, 3)? as usize;
        Ok(Spot { from, to, place })
    }

    /// `submit PROVIDER MOMENT SENDER PATH MESSAGE`
    fn submit(&mut self, line: &str) -> Result<Vec<u8>, Fail> {
        let provider = self.who(line, 1)?;
        let asked = submission_of(self.alloc, line)?;
        let answer = self.network.submit(
            self.alloc,
            provider,
            asked.moment,
            &asked.sender,
            &asked.path,
            &asked.message,
        );
        told(self.alloc, answer)
    }

    /// `round MOMENT`
    fn round(&mut self, line: &str) -> Result<Vec<u8>, Fail> {
        let moment = moment_of(line, 1)?;
        let answer = self.network.round(self.rt, self.alloc, moment, &FreeGate);
        told_turns(self.alloc, answer)
    }

    /// `lose FROM TO PLACE`
    fn lose(&mut self, line: &str) -> Result<Vec<u8>, Fail> {
        let spot = self.spot(line)?;
        let answer = self.network.lose(spot.from, spot.to, spot.place);
        told_word(self.alloc, link_word(answer))
    }

    /// `inject FROM TO TEXT TIMES`: what the last of so many times came to.
    fn inject(&mut self, line: &str) -> Result<Vec<u8>, Fail> {
        let times = number(line, 4)?;
        let mut answer = Ok(());
        for _ in 0..times {
            answer = self.injected(line)?;
        }
        told_word(self.alloc, link_word(answer))
    }

    fn injected(&mut self, line: &str) -> Result<Result<(), LinkFault>, Fail> {
        let from = self.who(line, 1)?;
        let to = self.who(line, 2)?;
        let text = text_of(self.alloc, word(line, 3)).unwrap_or(Vec::new(self.alloc));
        Ok(self.network.inject(from, to, Frame::of(Text8::of(text))))
    }

    /// `book ACCOUNT`
    fn book(&self, line: &str) -> Result<Vec<u8>, Fail> {
        let account = account_at(self.alloc, line, 1)?;
        let answer = self.network.book(self.alloc, &account);
        told_all(self.alloc, answer, b"rows")
    }

    /// `entries PROVIDER`
    fn entries(&self, line: &str) -> Result<Vec<u8>, Fail> {
        let provider = self.who(line, 1)?;
        told_number(self.alloc, self.network.entries(provider))
    }
}

/// A line that isn't answered as it says, and what came.
fn told_wrong(alloc: Global, line: &str, came: &[u8]) -> Result<String, AllocError> {
    let mut text = String::from_str(alloc, line)?;
    text.push_str(" BUT ")?;
    for b in came {
        text.push(char::from(*b))?;
    }
    Ok(text)
}

fn told_number(alloc: Global, number: u64) -> Result<Vec<u8>, Fail> {
    let digits = number.to_string(alloc).unwrap_or(String::new(alloc));
    told_word(alloc, digits.as_bytes())
}
