//! Steps that are written as lines of words.

use crate::directories::one;
use crate::steps::{Act, Id, Message, Question, Step};
use pec_trial::two;
use pec_types::{Cause, Decision, Refusal};

/// What a line may say: an entry, or a question.
#[derive(Clone, Copy)]
enum Kind {
    Enters(Entry),
    Asks(Asked),
}

/// The kinds of entries. `Took` and those behind it name a message.
#[derive(Clone, Copy)]
enum Entry {
    Start,
    Accepted,
    Refused,
    Anomaly,
    Tick,
    Took,
    Charged,
    Acked,
    Decided,
    Learned,
    StartTwo,
    Upgraded,
    Archived,
}

/// The kinds of questions.
#[derive(Clone, Copy)]
enum Asked {
    Due,
    Book,
    Items,
    Undecided,
    Counted,
    Facts,
    Row,
    Own,
    Taken,
    Source,
    Vault,
    VaultSource,
    Version,
}

static KINDS: [(&str, Kind); 26] = [
    ("start", Kind::Enters(Entry::Start)),
    ("accepted", Kind::Enters(Entry::Accepted)),
    ("refused", Kind::Enters(Entry::Refused)),
    ("anomaly", Kind::Enters(Entry::Anomaly)),
    ("tick", Kind::Enters(Entry::Tick)),
    ("took", Kind::Enters(Entry::Took)),
    ("charged", Kind::Enters(Entry::Charged)),
    ("acked", Kind::Enters(Entry::Acked)),
    ("decided", Kind::Enters(Entry::Decided)),
    ("learned", Kind::Enters(Entry::Learned)),
    ("due", Kind::Asks(Asked::Due)),
    ("book", Kind::Asks(Asked::Book)),
    ("mailbox", Kind::Asks(Asked::Items)),
    ("undecided", Kind::Asks(Asked::Undecided)),
    ("counted", Kind::Asks(Asked::Counted)),
    ("facts", Kind::Asks(Asked::Facts)),
    ("row", Kind::Asks(Asked::Row)),
    ("own", Kind::Asks(Asked::Own)),
    ("taken", Kind::Asks(Asked::Taken)),
    ("source", Kind::Asks(Asked::Source)),
    ("start-two", Kind::Enters(Entry::StartTwo)),
    ("upgraded", Kind::Enters(Entry::Upgraded)),
    ("archived", Kind::Enters(Entry::Archived)),
    ("vault", Kind::Asks(Asked::Vault)),
    ("vault-source", Kind::Asks(Asked::VaultSource)),
    ("version", Kind::Asks(Asked::Version)),
];

fn kinds() -> &'static [(&'static str, Kind)] {
    &KINDS
}

fn kind_of(word: &str) -> Option<Kind> {
    for (name, kind) in kinds() {
        if *name == word {
            return Some(*kind);
        }
    }
    None
}

/// The step of a line: `KIND MOMENT ..` for an entry, or a question. Ids are `PROVIDER/NUMBER`, a comma stands between
/// two addresses of a list, a hyphen is an empty list; words behind the last that is wanted aren't read. A word that is
/// no number stands for the greatest, which is no moment and no message's.
pub(crate) fn step_of(line: &'static str) -> Option<Step> {
    match kind_of(word(line, 0))? {
        Kind::Enters(entry) => Some(Step::Enter(number(line, 1), act_of(entry, line)?)),
        Kind::Asks(asked) => Some(Step::Ask(question_of(asked, line))),
    }
}

fn act_of(entry: Entry, line: &'static str) -> Option<Act> {
    match entry {
        Entry::Decided => decided(line),
        Entry::Learned => learned(line),
        other => Some(plain_act_of(other, line)),
    }
}

/// An act that says no decision.
fn plain_act_of(entry: Entry, line: &'static str) -> Act {
    match entry {
        Entry::Start => Act::Starts(small(line, 2), directory(line)),
        Entry::Accepted => Act::Accepts(word(line, 2), message(line, 3)),
        Entry::Refused => Act::Refuses(word(line, 2), Cause::Bcc, list(line, 3)),
        Entry::Anomaly => Act::Anomaly(list(line, 2)),
        Entry::Took => Act::Takes(id(line, 2), message(line, 3)),
        Entry::Charged => Act::Charges(id(line, 2), small(line, 3)),
        Entry::Acked => Act::Acks(id(line, 2), word(line, 3)),
        Entry::StartTwo => Act::StartsTwo(small(line, 2), directory(line)),
        Entry::Upgraded => Act::Upgrades,
        Entry::Archived => Act::Archives(word(line, 2), small(line, 3)),
        Entry::Tick | Entry::Decided | Entry::Learned => Act::Ticks,
    }
}

fn decided(line: &'static str) -> Option<Act> {
    let decision = decision(line, 4)?;
    Some(Act::Decides(id(line, 2), word(line, 3), decision))
}

fn learned(line: &'static str) -> Option<Act> {
    let decision = decision(line, 4)?;
    Some(Act::Learns(id(line, 2), word(line, 3), decision, number(line, 5)))
}

fn question_of(asked: Asked, line: &'static str) -> Question {
    match asked {
        Asked::Due => Question::Due(small(line, 1), size(line, 2)),
        Asked::Book => Question::Book(word(line, 1)),
        Asked::Items => Question::Items(word(line, 1)),
        Asked::Undecided => Question::Undecided,
        Asked::Counted => Question::Counted(word(line, 1)),
        Asked::Facts => Question::Facts(number(line, 1)),
        Asked::Source => Question::Source(word(line, 1), small(line, 2)),
        Asked::Own => Question::Own(number(line, 1)),
        Asked::Row => Question::Row(id(line, 1), word(line, 2)),
        Asked::Taken => Question::Took(id(line, 1)),
        Asked::Vault => Question::Vault(word(line, 1)),
        Asked::VaultSource => Question::VaultSource(word(line, 1), small(line, 2)),
        Asked::Version => Question::Version,
    }
}

/// A message by who is named at a place and behind it: from, to, and copies.
fn message(line: &'static str, place: usize) -> Message {
    Message {
        from: list(line, place),
        to: list(line, place.saturating_add(1)),
        cc: list(line, place.saturating_add(2)),
    }
}

fn directory(line: &'static str) -> &'static str {
    if word(line, 3) == "one" { one() } else { two() }
}

static DECISIONS: [(&str, Decision); 4] = [
    ("delivered", Decision::Placed),
    ("no-mailbox", Decision::Refused(Refusal::NoMailbox)),
    ("mailbox-full", Decision::Refused(Refusal::MailboxFull)),
    ("virus", Decision::Refused(Refusal::Virus)),
];

fn decisions() -> &'static [(&'static str, Decision)] {
    &DECISIONS
}

fn decision(line: &'static str, place: usize) -> Option<Decision> {
    let word = word(line, place);
    for (name, decision) in decisions() {
        if *name == word {
            return Some(*decision);
        }
    }
    None
}

fn id(line: &'static str, place: usize) -> Id {
    match word(line, place).split_once('/') {
        Some((provider, number)) => (small_of(provider), number_of(number)),
        None => (u32::MAX, u64::MAX),
    }
}

fn number(line: &'static str, place: usize) -> u64 {
    number_of(word(line, place))
}

fn number_of(word: &str) -> u64 {
    match word.parse::<u64>() {
        Ok(number) => number,
        Err(_) => u64::MAX,
    }
}

fn small(line: &'static str, place: usize) -> u32 {
    small_of(word(line, place))
}

fn small_of(word: &str) -> u32 {
    match word.parse::<u32>() {
        Ok(number) => number,
        Err(_) => u32::MAX,
    }
}

fn size(line: &'static str, place: usize) -> usize {
    match word(line, place).parse::<usize>() {
        Ok(number) => number,
        Err(_) => usize::MAX,
    }
}

/// A list of addresses; none where there is a hyphen or no word.
fn list(line: &'static str, place: usize) -> &'static str {
    let word = word(line, place);
    if word == "-" { "" } else { word }
}

/// The word at a place; empty behind the last.
fn word(line: &'static str, place: usize) -> &'static str {
    match line.split(' ').nth(place) {
        Some(word) => word,
        None => "",
    }
}
