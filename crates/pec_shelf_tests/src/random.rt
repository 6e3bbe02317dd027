//! Entries in random order on the shelf of alfa, beside a plain list and loops over it.
ghost use Rattle.std.specs.Prelude.{◌<◌};

use crate::lines::Log;
use crate::plain::Plain;
use crate::playing::Desk;
use crate::steps::{Act, Id, Message, Question, Step};
use pec_trial::two;
use pec_types::{Decision, Refusal};
use std::alloc::Global;

/// How many steps there are, of which each fourth asks something.
const STEPS: u64 = 16_000;

/// Ids have numbers below this one.
const NUMBERS: u64 = 300;

static SENDERS: [&str; 4] = [
    "alice@alfa.example",
    "anna@alfa.example",
    "zoe@alfa.example",
    "bob@beta.example",
];

/// The recipients of messages: the lists `To` and `Cc`.
static LISTS: [(&str, &str); 8] = [
    ("bob@beta.example", ""),
    ("bob@beta.example,carl@beta.example", ""),
    ("alice@alfa.example", "bob@beta.example"),
    ("anna@alfa.example,alice@alfa.example", ""),
    ("nobody@alfa.example", "anna@alfa.example,bob@beta.example"),
    ("x@posta.example", "alice@alfa.example"),
    ("x@posta.example,nobody@beta.example", ""),
    ("anna@alfa.example", "zoe@alfa.example"),
];

/// The recipients that are decided for, mostly: those of alfa.
static HERE: [&str; 8] = [
    "alice@alfa.example",
    "anna@alfa.example",
    "alice@alfa.example",
    "anna@alfa.example",
    "alice@alfa.example",
    "nobody@alfa.example",
    "zoe@alfa.example",
    "bob@beta.example",
];

static RECIPIENTS: [&str; 8] = [
    "bob@beta.example",
    "bob@beta.example",
    "carl@beta.example",
    "alice@alfa.example",
    "anna@alfa.example",
    "nobody@alfa.example",
    "zoe@alfa.example",
    "x@posta.example",
];

static DECISIONS: [Decision; 5] = [
    Decision::Placed,
    Decision::Placed,
    Decision::Refused(Refusal::NoMailbox),
    Decision::Refused(Refusal::MailboxFull),
    Decision::Refused(Refusal::Virus),
];

/// The tables, by functions without a clause: the proofs of others are spared their texts.
fn senders() -> &'static [&'static str; 4] {
    &SENDERS
}

fn lists() -> &'static [(&'static str, &'static str); 8] {
    &LISTS
}

fn here() -> &'static [&'static str; 8] {
    &HERE
}

fn recipients() -> &'static [&'static str; 8] {
    &RECIPIENTS
}

fn decisions() -> &'static [Decision; 5] {
    &DECISIONS
}

/// Random numbers (xorshift of 64 bits).
#[derive(Drop)]
struct Chance {
    state: u64,
}

impl Chance {
    /// The next of them, below this one.
    fn below(&mut self, count: u64) -> u64
        requires { 0 < count }
        ensures { result < count }
    {
        self.state ^= self.state << 13;
        self.state ^= self.state >> 7;
        self.state ^= self.state << 17;
        self.state % count
    }

    fn act(&mut self) -> Act {
        match self.below(16) {
            0 | 1 => self.accepts(),
            2 | 3 => Act::Takes(self.id(), self.message("bob@beta.example")),
            4 | 5 => Act::Charges(self.id(), self.provider()),
            6 | 7 => self.learns(),
            8 | 9 => Act::Acks(self.id(), self.recipient_here()),
            10 => Act::Archives(self.recipient_here(), self.below(12) as u32),
            _ => Act::Decides(self.id(), self.recipient_here(), self.decision()),
        }
    }

    fn accepts(&mut self) -> Act {
        let sender = senders()[self.below(4) as usize];
        Act::Accepts(sender, self.message(sender))
    }

    fn learns(&mut self) -> Act {
        let decided = 1_704_186_000 + self.below(1000);
        Act::Learns(self.id(), self.recipient(), self.decision(), decided)
    }

    fn message(&mut self, from: &'static str) -> Message {
        let (to, cc) = lists()[self.below(8) as usize];
        Message { from, to, cc }
    }

    fn id(&mut self) -> Id {
        (self.provider(), self.below(NUMBERS))
    }

    /// Alfa, mostly; a number that no provider has, at times.
    fn provider(&mut self) -> u32 {
        match self.below(16) {
            0..10 => 0,
            10..15 => 1,
            _ => 2,
        }
    }

    fn recipient(&mut self) -> &'static str {
        recipients()[self.below(8) as usize]
    }

    fn recipient_here(&mut self) -> &'static str {
        here()[self.below(8) as usize]
    }

    fn decision(&mut self) -> Decision {
        decisions()[self.below(5) as usize]
    }

    fn question(&mut self) -> Question {
        match self.below(5) {
            0 => Question::Row(self.id(), self.recipient()),
            1 => Question::Counted(self.recipient()),
            2 => Question::Own(self.below(NUMBERS)),
            3 => Question::Took(self.id()),
            _ => Question::Undecided,
        }
    }

    /// A question whose answer has many lines.
    fn long_question(&mut self) -> Question {
        match self.below(5) {
            0 => Question::Book(senders()[self.below(4) as usize]),
            1 => Question::Items(self.recipient()),
            2 => Question::Vault(self.recipient()),
            _ => Question::Due(self.provider(), 64),
        }
    }

    fn step(&mut self, number: u64) -> Step {
        if number % 256 == 255 {
            return Step::Ask(self.long_question());
        }
        if number % 4 == 3 {
            return Step::Ask(self.question());
        }
        // at times a moment is earlier than the last
        let moment = 1_704_186_001 + number / 8 - self.below(64) / 63;
        Step::Enter(moment, self.act())
    }
}

#[test]
fn entries_in_random_order_come_to_what_a_plain_list_says(rt: HostRuntime) {
    assert!(rt; is_same(rt.alloc()));
}

/// Whether a shelf and the list say the same of entries of which many are messages.
fn is_same(alloc: Global) -> bool {
    let mut log = Log::new(alloc);
    let mut lines = Log::new(alloc);
    let messages = match Desk::new(alloc, 0) {
        Some(mut desk) => messages_of(alloc, &mut desk, &mut log, &mut lines),
        None => 0,
    };
    messages >= 1000 && log.is_as(&lines)
}

/// Does the steps, and tells how many messages the list knows behind them.
fn messages_of(alloc: Global, desk: &mut Desk, log: &mut Log, lines: &mut Log) -> usize {
    let mut plain = Plain::new(alloc, 0);
    play(desk, log, &mut plain, lines);
    plain.messages()
}

fn play(desk: &mut Desk, log: &mut Log, plain: &mut Plain, lines: &mut Log) {
    let mut chance = Chance {
        state: 1_704_186_000,
    };
    let start = Step::Enter(1_704_186_000, Act::StartsTwo(0, two()));
    desk.step(log, &start);
    plain.play(lines, &start);
    for number in 0..STEPS {
        let step = chance.step(number);
        desk.step(log, &step);
        plain.play(lines, &step);
    }
}
