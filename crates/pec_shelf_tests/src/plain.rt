//! A second shelf, of a provider of the two providers' directory: a plain list of what happened, and loops over it. It
//! knows no clock calls, no refused messages and no anomalies.

use crate::lines::Log;
use crate::messages::{goes_to, home, is_account_of, is_named};
use crate::steps::{Act, Id, Message, Step};
use pec_types::{Decision, Refusal};
use std::alloc::Global;

/// An act that was a step.
#[derive(Clone, Copy)]
pub(crate) struct Done {
    pub(crate) moment: u64,
    pub(crate) act: Act,
}

/// A message of this provider, or one that was taken: by which entry, counted from 0, and when.
#[derive(Clone, Copy)]
pub(crate) struct Came {
    pub(crate) entry: u64,
    pub(crate) moment: u64,
    pub(crate) message: Message,
}

#[derive(Drop)]
pub(crate) struct Plain {
    pub(crate) alloc: Global,
    pub(crate) me: u32,
    pub(crate) done: Vec<Done>,
}

impl Plain {
    /// The list of a provider before its first entry.
    pub(crate) fn new(alloc: Global, me: u32) -> Plain {
        Plain {
            alloc,
            me,
            done: Vec::new(alloc),
        }
    }

    /// Does a step, and adds the lines that come of it.
    pub(crate) fn play(&mut self, log: &mut Log, step: &Step) {
        match *step {
            Step::Enter(moment, act) => self.enter(log, moment, act),
            Step::Ask(question) => self.answer(log, question),
        }
    }

    fn enter(&mut self, log: &mut Log, moment: u64, act: Act) {
        if !self.follows(moment, &act) {
            return log.put(b"not-a-step\n");
        }
        match self.done.push(Done { moment, act }) {
            Ok(()) => {}
            Err(_) => log.fail(),
        }
    }

    /// How many messages were accepted or taken.
    pub(crate) fn messages(&self) -> usize {
        let mut count = 0usize;
        for done in &self.done {
            if matches!(done.act, Act::Accepts(_, _) | Act::Takes(_, _)) {
                count = count.saturating_add(1);
            }
        }
        count
    }

    // What happened.

    /// This provider's message of a number.
    pub(crate) fn sent(&self, number: u64) -> Option<Came> {
        let mut count = 0u64;
        for (entry, done) in self.done.iter().enumerate() {
            let Act::Accepts(_, message) = done.act else {
                continue;
            };
            if count == number {
                return Some(coming(entry, done, message));
            }
            count = count.saturating_add(1);
        }
        None
    }

    pub(crate) fn taken(&self, id: Id) -> Option<Came> {
        for (entry, done) in self.done.iter().enumerate() {
            let Act::Takes(other, message) = done.act else {
                continue;
            };
            if is_same(id, other) {
                return Some(coming(entry, done, message));
            }
        }
        None
    }

    pub(crate) fn charged(&self, id: Id, by: u32) -> Option<u64> {
        for done in &self.done {
            let Act::Charges(other, provider) = done.act else {
                continue;
            };
            if is_same(id, other) && provider == by {
                return Some(done.moment);
            }
        }
        None
    }

    /// The decision that was learned on a pair, its moment, and when it was learned.
    pub(crate) fn known(&self, id: Id, recipient: &str) -> Option<(Decision, u64, u64)> {
        for done in &self.done {
            let Act::Learns(other, address, decision, decided) = done.act else {
                continue;
            };
            if is_same(id, other) && address == recipient {
                return Some((decision, decided, done.moment));
            }
        }
        None
    }

    pub(crate) fn decided(&self, id: Id, recipient: &str) -> Option<(Decision, u64)> {
        for done in &self.done {
            let Act::Decides(other, address, decision) = done.act else {
                continue;
            };
            if is_same(id, other) && address == recipient {
                return Some((decision, done.moment));
            }
        }
        None
    }

    pub(crate) fn is_acked(&self, id: Id, recipient: &str) -> bool {
        for done in &self.done {
            let Act::Acks(other, address) = done.act else {
                continue;
            };
            if is_same(id, other) && address == recipient {
                return true;
            }
        }
        false
    }

    // What may follow.

    fn follows(&self, moment: u64, act: &Act) -> bool {
        if moment < self.last() {
            return false;
        }
        match *act {
            Act::Starts(provider, _) | Act::StartsTwo(provider, _) => {
                self.done.is_empty() && provider == self.me
            }
            Act::Upgrades => self.version() == 1,
            Act::Archives(account, place) => self.may_archive(account, place),
            Act::Accepts(sender, message) => {
                is_account_of(self.me, sender) && sender == message.from
            }
            Act::Takes(id, message) => self.may_take(id, message),
            Act::Charges(id, by) => self.may_charge(id, by),
            Act::Learns(id, recipient, _, _) => self.may_learn(id, recipient),
            Act::Decides(id, recipient, decision) => self.may_decide(id, recipient, decision),
            Act::Acks(id, recipient) => self.may_ack(id, recipient),
            _ => false,
        }
    }

    fn last(&self) -> u64 {
        match self.done.last() {
            Some(done) => done.moment,
            None => 0,
        }
    }

    fn may_take(&self, id: Id, message: Message) -> bool {
        id.0 < 2 && self.taken(id).is_none() && goes_to(message, self.me)
    }

    fn may_charge(&self, id: Id, by: u32) -> bool {
        let Some(message) = self.own(id) else {
            return false;
        };
        goes_to(message, by) && self.charged(id, by).is_none()
    }

    fn may_learn(&self, id: Id, recipient: &str) -> bool {
        let Some(message) = self.own(id) else {
            return false;
        };
        is_named(message, recipient)
            && home(recipient).is_some()
            && self.known(id, recipient).is_none()
    }

    fn may_decide(&self, id: Id, recipient: &str, decision: Decision) -> bool {
        let Some(came) = self.taken(id) else {
            return false;
        };
        if !is_named(came.message, recipient) || home(recipient) != Some(self.me) {
            return false;
        }
        self.decided(id, recipient).is_none() && self.is_right(recipient, decision)
    }

    /// Whether this may be decided for a recipient: a virus for any account, and otherwise what is so.
    fn is_right(&self, recipient: &str, decision: Decision) -> bool {
        let account = is_account_of(self.me, recipient);
        let full = self.counted(recipient) >= 100;
        match decision {
            Decision::Placed => account && !full,
            Decision::Refused(Refusal::NoMailbox) => !account,
            Decision::Refused(Refusal::MailboxFull) => account && full,
            Decision::Refused(Refusal::Virus) => account,
        }
    }

    fn may_ack(&self, id: Id, recipient: &str) -> bool {
        self.decided(id, recipient).is_some() && !self.is_acked(id, recipient)
    }

    fn may_archive(&self, account: &str, place: u32) -> bool {
        self.version() == 2
            && is_account_of(self.me, account)
            && (place as usize) < self.boxes(account).mailbox.len()
    }

    /// This provider's message of an id.
    pub(crate) fn own(&self, id: Id) -> Option<Message> {
        if id.0 != self.me {
            return None;
        }
        let came = self.sent(id.1)?;
        Some(came.message)
    }
}

fn coming(entry: usize, done: &Done, message: Message) -> Came {
    Came {
        entry: entry as u64,
        moment: done.moment,
        message,
    }
}

fn is_same(id: Id, other: Id) -> bool {
    id.0 == other.0 && id.1 == other.1
}

/// Whether an act places a message with an account.
pub(crate) fn is_placed(done: &Done, account: &str) -> bool {
    match done.act {
        Act::Decides(_, recipient, Decision::Placed) => recipient == account,
        _ => false,
    }
}
