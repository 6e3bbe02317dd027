//! What a second shelf answers: the same lines as the shelf under test, by loops over its list.

use crate::lines::Log;
use crate::messages::{MOST, class, goes_to, home, is_named, recipient};
use crate::plain::{Came, Plain};
use crate::plain_boxes::Item;
use crate::steps::{Act, Id, Message, Question};

impl Plain {
    /// Adds the lines of an answer.
    pub(crate) fn answer(&self, log: &mut Log, question: Question) {
        match question {
            Question::Due(to, room) => self.add_due(log, to, room),
            Question::Book(account) => self.add_book(log, account),
            Question::Items(account) => self.add_items(log, account),
            Question::Vault(account) => self.add_vault(log, account),
            Question::Undecided => self.add_undecided(log),
            Question::Row(id, recipient) => self.add_row(log, id, recipient),
            Question::Counted(account) => log.add_found(Some(self.counted(account))),
            Question::Own(number) => log.add_found(entry_of(self.sent(number))),
            Question::Took(id) => log.add_found(entry_of(self.taken(id))),
            Question::Version => log.add_found(Some(self.version())),
            Question::Facts(_) | Question::Source(_, _) | Question::VaultSource(_, _) => {}
        }
    }

    /// Outcomes that nobody acknowledged, in order of decision, and then envelopes of which nothing was heard.
    fn add_due(&self, log: &mut Log, to: u32, room: usize) {
        let outcomes = self.add_outcomes(log, to, room);
        let count = self.add_envelopes(log, to, room, outcomes);
        log.add(b"due");
        log.add_number(count as u64);
        log.end();
    }

    /// How many outcomes there are, at most so many.
    fn add_outcomes(&self, log: &mut Log, to: u32, room: usize) -> usize {
        let mut count = 0usize;
        for done in &self.done {
            let Act::Decides(id, recipient, _) = done.act else {
                continue;
            };
            if count < room && id.0 == to && !self.is_acked(id, recipient) {
                self.add_pair_line(log, b"outcome", id, recipient);
                count = count.saturating_add(1);
            }
        }
        count
    }

    /// How many letters there are together with the envelopes, at most so many.
    fn add_envelopes(&self, log: &mut Log, to: u32, room: usize, before: usize) -> usize {
        let mut count = before;
        for number in 0..self.done.len() as u64 {
            if count < room && self.is_unheard((self.me, number), to) {
                log.add(b"envelope");
                self.add_id(log, (self.me, number));
                log.add_number(u64::from(to));
                log.end();
                count = count.saturating_add(1);
            }
        }
        count
    }

    /// Whether a message goes to a provider of which neither a charge nor an outcome came.
    fn is_unheard(&self, id: Id, to: u32) -> bool {
        let Some(message) = self.own(id) else {
            return false;
        };
        goes_to(message, to) && self.charged(id, to).is_none() && !self.is_answered(id, message, to)
    }

    fn is_answered(&self, id: Id, message: Message, to: u32) -> bool {
        for place in 0..MOST {
            let Some(address) = recipient(message, place) else {
                return false;
            };
            if home(address) == Some(to) && self.known(id, address).is_some() {
                return true;
            }
        }
        false
    }

    fn add_undecided(&self, log: &mut Log) {
        for done in &self.done {
            let Act::Takes(id, message) = done.act else {
                continue;
            };
            if let Some(address) = self.undecided(id, message) {
                self.add_id(log, id);
                log.add(address.as_bytes());
                return log.end();
            }
        }
        log.add_nothing();
    }

    /// The first recipient here of a message for whom nothing is decided.
    fn undecided(&self, id: Id, message: Message) -> Option<&'static str> {
        for place in 0..MOST {
            let address = recipient(message, place)?;
            if home(address) == Some(self.me) && self.decided(id, address).is_none() {
                return Some(address);
            }
        }
        None
    }

    fn add_row(&self, log: &mut Log, id: Id, recipient: &str) {
        let sent = self.sent_here(id, recipient);
        let taken = self.taken_here(id, recipient);
        if sent.is_none() && taken.is_none() {
            return log.add_nothing();
        }
        self.add_sent(log, sent, id, recipient);
        log.add(b"/");
        self.add_taken(log, taken, id, recipient);
        log.end();
    }

    /// When a pair of this provider's own messages was accepted.
    fn sent_here(&self, id: Id, recipient: &str) -> Option<u64> {
        if id.0 != self.me || home(recipient).is_none() {
            return None;
        }
        let came = self.sent(id.1)?;
        if !is_named(came.message, recipient) {
            return None;
        }
        Some(came.moment)
    }

    /// When a pair was taken here.
    fn taken_here(&self, id: Id, recipient: &str) -> Option<u64> {
        if home(recipient) != Some(self.me) {
            return None;
        }
        let came = self.taken(id)?;
        if !is_named(came.message, recipient) {
            return None;
        }
        Some(came.moment)
    }

    fn add_sent(&self, log: &mut Log, sent: Option<u64>, id: Id, recipient: &str) {
        if sent.is_none() {
            return log.add(b"- - - - -");
        }
        log.add_moment(sent);
        log.add_moment(self.heard(id, recipient));
        log.add(b"- -");
        let Some((decision, decided, learned)) = self.known(id, recipient) else {
            return log.add(b"-");
        };
        log.add(decision.word());
        log.add_moment(Some(decided));
        log.add_moment(Some(learned));
    }

    fn add_taken(&self, log: &mut Log, taken: Option<u64>, id: Id, recipient: &str) {
        if taken.is_none() {
            return log.add(b"- -");
        }
        log.add_moment(taken);
        let Some((decision, moment)) = self.decided(id, recipient) else {
            return log.add(b"-");
        };
        log.add(decision.word());
        log.add_moment(Some(moment));
        if self.is_acked(id, recipient) {
            log.add(b"acked");
        }
    }

    /// When the recipient's provider took charge of a message.
    fn heard(&self, id: Id, recipient: &str) -> Option<u64> {
        let by = home(recipient)?;
        self.charged(id, by)
    }

    /// A line for each message of an account and each certified recipient.
    fn add_book(&self, log: &mut Log, account: &str) {
        let mut count = 0u64;
        for number in 0..self.done.len() as u64 {
            let Some(came) = self.sent(number) else {
                break;
            };
            if came.message.from == account {
                let lines = self.add_lines(log, (self.me, number), came);
                count = count.saturating_add(lines);
            }
        }
        log.add(b"book");
        log.add_number(count);
        log.end();
    }

    /// The lines of a message, and how many they are.
    fn add_lines(&self, log: &mut Log, id: Id, came: Came) -> u64 {
        let mut lines = 0u64;
        for place in 0..MOST {
            let Some(address) = recipient(came.message, place) else {
                break;
            };
            if home(address).is_some() {
                self.add_line(log, id, came, place, address);
                lines = lines.saturating_add(1);
            }
        }
        lines
    }

    fn add_line(&self, log: &mut Log, id: Id, came: Came, place: usize, address: &str) {
        self.add_id(log, id);
        log.add(address.as_bytes());
        log.add(class(came.message, place).as_bytes());
        log.add_moment(Some(came.moment));
        log.add_moment(self.heard(id, address));
        log.add(b"- -");
        match self.known(id, address) {
            Some((decision, decided, _)) => {
                log.add(decision.word());
                log.add_moment(Some(decided));
            }
            None => log.add(b"open"),
        }
        log.end();
    }

    /// The items of an account's mailbox, in order of placing.
    fn add_items(&self, log: &mut Log, account: &str) {
        let boxes = self.boxes(account);
        self.add_box(log, &boxes.mailbox);
        log.add(b"mailbox");
        log.add_number(boxes.mailbox.len() as u64);
        log.end();
    }

    /// The items of its archive, in the order in which they were moved there.
    fn add_vault(&self, log: &mut Log, account: &str) {
        let boxes = self.boxes(account);
        self.add_box(log, &boxes.vault);
        log.add(b"vault");
        log.add_number(boxes.vault.len() as u64);
        log.end();
    }

    fn add_box(&self, log: &mut Log, items: &[Item]) {
        for (place, item) in items.iter().enumerate() {
            log.add_number(place as u64);
            self.add_pair_line(log, item.kind.as_bytes(), item.id, item.recipient);
        }
    }

    fn add_pair_line(&self, log: &mut Log, kind: &[u8], id: Id, recipient: &str) {
        log.add(kind);
        self.add_id(log, id);
        log.add(recipient.as_bytes());
        log.end();
    }

    /// The name of a message: its number in at least seven digits, and its provider's domain.
    fn add_id(&self, log: &mut Log, id: Id) {
        log.put(b"pec.");
        match id.1.to_string(self.alloc) {
            Ok(digits) => put_seven(log, digits.as_bytes()),
            Err(_) => log.fail(),
        }
        log.add(domain(id.0));
    }
}

/// Adds digits, with zeros in front where they are fewer than seven.
fn put_seven(log: &mut Log, digits: &[u8]) {
    for _ in digits.len()..7 {
        log.put(b"0");
    }
    log.put(digits);
}

fn domain(provider: u32) -> &'static [u8] {
    if provider == 0 {
        return b"@alfa.example";
    }
    b"@beta.example"
}

fn entry_of(came: Option<Came>) -> Option<u64> {
    match came {
        Some(came) => Some(came.entry),
        None => None,
    }
}
