//! The mailboxes and archives of a second shelf: what happened is gone through from its beginning on, and each item is
//! placed and moved in its turn.

use crate::plain::{Done, Plain, is_placed};
use crate::steps::{Act, Id};
use pec_types::Decision;

/// An item, in the words of its line.
#[derive(Clone, Copy)]
pub(crate) struct Item {
    pub(crate) kind: &'static str,
    pub(crate) id: Id,
    pub(crate) recipient: &'static str,
}

/// The items of an account.
#[derive(Drop)]
pub(crate) struct Boxes {
    pub(crate) mailbox: Vec<Item>,
    pub(crate) vault: Vec<Item>,
}

impl Boxes {
    fn place(&mut self, item: Option<Item>) {
        if let Some(item) = item {
            let _ = self.mailbox.push(item);
        }
    }

    /// Moves the item at a place, where there is one.
    fn archive(&mut self, place: usize) {
        if place < self.mailbox.len() {
            let item = self.mailbox.remove(place);
            let _ = self.vault.push(item);
        }
    }
}

impl Plain {
    /// Both boxes of an account.
    pub(crate) fn boxes(&self, account: &str) -> Boxes {
        let mut boxes = Boxes {
            mailbox: Vec::new(self.alloc),
            vault: Vec::new(self.alloc),
        };
        let mut number = 0u64;
        for done in &self.done {
            match done.act {
                Act::Archives(owner, place) if owner == account => boxes.archive(place as usize),
                _ => boxes.place(self.placed(done, account, number)),
            }
            if matches!(done.act, Act::Accepts(_, _)) {
                number = number.saturating_add(1);
            }
        }
        boxes
    }

    /// The item that an act placed with an account, where it placed one; `number` is that of the next own message.
    fn placed(&self, done: &Done, account: &str, number: u64) -> Option<Item> {
        match done.act {
            Act::Accepts(sender, _) if sender == account => Some(Item {
                kind: "acceptance",
                id: (self.me, number),
                recipient: "-",
            }),
            Act::Learns(id, recipient, decision, _) if self.is_by(id, account) => Some(Item {
                kind: kind(decision),
                id,
                recipient,
            }),
            Act::Decides(id, _, _) if is_placed(done, account) => Some(Item {
                kind: "envelope",
                id,
                recipient: "-",
            }),
            _ => None,
        }
    }

    fn is_by(&self, id: Id, account: &str) -> bool {
        match self.own(id) {
            Some(message) => message.from == account,
            None => false,
        }
    }

    /// How many messages stand in an account's mailbox.
    pub(crate) fn counted(&self, account: &str) -> u64 {
        let mut count = 0u64;
        for item in &self.boxes(account).mailbox {
            if item.kind == "envelope" {
                count = count.saturating_add(1);
            }
        }
        count
    }

    /// The version of the journal; 0 before its first entry.
    pub(crate) fn version(&self) -> u64 {
        let mut version = 0;
        for done in &self.done {
            match done.act {
                Act::Starts(_, _) => version = 1,
                Act::StartsTwo(_, _) | Act::Upgrades => version = 2,
                _ => {}
            }
        }
        version
    }
}

fn kind(decision: Decision) -> &'static str {
    match decision {
        Decision::Placed => "delivery",
        Decision::Refused(_) => "delivery-error",
    }
}
