//! What a test does with a shelf, and the entries that are meant.

use pec_directory::Directory;
use pec_records::Entry;
use pec_types::{Address, Cause, Decision, Items, MESSAGES, Moment, MsgId, Text8};
use std::alloc::Global;

/// An entry that is prepared and committed, or something that is asked.
#[derive(Clone, Copy)]
pub(crate) enum Step {
    /// At a moment, in seconds.
    Enter(u64, Act),
    Ask(Question),
}

/// A message by its provider and its number there.
pub(crate) type Id = (u32, u64);

/// A message by who is named in its head. Lists of addresses have a comma between two.
#[derive(Clone, Copy)]
pub(crate) struct Message {
    pub(crate) from: &'static str,
    pub(crate) to: &'static str,
    pub(crate) cc: &'static str,
}

/// What an entry says. Lists of addresses have a comma between two.
#[derive(Clone, Copy)]
pub(crate) enum Act {
    /// The first entry of a provider, with the digest of this directory.
    Starts(u32, &'static str),
    Accepts(&'static str, Message),
    Refuses(&'static str, Cause, &'static str),
    Takes(Id, Message),
    Decides(Id, &'static str, Decision),
    Charges(Id, u32),
    /// With the moment of the decision.
    Learns(Id, &'static str, Decision, u64),
    Acks(Id, &'static str),
    Ticks,
    Anomaly(&'static str),
    /// The same as `Starts`, of a journal of version 2.
    StartsTwo(u32, &'static str),
    Upgrades,
    /// The item at a place of an account's mailbox, from 0, goes to its archive.
    Archives(&'static str, u32),
}

#[derive(Clone, Copy)]
pub(crate) enum Question {
    /// What is due to a provider, and for how many letters there is room.
    Due(u32, usize),
    Book(&'static str),
    Items(&'static str),
    Undecided,
    Facts(u64),
    Row(Id, &'static str),
    Counted(&'static str),
    Own(u64),
    Took(Id),
    Source(&'static str, u32),
    Vault(&'static str),
    VaultSource(&'static str, u32),
    Version,
}

/// The entry that an act at a moment stands for: none where something that it names isn't so, or for want of memory.
pub(crate) fn entry_of(alloc: Global, seconds: u64, act: &Act) -> Option<Entry> {
    let moment = Moment::new(seconds)?;
    match *act {
        Act::Starts(provider, directory) => start(alloc, provider, directory),
        Act::Accepts(sender, message) => accepted(alloc, moment, sender, message),
        Act::Refuses(sender, cause, path) => refused(alloc, moment, sender, cause, path),
        Act::Takes(id, message) => took(alloc, moment, id, message),
        Act::Decides(id, recipient, decision) => decided(alloc, moment, id, recipient, decision),
        Act::Charges(id, by) => charged(moment, id, by),
        Act::Learns(id, recipient, decision, at) => {
            learned(alloc, moment, id, recipient, decision, at)
        }
        Act::Acks(id, recipient) => acked(alloc, moment, id, recipient),
        Act::Ticks => Some(Entry::Ticked { moment }),
        Act::Anomaly(accounts) => anomaly(alloc, moment, accounts),
        Act::StartsTwo(provider, directory) => start_two(alloc, provider, directory),
        Act::Upgrades => Some(Entry::Upgraded { moment }),
        Act::Archives(account, place) => archived(alloc, moment, account, place),
    }
}

fn start(alloc: Global, provider: u32, directory: &str) -> Option<Entry> {
    let digest = digest(alloc, directory)?;
    Some(Entry::Start { provider, digest })
}

fn start_two(alloc: Global, provider: u32, directory: &str) -> Option<Entry> {
    let digest = digest(alloc, directory)?;
    Some(Entry::StartTwo { provider, digest })
}

fn archived(alloc: Global, moment: Moment, account: &str, place: u32) -> Option<Entry> {
    let account = address_of(alloc, account)?;
    Some(Entry::Archived {
        moment,
        account,
        place,
    })
}

fn digest(alloc: Global, directory: &str) -> Option<[u8; 32]> {
    match Directory::read(alloc, directory) {
        Ok(directory) => digest_of(alloc, &directory),
        Err(_) => None,
    }
}

fn digest_of(alloc: Global, directory: &Directory) -> Option<[u8; 32]> {
    match directory.digest(alloc) {
        Ok(digest) => Some(digest),
        Err(_) => None,
    }
}

fn accepted(alloc: Global, moment: Moment, sender: &str, message: Message) -> Option<Entry> {
    match (address_of(alloc, sender), text_of(alloc, message)) {
        (Some(sender), Some(message)) => Some(Entry::Accepted {
            moment,
            sender,
            message,
        }),
        _ => None,
    }
}

fn refused(alloc: Global, moment: Moment, sender: &str, cause: Cause, path: &str) -> Option<Entry> {
    match (address_of(alloc, sender), addresses_of(alloc, path)) {
        (Some(sender), Some(path)) => Some(Entry::NotAccepted {
            moment,
            sender,
            cause,
            path,
            message: Text8::of(Vec::new(alloc)),
        }),
        _ => None,
    }
}

fn took(alloc: Global, moment: Moment, id: Id, message: Message) -> Option<Entry> {
    let id = id_of(id)?;
    let message = text_of(alloc, message)?;
    Some(Entry::Took {
        moment,
        id,
        message,
    })
}

fn decided(
    alloc: Global,
    moment: Moment,
    id: Id,
    recipient: &str,
    decision: Decision,
) -> Option<Entry> {
    let id = id_of(id)?;
    let recipient = address_of(alloc, recipient)?;
    Some(Entry::Decided {
        moment,
        id,
        recipient,
        decision,
    })
}

fn charged(moment: Moment, id: Id, by: u32) -> Option<Entry> {
    let id = id_of(id)?;
    Some(Entry::Charged { moment, id, by })
}

fn learned(
    alloc: Global,
    moment: Moment,
    id: Id,
    recipient: &str,
    decision: Decision,
    decided: u64,
) -> Option<Entry> {
    let id = id_of(id)?;
    let decided = Moment::new(decided)?;
    let recipient = address_of(alloc, recipient)?;
    Some(Entry::Learned {
        moment,
        id,
        recipient,
        decision,
        decided,
        message: Text8::of(Vec::new(alloc)),
    })
}

fn acked(alloc: Global, moment: Moment, id: Id, recipient: &str) -> Option<Entry> {
    let id = id_of(id)?;
    let recipient = address_of(alloc, recipient)?;
    Some(Entry::Acked {
        moment,
        id,
        recipient,
    })
}

fn anomaly(alloc: Global, moment: Moment, accounts: &str) -> Option<Entry> {
    let accounts = addresses_of(alloc, accounts)?;
    Some(Entry::Anomaly {
        moment,
        accounts,
        message: Text8::of(Vec::new(alloc)),
    })
}

/// The bytes of a message, or of the envelope that has its fields.
fn text_of(alloc: Global, message: Message) -> Option<Text8> {
    let mut text = Vec::new(alloc);
    let is_whole = add_field(&mut text, "From: ", message.from)
        && add_field(&mut text, "To: ", message.to)
        && add_field(&mut text, "Cc: ", message.cc)
        && text.extend_from_slice(b"\r\n").is_ok();
    if is_whole {
        return Some(Text8::of(text));
    }
    None
}

/// Adds a field, where it has a value; tells whether there was memory for it.
fn add_field(text: &mut Vec<u8>, name: &str, value: &str) -> bool {
    value.is_empty()
        || text.extend_from_slice(name.as_bytes()).is_ok()
            && text.extend_from_slice(value.as_bytes()).is_ok()
            && text.extend_from_slice(b"\r\n").is_ok()
}

/// The addresses of a list; none where it is empty.
fn addresses_of(alloc: Global, list: &str) -> Option<Items<Address>> {
    let mut addresses = Vec::new(alloc);
    if !list.is_empty() && !add_addresses(alloc, &mut addresses, list) {
        return None;
    }
    Some(Items::of(addresses))
}

/// Adds the addresses of a list; tells whether all of them are some, and there was memory for them.
fn add_addresses(alloc: Global, addresses: &mut Vec<Address>, list: &str) -> bool {
    for text in list.split(',') {
        if !add_address(alloc, addresses, text) {
            return false;
        }
    }
    true
}

fn add_address(alloc: Global, addresses: &mut Vec<Address>, text: &str) -> bool {
    match address_of(alloc, text) {
        Some(address) => addresses.push(address).is_ok(),
        None => false,
    }
}

pub(crate) fn address_of(alloc: Global, text: &str) -> Option<Address> {
    match Address::read(alloc, text.as_bytes()) {
        Ok(address) => Some(address),
        Err(_) => None,
    }
}

pub(crate) fn id_of(id: Id) -> Option<MsgId> {
    let (provider, number) = id;
    if number >= MESSAGES {
        return None;
    }
    Some(MsgId { provider, number })
}
