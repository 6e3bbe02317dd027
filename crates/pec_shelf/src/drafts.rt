ghost use Rattle.std.specs.Prelude.{◌≡◌, Some, IfOk};
ghost use Rattle.pec_types.specs.Bytes.{Path};
ghost use Rattle.pec_types.specs.declared.messages.Facts.{Facts as SomeFacts};
ghost use Rattle.pec_records.specs.declared.entries.Entry.TheVariants as entries;
ghost use Rattle.pec_ledger.specs.OfDirectory.{facts_in, recipients_named};
ghost use Rattle.pec_shelf.specs.Drafts.{facts_read, read_in};
ghost use Rattle.pec_shelf.specs.declared.drafts.Read.TheVariants as reads;

use crate::reading::{facts_in, recipients_named};
use pec_records::Entry;
use pec_types::{Address, Facts, Items, Moment, MsgId, NoMemory, Text8};
use std::alloc::Global;
use std::marker::Model;

/// An entry with what was read in its bytes. Contracts see the entry.
pub struct Draft {
    entry: Entry,
    read: Read,
}

/// What was read in the bytes of an entry: the facts of an accepted message, or the addresses that a taken one names.
#[derive(Drop)]
pub(crate) enum Read {
    Nothing,
    Facts(Facts),
    Named(Items<Address>),
}

impl Model for Draft {
    ghost use Rattle.std.specs.Prelude.{◌≡◌};
    ghost use Rattle.pec_records.specs.declared.entries.Entry.{Entry as SomeEntry};
    ghost use Rattle.pec_shelf.specs.Drafts.{read_in};

    ghost Value = { SomeEntry };

    ghost view = { λ draft. draft.entry };

    ghost invariant = { λ draft. draft.read ≡ read_in draft.entry };
}

// Written out, so that the drop of an entry is written here alone, and not wherever a draft is dropped.
impl Drop for Draft {
    fn drop(self) {
        let Draft { entry: _, read: _ } = self;
    }
}

impl Draft {
    /// A message that was accepted, with the facts that its head tells.
    pub fn accepted(moment: Moment, sender: Address, message: Text8, facts: Facts) -> Draft
        requires { facts_in message ≡ Some facts }
        ensures { result ≡ entries.Accepted moment sender message }
    {
        Draft {
            entry: Entry::Accepted {
                moment,
                sender,
                message,
            },
            read: Read::Facts(facts),
        }
    }

    /// An envelope that is taken in charge, with the addresses that its sealed message names.
    pub fn took(moment: Moment, id: MsgId, message: Text8, named: Vec<Address>) -> Draft
        requires { named.items ≡ recipients_named message }
        ensures { result ≡ entries.Took moment id message }
    {
        Draft {
            entry: Entry::Took {
                moment,
                id,
                message,
            },
            read: Read::Named(Items::of(named)),
        }
    }

    /// An entry in whose bytes nothing is read.
    pub fn plain(entry: Entry) -> Draft
        requires { read_in entry ≡ reads.Nothing }
        ensures { result ≡ entry }
    {
        Draft {
            entry,
            read: Read::Nothing,
        }
    }

    /// An entry, in whose bytes is read now.
    pub(crate) fn of(alloc: Global, entry: Entry) -> Result<Draft, NoMemory>
        ensures { IfOk result (λ draft. draft ≡ entry) }
    {
        let read = read_in(alloc, &entry)?;
        Ok(Draft { entry, read })
    }

    /// The entry.
    pub fn entry(&self) -> &Entry
        ensures { result.now ≡ self.now }
    {
        &self.entry
    }

    /// What was read.
    pub(crate) fn read(&self) -> &Read
        ensures { result.now ≡ read_in self.now }
    {
        &self.read
    }

    /// The facts that were read.
    pub(crate) fn facts(&self) -> &Facts
        requires { (facts : SomeFacts) × (read_in self.now ≡ reads.Facts facts) }
        ensures { read_in self.now ≡ reads.Facts result.now }
    {
        match &self.read {
            Read::Facts(facts) => facts,
            _ => unreachable!(),
        }
    }

    /// The addresses that were read.
    pub(crate) fn named(&self) -> &[Address]
        requires { (named : Path) × (read_in self.now ≡ reads.Named named) }
        ensures { read_in self.now ≡ reads.Named result.now }
    {
        match &self.read {
            Read::Named(named) => named.as_slice(),
            _ => unreachable!(),
        }
    }
}

fn read_in(alloc: Global, entry: &Entry) -> Result<Read, NoMemory>
    ensures { IfOk result (λ read. read ≡ read_in entry.now) }
{
    match entry {
        Entry::Accepted { message, .. } => read_facts(alloc, message.bytes()),
        Entry::Took { message, .. } => read_named(alloc, message.bytes()),
        _ => Ok(Read::Nothing),
    }
}

fn read_facts(alloc: Global, message: &[u8]) -> Result<Read, NoMemory>
    ensures { IfOk result (λ read. read ≡ facts_read (facts_in message.now)) }
{
    match facts_in(alloc, message)? {
        Some(facts) => Ok(Read::Facts(facts)),
        None => Ok(Read::Nothing),
    }
}

fn read_named(alloc: Global, message: &[u8]) -> Result<Read, NoMemory>
    ensures { IfOk result (λ read. read ≡ reads.Named (recipients_named message.now)) }
{
    let named = recipients_named(alloc, message)?;
    Ok(Read::Named(Items::of(named)))
}
