ghost use Rattle.std.specs.Prelude.{◌≡◌, ℕ, ◌+◌, List, [], ◌∷◌, ◌++◌, IfOk, IfSome, OnOk, Option, Some, codes, decimal, map, option_map};
ghost use Rattle.pec_directory.specs.Directory.{first_domain, providers_of};
ghost use Rattle.pec_letters.specs.Anomalies.{anomaly_name};
ghost use Rattle.pec_ledger.specs.Half.{Half};
ghost use Rattle.pec_ledger.specs.Lookups.{addresses_of, at_home, taken_of};
ghost use Rattle.pec_ledger.specs.OfDirectory.{IsOf};
ghost use Rattle.pec_ledger.specs.Pairs.{id_of};
ghost use Rattle.pec_ledger.specs.Trade.{Trade};
ghost use Rattle.pec_provider.specs.OfTrades.{refused_facts};
ghost use Rattle.pec_provider.specs.Telling.{recipients_taken};
ghost use Rattle.pec_extract.specs.LogRows.{about, bare, id_word, next_message, name_word, original_in, recipients_in, spaced, submits, told_with, wish_in};

use crate::told::{Told, about, bare};
use crate::words::{addresses, copied, id_word, spaced};
use itoa::Buffer;
use pec_directory::Directory;
use pec_letters::anomaly_name;
use pec_provider::refused_facts;
use pec_records::Entry;
use pec_types::{Address, Facts, MESSAGES, MsgId, NoMemory, id_text};
use std::alloc::Global;

/// How many messages were submitted by an entry.
pub(crate) fn submits(entry: &Entry) -> u64
    ensures { result ≡ submits entry.now }
{
    match entry {
        Entry::Accepted { .. } => 1,
        Entry::NotAccepted { .. } => 1,
        _ => 0,
    }
}

/// The message of whose original, in the envelope that was taken here, the row of an entry tells the facts.
pub(crate) fn original_in(entry: &Entry) -> Option<MsgId>
    ensures { result ≡ original_in entry.now }
{
    match entry {
        Entry::Took { id, .. } => Some(*id),
        Entry::Decided { id, .. } => Some(*id),
        Entry::Acked { id, .. } => Some(*id),
        _ => None,
    }
}

/// The next message that is submitted, of as many as a provider numbers.
pub(crate) fn next_message(me: u32, submitted: u64) -> Option<MsgId>
    ensures { result ≡ next_message me submitted }
{
    if submitted < MESSAGES {
        Some(MsgId {
            provider: me,
            number: submitted,
        })
    } else {
        None
    }
}

/// What of a row is told beside its entry: the directory, whose journal it is, the number of the entry, from 0, how many
/// messages were submitted before it, the facts that it tells, and for whom the message was taken.
#[derive(Drop)]
pub(crate) struct Beside<'a> {
    pub(crate) directory: &'a Directory,
    pub(crate) me: u32,
    pub(crate) number: u64,
    pub(crate) submitted: u64,
    pub(crate) facts: Option<&'a Facts>,
    pub(crate) taken: &'a [Address],
}

/// What the row of an entry says. The beginning of a journal has no row.
pub(crate) fn told_with(
    alloc: Global,
    beside: &Beside<'_>,
    entry: &Entry,
) -> Result<Option<Told>, NoMemory>
    ensures { (trade : Trade) (half : Half) → IsOf beside.now.directory.now trade
        → IfSome (original_in entry.now) (λ id. beside.now.taken.now ≡ recipients_taken (taken_of half id))
        → IfOk result (λ told. told ≡ told_with trade (providers_of beside.now.directory.now) beside.now.me half
        beside.now.number beside.now.submitted (option_map (λ facts. facts.now) beside.now.facts) entry.now) }
{
    match entry {
        Entry::Start { .. } => Ok(None),
        Entry::StartTwo { .. } => Ok(None),
        Entry::Accepted { .. } => Ok(Some(accepted(alloc, beside)?)),
        Entry::NotAccepted {
            sender,
            cause,
            path,
            message,
            ..
        } => Ok(Some(not_accepted(
            alloc,
            beside,
            sender,
            cause.word(),
            path.as_slice(),
            message.bytes(),
        )?)),
        Entry::Took { id, .. } => Ok(Some(took(alloc, beside, *id)?)),
        Entry::Decided {
            id,
            recipient,
            decision,
            ..
        } => Ok(Some(of_recipient(alloc, beside, b"decided", *id, recipient, decision.word())?)),
        Entry::Charged { id, by, .. } => Ok(Some(charged(alloc, beside, *id, *by)?)),
        Entry::Learned {
            id,
            recipient,
            decision,
            ..
        } => Ok(Some(of_recipient(alloc, beside, b"learned", *id, recipient, decision.word())?)),
        Entry::Acked { id, recipient, .. } => {
            Ok(Some(of_recipient(alloc, beside, b"acked", *id, recipient, b"")?))
        }
        Entry::Ticked { .. } => Ok(Some(alone(alloc, b"ticked"))),
        Entry::Upgraded { .. } => Ok(Some(alone(alloc, b"upgraded"))),
        Entry::Anomaly { accounts, .. } => Ok(Some(anomaly(alloc, beside, accounts.as_slice())?)),
        Entry::Archived { account, place, .. } => Ok(Some(archived(alloc, account, *place)?)),
    }
}

/// A message was accepted, for all of its recipients.
fn accepted(alloc: Global, beside: &Beside<'_>) -> Result<Told, NoMemory>
    ensures { IfOk result (λ told. told ≡ about (codes "accepted")
        (id_word (providers_of beside.now.directory.now) (id_of beside.now.me beside.now.submitted))
        (option_map (λ facts. facts.now) beside.now.facts)
        (spaced (recipients_in (option_map (λ facts. facts.now) beside.now.facts)))
        (wish_in (option_map (λ facts. facts.now) beside.now.facts))) }
{
    let recipients = recipients_in(alloc, beside.facts)?;
    let detail = wish_in(alloc, beside.facts)?;
    about(
        alloc,
        b"accepted",
        own_word(alloc, beside)?,
        beside.facts,
        spaced(alloc, &recipients)?,
        detail,
    )
}

/// The name of the message that was submitted by the entry.
fn own_word(alloc: Global, beside: &Beside<'_>) -> Result<Vec<u8>, NoMemory>
    ensures { IfOk result (λ text. text.items
        ≡ id_word (providers_of beside.now.directory.now) (id_of beside.now.me beside.now.submitted)) }
{
    id_text(
        alloc,
        beside.directory.first_domain(beside.me),
        beside.submitted,
    )
}

/// A message was not accepted from an account, along a path, for a cause.
fn not_accepted(
    alloc: Global,
    beside: &Beside<'_>,
    account: &Address,
    cause: &[u8],
    path: &[Address],
    message: &[u8],
) -> Result<Told, NoMemory>
    ensures { IfOk result (λ told. told ≡ about (codes "not-accepted")
        (id_word (providers_of beside.now.directory.now) (id_of beside.now.me beside.now.submitted))
        (Some (refused_facts account.now path.now message.now))
        (spaced (addresses_of (refused_facts account.now path.now message.now)))
        cause.now) }
{
    let facts = refused_facts(alloc, account, path, message)?;
    let recipients = recipients_in(alloc, Some(&facts))?;
    about(
        alloc,
        b"not-accepted",
        own_word(alloc, beside)?,
        Some(&facts),
        spaced(alloc, &recipients)?,
        copied(alloc, cause)?,
    )
}

/// A message was taken.
fn took(alloc: Global, beside: &Beside<'_>, id: MsgId) -> Result<Told, NoMemory>
    ensures { IfOk result (λ told. told ≡ about (codes "took") (id_word (providers_of beside.now.directory.now) id)
        (option_map (λ facts. facts.now) beside.now.facts) (spaced beside.now.taken.now) []) }
{
    let recipients = spaced(alloc, beside.taken)?;
    about(
        alloc,
        b"took",
        id_word(alloc, beside.directory, id)?,
        beside.facts,
        recipients,
        Vec::new(alloc),
    )
}

/// Something came of a message at one recipient.
fn of_recipient(
    alloc: Global,
    beside: &Beside<'_>,
    event: &'static [u8],
    id: MsgId,
    recipient: &Address,
    detail: &[u8],
) -> Result<Told, NoMemory>
    ensures { IfOk result (λ told. told ≡ about event.now (id_word (providers_of beside.now.directory.now) id)
        (option_map (λ facts. facts.now) beside.now.facts) recipient.now detail.now) }
{
    let recipient = copied(alloc, recipient.bytes())?;
    about(
        alloc,
        event,
        id_word(alloc, beside.directory, id)?,
        beside.facts,
        recipient,
        copied(alloc, detail)?,
    )
}

/// A provider took charge of a message for those of its recipients that are at home there.
fn charged(alloc: Global, beside: &Beside<'_>, id: MsgId, by: u32) -> Result<Told, NoMemory>
    ensures { (trade : Trade) → IsOf beside.now.directory.now trade → IfOk result (λ told. told ≡ about (codes "charged")
        (id_word (providers_of beside.now.directory.now) id) (option_map (λ facts. facts.now) beside.now.facts)
        (spaced (at_home trade by (recipients_in (option_map (λ facts. facts.now) beside.now.facts))))
        (name_word (providers_of beside.now.directory.now) by)) }
{
    let recipients = recipients_in(alloc, beside.facts)?;
    let recipients = at_home(alloc, beside.directory, by, &recipients)?;
    about(
        alloc,
        b"charged",
        id_word(alloc, beside.directory, id)?,
        beside.facts,
        spaced(alloc, &recipients)?,
        name_word(alloc, beside.directory, by)?,
    )
}

/// Something that no provider could have sent was put into these accounts.
fn anomaly(alloc: Global, beside: &Beside<'_>, accounts: &[Address]) -> Result<Told, NoMemory>
    ensures { IfOk result (λ told. told ≡ bare (codes "anomaly") (spaced accounts.now)
        (anomaly_name (first_domain (providers_of beside.now.directory.now) beside.now.me) beside.now.number)) }
{
    let recipients = spaced(alloc, accounts)?;
    let name = anomaly_name(
        alloc,
        beside.directory.first_domain(beside.me),
        beside.number,
    )?;
    Ok(bare(alloc, b"anomaly", recipients, name))
}

/// The item at a place of an account's mailbox was moved into its archive.
fn archived(alloc: Global, account: &Address, place: u32) -> Result<Told, NoMemory>
    ensures { IfOk result (λ told. told ≡ bare (codes "archived") account.now (decimal place)) }
{
    let recipients = copied(alloc, account.bytes())?;
    let mut digits = Buffer::new();
    let detail = copied(alloc, digits.format(place).as_bytes())?;
    Ok(bare(alloc, b"archived", recipients, detail))
}

/// An event that is of nobody.
fn alone(alloc: Global, event: &'static [u8]) -> Told
    ensures { result ≡ bare event.now [] [] }
{
    bare(alloc, event, Vec::new(alloc), Vec::new(alloc))
}

/// The addresses of a message's recipients.
fn recipients_in(alloc: Global, facts: Option<&Facts>) -> Result<Vec<Address>, NoMemory>
    ensures { IfOk result (λ recipients. recipients.items
        ≡ recipients_in (option_map (λ facts. facts.now) facts.entry)) }
{
    match facts {
        Some(facts) => addresses(alloc, facts.recipients.as_slice()),
        None => Ok(Vec::new(alloc)),
    }
}

/// The word of a message's wish.
fn wish_in(alloc: Global, facts: Option<&Facts>) -> Result<Vec<u8>, NoMemory>
    ensures { IfOk result (λ word. word.items ≡ wish_in (option_map (λ facts. facts.now) facts.entry)) }
{
    match facts {
        Some(facts) => copied(alloc, facts.wish.word()),
        None => Ok(Vec::new(alloc)),
    }
}

/// The name of a provider.
pub(crate) fn name_word(
    alloc: Global,
    directory: &Directory,
    number: u32,
) -> Result<Vec<u8>, NoMemory>
    ensures { IfOk result (λ word. word.items ≡ name_word (providers_of directory.now) number) }
{
    match directory.provider(number) {
        Some(provider) => copied(alloc, provider.name().bytes()),
        None => Ok(Vec::new(alloc)),
    }
}

/// Those of the addresses that are at home at a provider.
fn at_home(
    alloc: Global,
    directory: &Directory,
    provider: u32,
    addresses: &[Address],
) -> Result<Vec<Address>, NoMemory>
    ensures { (trade : Trade) → IsOf directory.now trade → IfOk result (λ home. home.items
        ≡ at_home trade provider addresses.now) }
{
    let mut home = Vec::new(alloc);
    for address in addresses {
        push_at_home(alloc, directory, provider, &mut home, address)?;
    }
    Ok(home)
}

/// Puts an address behind others, where it is at home at a provider.
fn push_at_home(
    alloc: Global,
    directory: &Directory,
    provider: u32,
    home: &mut Vec<Address>,
    address: &Address,
) -> Result<(), NoMemory>
    ensures { (trade : Trade) → IsOf directory.now trade
        → OnOk result (home.new.items ≡ home.old.items ++ at_home trade provider (address.now ∷ [])) }
{
    if directory.home_of(address) == Some(provider) {
        home.push(address.copy(alloc)?)?;
    }
    Ok(())
}
