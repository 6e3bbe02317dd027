ghost use Rattle.std.specs.Prelude.{◌≡◌, ◌++◌, ◌∷◌, [], ◌<◌, ◌^◌, length, IfOk, OnOk};
ghost use Rattle.std.specs.List.{flat_map, AllByRecursion};
ghost use Rattle.pec_types.specs.Address.{IsLowerAddress};
ghost use Rattle.pec_records.specs.Entry.{number_16, number_32, number_64, address_field, bytes_field, addresses_field};
ghost use Rattle.pec_records.specs.Entry.{id_field, decision_field, entry_text, IsMoment, IsId};
ghost use Rattle.pec_records.specs.Entry.{CanBeCounted, AreAddresses, CanBeWritten, IsEntry, HasCounts};
ghost use Rattle.pec_records.specs.declared.entries.Entry.TheVariants as entries;

use crate::entries::Entry;
use pec_types::{Address, Cause, Decision, Items, Moment, MsgId, NoMemory, Refusal, Text8};
use std::alloc::{AllocError, Global};

/// The bytes of an entry, in this project's own format. Each list in it, of bytes too, has fewer than 4,294,967,296
/// items. Room is made for all bytes at once, and each is written once.
pub fn encode(alloc: Global, entry: &Entry) -> Result<Vec<u8>, NoMemory>
    requires { HasCounts entry.now }
    ensures { IfOk result (λ bytes. IsEntry entry.now bytes.items) }
{
    let mut out = Vec::with_capacity(alloc, room_for(entry))?;
    put_entry(&mut out, entry)?;
    Ok(out)
}

/// How much room is made for an entry's bytes: an address takes 256 at most, and what is neither in a list nor in a
/// message 290. A wrong guess would cost time alone.
fn room_for(entry: &Entry) -> usize {
    let (addresses, bytes) = match entry {
        Entry::NotAccepted { path, message, .. } => (path.as_slice().len(), message.bytes().len()),
        Entry::Anomaly {
            accounts,
            message,
            ..
        } => (accounts.as_slice().len(), message.bytes().len()),
        Entry::Accepted { message, .. } => (0, message.bytes().len()),
        Entry::Took { message, .. } => (0, message.bytes().len()),
        Entry::Learned { message, .. } => (0, message.bytes().len()),
        _ => (0, 0),
    };
    addresses
        .saturating_mul(256)
        .saturating_add(bytes)
        .saturating_add(290)
}

fn put_entry(out: &mut Vec<u8>, entry: &Entry) -> Result<(), AllocError>
    requires { HasCounts entry.now }
    ensures puts { OnOk result (out.new.items ≡ out.old.items ++ entry_text entry.now) }
    ensures can { OnOk result (CanBeWritten entry.now) }
{
    match entry {
        Entry::Start { provider, digest } => put_origin(out, 0, *provider, digest),
        Entry::Accepted {
            moment,
            sender,
            message,
        } => put_accepted(out, *moment, sender, message),
        Entry::NotAccepted {
            moment,
            sender,
            cause,
            path,
            message,
        } => put_not_accepted(out, *moment, sender, *cause, path, message),
        Entry::Took {
            moment,
            id,
            message,
        } => put_took(out, *moment, *id, message),
        Entry::Decided {
            moment,
            id,
            recipient,
            decision,
        } => put_decided(out, *moment, *id, recipient, *decision),
        Entry::Charged { moment, id, by } => put_charged(out, *moment, *id, *by),
        Entry::Learned {
            moment,
            id,
            recipient,
            decision,
            decided,
            message,
        } => put_learned(out, *moment, *id, recipient, *decision, *decided, message),
        Entry::Acked {
            moment,
            id,
            recipient,
        } => put_acked(out, *moment, *id, recipient),
        Entry::Ticked { moment } => put_beginning(out, 8, *moment),
        Entry::Anomaly {
            moment,
            accounts,
            message,
        } => put_anomaly(out, *moment, accounts, message),
        Entry::StartTwo { provider, digest } => put_origin(out, 10, *provider, digest),
        Entry::Upgraded { moment } => put_beginning(out, 11, *moment),
        Entry::Archived {
            moment,
            account,
            place,
        } => put_archived(out, *moment, account, *place),
    }
}

/// Puts a tag, the number of a provider, and the digest of a directory.
fn put_origin(
    out: &mut Vec<u8>,
    tag: u8,
    provider: u32,
    digest: &[u8; 32],
) -> Result<(), AllocError>
    ensures puts { OnOk result (out.new.items ≡ out.old.items ++ tag ∷ number_32 provider ++ digest.now) }
    ensures can { OnOk result ((provider < 2 ^ 32) × (length digest.now ≡ 32)) }
{
    out.push(tag)?;
    put_number_32(out, provider)?;
    out.extend_from_slice(digest)?;
    Ok(())
}

fn put_accepted(
    out: &mut Vec<u8>,
    moment: Moment,
    sender: &Address,
    message: &Text8,
) -> Result<(), AllocError>
    requires { CanBeCounted message.now }
    ensures puts { OnOk result (out.new.items ≡ out.old.items ++
        entry_text (entries.Accepted moment sender.now message.now)) }
    ensures can { OnOk result (CanBeWritten (entries.Accepted moment sender.now message.now)) }
{
    put_beginning(out, 1, moment)?;
    put_address(out, sender)?;
    put_bytes(out, message)?;
    Ok(())
}

fn put_not_accepted(
    out: &mut Vec<u8>,
    moment: Moment,
    sender: &Address,
    cause: Cause,
    path: &Items<Address>,
    message: &Text8,
) -> Result<(), AllocError>
    requires path { CanBeCounted path.now }
    requires message { CanBeCounted message.now }
    ensures puts { OnOk result (out.new.items ≡ out.old.items ++
        entry_text (entries.NotAccepted moment sender.now cause path.now message.now)) }
    ensures can { OnOk result (CanBeWritten (entries.NotAccepted moment sender.now cause path.now message.now)) }
{
    put_beginning(out, 2, moment)?;
    put_address(out, sender)?;
    out.push(cause.number())?;
    put_addressed(out, path, message)?;
    Ok(())
}

fn put_took(out: &mut Vec<u8>, moment: Moment, id: MsgId, message: &Text8) -> Result<(), AllocError>
    requires { CanBeCounted message.now }
    ensures puts { OnOk result (out.new.items ≡ out.old.items ++ entry_text (entries.Took moment id message.now)) }
    ensures can { OnOk result (CanBeWritten (entries.Took moment id message.now)) }
{
    put_beginning(out, 3, moment)?;
    put_id(out, id)?;
    put_bytes(out, message)?;
    Ok(())
}

fn put_decided(
    out: &mut Vec<u8>,
    moment: Moment,
    id: MsgId,
    recipient: &Address,
    decision: Decision,
) -> Result<(), AllocError>
    ensures puts { OnOk result (out.new.items ≡ out.old.items ++
        entry_text (entries.Decided moment id recipient.now decision)) }
    ensures can { OnOk result (CanBeWritten (entries.Decided moment id recipient.now decision)) }
{
    put_beginning(out, 4, moment)?;
    put_id(out, id)?;
    put_address(out, recipient)?;
    out.push(number_of_decision(decision))?;
    Ok(())
}

fn put_charged(out: &mut Vec<u8>, moment: Moment, id: MsgId, by: u32) -> Result<(), AllocError>
    ensures puts { OnOk result (out.new.items ≡ out.old.items ++ entry_text (entries.Charged moment id by)) }
    ensures can { OnOk result (CanBeWritten (entries.Charged moment id by)) }
{
    put_beginning(out, 5, moment)?;
    put_id(out, id)?;
    put_number_32(out, by)?;
    Ok(())
}

fn put_learned(
    out: &mut Vec<u8>,
    moment: Moment,
    id: MsgId,
    recipient: &Address,
    decision: Decision,
    decided: Moment,
    message: &Text8,
) -> Result<(), AllocError>
    requires { CanBeCounted message.now }
    ensures puts { OnOk result (out.new.items ≡ out.old.items ++
        entry_text (entries.Learned moment id recipient.now decision decided message.now)) }
    ensures can { OnOk result (CanBeWritten (entries.Learned moment id recipient.now decision decided message.now)) }
{
    put_beginning(out, 6, moment)?;
    put_id(out, id)?;
    put_address(out, recipient)?;
    put_outcome(out, decision, decided, message)?;
    Ok(())
}

/// Puts a decision, its moment, and the bytes that told it.
fn put_outcome(
    out: &mut Vec<u8>,
    decision: Decision,
    decided: Moment,
    message: &Text8,
) -> Result<(), AllocError>
    requires { CanBeCounted message.now }
    ensures puts { OnOk result (out.new.items ≡ out.old.items ++
        (decision_field decision ++ (number_64 decided ++ bytes_field message.now))) }
    ensures decided { OnOk result (IsMoment decided) }
{
    put_beginning(out, number_of_decision(decision), decided)?;
    put_bytes(out, message)?;
    Ok(())
}

fn put_acked(
    out: &mut Vec<u8>,
    moment: Moment,
    id: MsgId,
    recipient: &Address,
) -> Result<(), AllocError>
    ensures puts { OnOk result (out.new.items ≡ out.old.items ++ entry_text (entries.Acked moment id recipient.now)) }
    ensures can { OnOk result (CanBeWritten (entries.Acked moment id recipient.now)) }
{
    put_beginning(out, 7, moment)?;
    put_id(out, id)?;
    put_address(out, recipient)?;
    Ok(())
}

fn put_anomaly(
    out: &mut Vec<u8>,
    moment: Moment,
    accounts: &Items<Address>,
    message: &Text8,
) -> Result<(), AllocError>
    requires accounts { CanBeCounted accounts.now }
    requires message { CanBeCounted message.now }
    ensures puts { OnOk result (out.new.items ≡ out.old.items ++
        entry_text (entries.Anomaly moment accounts.now message.now)) }
    ensures can { OnOk result (CanBeWritten (entries.Anomaly moment accounts.now message.now)) }
{
    put_beginning(out, 9, moment)?;
    put_addressed(out, accounts, message)?;
    Ok(())
}

fn put_archived(
    out: &mut Vec<u8>,
    moment: Moment,
    account: &Address,
    place: u32,
) -> Result<(), AllocError>
    ensures puts { OnOk result (out.new.items ≡ out.old.items ++ entry_text (entries.Archived moment account.now place)) }
    ensures can { OnOk result (CanBeWritten (entries.Archived moment account.now place)) }
{
    put_beginning(out, 12, moment)?;
    put_address(out, account)?;
    put_number_32(out, place)?;
    Ok(())
}

/// Puts a byte and a moment.
fn put_beginning(out: &mut Vec<u8>, b: u8, moment: Moment) -> Result<(), AllocError>
    ensures puts { OnOk result (out.new.items ≡ out.old.items ++ b ∷ number_64 moment) }
    ensures moment { OnOk result (IsMoment moment) }
{
    out.push(b)?;
    put_number_64(out, moment.seconds())?;
    Ok(())
}

/// Puts addresses and a message.
fn put_addressed(
    out: &mut Vec<u8>,
    addresses: &Items<Address>,
    message: &Text8,
) -> Result<(), AllocError>
    requires addresses { CanBeCounted addresses.now }
    requires message { CanBeCounted message.now }
    ensures puts { OnOk result (out.new.items ≡ out.old.items ++
        (addresses_field addresses.now ++ bytes_field message.now)) }
    ensures are { OnOk result (AreAddresses addresses.now) }
{
    put_number_32(out, addresses.as_slice().len() as u32)?;
    put_addresses(out, addresses.as_slice())?;
    put_bytes(out, message)?;
    Ok(())
}

fn put_addresses(out: &mut Vec<u8>, addresses: &[Address]) -> Result<(), AllocError>
    ensures puts { OnOk result (out.new.items ≡ out.old.items ++ flat_map address_field addresses.now) }
    ensures are { OnOk result (AllByRecursion IsLowerAddress addresses.now) }
{
    for address in addresses {
        put_address(out, address)?;
    }
    Ok(())
}

fn put_address(out: &mut Vec<u8>, address: &Address) -> Result<(), AllocError>
    ensures puts { OnOk result (out.new.items ≡ out.old.items ++ address_field address.now) }
    ensures is { OnOk result (IsLowerAddress address.now) }
{
    let bytes = address.bytes();
    put_number_16(out, bytes.len() as u16)?;
    out.extend_from_slice(bytes)?;
    Ok(())
}

fn put_bytes(out: &mut Vec<u8>, bytes: &Text8) -> Result<(), AllocError>
    requires { CanBeCounted bytes.now }
    ensures { OnOk result (out.new.items ≡ out.old.items ++ bytes_field bytes.now) }
{
    let bytes = bytes.bytes();
    put_number_32(out, bytes.len() as u32)?;
    out.extend_from_slice(bytes)?;
    Ok(())
}

fn put_id(out: &mut Vec<u8>, id: MsgId) -> Result<(), AllocError>
    ensures puts { OnOk result (out.new.items ≡ out.old.items ++ id_field id) }
    ensures is { OnOk result (IsId id) }
{
    put_number_32(out, id.provider)?;
    put_number_64(out, id.number)?;
    Ok(())
}

#[tactic(auto, unfolding(crate::specs::Entry::number_16))]
fn put_number_16(out: &mut Vec<u8>, number: u16) -> Result<(), AllocError>
    ensures { OnOk result (out.new.items ≡ out.old.items ++ number_16 number) }
{
    out.extend_from_slice(&number.to_be_bytes())?;
    Ok(())
}

#[tactic(auto, unfolding(crate::specs::Entry::number_32))]
fn put_number_32(out: &mut Vec<u8>, number: u32) -> Result<(), AllocError>
    ensures { OnOk result (out.new.items ≡ out.old.items ++ number_32 number) }
{
    out.extend_from_slice(&number.to_be_bytes())?;
    Ok(())
}

#[tactic(auto, unfolding(crate::specs::Entry::number_64))]
fn put_number_64(out: &mut Vec<u8>, number: u64) -> Result<(), AllocError>
    ensures { OnOk result (out.new.items ≡ out.old.items ++ number_64 number) }
{
    out.extend_from_slice(&number.to_be_bytes())?;
    Ok(())
}

fn number_of_decision(decision: Decision) -> u8
    ensures { result ∷ [] ≡ decision_field decision }
{
    match decision {
        Decision::Placed => 0,
        Decision::Refused(Refusal::NoMailbox) => 1,
        Decision::Refused(Refusal::MailboxFull) => 2,
        Decision::Refused(Refusal::Virus) => 3,
    }
}
