ghost use Rattle.std.specs.Prelude.{◌≡◌, take, IfOk};

use pec_directory::Directory;
use pec_types::{Address, Facts, Items, NoMemory, Recipient};
use std::alloc::Global;

/// The directory's own address of the account that an address is, and the address itself where it is no account. So the
/// bytes of an account's address stand once, for all rows that name it. It takes no memory.
pub(crate) fn shared<'a>(directory: &'a Directory, address: &'a Address) -> &'a Address
    ensures { result.now ≡ address.now }
{
    match directory.account(address) {
        Some(account) => account.address(),
        None => address,
    }
}

/// Equal facts, with the directory's own addresses.
pub(crate) fn facts_shared(
    alloc: Global,
    directory: &Directory,
    facts: &Facts,
) -> Result<Facts, NoMemory>
    ensures { IfOk result (λ copy. copy ≡ facts.now) }
{
    let mut copy = facts.copy(alloc)?;
    copy.sender = shared(directory, &facts.sender).copy(alloc)?;
    let recipients = recipients_shared(alloc, directory, facts.recipients.as_slice())?;
    copy.recipients = Items::of(recipients);
    Ok(copy)
}

fn recipients_shared(
    alloc: Global,
    directory: &Directory,
    recipients: &[Recipient],
) -> Result<Vec<Recipient>, NoMemory>
    ensures { IfOk result (λ copies. copies.items ≡ recipients.now) }
{
    let mut copies = Vec::with_capacity(alloc, recipients.len())?;
    for recipient in recipients {
        copies.push(recipient_shared(alloc, directory, recipient)?)?;
    }
    Ok(copies)
}

fn recipient_shared(
    alloc: Global,
    directory: &Directory,
    recipient: &Recipient,
) -> Result<Recipient, NoMemory>
    ensures { IfOk result (λ copy. copy ≡ recipient.now) }
{
    Ok(Recipient {
        address: shared(directory, &recipient.address).copy(alloc)?,
        class: recipient.class,
    })
}
