ghost use Rattle.std.specs.Prelude.{◌≡◌, ◌↔◌, IsTrue};
ghost use Rattle.pec_directory.specs.Directory.{providers_of};
ghost use Rattle.pec_receipts.specs.Giving.{can_be_given, is_from_there, is_named, is_short};
ghost use Rattle.pec_receipts.specs.Receipts.{CanBeGiven};

use crate::kinds::{About, row_of};
use crate::receipts::{Receipt, place_among};
use crate::reporting::is_home;
use pec_directory::Directory;
use pec_types::{Address, Recipient, Text};

impl Receipt {
    /// Whether a provider of the directory may give the receipt, for which `compose` asks: the providers that it names
    /// are the directory's and the message's is the home of its sender; the facts have a recipient and no subject of
    /// more than 900 bytes; a recipient is named exactly where the kind has one, and is a certified one of the
    /// message's; and the message's provider composes what no other may. It takes no memory.
    pub fn can_be_given(&self, directory: &Directory) -> bool
        ensures { IsTrue result ↔ CanBeGiven (providers_of directory.now) self.now }
    {
        let given = is_given(directory, self);
        given
    }
}

#[tactic(auto, unfolding(crate::specs::Giving::can_be_given))]
fn is_given(directory: &Directory, receipt: &Receipt) -> bool
    ensures { result ≡ can_be_given (providers_of directory.now) receipt.now }
{
    let row = row_of(receipt.kind);
    is_from_there(directory, receipt)
        && !receipt.facts.recipients.as_slice().is_empty()
        && is_short(&receipt.facts.subject)
        && is_named(
            directory,
            receipt.facts.recipients.as_slice(),
            row.about,
            &receipt.recipient,
        )
        && (row.elsewhere || receipt.by == receipt.id.provider)
}

/// Whether both providers are the directory's, and the message's is the home of its sender.
#[tactic(auto, unfolding(crate::specs::Giving::is_from_there))]
fn is_from_there(directory: &Directory, receipt: &Receipt) -> bool
    ensures { result ≡ is_from_there (providers_of directory.now) receipt.now }
{
    let providers = directory.count();
    receipt.by < providers
        && receipt.id.provider < providers
        && is_home(directory, receipt.id.provider, &receipt.facts.sender)
}

fn is_short(subject: &Option<Text>) -> bool
    ensures { result ≡ is_short subject.now }
{
    match subject {
        Some(subject) => subject.bytes().len() <= 900,
        None => true,
    }
}

/// Whether a recipient is named exactly where a receipt has one, and is a certified one of the message's.
fn is_named(
    directory: &Directory,
    recipients: &[Recipient],
    about: About,
    recipient: &Option<Address>,
) -> bool
    ensures { result ≡ is_named (providers_of directory.now) recipients.now about recipient.now }
{
    match about {
        About::Message => recipient.is_none(),
        About::Provider => recipient.is_none(),
        About::Recipient => is_certified_one(directory, recipients, recipient),
    }
}

fn is_certified_one(
    directory: &Directory,
    recipients: &[Recipient],
    recipient: &Option<Address>,
) -> bool
    ensures { result ≡ is_named (providers_of directory.now) recipients.now About.Recipient recipient.now }
{
    match recipient {
        Some(address) => directory.is_certified(address)
            && place_among(recipients, address).is_some(),
        None => false,
    }
}
