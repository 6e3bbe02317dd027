ghost use Rattle.std.specs.Prelude.{◌≡◌};
ghost use Rattle.std.specs.Option.{option_and_then};
ghost use Rattle.pec_directory.specs.Directory.{home_of, providers_of};
ghost use Rattle.pec_check.specs.Genuine.{sealing_of};
ghost use Rattle.pec_check.specs.GenuineReading.{sealer_of};

use pec_directory::Directory;
use pec_receipts::ReceiptView;
use pec_types::{Address, Kind, Refusal};

/// Who has to seal a receipt.
#[derive(Clone, Copy, Debug, PartialEq, Eq)]
pub(crate) enum Sealing {
    /// Any provider may.
    Anyone,
    /// The provider that is home to the recipient.
    RecipientsHome,
    /// The provider that the message was submitted to.
    MessagesProvider,
}

/// Who has to seal a receipt of a kind.
fn sealing_of(kind: Kind) -> Sealing
    ensures { result ≡ sealing_of kind }
{
    match kind {
        Kind::Delivery
        | Kind::DeliveryError(Refusal::NoMailbox)
        | Kind::DeliveryError(Refusal::MailboxFull)
        | Kind::VirusFound => Sealing::RecipientsHome,
        Kind::DeliveryError(Refusal::Virus) => Sealing::MessagesProvider,
        Kind::Acceptance
        | Kind::NonAcceptance(_)
        | Kind::Charge
        | Kind::Warning
        | Kind::Notice
        | Kind::LateNotice
        | Kind::Ack => Sealing::Anyone,
    }
}

/// The provider that has to seal a receipt, where one has to. It takes no memory.
#[tactic(auto, unfolding(crate::specs::GenuineReading::sealer_of))]
pub(crate) fn sealer_of(directory: &Directory, view: &ReceiptView) -> Option<u32>
    ensures { result ≡ sealer_of (providers_of directory.now) view.now }
{
    match sealing_of(view.kind) {
        Sealing::Anyone => None,
        Sealing::RecipientsHome => home_of(directory, &view.recipient),
        Sealing::MessagesProvider => Some(view.id.provider),
    }
}

fn home_of(directory: &Directory, recipient: &Option<Address>) -> Option<u32>
    ensures { result ≡ option_and_then (home_of (providers_of directory.now)) recipient.now }
{
    match recipient {
        Some(recipient) => directory.home_of(recipient),
        None => None,
    }
}
