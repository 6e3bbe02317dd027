use crate::messages::{Cause, Refusal};

/// What a receipt or a notice says (RFC 6109, sections 3.1 to 3.3). All of them name one message; those from `Delivery`
/// to `LateNotice`, and `Ack`, name one of its recipients too.
#[derive(Clone, Copy, Debug, PartialEq, Eq)]
pub enum Kind {
    /// The sender's provider accepted the message.
    Acceptance,
    /// The sender's provider didn't accept the message.
    NonAcceptance(Cause),
    /// A recipient's provider took charge of the message.
    Charge,
    /// The message was placed in the recipient's mailbox.
    Delivery,
    /// The message couldn't be placed in the recipient's mailbox.
    DeliveryError(Refusal),
    /// The recipient's provider found a virus in the message. It goes to the sender's provider, which tells the sender by
    /// a delivery error.
    VirusFound,
    /// No provider took charge for the recipient within 12 hours.
    Warning,
    /// Nothing is known of the recipient's message within 22 hours, given before 24 hours are over.
    Notice,
    /// The same, given after 24 hours.
    LateNotice,
    /// The sender's provider has the outcome. It stands for the reply of a mail transfer.
    Ack,
}
