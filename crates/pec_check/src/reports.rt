ghost use Rattle.std.specs.Prelude.{◌≡◌};
ghost use Rattle.pec_check.specs.Findings.{decision_told};

use pec_types::{Address, Decision, Kind, Moment, MsgId, Refusal, Text8};

/// What a saved message is: the envelope of a message, or a receipt, a notice or an acknowledgement.
#[derive(Clone, Copy, Debug, PartialEq, Eq)]
pub enum SavedKind {
    Envelope,
    Receipt(Kind),
}

/// What a genuine letter says: what it is, the message, the provider that sealed it, when what it says came to be, and
/// the recipient, where its kind names one; and its certification text. An acknowledgement has none.
#[derive(Drop)]
pub struct Report {
    pub kind: SavedKind,
    pub id: MsgId,
    pub by: u32,
    pub moment: Moment,
    pub recipient: Option<Address>,
    pub cert: Option<Text8>,
}

impl SavedKind {
    /// What a letter of this kind says was decided of a recipient's message, where it says that. It takes no memory.
    pub(crate) fn decision(self) -> Option<Decision>
        ensures { result ≡ decision_told self }
    {
        match self {
            SavedKind::Receipt(Kind::Delivery) => Some(Decision::Placed),
            SavedKind::Receipt(Kind::DeliveryError(refusal)) => Some(Decision::Refused(refusal)),
            SavedKind::Receipt(Kind::VirusFound) => Some(Decision::Refused(Refusal::Virus)),
            SavedKind::Envelope | SavedKind::Receipt(_) => None,
        }
    }
}
