ghost use Rattle.std.specs.Prelude.{◌≡◌};
ghost use Rattle.pec_types.specs.declared.disputes.LetterFault.TheVariants as faults;

use crate::faults::NoMemory;
use std::alloc::AllocError;

/// In what a letter's texts disagree with each other, with the directory or with the message that they certify. In the
/// order in which a reader looks.
#[derive(Clone, Copy, Debug, PartialEq, Eq)]
pub enum Disputed {
    /// The name of the message.
    Identifier,
    /// The provider that sealed the letter.
    Sealer,
    Sender,
    Recipient,
    /// What the sender wants back.
    Wish,
    Moment,
}

/// Why a text is no letter of certified mail of the kind that is looked for, in the order in which a reader looks.
#[derive(Clone, Copy, Debug, PartialEq, Eq)]
pub enum LetterFault {
    /// No provider of the directory sealed it.
    Seal,
    /// What was sealed has no head.
    Head,
    /// Its body has no parts.
    Body,
    /// It has no certification text.
    Cert,
    /// It is a letter of another kind.
    NotThis,
    Disagree(Disputed),
    NoMemory,
}

impl From<AllocError> for LetterFault {
    ghost from_gives = { λ _ fault. fault ≡ faults.NoMemory };

    fn from(_: AllocError) -> Self {
        LetterFault::NoMemory
    }
}

impl From<NoMemory> for LetterFault {
    ghost from_gives = { λ _ fault. fault ≡ faults.NoMemory };

    fn from(_: NoMemory) -> Self {
        LetterFault::NoMemory
    }
}
