ghost use Rattle.std.specs.Prelude.{◌≡◌, ℕ, ◌↔◌};
ghost use Rattle.pec_types.specs.Tables.{IsFirst};
ghost use Rattle.pec_types.specs.declared.messages.Decision.{Decision as DecisionShown};
ghost use Rattle.pec_points.specs.Decision.{AppliesToMailbox, IsDecision, Mailbox, MailboxRow, mailbox_rows};
ghost use Rattle.pec_points.specs.DecisionReading.{decision_of};

use pec_types::{Decision, Refusal};

/// The law of decisions: of each recipient one row is the first that applies. So one thing is decided, which the
/// function `decision_of` says.
pub fn a_recipient_has_one_decision()
    ensures some { (mailbox : Mailbox) → (row : MailboxRow) × IsFirst (AppliesToMailbox mailbox) mailbox_rows row }
    ensures one { (mailbox : Mailbox) (row other : MailboxRow)
        → IsFirst (AppliesToMailbox mailbox) mailbox_rows row
        → IsFirst (AppliesToMailbox mailbox) mailbox_rows other → row ≡ other }
    ensures function { (mailbox : Mailbox) (decision : DecisionShown)
        → (decision_of mailbox ≡ decision) ↔ IsDecision mailbox decision }
{}

/// The decision on a message that was taken, for a recipient at this provider: whether it is an account here, how many
/// envelopes and anomalies stand in its mailbox, how many may, and whether some screen finds a rule in the message (RFC
/// 6109, section 3.3). Where it is no account nothing has to look for one. It takes no memory.
#[tactic(auto, unfolding(crate::specs::DecisionReading::decision_of))]
pub fn decide(account: bool, count: u64, quota: u64, virus: bool) -> Decision
    // It is what the first row that applies decides.
    ensures row { IsDecision (record { account = account; virus = virus; count = count; quota = quota }) result }
    // The same as a function, for definitions that build on it.
    ensures exact { result ≡ decision_of (record { account = account; virus = virus; count = count; quota = quota }) }
{
    if !account {
        return Decision::Refused(Refusal::NoMailbox);
    }
    if virus {
        return Decision::Refused(Refusal::Virus);
    }
    if count >= quota {
        return Decision::Refused(Refusal::MailboxFull);
    }
    Decision::Placed
}
