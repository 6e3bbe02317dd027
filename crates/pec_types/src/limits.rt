ghost use Rattle.std.specs.Prelude.{◌≡◌, ◌≤◌, ◌↔◌};
ghost use Rattle.pec_types.specs.Limits.{AppliesToPair, Clocked, IsDue, TimeRow, time_rows};
ghost use Rattle.pec_types.specs.LimitsReading.{due_of};
ghost use Rattle.pec_types.specs.Tables.{IsFirst};
ghost use Rattle.pec_types.specs.declared.limits.Due.{Due as DueShown};

use crate::moments::Moment;

/// 12 hours, in seconds: from then on after its acceptance a pair that nobody took charge of is warned of. This
/// project's profile.
pub const WARNING_AFTER: u64 = 43_200;

/// 22 hours, in seconds: from then on after its acceptance there is notice of a pair without an outcome, so that a
/// clock call can give it before the 24 hours are over. This project's profile.
pub const NOTICE_AFTER: u64 = 79_200;

/// 24 hours, in seconds: past them a notice is late (DPR 68/2005, article 8).
pub const LATE_AFTER: u64 = 86_400;

/// What a clock call owes the sender of a pair (RFC 6109, section 3.1.6).
#[derive(Clone, Copy, Debug, PartialEq, Eq)]
pub enum Due {
    Nothing,
    /// Nobody took charge within 12 hours.
    Warning,
    /// No outcome is known within 22 hours.
    Notice,
    /// The same, more than 24 hours after the acceptance.
    LateNotice,
}

/// The law of the time table: of each pair one row is the first that applies. So one thing is due, which the function
/// `due_of` says.
pub fn a_pair_has_one_due()
    ensures some { (pair : Clocked) → (row : TimeRow) × IsFirst (AppliesToPair pair) time_rows row }
    ensures one { (pair : Clocked) (row other : TimeRow)
        → IsFirst (AppliesToPair pair) time_rows row → IsFirst (AppliesToPair pair) time_rows other → row ≡ other }
    ensures function { (pair : Clocked) (due : DueShown) → (due_of pair ≡ due) ↔ IsDue pair due }
{}

/// What is due, at a moment, to the sender of a message for one of its certified recipients: whether the recipient's
/// provider took charge, whether the sender was warned or had notice of it before, and whether the outcome is known. It
/// takes no memory.
#[tactic(auto, unfolding(crate::specs::LimitsReading::due_of))]
pub fn timed(
    now: Moment,
    accepted: Moment,
    charged: bool,
    warned: bool,
    noticed: bool,
    known: bool,
) -> Due
    requires { accepted ≤ now }
    // It is what the first row that applies owes.
    ensures row { IsDue
        (record {
          at = now;
          accepted = accepted;
          charged = charged;
          warned = warned;
          noticed = noticed;
          known = known;
        }) result }
    // The same as a function, for definitions that build on it.
    ensures exact { result ≡ due_of
        (record {
          at = now;
          accepted = accepted;
          charged = charged;
          warned = warned;
          noticed = noticed;
          known = known;
        }) }
{
    let past = now.seconds() - accepted.seconds();
    if known {
        return Due::Nothing;
    }
    if !noticed && past > LATE_AFTER {
        return Due::LateNotice;
    }
    if !noticed && past >= NOTICE_AFTER {
        return Due::Notice;
    }
    if !charged && !warned && !noticed && past >= WARNING_AFTER {
        return Due::Warning;
    }
    Due::Nothing
}
