ghost use Rattle.std.specs.Prelude.{◌≡◌, ◌↔◌, ◌<◌, ℕ, pos, int_div, IfOk, IsErr, IsNone};
ghost use Rattle.jiff_tz.specs.PosixReader.{read_whole};
ghost use Rattle.jiff_tz.specs.declared.posix.TimeZone.{TimeZone};
ghost use Rattle.pec_types.specs.Bytes.{Bytes};
ghost use Rattle.pec_types.specs.declared.moments.TheConstants.{END_OF_TIME};
ghost use Rattle.pec_cert.specs.Stamp.{IsMinutes, IsStamp};
ghost use Rattle.pec_cert.specs.Zone.{IsRule, stamp_of};

use crate::stamps::Stamp;
use jiff_core::{Offset, Timestamp};
use jiff_tz::posix;
use pec_types::{Moment, Text};
use std::marker::Model;

/// Why a text is no zone.
#[derive(Clone, Copy, Debug, PartialEq, Eq)]
pub enum ZoneFault {
    BadRule,
}

/// A time zone by a POSIX rule, as `CET-1CEST,M3.5.0,M10.5.0/3`. Contracts see the rule as `jiff` does.
#[derive(Clone, Copy, Debug, PartialEq, Eq)]
pub struct Zone {
    rule: posix::TimeZone,
}

impl Model for Zone {
    ghost use Rattle.jiff_tz.specs.declared.posix.TimeZone.{TimeZone};

    ghost Value = { TimeZone };

    ghost view = { λ zone. zone.rule };

    ghost inverse = { λ rule. record { rule = rule } };
}

impl Zone {
    /// The zone of a rule, which is read once. `BadRule` comes exactly where `jiff` refuses the rule. It takes no
    /// memory.
    pub fn read(rule: &Text) -> Result<Zone, ZoneFault>
        ensures rule { IfOk result (λ zone. IsRule rule.now zone) }
        ensures refused { IsErr result ↔ IsNone (read_whole rule.now) }
    {
        match posix::TimeZone::parse(rule.bytes()) {
            Ok(rule) => Ok(Zone { rule }),
            Err(_) => Err(ZoneFault::BadRule),
        }
    }

    /// The moment with the whole minutes, towards zero, that a clock of this zone is ahead of UTC then. It takes no
    /// memory.
    #[tactic(auto, unfolding(crate::specs::Zone::stamp_of))]
    pub fn stamp(&self, moment: Moment) -> Stamp
        ensures { result ≡ stamp_of self.now moment }
    {
        let Ok(instant) = Timestamp::from_nanosecond(moment.seconds() as i128 * 1_000_000_000)
        else {
            unreachable!()
        };
        let minutes = whole_minutes(self.rule.to_offset(instant));
        Stamp { moment, minutes }
    }
}

/// The law of zones: two zones that a rule reads as give the same stamp at every moment, so that a rule's text alone
/// says what is shown; and each zone gives one at every moment.
pub fn a_rule_has_one_clock()
    ensures one { (text : Bytes) (rule other : TimeZone) → IsRule text rule → IsRule text other → (moment : ℕ)
        → stamp_of rule moment ≡ stamp_of other moment }
    ensures stamp { (rule : TimeZone) (moment : ℕ) → moment < END_OF_TIME → IsStamp (stamp_of rule moment) }
{}

// The whole minutes of an offset, towards zero.
fn whole_minutes(offset: Offset) -> i32
    ensures value { result ≡ int_div offset.seconds (pos 60) }
    ensures within { IsMinutes result }
{
    offset.seconds / 60
}
