//! Certification texts of certified mail, and the zones whose clocks they show.
#![tactic(auto)]

mod certificates;
mod dates;
mod digits;
mod faults;
mod header_dates;
mod lines;
mod markup;
mod places;
mod reading;
mod shape;
mod stamps;
mod values;
mod writing;
mod wrong;
mod zones;

pub use certificates::{CertData, CertError, CertKind, CertRecipient};
pub use dates::a_moment_is_shown_in_one_way;
pub use faults::CertFault;
pub use header_dates::{
    a_header_date_has_one_stamp, a_printed_stamp_is_one_line, day_line, header_date,
    read_header_date,
};
pub use reading::{a_certificate_has_one_text, a_text_has_one_answer, one_text, read};
pub use stamps::{Shown, ShownDay, ShownTime, ShownZone, Stamp};
pub use writing::write;
pub use zones::{Zone, ZoneFault, a_rule_has_one_clock};
