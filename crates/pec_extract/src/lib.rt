//! The log extract that a provider hands out, as records of CSV (RFC 4180, within this project's profile): the header,
//! the rows of a provider's journal whose moments are in a range, and the totals of the pairs accepted in it; and the
//! extract of all providers' logs.
#![tactic(auto)]

mod faults;
mod laws;
mod logging;
mod reading;
mod records;
mod remembered;
mod rows;
mod told;
mod whole;
mod words;
mod writing;

pub use faults::ExtractFault;
pub use laws::{a_log_is_read_back, an_extract_is_read_back, no_log_has_changed};
pub use logging::write_provider;
pub use whole::write_log;
pub use writing::{Totals, write_header, write_totals};
