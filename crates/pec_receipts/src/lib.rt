//! Receipts, notices and acknowledgements of certified mail: composed, and read (RFC 6109, sections 3.1 to 3.3, within
//! this project's profile).
#![tactic(auto)]

mod asking;
mod composing;
mod giving;
mod headings;
mod kinds;
mod laws;
mod messages;
mod reading;
mod receipts;
mod reporting;

pub use composing::{a_receipt_has_one_text, compose};
pub use laws::{
    an_acknowledgement_is_seen, an_envelope_is_no_receipt, what_is_certified_is_seen,
    what_is_given_is_seen,
};
pub use pec_brief::brief;
pub use pec_types::Kind;
pub use reading::{ReceiptView, a_text_is_one_receipt, read, receipt_in};
pub use receipts::Receipt;
