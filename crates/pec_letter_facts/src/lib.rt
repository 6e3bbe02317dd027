//! What letters of certified mail say of a message and how they are asked about it: what envelopes and receipts have in
//! common (RFC 6109, sections 3 and 4.4, within this project's profile). Which letters there are, the crates above say.
#![tactic(auto)]

mod certifying;
mod questions;
mod read_back;

pub use certifying::{Report, angled, certificate, name, service_address, told_text, with_subject};
pub use questions::{
    are_typed, id_named, is_dated, is_first, is_from_home, is_sealed_by_issuer, is_wish_marked,
    marking,
};
pub use read_back::{
    a_composed_letter_is_read_back, a_name_is_one_short_line, a_value_is_one_line,
    what_is_certified_can_be_written, what_is_composed_passes,
};

/// The most bytes of a value that a head of a letter may have in one line. This project's profile.
pub const VALUE_LIMIT: usize = 970;
