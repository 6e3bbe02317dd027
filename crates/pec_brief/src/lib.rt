//! The brief form of a message: in the place of each attachment stands its digest, and every other byte stays (RFC
//! 6109, section 3.1, for what it is for; this project's profile).
#![tactic(auto)]

mod attachments;
mod shortening;

pub use shortening::{a_message_has_one_brief_form, brief};

/// The most bytes of a brief form that isn't the message itself. This project's profile.
pub const BRIEF_LIMIT: usize = 41_943_040;
