//! What all letters of certified mail share: their heads, their parts, their seal, and the rows that every reader of
//! letters asks (RFC 6109, section 3, within this project's profile). Which letters there are, the crates above say.
#![tactic(auto)]

mod contents;
mod headings;
mod letters;
mod sealing;

pub use contents::{Contents, PartKind, join_lines};
pub use headings::{Heading, Marking, put_heading};
pub use letters::{Headed, Letter, a_head_has_one_letter, a_text_is_one_letter, body_of};
pub use sealing::{a_letter_has_one_text, compose_letter};
