//! Runs that play nothing. Checking a dossier: a party hands in the letters that it saved, line by line, and is told
//! which of them are genuine and what they prove together (RFC 6109, section 3, for the letters; the lines are this
//! project's profile). And, with their definitions and laws alone, writing a directory as another text, and writing an
//! extract of what its providers logged.
#![tactic(auto)]

mod checking;
mod ending;
mod exports;
mod extracts;
mod laws;
mod lines;
mod tallies;
mod texts;

pub use checking::check_lines;
pub use ending::{Last, Stop};
pub use exports::a_status_says_what_was_exported;
pub use extracts::a_status_says_what_was_extracted;
pub use laws::{a_status_says_what_was_checked, no_conflict};
