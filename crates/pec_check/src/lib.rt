//! Checking the letters that a party saved: which are genuine, and what they prove together (RFC 6109, section 3, for
//! the letters; what is genuine is this project's profile).
#![tactic(auto)]

mod checking;
mod dossiers;
mod laws;
mod pairs;
mod reports;
mod sealing;

pub use checking::{CheckFault, check};
pub use dossiers::{Dossier, Finding};
pub use laws::a_text_is_one_report;
pub use reports::{Report, SavedKind};
