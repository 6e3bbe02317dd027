//! What tests of letters, of scripts, of a provider and of a network are made of: a directory of two providers,
//! messages and frames by their names, journals that are written entry by entry, lines of words as calls, and words for
//! what calls come to.
#![tactic(auto)]

mod answers;
mod directories;
mod journals;
mod reading;
mod scripts;
mod submissions;
mod words;

pub use answers::{told, told_all, told_item, told_list, told_turns, told_word};
pub use directories::{alfa, text_of, two, two_with_due};
pub use journals::journal_of;
pub use reading::{account_at, behind, moment_of, number, small, word};
pub use scripts::{Answers, first_wrong};
pub use submissions::{Submission, submission_of};
pub use words::{Told, add, add_number};
