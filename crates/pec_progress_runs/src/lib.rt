//! What a user can read off a run: behind four rounds that are told to go well each message that was accepted before
//! them has its outcomes. There is no code here: each function is a law, whose contract is the statement.
#![tactic(auto)]

mod runs;
mod scripts;

pub use runs::printed_rounds_bring_outcomes;
pub use scripts::told_rounds_bring_outcomes;
