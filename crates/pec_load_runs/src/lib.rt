//! What a run of the program is that plays a load. There is no code here: each function is a law, whose contract is the
//! statement.
#![tactic(auto)]

mod laws;

pub use laws::{a_load_is_played_as_a_run, a_status_says_what_a_load_told};
