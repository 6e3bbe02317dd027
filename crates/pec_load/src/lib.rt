//! What a load is: a directory of two providers, and a script that is made for it, of as many messages as are asked
//! for.
#![tactic(auto)]

mod directory;
mod generating;
mod laws;

pub use directory::load_directory;
pub use generating::{BATCH, FIRST_MOMENT, LAST_WAIT, MOST_MESSAGES, generate};
pub use laws::{a_load_has_its_commands, a_load_has_its_directory};
