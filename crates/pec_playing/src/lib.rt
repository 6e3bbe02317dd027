//! One command of a script over a network of providers, and the lines that are written of its answer.
#![tactic(auto)]

mod accounts;
mod crashes;
mod laws;
mod links;
mod playing;
mod providers;
mod refusals;
mod rounds;
mod stops;
mod swapping;

pub use laws::{
    what_a_line_says_can_be_played, what_carries_on_is_a_moment, what_is_kept_is_kept_on,
    what_is_told_was_counted,
};
// What the crates above name of networks and of the world in which they play.
pub use pec_network::{
    Form, Network, NotFit, Provider, StartFault, Summary, a_trade_says_what_its_parts_say,
    keep_all, sealer_of, the_texts_are_a_trade,
};
pub use playing::play_and_write;
pub use stops::Stop;
