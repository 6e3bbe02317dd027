//! Serves connections at the desk of a network: each is answered at one moment, and then every provider looks at the
//! clock and one round is played.
#![tactic(auto)]

mod answering;
mod clock;
mod lines;
mod next;
mod serving;

// What the program names of networks, of their world, and of the commands that are played over them.
pub use pec_playing::{
    Form, Network, NotFit, Provider, StartFault, Stop, Summary, a_trade_says_what_its_parts_say,
    keep_all, play_and_write, sealer_of, the_texts_are_a_trade, what_a_line_says_can_be_played,
    what_is_kept_is_kept_on,
};
pub use serving::{Ending, serve};
