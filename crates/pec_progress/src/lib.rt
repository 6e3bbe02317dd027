//! Progress: in a network without faults accepted messages come to their outcomes within three rounds. There is no code
//! here: each function is a law, whose contract is the statement.
#![tactic(auto)]

mod examples;
mod rounds;

pub use examples::the_premises_are_met;
pub use rounds::{
    a_network_comes_to_rest, outcomes_stay, quiet_rounds_are_whole, rounds_bring_outcomes,
    rounds_in_time_go_well, settled_pairs_are_owed_nothing,
};
