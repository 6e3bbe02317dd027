//! The network: providers, the links between them, and rounds of turns.
#![tactic(auto)]

mod archiving;
mod closing;
mod commands;
mod crashing;
mod faults;
mod gates;
mod judging;
mod keeping;
pub mod laws;
mod linking;
mod network;
mod opening;
mod putting;
mod rounds;
mod showing;
mod starting;
mod steps;
mod summing;
mod swapping;
mod turns;
mod working;

pub use closing::keep_all;
pub use faults::{NotFit, RestartFault, StartFault};
pub use gates::{FreeGate, Gate};
pub use keeping::a_network_keeps_its_promises;
pub use network::Network;
pub use opening::Form;
pub use pec_provider::{
    Provider, Summary, SwapFault, a_trade_says_what_its_parts_say, sealer_of, the_texts_are_a_trade,
};
pub use pec_types::Turn;
pub use turns::{Taken, take_turn};
