//! The links of a network, by the provider for which the frames on them wait. For a round they are taken apart, and
//! behind it put together again.
#![tactic(auto)]

mod arrivals;
mod counting;
mod parting;

pub use arrivals::Arrivals;
pub use counting::rooms;
pub use parting::{join, part, trays};
