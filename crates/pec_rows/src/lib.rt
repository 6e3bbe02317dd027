//! The ends of a network's links in rows, one row for each provider: what its worker holds while the turns of a round
//! run.
#![tactic(auto)]

mod laws;
mod rows;

pub use laws::a_row_is_delivered_link_by_link;
pub use rows::{Putters, Takers};
