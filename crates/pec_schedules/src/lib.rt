//! What the turns of a round put and take on links, side by side: a plan, of which every schedule leaves the same.
//! There is no code here: each function is a law, whose contract is the statement.
#![tactic(auto)]

mod examples;
mod laws;

pub use examples::worked_schedules;
pub use laws::interleavings;
