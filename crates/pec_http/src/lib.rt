//! One HTTP request over any desk of a mail provider: read, looked at row by row, put to the desk, and answered.
//! What a desk is, is a trait: this crate knows no provider.
#![tactic(auto)]

mod answers;
mod demands;
mod desk;
mod exchange;
mod passes;
mod reading;
mod replies;
mod rows;
mod serving;
mod statuses;
mod stops;

pub use desk::{Desk, ProviderFaultView};
pub use passes::Pass;
pub use rows::{a_request_asks_one_thing, a_request_is_stopped_by_its_first_row};
pub use serving::{Served, serve_one};
