//! A provider's stock: its entries over its disk and its half of the ledger, which go on together. An entry is appended
//! where it is a step of the half, and taken in once it is durable; a journal that is opened again is taken in entry by
//! entry.
#![tactic(auto)]

mod entering;
mod faults;
mod opening;
mod reading;
mod restarting;
mod stocking;

pub use entering::{enter, stands_still};
pub use faults::ReopenFault;
pub use opening::{begin, open};
pub use reading::entry;
pub use restarting::restart;
