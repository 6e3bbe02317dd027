//! The desk of a network of certified mail providers at one moment: what `pec_http` asks of a desk, over a network.
#![tactic(auto)]

mod desk;
mod handing;
mod keys;
mod laws;
mod limits;
mod showing;

pub use desk::NetworkDesk;
pub use laws::an_account_sees_its_own;
