//! Seals: one line before a text, with the name of the provider that sealed it and a tag that only its key gives.
//! It stands in place of S/MIME (RFC 6109, section 2.2.1) and knows nothing of the letters that are sealed.
#![tactic(auto)]

mod hmac;
mod lines;
mod pads;
mod sealers;
mod seals;

pub use hmac::HmacSealer;
pub use pec_types::Text8;
pub use sealers::Sealer;
pub use seals::{SealFault, opened, seal, sealing_and_opening};
