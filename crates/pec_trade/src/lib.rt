//! The world of the ledger as this project has it: what a directory, heads, admission, frames, letters and receipts
//! say is a `Trade` that meets all laws, so what is promised of trades holds of the project's own texts. Here is also
//! who seals for the providers of a directory, and the house at which a provider is at home. All else is laws, whose
//! contracts are the statements.
#![tactic(auto)]

mod houses;
mod laws;
mod sealers;
mod worlds;

pub use houses::House;
pub use laws::{
    a_trade_says_what_its_parts_say, an_envelope_is_seen_with_its_facts, the_texts_are_a_trade,
};
pub use sealers::sealer_of;
pub use worlds::{a_directory_has_one_world, a_house_is_a_trade};
