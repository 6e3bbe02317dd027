//! What a provider does with one frame, and with the next pair that it has to decide, over its half of the ledger in
//! memory: the entry to append, what is told, and the answer that is owed. There is no disk and no journal here.
#![tactic(auto)]

mod arrivals;
mod deciding;
mod framed;
mod letters;
mod mailboxes;
mod others;
mod paths;
mod received;
mod receiving;
mod sights;
mod standing;

pub use deciding::{decide, next};
pub use pec_trade::{
    House, a_house_is_a_trade, a_trade_says_what_its_parts_say, sealer_of, the_texts_are_a_trade,
};
pub use received::Received;
pub use receiving::receive;
