//! One provider over its disk: it takes submissions and frames, decides, watches the time limits, puts the letters that
//! it owes, and shows its accounts what is theirs. An entry is durable before anything comes from it. It knows no other
//! provider's state.
#![tactic(auto)]

mod appending;
mod archiving;
mod commands;
mod composing;
mod deciding;
mod laws;
mod opening;
mod provider;
mod showing;
mod summing;
mod swapping;
mod telling;
mod turns;

pub use laws::{facts_are_told_of_an_envelope, nothing_has_changed, what_follows_goes_on};
pub use pec_chronicle::CreateFault;
pub use pec_outgoing::refused_facts;
pub use pec_reception::{
    House, a_house_is_a_trade, a_trade_says_what_its_parts_say, sealer_of, the_texts_are_a_trade,
};
pub use pec_shelf::{Summary, moment_of};
pub use pec_stock::ReopenFault;
pub use pec_types::{Event, Mark, ProviderFault, Submitted};
pub use provider::Provider;
pub use swapping::SwapFault;
pub use telling::a_provider_stands_still;
