//! Journal entries, and the bytes that they are.
#![tactic(auto)]

mod addresses;
mod decoding;
mod encoding;
mod entries;
mod faults;
mod fields;
mod laws;
mod tags;

pub use decoding::{an_entry_is_told_exactly, decode};
pub use encoding::encode;
pub use entries::Entry;
pub use faults::EntryFault;
pub use laws::{an_entry_within_the_limits_is_short, one_entry};
