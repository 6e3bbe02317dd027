//! Maps from texts to values: what stands at a key is found in the time of a logarithm of the keys, whatever the keys
//! are. It knows no mail, and stands on nothing.
#![tactic(auto)]

mod indexes;

pub use indexes::Index;
