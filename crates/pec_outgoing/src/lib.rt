//! What leaves a provider: the letters that it puts and the bytes of its mailbox items, each composed of its half of
//! the ledger and of one entry, which the caller reads. No disk is in it, and no body of a message.
#![tactic(auto)]

mod asking;
mod desks;
mod dues;
mod entries;
mod facts;
mod faults;
mod framing;
mod items;
mod laws;
mod letters;
mod notices;
mod originals;
mod paths;
mod texts;
mod wanting;

pub use asking::needed;
pub use dues::due_letters;
pub use faults::ComposeFault;
pub use framing::framed;
pub use items::item;
pub use laws::due_letters_have_the_due_frames;
pub use notices::refused_facts;
pub use originals::{facts_of, original_of};
pub use wanting::needed_item;
