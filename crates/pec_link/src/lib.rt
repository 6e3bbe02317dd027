//! Links: the frames that wait between two providers, oldest first. A frame on a link stands for a mail transfer that
//! has begun and isn't answered (RFC 5321, section 3.3, within this project's profile). A link is a ring with an end
//! that puts and an end that takes; each may be held by a thread of its own.
#![tactic(auto)]

mod ends;
mod faults;
mod links;
mod turning;

pub use ends::{MOST_FRAMES, Putter, Taker, new_link, waiting};
pub use faults::LinkFault;
pub use links::Link;
pub use turning::{lose, repeat, swap};
