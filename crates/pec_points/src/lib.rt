//! The points of the network, as functions of what each sees (RFC 6109, section 3). At the access point a provider
//! accepts a message, or answers why not; it receives frames, decides for each recipient, and watches the time limits.
#![tactic(auto)]

mod admission;
mod decision;
mod paths;
mod reception;

pub use admission::{Admission, a_message_has_one_answer, admit};
pub use decision::{a_recipient_has_one_decision, decide};
pub use pec_types::{Due, timed};
pub use reception::{Arrived, Reception, a_frame_has_one_reception, receive};
