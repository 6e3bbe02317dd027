//! Frames: what one provider hands to another, a path and a message (this project's profile, in place of the forward
//! path of RFC 5321, section 3.3).
#![tactic(auto)]

mod faults;
mod frames;
mod paths;

pub use faults::{FrameFault, FrameMade};
pub use frames::{a_frame_is_read_as_it_was_made, a_text_is_one_frame, frame_of, read_frame};

/// The most bytes of a frame. This project's profile.
pub const FRAME_LIMIT: usize = 50_331_648;

/// The most addresses of a path. This project's profile.
pub const MOST_ADDRESSES: usize = 1_000;
