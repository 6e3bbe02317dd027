//! Screens: what a provider doesn't accept, by the patterns that occur in a message (RFC 6109, section 3.1). A screen
//! is boxed, so that a provider takes any of them and changes them one by one.
#![tactic(auto)]

mod judging;
mod looking;
mod patterns;
mod perhaps;
mod screens;

pub use judging::{Judge, NoScreens};
pub use looking::Screen;
pub use patterns::{PatternScreen, a_rule_is_the_least_pattern};
pub use perhaps::Perhaps;
pub use screens::{ReplaceFault, Screens, a_verdict_is_of_the_first_box};
