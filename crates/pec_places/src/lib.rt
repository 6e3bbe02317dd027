//! Rows in the order in which they were added, found by what they are about in a time that doesn't grow with them. It
//! knows no mail, and stands on nothing.
#![tactic(auto)]

mod groups;
mod links;
mod tables;

pub use groups::{Grouped, InGroup};
pub use tables::{Numbered, Sought, Table};
