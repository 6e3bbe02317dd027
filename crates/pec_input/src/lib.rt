//! The input of a run: its lines, the directory before the first line `%%`, and how a directory is refused.
#![tactic(auto)]

mod buffers;
mod directory;
mod faults;
mod laws;
mod lines;
mod opening;
mod whole;

pub use buffers::{Buffer, Found, InputFault, next_line};
pub use directory::{
    Opened, a_directory_is_of_one_form, a_directory_is_read_from_its_ldif, open_directory,
};
pub use faults::refused_directory_text;
pub use laws::{an_input_is_parted_in_one_way, lines_are_the_text};
pub use lines::content;
pub use opening::{LONGEST_DIRECTORY, Opening, read_directory};
pub use whole::{Whole, read_whole};
