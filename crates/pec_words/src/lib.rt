//! How the words of a line are read, whoever writes the line: texts that are cut at a separator, numbers in decimal,
//! and paths of addresses.
#![tactic(auto)]

mod cuts;
mod laws;
mod numbers;
mod paths;

pub use cuts::cut;
pub use laws::{a_number_has_one_spelling, a_path_has_one_reading, a_text_is_cut_in_one_way};
pub use numbers::{digits_number, number_below};
pub use paths::{MOST_ADDRESSES, read_path, with_address};
