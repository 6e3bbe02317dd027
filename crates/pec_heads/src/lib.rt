//! Message heads: fields, unfolded values, address lists, and the facts that receipts repeat (RFC 5322, within this
//! project's profile).
#![tactic(auto)]

mod blanks;
mod facts;
mod faults;
mod fields;
mod heads;
mod lines;
mod lists;
mod lookups;
mod parts;
mod quoting;
mod reading;
mod recipients;
mod writing;

pub use blanks::{blanks_are_cut_at_both_ends, is_all_blank, trim};
pub use faults::{HeadFault, ListFault};
pub use heads::{
    Head, a_head_has_one_account, a_list_has_one_reading, a_text_has_one_reading, facts_are_bounded,
};
pub use lines::{content, first_line, lines_are_the_text, lines_have_their_size};
pub use writing::{
    a_folded_list_is_read_as_its_addresses, a_line_is_read_as_its_value, end_head,
    fields_are_found_by_their_names, joined_addresses_are_a_list, put_addresses, put_field,
    what_is_written_is_read,
};

/// The most bytes that a line of a head has, its line end not counted (RFC 5322, section 2.1.1).
pub const LINE_LIMIT: usize = 998;

/// The most bytes of a subject, a reference or a reply. This project's profile.
pub const TEXT_LIMIT: usize = 900;
