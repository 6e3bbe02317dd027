//! The ledger of the network: what providers' journals come to, which entry may follow which, what letters and mailbox
//! items are made of, and what follows for the users of certified mail. There is no code here: each function is a law,
//! whose contract is the statement.
#![tactic(auto)]

mod agreement;
mod boxes;
mod crashes;
mod examples;
mod guarantees;
mod letters;
mod licences;
mod tables;

pub use agreement::providers_agree;
pub use boxes::{a_journal_has_a_version, an_entry_fills_boxes, boxes_hold_what_was_placed};
pub use crashes::{any_images, soundness};
pub use examples::{
    a_world_is_there, books_of_the_examples, marks_of_the_examples, the_premises_are_met,
};
pub use guarantees::the_guarantees;
pub use letters::{
    a_taken_message_has_its_envelope, an_accepted_message_has_its_original, arrivals_are_true,
    licensed_letters_can_be_composed, rows_have_their_texts, texts_are_seen,
};
pub use licences::{licences_stand, rows_stand};
pub use tables::{
    the_books, the_decisions, the_due_letters, the_time_table, what_an_entry_changes,
};
