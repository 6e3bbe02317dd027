//! Lines of a script, read as commands, and the lines of output that commands are answered by.
#![tactic(auto)]

mod answers;
mod arguments;
mod books;
mod commands;
mod faults;
mod laws;
mod mailboxes;
mod marks;
mod naming;
mod numbers;
mod pages;
mod refusals;
mod turns;
mod verbs;

pub use answers::{Answer, Unfit, answer_text, submitted_text};
pub use books::book_text;
pub use commands::Command;
pub use faults::LineFault;
pub use laws::{
    a_line_has_one_reading, a_name_has_one_message, a_text_has_one_archive, a_text_has_one_book,
    a_text_has_one_clock_call, a_text_has_one_list_of_lines, a_text_has_one_mailbox,
    a_text_has_one_refusal, a_text_has_one_refused_line, a_text_has_one_submission,
    lines_are_put_in_their_order, words_have_one_event,
};
pub use mailboxes::{item_text, items_text, vault_text};
pub use marks::marks_text;
pub use pages::Page;
pub use refusals::{fault_text, refused_text};
pub use turns::turns_text;
