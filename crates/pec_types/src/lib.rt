//! The words of the trade: addresses, moments, texts and what messages, receipts and books are made of.
//! It knows no device, and no format but that of an address.
#![tactic(auto)]

mod addresses;
mod disputes;
mod faults;
mod frames;
mod letters;
mod limits;
mod lists;
mod mailboxes;
mod messages;
mod moments;
mod places;
mod receipts;
mod scanning;
mod steps;
mod texts;
mod timetable;
mod turns;
mod words;

pub use addresses::{
    Address, AddressFault, an_address_has_its_bytes_alone, an_address_is_told_exactly,
    what_is_read_is_in_lower_case,
};
pub use disputes::{Disputed, LetterFault};
pub use faults::NoMemory;
pub use frames::Frame;
pub use letters::Letter;
pub use limits::{Due, LATE_AFTER, NOTICE_AFTER, WARNING_AFTER, a_pair_has_one_due, timed};
pub use lists::Items;
pub use mailboxes::{ItemKind, ItemLine, Mark};
pub use messages::{
    BookLine, Cause, Class, Decision, Facts, MESSAGES, MsgId, Recipient, Refusal, Wish,
};
pub use moments::{END_OF_TIME, Moment, is_within};
pub use places::Place;
pub use receipts::Kind;
pub use scanning::{Stand, lower_addresses_pass};
pub use steps::Steps;
pub use texts::{Text, Text8, TextFault, first_unprintable, printable_is_said_of_each_byte};
pub use timetable::Timetable;
pub use turns::{Event, ProviderFault, Submitted, Turn};
pub use words::{each_cause_is_one_of_all, id_text, seven_digits, seven_digits_are_read_back};
