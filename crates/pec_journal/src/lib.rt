//! A journal: entries on a disk that outlive a crash at any moment. It knows nothing of what an entry says.
#![tactic(auto)]

mod faults;
mod journal;
mod laws;
mod reopening;
mod room;

pub use faults::{AppendFault, CreateFault, OpenFault, ReadFault};
pub use journal::{ENTRY_LIMIT, FRAMING, JOURNAL_LIMIT, Journal};
pub use laws::{a_file_has_one_list, entries_stand_at_their_places};
