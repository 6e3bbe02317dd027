//! One provider's entries over its disk: each outlives a crash from the moment on that its append is answered, and
//! after a crash they are there again, with the entry whose append was cut off or without it. It knows nothing of what
//! an entry means.
#![tactic(auto)]

mod chronicle;
mod crashes;
mod drives;
mod encoded;
mod faults;
mod history;
mod laws;
mod openings;

pub use chronicle::Chronicle;
pub use crashes::Past;
pub use encoded::Encoded;
pub use faults::{AppendFault, CreateFault, OpenFault, ReadFault};
pub use laws::{a_disk_holds_one_list, a_journal_ends_behind_its_entries, texts_are_of_one_list};
pub use openings::Opening;
