//! One provider's half of the ledger: facts, places and numbers, and no bytes of messages. An entry is prepared first,
//! which takes memory and changes nothing, and then committed, which takes none and can't fail.
#![tactic(auto)]

mod accounts;
mod anomalies;
mod archives;
mod booking;
mod boxes;
mod certified;
mod checking;
mod conditions;
mod deadlines;
mod drafts;
mod drawers;
mod entry_places;
mod faults;
mod figures;
mod inbox;
mod keys;
mod laws;
mod lookups;
mod mailboxes;
mod marking;
mod moves;
mod outbox;
mod owing;
mod pair_rows;
mod preparing;
mod reading;
mod ready;
mod receipts;
mod receptions;
mod rows;
mod sharing;
mod shelf;
mod sizes;
mod still;
mod submissions;
mod summing;
mod undecided;
mod waiting;

pub use accounts::{is_among, quota};
pub use certified::Certified;
pub use checking::drafted;
pub use drafts::Draft;
pub use faults::DraftFault;
pub use laws::{a_directory_has_a_trade, what_is_kept_goes_on};
pub use pair_rows::Row;
pub use pec_types::{BookLine, ItemKind, ItemLine};
pub use preparing::moment_of;
pub use reading::recipients_named;
pub use ready::Ready;
pub use rows::{ChargeRow, FateRow, KnownRow, MessageRow, Placed, PostedRow, TakenRow};
pub use shelf::Shelf;
pub use summing::Summary;
