//! Real files as disks, a folder of them as a depot, readers and writers as sources and sinks, and the words of the
//! program: the trusted edge towards the file system, the standard streams and what the system tells. None tells what it
//! holds.
#![tactic(auto)]

mod arguments;
mod file_depot;
mod file_disk;
mod names;
mod opening;
mod streams;

pub use arguments::words;
pub use file_depot::FileDepot;
pub use file_disk::FileDisk;
pub use names::{journal_path, two_providers_have_two_journals};
pub use streams::{Input, Output};
