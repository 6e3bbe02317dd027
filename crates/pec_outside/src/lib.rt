//! The outside as the program sees it: where bytes come from and where they go. What reads or writes is generic over
//! these traits. The memory forms tell what they hold, and fail where they are told. Their drops are written out, so
//! that to drop one is a call wherever it is done, and not the drops of all that it holds.
#![tactic(auto)]

mod calls;
mod counts;
mod depot;
mod disk;
mod disk_log;
mod door;
mod durable;
mod laws;
mod mem_connection;
mod mem_depot;
mod mem_disk;
mod mem_door;
mod mem_sink;
mod mem_source;
mod mem_ticks;
mod replies;
mod streams;
mod ticks;
mod unread;
mod writing;

pub use counts::Counted;
pub use depot::Depot;
pub use disk::Disk;
pub use door::Door;
pub use durable::write_through;
pub use laws::{a_disk_is_so, an_image_is_one_that_a_crash_leaves};
pub use mem_connection::MemConnection;
pub use mem_depot::MemDepot;
pub use mem_disk::MemDisk;
pub use mem_door::MemDoor;
pub use mem_sink::MemSink;
pub use mem_source::MemSource;
pub use mem_ticks::MemTicks;
pub use streams::{Failed, Sink, Source, Stream};
pub use ticks::Ticks;
pub use writing::write_all;
