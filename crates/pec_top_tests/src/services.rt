//! Services on empty disks: what is answered to each connection, and what is written of it.
mod answers;
mod faults;
mod refusals;
mod requests;
mod serving;
