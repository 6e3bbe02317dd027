//! Journals on disks in memory, on one that only says how long entries are, and on files.
mod dealt;
mod depots;
mod journals;
mod standard_streams;
