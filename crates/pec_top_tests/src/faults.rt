//! Everything fails in turn: tables of runs over memory, of which each loops over the number of what fails or is cut.
mod calls;
mod changes;
mod devices;
mod false_disks;
mod frames;
mod images;
mod reads;
