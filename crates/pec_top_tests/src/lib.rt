//! Tests of `pec_top` over its public calls: whole runs of the program over memory, those that
//! serve connections too: the worked rows of docs/, and what text can't say. The others are tests/runs.
#![tactic(auto)]

#[cfg(test)]
mod archives;
#[cfg(test)]
mod checking;
#[cfg(test)]
mod delivery;
#[cfg(test)]
mod directories;
#[cfg(test)]
mod disks;
#[cfg(test)]
mod extracting;
#[cfg(test)]
mod faults;
#[cfg(test)]
mod forgery;
#[cfg(test)]
mod incoming;
#[cfg(test)]
mod input;
#[cfg(test)]
mod items;
#[cfg(test)]
mod ldif;
#[cfg(test)]
mod loading;
#[cfg(test)]
mod progress;
#[cfg(test)]
mod refusals;
#[cfg(test)]
mod running;
#[cfg(test)]
mod screens;
#[cfg(test)]
mod services;
#[cfg(test)]
mod serving;
#[cfg(test)]
mod shown;
#[cfg(test)]
mod versions;
