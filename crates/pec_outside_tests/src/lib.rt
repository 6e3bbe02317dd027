//! Tests of `pec_types`, `pec_index`, `pec_link`, `pec_outside`, `pec_journal`, `pec_files`, `pec_chronicle` and
//! `pec_http` over their public calls.
#![tactic(auto)]

#[cfg(test)]
mod addresses;
#[cfg(test)]
mod arguments;
#[cfg(test)]
mod chronicles;
#[cfg(test)]
mod clocks;
#[cfg(test)]
mod disks;
#[cfg(test)]
mod doors;
#[cfg(test)]
mod files;
#[cfg(test)]
mod http;
#[cfg(test)]
mod indexes;
#[cfg(test)]
mod kept;
#[cfg(test)]
mod links;
#[cfg(test)]
mod rows;
#[cfg(test)]
mod streams;
#[cfg(test)]
mod texts;
