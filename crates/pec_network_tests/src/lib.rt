//! Tests of `pec_provider` and `pec_network` over their public calls: providers without a network, and networks of two,
//! over disks in memory, driven line by line, beside the answers that have to come.
#![tactic(auto)]

#[cfg(test)]
mod beginning;
#[cfg(test)]
mod cases;
#[cfg(test)]
mod digests;
#[cfg(test)]
mod net;
#[cfg(test)]
mod providers;
#[cfg(test)]
mod words;
#[cfg(test)]
mod workers;
