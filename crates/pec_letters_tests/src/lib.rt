//! Tests of `pec_directory`, `pec_letters` and `pec_receipts` over their public calls. Letters that are expected were
//! composed by another program; edited ones, and directories with faults, are rows of tests/vectors.
#![tactic(auto)]

#[cfg(test)]
mod directories;
#[cfg(test)]
mod houses;
#[cfg(test)]
mod letter_texts;
#[cfg(test)]
mod letters_composed;
#[cfg(test)]
mod letters_read;
#[cfg(test)]
mod lookups;
#[cfg(test)]
mod receipt_texts;
#[cfg(test)]
mod receipts_composed;
#[cfg(test)]
mod texts;
