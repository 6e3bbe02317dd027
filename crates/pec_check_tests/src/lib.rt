//! Tests of `pec_check`, `pec_dossier` and `pec_extract` over their public calls. What a letter is refused for was
//! found by hand in this project's tables.
#![tactic(auto)]

#[cfg(test)]
mod dossiers;
#[cfg(test)]
mod extract;
#[cfg(test)]
mod faults;
#[cfg(test)]
mod findings;
#[cfg(test)]
mod genuine;
#[cfg(test)]
mod houses;
#[cfg(test)]
mod letters;
