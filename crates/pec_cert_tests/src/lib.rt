//! Tests of `pec_cert`, `pec_seal`, `pec_frames`, `pec_records`, `pec_heads`, `pec_bodies`, `pec_brief` and `pec_ldif`
//! over their public calls: the vectors of docs/formats.md, and what text can't say;
//! the others are tests/vectors. What is expected of heads, bodies and brief forms was worked out by hand from the rules of
//! RFC 5322, RFC 2045, RFC 2046 and this project's profile; digests are those of the standard's examples, or of another
//! implementation of SHA-256.
#![tactic(auto)]

#[cfg(test)]
mod briefs;
#[cfg(test)]
mod certificates;
#[cfg(test)]
mod composed;
#[cfg(test)]
mod frames;
#[cfg(test)]
mod heads;
#[cfg(test)]
mod ldif;
#[cfg(test)]
mod parts;
#[cfg(test)]
mod records;
#[cfg(test)]
mod rows;
#[cfg(test)]
mod seals;
#[cfg(test)]
mod texts;
