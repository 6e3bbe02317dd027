//! Tests of `pec_screen`, `pec_points` and `pec_script` over their public calls.
#![tactic(auto)]

#[cfg(test)]
mod admission;
#[cfg(test)]
mod answers;
#[cfg(test)]
mod boxes;
#[cfg(test)]
mod counting;
#[cfg(test)]
mod patterns;
#[cfg(test)]
mod printing;
#[cfg(test)]
mod reception;
#[cfg(test)]
mod rows;
#[cfg(test)]
mod screens;
#[cfg(test)]
mod values;
