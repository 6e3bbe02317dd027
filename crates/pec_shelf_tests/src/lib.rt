//! Tests of `pec_shelf` over its public calls: scripts of entries and questions, beside the lines that have to come.
#![tactic(auto)]

#[cfg(test)]
mod conditions;
#[cfg(test)]
mod directories;
#[cfg(test)]
mod large;
#[cfg(test)]
mod lines;
#[cfg(test)]
mod messages;
#[cfg(test)]
mod plain;
#[cfg(test)]
mod plain_answers;
#[cfg(test)]
mod plain_boxes;
#[cfg(test)]
mod playing;
#[cfg(test)]
mod random;
#[cfg(test)]
mod reading;
#[cfg(test)]
mod rows;
#[cfg(test)]
mod steps;
#[cfg(test)]
mod worked;
