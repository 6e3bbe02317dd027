//! How a network plays: what a provider does on a frame, a pair, a submission or a clock call, by the tables of the
//! trade; turns and rounds; the commands of a script, crashes and restarts too. There is no code here: each function is
//! a law, whose contract is the statement.
#![tactic(auto)]

mod examples;
mod reception;
mod refusals;
mod rounds;
mod rules;
mod runs;
mod soundness;
mod turns;

pub use examples::{a_run_is_there, answers_of_the_examples};
pub use reception::{
    a_frame_is_received_by_its_row, decisions_are_the_table, reception_is_the_table,
};
pub use refusals::{
    archiving_is_refused_in_order, clock_calls_are_refused_in_order,
    submissions_are_refused_in_order, upgrades_are_refused_in_order,
};
pub use rounds::a_round_is_its_turns;
pub use rules::{
    the_next_pairs_are_left, what_a_provider_does_is_its_own, what_a_provider_does_may_follow,
};
pub use runs::{a_command_appends, answers_settle_the_state, no_two_answers, quiet_runs_are_one};
pub use soundness::{
    a_cut_turn_is_a_front, a_network_stays_sound, composed_letters_are_licensed,
    due_letters_are_composed, taken_messages_have_originals, undecided_pairs,
};
pub use turns::{
    a_cut_is_told, a_plan_goes_step_by_step, a_turn_puts_what_is_due, frames_are_taken_in_order,
};
