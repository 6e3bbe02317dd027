//! What a run of the program is, and what it writes. There is no code here: each function is a law, whose contract is
//! the statement.
#![tactic(auto)]

mod complete;
mod examples;
mod headline;
mod inputs;
mod keeping;
mod leaving;
mod moments;
mod moving;
mod passing;
mod quiet;
mod reading;
mod resuming;
mod runs;
mod settings;
mod steps;
mod writing;

pub use complete::{a_run_without_faults_is_complete, journals_are_had_without_faults};
pub use examples::{runs_of_the_examples, texts_of_the_examples};
pub use headline::the_books_belong_to_the_ledger;
pub use inputs::a_line_is_one_thing;
pub use keeping::{no_entry_is_told_as_changed, what_is_due_is_no_forged_frame};
pub use leaving::{a_journal_that_is_there_survives, a_run_leaves_its_journals};
pub use moments::{a_run_may_be_killed_at_any_moment, what_was_told_is_kept};
pub use moving::moves_are_joined;
pub use passing::{
    a_run_passes_its_disks_on, a_run_tells_what_its_disks_hold, disks_are_passed_on,
    runs_go_on_from_one_another, what_is_passed_on_fits,
};
pub use quiet::{
    a_run_without_faults_has_one_transcript, a_run_without_faults_is_there,
    a_script_without_faults_is_one,
};
pub use reading::lines_are_climbed;
pub use resuming::{a_resumed_run_begins_where_the_last_left, a_script_may_be_cut};
pub use runs::{a_run_begins_sound, a_runs_books_belong_to_the_ledger};
pub use settings::{one_input_has_one_transcript, providers_have_one_world};
pub use steps::{acts_are_a_script, acts_are_joined, an_act_is_done};
pub use writing::{a_status_says_what_was_written, answers_are_whole_lines, faults_are_counted};
