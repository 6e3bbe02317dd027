//! What a run of the program is that serves connections: what each comes to at the desk of the network, what is played
//! of it, and how a service ends. There is no code here: each public function is a law with an empty body, whose
//! contract is the statement.
#![tactic(auto)]

mod complete;
mod headline;
mod isolation;
mod joining;
mod passing;
mod replies;
mod runs;
mod showing;

pub use complete::a_service_without_faults_is_complete;
pub use headline::a_services_books_belong_to_the_ledger;
pub use isolation::{a_caller_is_answered_its_own, a_runs_callers_are_answered_their_own};
pub use joining::{acts_are_calls, calls_are_joined, connections_are_joined};
// What the crates above name of the acts of a run.
pub use passing::{a_service_passes_its_disks_on, calls_go_on_from_one_another};
pub use pec_runs::{acts_are_joined, moves_are_joined};
pub use replies::{a_connection_has_one_reply, what_was_stored_is_not_answered_500};
pub use runs::{
    a_journal_is_refused_at_its_head, a_run_without_faults_serves_all,
    a_serving_runs_books_belong_to_the_ledger,
};
pub use showing::{a_serving_run_shows_the_ledger, what_is_shown_is_the_ledgers};
