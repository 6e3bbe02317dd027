//! The top call: a run of the network, from the words and the bytes that come in to the bytes that go out and the
//! journals that are left.
#![tactic(auto)]

mod calling;
mod checking;
mod complete;
mod ending;
mod exporting;
mod extracting;
mod forms;
mod hosting;
mod input;
pub mod laws;
mod loading;
mod opening;
mod reporting;
mod run;
mod said;
mod script;
mod status;
mod survey;
mod texts;
mod top;

pub use complete::each_form_is_complete;
pub use status::Status;
pub use top::run_pec;
