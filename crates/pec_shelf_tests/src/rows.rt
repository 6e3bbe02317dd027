//! Rows of tables that have to hold.
use std::process::Abort;

/// Ends the test where one of its rows is wrong, and tells which one.
pub(crate) fn all_hold(rt: &impl Abort, wrong: Option<&str>) {
    if let Some(row) = wrong {
        rt.panic(row);
    }
}
