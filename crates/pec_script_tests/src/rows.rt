//! Rows of tables that have to hold.
use std::process::Abort;

/// Ends the test where a row doesn't hold, and tells which one.
pub(crate) fn holds(rt: &impl Abort, is_so: bool, row: &str) {
    if !is_so {
        rt.panic(row);
    }
}

/// The same of a row that a number tells.
pub(crate) fn holds_at(rt: &impl Abort, is_so: bool, number: u64) {
    if !is_so {
        rt.panic(number);
    }
}

/// Ends the test where one of its rows is wrong, and tells which one.
pub(crate) fn all_hold(rt: &impl Abort, wrong: Option<&str>) {
    if let Some(row) = wrong {
        rt.panic(row);
    }
}
