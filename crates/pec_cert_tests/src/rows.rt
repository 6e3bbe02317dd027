//! Rows of tables that have to hold.
use std::process::Abort;

/// Ends the test where a row doesn't hold, and tells which one.
pub(crate) fn holds(rt: &impl Abort, is_so: bool, row: &str) {
    assert!(rt; is_so, "{row}");
}

/// The same of a row that a number and a text tell.
pub(crate) fn holds_at(rt: &impl Abort, is_so: bool, number: u64, row: &str) {
    assert!(rt; is_so, "{number} {row}");
}

/// The same of a row that bytes tell.
pub(crate) fn holds_of(rt: &impl Abort, is_so: bool, row: &[u8]) {
    assert!(rt; is_so, "{row:?}");
}
