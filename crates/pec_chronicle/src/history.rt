ghost use Rattle.std.specs.Prelude.{◌≡◌, List, [], ◌∷◌, ◌++◌};
ghost use Rattle.std.specs.Borrow.{ftrue};
ghost use Rattle.pec_records.specs.declared.entries.Entry.{Entry};

use crate::encoded::Encoded;
use std::marker::Model;

/// Entries that only proofs see, as `items`: it takes no memory, and its calls do nothing when the program runs. What
/// it says counts only where the invariant of its owner and the disk are tied to it.
#[derive(Drop)]
pub(crate) struct History {
    pub(crate) ghost items: { List Entry },
}

impl Model for History {
    ghost also_owns = { λ _. ftrue };
}

// It owns nothing, so it may go to another thread.
unsafe impl Send for History {}

impl History {
    /// No entries.
    pub(crate) fn new() -> History
        ensures { result.items ≡ [] }
    {
        History {}
    }

    /// These entries, and one more behind them.
    pub(crate) fn and(&self, entry: &Encoded) -> History
        ensures { result.items ≡ self.now.items ++ entry.now ∷ [] }
    {
        History {}
    }
}
