//! A screen that has no pattern, and tells outside how often it was asked.

ghost use Rattle.std.specs.Prelude.{[]};
ghost use Rattle.std.proofs.Common.{rules};

use pec_screen::Screen;
use std::alloc::Global;
use std::sync::Arc;
use std::sync::atomic::{AtomicU64, Ordering};

#[derive(Drop)]
pub struct Counting {
    pub looks: Arc<AtomicU64, Global>,
    pub seen: u64,
}

impl Screen for Counting {
    ghost patterns = { λ _. [] };

    ghost seen = { λ screen. screen.seen };

    ghost few = { λ _. Prim.search rules };

    #[tactic(auto, unfolding(pec_screen::specs::VerdictReading::rule_in))]
    fn look(&mut self, _message: &[u8]) -> Option<u32> {
        self.seen = self.seen.saturating_add(1);
        self.looks.fetch_add(1, Ordering::SeqCst);
        None
    }
}
