ghost use Rattle.std.specs.Prelude.{◌≡◌, ◌↔◌, ℕ, ◌<◌, ◌^◌, List, length, IsTrue, IfSome, position, Some, None};
ghost use Rattle.pec_types.specs.Bytes.{Bytes};
ghost use Rattle.pec_screen.specs.Occurrence.{Occurs, occurs};
ghost use Rattle.pec_screen.specs.VerdictReading.{rule_in};
ghost use Rattle.pec_screen.specs.Verdicts.{FindsNone, IsRule, Patterns};

use crate::looking::Screen;
use memchr::memmem;
use pec_types::Text8;

/// A screen over patterns of bytes.
#[derive(Drop)]
pub struct PatternScreen {
    patterns: Vec<Text8>,
    seen: u64,
    ghost few: { length patterns.items < 2 ^ 32 },
}

impl PatternScreen {
    /// A screen of these patterns, in their order, that hasn't looked yet. It takes no memory.
    pub fn new(patterns: Vec<Text8>) -> PatternScreen
        requires { length patterns.items < 2 ^ 32 }
        ensures patterns { ⟦<PatternScreen as Screen>⟧.patterns result ≡ patterns.items }
        ensures seen { ⟦<PatternScreen as Screen>⟧.seen result ≡ 0 }
    {
        PatternScreen { patterns, seen: 0 }
    }

    /// How often the screen has looked; the greatest `u64` is the last number. It takes no memory.
    pub fn seen(&self) -> u64
        ensures { result ≡ ⟦<PatternScreen as Screen>⟧.seen self.now }
    {
        self.seen
    }
}

impl Screen for PatternScreen {
    ghost patterns = { λ screen. screen.patterns.items };

    ghost seen = { λ screen. screen.seen };

    ghost few = { λ screen. screen.few };

    fn look(&mut self, message: &[u8]) -> Option<u32> {
        self.seen = self.seen.saturating_add(1);
        let rule = first_rule(self.patterns.as_slice(), message)?;
        Some(rule as u32)
    }
}

/// The number of the first pattern that occurs in the message.
#[tactic(auto, unfolding(crate::specs::VerdictReading::rule_in))]
fn first_rule(patterns: &[Text8], message: &[u8]) -> Option<usize>
    ensures rule { result ≡ rule_in patterns.now message.now }
    ensures within { IfSome result (λ rule. rule < length patterns.now) }
{
    patterns
        .iter()
        .position(|pattern| stands_in(message, pattern.bytes()))
}

/// Whether the pattern occurs in the message, in time linear in the message.
fn stands_in(message: &[u8], pattern: &[u8]) -> bool
    ensures { result ≡ occurs pattern.now message.now }
{
    memmem::find(message, pattern).is_some()
}

/// A pattern occurs where it stands somewhere in the message, byte for byte; and the rule that a screen finds is the
/// least number of a pattern that occurs, and none exactly where no pattern does.
pub fn a_rule_is_the_least_pattern()
    ensures occurs { (pattern : Bytes) (message : Bytes) → IsTrue (occurs pattern message) ↔ Occurs pattern message }
    ensures rule { (patterns : Patterns) (message : Bytes) (rule : ℕ) →
        (rule_in patterns message ≡ Some rule) ↔ IsRule patterns message rule }
    ensures none { (patterns : Patterns) (message : Bytes) →
        (rule_in patterns message ≡ None) ↔ FindsNone patterns message }
{}
