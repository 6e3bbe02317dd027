ghost use Rattle.std.specs.Prelude.{◌≡◌, ℕ, ◌<◌, ◌^◌, List, length};
ghost use Rattle.pec_screen.specs.VerdictReading.{rule_in};
ghost use Rattle.pec_screen.specs.Verdicts.{counted};

/// What looks at messages for the patterns that it has. This project's profile.
pub trait Screen: Send + Drop {
    /// The patterns, each as its bytes. The number of a pattern, from 0, is the rule that it stands for.
    ghost patterns: { Self → List (List ℕ) };

    /// How often the screen has looked.
    ghost seen: { Self → ℕ };

    /// The least number of a pattern that occurs in the message, or `None` where none does. It takes no memory.
    fn look(&mut self, message: &[u8]) -> Option<u32>
        ensures found { result ≡ rule_in (patterns self.old) message.now }
        ensures patterns { patterns self.new ≡ patterns self.old }
        // The count stays at its greatest value.
        ensures seen { seen self.new ≡ counted (seen self.old) };

    ghost few: { (screen : Self) → length (patterns screen) < 2 ^ 32 };
}
