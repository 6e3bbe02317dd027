ghost use Rattle.std.specs.Prelude.{◌≡◌, ◌<◌, find, length};
ghost use Rattle.std.specs.Str.{bytes_eq};
ghost use Rattle.pec_script.specs.Forms.{kinds_of};
ghost use Rattle.pec_script.specs.LinesReading.{verb_of, word_of};
ghost use Rattle.pec_script.specs.declared.verbs.Verb.{Verb as VerbShown};

/// What a command asks for, by the word that its line begins with.
#[derive(Clone, Copy, Debug, PartialEq, Eq)]
pub enum Verb {
    Submit,
    Tick,
    Round,
    Lose,
    Repeat,
    Swap,
    Inject,
    Crash,
    Restart,
    Book,
    Mailbox,
    Show,
    Archive,
    Upgrade,
    Vault,
    VaultShow,
    Screen,
}

/// All verbs.
const VERBS: [Verb; 17] = [
    Verb::Submit,
    Verb::Tick,
    Verb::Round,
    Verb::Lose,
    Verb::Repeat,
    Verb::Swap,
    Verb::Inject,
    Verb::Crash,
    Verb::Restart,
    Verb::Book,
    Verb::Mailbox,
    Verb::Show,
    Verb::Archive,
    Verb::Upgrade,
    Verb::Vault,
    Verb::VaultShow,
    Verb::Screen,
];

impl Verb {
    /// The verb of a word.
    #[tactic(auto, unfolding(crate::specs::LinesReading::verb_of))]
    pub(crate) fn of(word: &[u8]) -> Option<Verb>
        ensures { result ≡ verb_of word.now }
    {
        first_of(&VERBS, word)
    }

    /// How many arguments its form has.
    pub(crate) fn arguments(self) -> usize
        ensures count { result ≡ length (kinds_of self) }
        ensures few { result < 6 }
    {
        match self {
            Verb::Submit => 5,
            Verb::Lose | Verb::Repeat | Verb::Swap | Verb::Inject | Verb::Archive => 3,
            Verb::Tick | Verb::Show | Verb::Upgrade | Verb::VaultShow | Verb::Screen => 2,
            Verb::Round | Verb::Crash | Verb::Restart | Verb::Book | Verb::Mailbox | Verb::Vault =>
                1,
        }
    }

    /// The word that its line begins with.
    #[tactic(auto, unfolding(crate::specs::LinesReading::word_of))]
    fn word(&self) -> &'static [u8]
        ensures { result.now ≡ word_of self.now }
    {
        match self {
            Verb::Submit => b"submit",
            Verb::Tick => b"tick",
            Verb::Round => b"round",
            Verb::Lose => b"lose",
            Verb::Repeat => b"repeat",
            Verb::Swap => b"swap",
            Verb::Inject => b"inject",
            Verb::Crash => b"crash",
            Verb::Restart => b"restart",
            Verb::Book => b"book",
            Verb::Mailbox => b"mailbox",
            Verb::Show => b"show",
            Verb::Archive => b"archive",
            Verb::Upgrade => b"upgrade",
            Verb::Vault => b"vault",
            Verb::VaultShow => b"vault-show",
            Verb::Screen => b"screen",
        }
    }
}

/// The first of these verbs whose word this is.
fn first_of(verbs: &[Verb], word: &[u8]) -> Option<Verb>
    ensures { result ≡ find (λ (verb : VerbShown). bytes_eq word.now (word_of verb)) verbs.now }
{
    for verb in verbs {
        if word == verb.word() {
            return Some(*verb);
        }
    }
    None
}
