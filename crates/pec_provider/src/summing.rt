ghost use Rattle.std.specs.Prelude.{◌≡◌, ℕ, List};
ghost use Rattle.pec_directory.specs.Directory.{Kept};
ghost use Rattle.pec_ledger.specs.OfDirectory.{IsOf};
ghost use Rattle.pec_ledger.specs.Steps.{half};
ghost use Rattle.pec_ledger.specs.Trade.{Trade};
ghost use Rattle.pec_seal.specs.Seals.{Seals};
ghost use Rattle.pec_shelf.specs.Summaries.{IsUpTo, most_pairs, summary_of, summary_within};
ghost use Rattle.pec_provider.specs.Provider.{Runs};

use crate::provider::Provider;
use pec_shelf::Summary;
use pec_types::Moment;

impl<D> Provider<D> {
    /// What has become of its messages, in numbers, also while it is down. It takes no memory.
    pub fn summary(&self) -> Summary
        ensures is { (kept : List Kept) (seals : Seals) (me : ℕ) (trade : Trade) → Runs kept seals me self.now → IsOf kept trade
            → result ≡ summary_of trade me (half trade me self.now.chronicle.entries) }
        ensures few { IsUpTo result most_pairs }
    {
        self.shelf.summary()
    }

    /// What has become of the messages that it accepted in a range of moments, whose ends belong to it, in numbers, also
    /// while it is down. It takes no memory.
    pub fn summary_within(&self, from: Moment, upto: Moment) -> Summary
        ensures is { (kept : List Kept) (seals : Seals) (me : ℕ) (trade : Trade) → Runs kept seals me self.now → IsOf kept trade
            → result ≡ summary_within trade me from upto (half trade me self.now.chronicle.entries) }
        ensures few { IsUpTo result most_pairs }
    {
        self.shelf.summary_within(from, upto)
    }
}
