ghost use Rattle.std.specs.Prelude.{◌≡◌, ℕ, true, IsSome, Some};
ghost use Rattle.pec_types.specs.Message.{Id};
ghost use Rattle.pec_ledger.specs.Half.{Charge, Taken};
ghost use Rattle.pec_ledger.specs.Ledger.{accepted_in, Fit, Journals, ledger};
ghost use Rattle.pec_ledger.specs.Lookups.{Accepted, addresses_of, at_home, charged_of, is_acked, known_of, taken_of};
ghost use Rattle.pec_ledger.specs.Pairs.{Pair};
ghost use Rattle.pec_ledger.specs.Trade.{Trade};
ghost use Rattle.pec_ledger.specs.TradeLaws.{IsTrade};

/// In journals that are Fit providers agree: a message that was charged by one was taken there, a pair that is
/// acknowledged is known where its message was accepted, what was taken is for those of the message's recipients who
/// are at home there, and who submitted an accepted message is the sender whom it names.
pub fn providers_agree()
    ensures charges { (trade : Trade) (journals : Journals) → Fit trade journals → (provider : ℕ) (id : Id) (by : ℕ) (charge : Charge)
        → charged_of (ledger trade journals provider) id by ≡ Some charge → IsSome (taken_of (ledger trade journals by) id) }
    ensures acks { (trade : Trade) (journals : Journals) → Fit trade journals → (provider : ℕ) (pair : Pair)
        → is_acked (ledger trade journals provider) pair ≡ true → IsSome (known_of (ledger trade journals pair.id.provider) pair) }
    ensures recipients { (trade : Trade) (journals : Journals) → Fit trade journals → IsTrade trade
        → (provider : ℕ) (id : Id) (row : Taken) (message : Accepted) → taken_of (ledger trade journals provider) id ≡ Some row
        → accepted_in trade journals id ≡ Some message → row.recipients ≡ at_home trade provider (addresses_of message.facts) }
    ensures senders { (trade : Trade) (journals : Journals) → Fit trade journals → (id : Id) (message : Accepted)
        → accepted_in trade journals id ≡ Some message → message.facts.sender ≡ message.sender }
{}
