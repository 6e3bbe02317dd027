ghost use Rattle.std.specs.Prelude.{◌≡◌, ℕ, true, List, Some};
ghost use Rattle.pec_types.specs.Bytes.{Bytes};
ghost use Rattle.pec_types.specs.Message.{Id};
ghost use Rattle.pec_types.specs.declared.letters.Letter.{Letter as SomeLetter};
ghost use Rattle.pec_records.specs.declared.entries.Entry.{Entry};
ghost use Rattle.pec_ledger.specs.Along.{GoesOnAs};
ghost use Rattle.pec_ledger.specs.Half.{Fate, Known, Taken};
ghost use Rattle.pec_ledger.specs.Items.{IsItemText};
ghost use Rattle.pec_ledger.specs.Ledger.{body_at, IsLicensedText, Joint, Journals};
ghost use Rattle.pec_ledger.specs.Lookups.{Accepted, accepted_at, decided_of, is_acked, known_of, taken_of};
ghost use Rattle.pec_ledger.specs.Network.{AreGenuine};
ghost use Rattle.pec_ledger.specs.Pairs.{Pair};
ghost use Rattle.pec_ledger.specs.Steps.{half};
ghost use Rattle.pec_ledger.specs.Trade.{Trade};

/// Nothing is taken away while journals go on: a licensed letter stays licensed and keeps its text, an item keeps its
/// bytes, a joint condition that is true stays true, and a genuine frame stays genuine.
pub fn licences_stand()
    ensures letters { (trade : Trade) (old new : Journals) → ((provider : ℕ) → GoesOnAs (old provider) (new provider))
        → (letter : SomeLetter) (bytes : Bytes) → IsLicensedText trade old letter bytes → IsLicensedText trade new letter bytes }
    ensures items { (trade : Trade) (old new : Journals) → ((provider : ℕ) → GoesOnAs (old provider) (new provider))
        → (bytes : Bytes) → IsItemText trade old bytes → IsItemText trade new bytes }
    ensures conditions { (trade : Trade) (old new : Journals) → ((provider : ℕ) → GoesOnAs (old provider) (new provider))
        → (provider : ℕ) (entry : Entry) → Joint trade old provider entry → Joint trade new provider entry }
    ensures frames { (trade : Trade) (old new : Journals) → ((provider : ℕ) → GoesOnAs (old provider) (new provider))
        → (frames : List Bytes) → AreGenuine trade old frames → AreGenuine trade new frames }
{}

/// What is found in a provider's rows is found there as long as its journal goes on: an accepted message, a taken one,
/// and of a pair what is decided, what is known, and that it is acknowledged; and so are the bytes that an entry holds.
pub fn rows_stand()
    ensures accepted { (trade : Trade) (provider : ℕ) (old new : List Entry) → GoesOnAs old new → (number : ℕ) (message : Accepted)
        → accepted_at (half trade provider old) number ≡ Some message → accepted_at (half trade provider new) number ≡ Some message }
    ensures taken { (trade : Trade) (provider : ℕ) (old new : List Entry) → GoesOnAs old new → (id : Id) (row : Taken)
        → taken_of (half trade provider old) id ≡ Some row → taken_of (half trade provider new) id ≡ Some row }
    ensures decided { (trade : Trade) (provider : ℕ) (old new : List Entry) → GoesOnAs old new → (pair : Pair) (fate : Fate)
        → decided_of (half trade provider old) pair ≡ Some fate → decided_of (half trade provider new) pair ≡ Some fate }
    ensures known { (trade : Trade) (provider : ℕ) (old new : List Entry) → GoesOnAs old new → (pair : Pair) (row : Known)
        → known_of (half trade provider old) pair ≡ Some row → known_of (half trade provider new) pair ≡ Some row }
    ensures acked { (trade : Trade) (provider : ℕ) (old new : List Entry) → GoesOnAs old new → (pair : Pair)
        → is_acked (half trade provider old) pair ≡ true → is_acked (half trade provider new) pair ≡ true }
    ensures bodies { (old new : List Entry) → GoesOnAs old new → (number : ℕ) (bytes : Bytes) → body_at old number ≡ Some bytes → body_at new number ≡ Some bytes }
{}
