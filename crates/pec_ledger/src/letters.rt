ghost use Rattle.std.specs.Prelude.{◌≡◌, ℕ, ◌<◌, ◌⊎◌, List, Contains, IsSome, Option, Some, None, slice_get};
ghost use Rattle.pec_types.specs.Bytes.{Bytes};
ghost use Rattle.pec_types.specs.Message.{Id};
ghost use Rattle.pec_types.specs.declared.letters.Letter.{Letter as SomeLetter};
ghost use Rattle.pec_types.specs.declared.letters.Letter.TheVariants as letters;
ghost use Rattle.pec_types.specs.declared.messages.Decision.{Decision as SomeDecision};
ghost use Rattle.pec_types.specs.declared.messages.Decision.TheVariants as decisions;
ghost use Rattle.pec_types.specs.declared.messages.Refusal.TheVariants as refusals;
ghost use Rattle.pec_types.specs.declared.moments.TheConstants.{END_OF_TIME};
ghost use Rattle.pec_types.specs.declared.receipts.Kind.TheVariants as kinds;
ghost use Rattle.pec_records.specs.declared.entries.Entry.{Entry};
ghost use Rattle.pec_records.specs.declared.entries.Entry.TheVariants as entries;
ghost use Rattle.pec_ledger.specs.Half.{Fate, Known, Posted, Taken};
ghost use Rattle.pec_ledger.specs.Items.{IsItemText, item_text};
ghost use Rattle.pec_ledger.specs.Ledger.{accepted_in, body_at, Fit, HasOriginal, IsAckText, IsChargeText, IsDecidedSo, IsEnvelopeText, IsLicensed, IsLicensedText, IsOutcomeText, Journals, ledger};
ghost use Rattle.pec_ledger.specs.Lookups.{Accepted, accepted_at, addresses_of, decided_of, HasPairsAt, known_of, outcome_kind, taken_of};
ghost use Rattle.pec_ledger.specs.Network.{IsGenuineText};
ghost use Rattle.pec_ledger.specs.Own.{IsOwnPair, IsTakenPair};
ghost use Rattle.pec_ledger.specs.Pairs.{Pair, pair_of};
ghost use Rattle.pec_ledger.specs.Steps.{half};
ghost use Rattle.pec_ledger.specs.Trade.{Receipt, SeenEnvelope, SeenReceipt, Trade};
ghost use Rattle.pec_ledger.specs.TradeLaws.{CanBeComposed, IsSent, IsTrade, letter_in};

/// In journals that are Fit each accepted message has its original at its entry, each taken one its envelope, each row
/// licenses its letter, each licensed letter has one text, a pair is decided at its recipient's home alone, where it
/// was taken, a pair is known at its message's provider alone, and each item has its bytes.
pub fn rows_have_their_texts()
    ensures originals { (trade : Trade) (journals : Journals) → Fit trade journals → (id : Id) (message : Accepted)
        → accepted_in trade journals id ≡ Some message → (original : Bytes) × HasOriginal trade journals id message original }
    ensures envelopes { (trade : Trade) (journals : Journals) → Fit trade journals → (id : Id) (message : Accepted) (to : ℕ)
        → accepted_in trade journals id ≡ Some message → HasPairsAt trade message to → IsLicensed trade journals (letters.Envelope id to) }
    ensures takings { (trade : Trade) (journals : Journals) → Fit trade journals → (by : ℕ) (id : Id) (row : Taken)
        → taken_of (ledger trade journals by) id ≡ Some row
        → (bytes : Bytes) × (body_at (journals by) row.entry ≡ Some bytes) × IsEnvelopeText trade journals id by bytes }
    ensures charges { (trade : Trade) (journals : Journals) → Fit trade journals → (by : ℕ) (id : Id) (row : Taken)
        → taken_of (ledger trade journals by) id ≡ Some row → IsLicensed trade journals (letters.Charge id by) }
    ensures outcomes { (trade : Trade) (journals : Journals) → Fit trade journals → (provider : ℕ) (pair : Pair) (fate : Fate)
        → decided_of (ledger trade journals provider) pair ≡ Some fate → IsLicensed trade journals (letters.Outcome pair.id pair.recipient) }
    ensures decisions { (trade : Trade) (journals : Journals) → Fit trade journals → (provider : ℕ) (pair : Pair) (fate : Fate)
        → decided_of (ledger trade journals provider) pair ≡ Some fate
        → IsTakenPair trade provider (ledger trade journals provider) pair }
    ensures homes { (trade : Trade) (journals : Journals) → Fit trade journals → (provider : ℕ) (pair : Pair) (fate : Fate)
        → decided_of (ledger trade journals provider) pair ≡ Some fate → trade.home pair.recipient ≡ Some provider }
    ensures knowns { (trade : Trade) (journals : Journals) → Fit trade journals → (provider : ℕ) (pair : Pair) (row : Known)
        → known_of (ledger trade journals provider) pair ≡ Some row
        → IsOwnPair trade provider (ledger trade journals provider) pair }
    ensures acks { (trade : Trade) (journals : Journals) → Fit trade journals → (pair : Pair) (row : Known)
        → known_of (ledger trade journals pair.id.provider) pair ≡ Some row → IsLicensed trade journals (letters.Ack pair.id pair.recipient) }
    ensures one { (trade : Trade) (journals : Journals) → Fit trade journals → (letter : SomeLetter) (a b : Bytes)
        → IsLicensedText trade journals letter a → IsLicensedText trade journals letter b → a ≡ b }
    ensures items { (trade : Trade) (journals : Journals) → Fit trade journals → (provider : ℕ) (posted : Posted)
        → Contains (ledger trade journals provider).items posted → IsSome (item_text trade provider (journals provider) posted) }
{}

/// In every journal, whatever else it holds, an accepted message has its original at its entry, and its row has the
/// facts of that.
pub fn an_accepted_message_has_its_original()
    ensures { (trade : Trade) (provider : ℕ) (journal : List Entry) (number : ℕ) (message : Accepted)
        → accepted_at (half trade provider journal) number ≡ Some message
        → (original : Bytes) × (body_at journal message.entry ≡ Some original) × (trade.facts original ≡ Some message.facts) }
{}

/// In every journal, whatever else it holds, a message that was taken has its envelope at its entry.
pub fn a_taken_message_has_its_envelope()
    ensures { (trade : Trade) (provider : ℕ) (journal : List Entry) (id : Id) (row : Taken)
        → taken_of (half trade provider journal) id ≡ Some row
        → (moment : ℕ) × (envelope : Bytes) × (slice_get journal row.entry ≡ Some (entries.Took moment id envelope)) }
{}

/// What a reader sees in a licensed text is its letter, with the moment of its row. The text of an item is that of a
/// licensed letter, or is seen as no letter: a frame that holds it does no harm.
pub fn texts_are_seen()
    ensures envelopes { (trade : Trade) (journals : Journals) → Fit trade journals → IsTrade trade
        → (id : Id) (to : ℕ) (bytes : Bytes) (is : IsEnvelopeText trade journals id to bytes)
        → trade.view bytes ≡ Some (SeenEnvelope id is.message.moment is.original) }
    ensures addressees { (trade : Trade) (journals : Journals) → Fit trade journals → IsTrade trade
        → (id : Id) (to : ℕ) (bytes : Bytes) (is : IsEnvelopeText trade journals id to bytes)
        → trade.envelope_recipients bytes ≡ addresses_of is.message.facts }
    ensures charges { (trade : Trade) (journals : Journals) → Fit trade journals → IsTrade trade
        → (id : Id) (by : ℕ) (bytes : Bytes) (is : IsChargeText trade journals id by bytes)
        → trade.view bytes ≡ Some (SeenReceipt (record { kind = kinds.Charge; id = id; by = by; moment = is.row.moment; recipient = None })) }
    ensures outcomes { (trade : Trade) (journals : Journals) → Fit trade journals → IsTrade trade
        → (pair : Pair) (bytes : Bytes) (is : IsOutcomeText trade journals pair bytes)
        → trade.view bytes ≡ Some (SeenReceipt (record {
          kind = outcome_kind is.fate.decision;
          id = pair.id;
          by = is.home;
          moment = is.fate.moment;
          recipient = Some pair.recipient;
        })) }
    ensures acks { (trade : Trade) (journals : Journals) → Fit trade journals → IsTrade trade
        → (pair : Pair) (bytes : Bytes) (is : IsAckText trade journals pair bytes)
        → trade.view bytes ≡ Some (SeenReceipt (record {
          kind = kinds.Ack;
          id = pair.id;
          by = pair.id.provider;
          moment = is.row.moment;
          recipient = Some pair.recipient;
        })) }
    ensures items { (trade : Trade) (journals : Journals) → Fit trade journals → IsTrade trade
        → (bytes : Bytes) → IsItemText trade journals bytes
        → ((letter : SomeLetter) × IsLicensedText trade journals letter bytes) ⊎ ((me : ℕ) → letter_in trade me bytes ≡ None) }
{}

/// In journals that are Fit each licensed letter can be composed: the message of an envelope was sent, at a moment that a
/// clock tells, and a charge, an outcome and an acknowledgement are receipts that can be composed of theirs.
pub fn licensed_letters_can_be_composed()
    ensures envelopes { (trade : Trade) (journals : Journals) → Fit trade journals → IsTrade trade
        → (id : Id) (to : ℕ) (bytes : Bytes) (is : IsEnvelopeText trade journals id to bytes)
        → IsSent trade id is.original × (is.message.moment < END_OF_TIME) }
    ensures charges { (trade : Trade) (journals : Journals) → Fit trade journals → IsTrade trade
        → (id : Id) (by : ℕ) (bytes : Bytes) (is : IsChargeText trade journals id by bytes)
        → CanBeComposed trade
        (record {
          kind = kinds.Charge;
          id = id;
          by = by;
          moment = is.row.moment;
          recipient = None;
        }) is.original }
    ensures outcomes { (trade : Trade) (journals : Journals) → Fit trade journals → IsTrade trade
        → (pair : Pair) (bytes : Bytes) (is : IsOutcomeText trade journals pair bytes)
        → CanBeComposed trade
        (record {
          kind = outcome_kind is.fate.decision;
          id = pair.id;
          by = is.home;
          moment = is.fate.moment;
          recipient = Some pair.recipient;
        }) is.original }
    ensures acks { (trade : Trade) (journals : Journals) → Fit trade journals → IsTrade trade
        → (pair : Pair) (bytes : Bytes) (is : IsAckText trade journals pair bytes)
        → CanBeComposed trade
        (record {
          kind = kinds.Ack;
          id = pair.id;
          by = pair.id.provider;
          moment = is.row.moment;
          recipient = Some pair.recipient;
        }) is.original }
{}

/// A genuine message that is seen as an envelope, a charge, an outcome or an acknowledgement meets the joint condition
/// of the entry that is made of it.
pub fn arrivals_are_true()
    ensures took { (trade : Trade) (journals : Journals) → Fit trade journals → IsTrade trade
        → (provider : ℕ) (bytes : Bytes) (id : Id) (moment : ℕ) (original : Bytes)
        → IsGenuineText trade journals bytes → trade.view bytes ≡ Some (SeenEnvelope id moment original)
        → (recipient : Bytes) → Contains (trade.envelope_recipients bytes) recipient → trade.home recipient ≡ Some provider
        → IsEnvelopeText trade journals id provider bytes }
    ensures charged { (trade : Trade) (journals : Journals) → Fit trade journals → IsTrade trade
        → (bytes : Bytes) → IsGenuineText trade journals bytes → (receipt : Receipt) → trade.view bytes ≡ Some (SeenReceipt receipt)
        → receipt.kind ≡ kinds.Charge → IsSome (taken_of (ledger trade journals receipt.by) receipt.id) }
    ensures learned { (trade : Trade) (journals : Journals) → Fit trade journals → IsTrade trade
        → (bytes : Bytes) → IsGenuineText trade journals bytes → (receipt : Receipt) → trade.view bytes ≡ Some (SeenReceipt receipt)
        → (decision : SomeDecision) → receipt.kind ≡ outcome_kind decision → (recipient : Bytes) → receipt.recipient ≡ Some recipient
        → IsOutcomeText trade journals (pair_of receipt.id recipient) bytes
        × IsDecidedSo trade journals (pair_of receipt.id recipient) decision receipt.moment }
    ensures acked { (trade : Trade) (journals : Journals) → Fit trade journals → IsTrade trade
        → (bytes : Bytes) → IsGenuineText trade journals bytes → (receipt : Receipt) → trade.view bytes ≡ Some (SeenReceipt receipt)
        → receipt.kind ≡ kinds.Ack → (recipient : Bytes) → receipt.recipient ≡ Some recipient
        → IsSome (known_of (ledger trade journals receipt.id.provider) (pair_of receipt.id recipient)) }
    // The delivery error of a virus leads to no entry, but what it tells is decided too.
    ensures viruses { (trade : Trade) (journals : Journals) → Fit trade journals → IsTrade trade
        → (bytes : Bytes) → IsGenuineText trade journals bytes → (receipt : Receipt) → trade.view bytes ≡ Some (SeenReceipt receipt)
        → receipt.kind ≡ kinds.DeliveryError refusals.Virus → (recipient : Bytes) → receipt.recipient ≡ Some recipient
        → (moment : ℕ) × IsDecidedSo trade journals (pair_of receipt.id recipient) (decisions.Refused refusals.Virus) moment }
{}
