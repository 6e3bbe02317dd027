ghost use Rattle.std.specs.Prelude.{◌≡◌, ◌↔◌, ℕ, ◌≤◌, ◌<◌, Bool, true, false, List, [], ◌∷◌, Contains, length, map, take, Some, None};
ghost use Rattle.pec_types.specs.Bytes.{Bytes, Path};
ghost use Rattle.pec_types.specs.Message.{Id};
ghost use Rattle.pec_types.specs.declared.letters.Letter.{Letter as SomeLetter};
ghost use Rattle.pec_types.specs.declared.messages.BookLine.{BookLine as Line};
ghost use Rattle.pec_types.specs.declared.messages.Cause.{Cause as SomeCause};
ghost use Rattle.pec_types.specs.declared.messages.Decision.{Decision as SomeDecision};
ghost use Rattle.pec_types.specs.declared.messages.Decision.TheVariants as decisions;
ghost use Rattle.pec_types.specs.declared.messages.Refusal.{Refusal as SomeRefusal};
ghost use Rattle.pec_types.specs.declared.messages.Refusal.TheVariants as refusals;
ghost use Rattle.pec_types.specs.declared.receipts.Kind.TheVariants as kinds;
ghost use Rattle.pec_records.specs.declared.entries.Entry.TheVariants as entries;
ghost use Rattle.pec_ledger.specs.Books.{book};
ghost use Rattle.pec_ledger.specs.Changes.{Changes, adds_item, adds_message, nothing};
ghost use Rattle.pec_ledger.specs.Due.{due_letters, owed_letters};
ghost use Rattle.pec_ledger.specs.Half.{AnomalyItem, EnvelopeItem, Half, Mark, ReceiptItem};
ghost use Rattle.pec_ledger.specs.Lookups.{at_home, counted, receipt_kind, submitter};
ghost use Rattle.pec_ledger.specs.Marks.{marks_from};
ghost use Rattle.pec_ledger.specs.Own.{decision_at};
ghost use Rattle.pec_ledger.specs.Pairs.{id_of, pair_of};
ghost use Rattle.pec_ledger.specs.Steps.{anomaly_by, notice_by};
ghost use Rattle.pec_ledger.specs.Tables.{IsLineOf, IsMarked, IsOwed};
ghost use Rattle.pec_ledger.specs.Trade.{Trade};

use pec_types::a_pair_has_one_due;

/// The time table: a clock call marks a pair exactly where a row of the table owes its sender something.
pub fn the_time_table()
    ensures { (trade : Trade) (provider : ℕ) (half : Half) (now : ℕ) (mark : Mark)
        → Contains (marks_from trade provider half now 0 half.messages) mark ↔ IsMarked trade provider half now mark }
{
    a_pair_has_one_due();
}

/// The decision on a pair where no screen finds a rule, row by row: no account, no room, and otherwise placed.
pub fn the_decisions()
    ensures no_mailbox { (trade : Trade) (provider : ℕ) (half : Half) (recipient : Bytes)
        → (decision_at trade provider half recipient ≡ decisions.Refused refusals.NoMailbox) ↔ (trade.is_account provider recipient ≡ false) }
    ensures mailbox_full { (trade : Trade) (provider : ℕ) (half : Half) (recipient : Bytes)
        → (decision_at trade provider half recipient ≡ decisions.Refused refusals.MailboxFull)
        ↔ ((trade.is_account provider recipient ≡ true) × (trade.quota recipient ≤ counted half recipient)) }
    ensures placed { (trade : Trade) (provider : ℕ) (half : Half) (recipient : Bytes)
        → (decision_at trade provider half recipient ≡ decisions.Placed)
        ↔ ((trade.is_account provider recipient ≡ true) × (counted half recipient < trade.quota recipient)) }
{}

/// An account's book has a line for each of its accepted messages and certified recipients, and no other.
pub fn the_books()
    ensures { (trade : Trade) (provider : ℕ) (half : Half) (account : Bytes) (line : Line)
        → Contains (book trade provider half account) line ↔ IsLineOf trade provider half account line }
{}

/// What is owed to a provider: the answers for it, outcomes of which it hasn't said that it knows, and envelopes of
/// messages that it hasn't taken charge of and of which nothing is known. Those that are due are the first of them, as
/// many as the link has room for.
pub fn the_due_letters()
    ensures owed { (trade : Trade) (provider : ℕ) (half : Half) (to : ℕ) (owed : List SomeLetter) (letter : SomeLetter)
        → Contains (owed_letters trade provider half to owed) letter ↔ IsOwed trade provider half to owed letter }
    ensures due { (trade : Trade) (provider : ℕ) (half : Half) (to room : ℕ) (owed : List SomeLetter)
        → due_letters trade provider half to room owed ≡ take room (owed_letters trade provider half to owed) }
{}

/// What each entry changes: which rows it adds, and that it adds no others. Which version it makes of its journal, it
/// says alone (`version_by`).
pub fn what_an_entry_changes()
    ensures start { (trade : Trade) (provider : ℕ) (half : Half) (number : ℕ) (digest : Bytes)
        → Changes trade provider half (entries.Start number digest) nothing }
    ensures accepted { (trade : Trade) (provider : ℕ) (half : Half) (moment : ℕ) (sender message : Bytes)
        → Changes trade provider half (entries.Accepted moment sender message)
        (record (adds_item half sender (ReceiptItem kinds.Acceptance (id_of provider (length half.messages)) None moment)) {
          messages = adds_message half moment sender (trade.facts message) None [];
        }) }
    ensures not_accepted { (trade : Trade) (provider : ℕ) (half : Half) (moment : ℕ) (sender : Bytes) (cause : SomeCause) (path : Path) (message : Bytes)
        → Changes trade provider half (entries.NotAccepted moment sender cause path message)
        (record (adds_item half sender (ReceiptItem (kinds.NonAcceptance cause) (id_of provider (length half.messages)) None moment)) {
          messages = adds_message half moment sender None (Some cause) path;
        }) }
    ensures took { (trade : Trade) (provider : ℕ) (half : Half) (moment : ℕ) (id : Id) (message : Bytes)
        → Changes trade provider half (entries.Took moment id message)
        (record nothing {
          taken = record {
            id = id;
            moment = moment;
            recipients = at_home trade provider (trade.envelope_recipients message);
            entry = half.entries;
          } ∷ [];
        }) }
    ensures placed { (trade : Trade) (provider : ℕ) (half : Half) (moment : ℕ) (id : Id) (recipient : Bytes)
        → Changes trade provider half (entries.Decided moment id recipient decisions.Placed)
        (record (adds_item half recipient (EnvelopeItem id)) {
          decided = record { pair = pair_of id recipient; decision = decisions.Placed; moment = moment } ∷ [];
        }) }
    ensures refused { (trade : Trade) (provider : ℕ) (half : Half) (moment : ℕ) (id : Id) (recipient : Bytes) (refusal : SomeRefusal)
        → Changes trade provider half (entries.Decided moment id recipient (decisions.Refused refusal))
        (record nothing {
          decided = record { pair = pair_of id recipient; decision = decisions.Refused refusal; moment = moment } ∷ [];
        }) }
    ensures charged { (trade : Trade) (provider : ℕ) (half : Half) (moment : ℕ) (id : Id) (by : ℕ)
        → Changes trade provider half (entries.Charged moment id by)
        (record nothing { charged = record { id = id; by = by; moment = moment } ∷ [] }) }
    ensures learned { (trade : Trade) (provider : ℕ) (half : Half) (moment : ℕ) (id : Id) (recipient : Bytes) (decision : SomeDecision) (decided : ℕ) (message : Bytes)
        → Changes trade provider half (entries.Learned moment id recipient decision decided message)
        (record (adds_item half (submitter half id.number) (ReceiptItem (receipt_kind decision) id (Some recipient) moment)) {
          known = record { pair = pair_of id recipient; decision = decision; decided = decided; moment = moment } ∷ [];
        }) }
    ensures acked { (trade : Trade) (provider : ℕ) (half : Half) (moment : ℕ) (id : Id) (recipient : Bytes)
        → Changes trade provider half (entries.Acked moment id recipient) (record nothing { acked = pair_of id recipient ∷ [] }) }
    ensures ticked { (trade : Trade) (provider : ℕ) (half : Half) (moment : ℕ)
        → Changes trade provider half (entries.Ticked moment)
        (record nothing {
          marks = marks_from trade provider half moment 0 half.messages;
          items = map (notice_by half) (marks_from trade provider half moment 0 half.messages);
        }) }
    ensures anomaly { (trade : Trade) (provider : ℕ) (half : Half) (moment : ℕ) (accounts : Path) (message : Bytes)
        → Changes trade provider half (entries.Anomaly moment accounts message)
        (record nothing { items = map (anomaly_by half moment) accounts }) }
    ensures start_two { (trade : Trade) (provider : ℕ) (half : Half) (number : ℕ) (digest : Bytes)
        → Changes trade provider half (entries.StartTwo number digest) nothing }
    ensures upgraded { (trade : Trade) (provider : ℕ) (half : Half) (moment : ℕ)
        → Changes trade provider half (entries.Upgraded moment) nothing }
    ensures archived { (trade : Trade) (provider : ℕ) (half : Half) (moment : ℕ) (account : Bytes) (place : ℕ)
        → Changes trade provider half (entries.Archived moment account place)
        (record nothing { moves = record { account = account; place = place } ∷ [] }) }
{}
