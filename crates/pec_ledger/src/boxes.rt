ghost use Rattle.std.specs.Prelude.{◌≡◌, ◌≢◌, ◌↔◌, ◌⊎◌, ◌<◌, ◌++◌, ◌∷◌, [], ℕ, suc, Bool, List, Contains, drop, filter, slice_get, take, Some};
ghost use Rattle.std.specs.Str.{bytes_eq};
ghost use Rattle.pec_types.specs.Bytes.{Bytes};
ghost use Rattle.pec_records.specs.declared.entries.Entry.{Entry};
ghost use Rattle.pec_records.specs.declared.entries.Entry.TheVariants as entries;
ghost use Rattle.pec_ledger.specs.Along.{times};
ghost use Rattle.pec_ledger.specs.Guarantees.{times_held};
ghost use Rattle.pec_ledger.specs.Half.{Half, Posted, empty};
ghost use Rattle.pec_ledger.specs.Ledger.{Fit, Follows, IsOfVersionTwo, Journals, ledger};
ghost use Rattle.pec_ledger.specs.Lookups.{archive, boxes, ever_placed, mailbox};
ghost use Rattle.pec_ledger.specs.Steps.{half, items_by, moves_by, step};
ghost use Rattle.pec_ledger.specs.Trade.{Trade};

/// What an entry does with mailboxes and archives. An item that is archived leaves its place in the mailbox, those
/// behind it stand one place further down, and it becomes the last one of the archive; the boxes of other accounts
/// stay. Every other entry places behind what a mailbox holds, and leaves archives as they are.
pub fn an_entry_fills_boxes()
    ensures taken_out { (trade : Trade) (provider : ℕ) (before : Half) (moment : ℕ) (account : Bytes) (place : ℕ)
        → mailbox (step trade provider before (entries.Archived moment account place)) account
        ≡ take place (mailbox before account) ++ drop (suc place) (mailbox before account) }
    ensures put_last { (trade : Trade) (provider : ℕ) (before : Half) (moment : ℕ) (account : Bytes) (place : ℕ) (item : Posted)
        → slice_get (mailbox before account) place ≡ Some item
        → archive (step trade provider before (entries.Archived moment account place)) account ≡ archive before account ++ item ∷ [] }
    ensures others { (trade : Trade) (provider : ℕ) (before : Half) (moment : ℕ) (account other : Bytes) (place : ℕ) → other ≢ account
        → boxes (step trade provider before (entries.Archived moment account place)) other ≡ boxes before other }
    // in a journal in which each entry may follow those before it
    ensures behind { (trade : Trade) (journals : Journals) (provider : ℕ) (front : List Entry) → Follows trade journals provider empty front
        → (entry : Entry) → moves_by entry ≡ [] → (account : Bytes)
        → mailbox (step trade provider (half trade provider front) entry) account
        ≡ mailbox (half trade provider front) account
        ++ filter (λ (posted : Posted). bytes_eq account posted.account) (items_by trade provider (half trade provider front) entry) }
    ensures stays { (trade : Trade) (journals : Journals) (provider : ℕ) (front : List Entry) → Follows trade journals provider empty front
        → (entry : Entry) → moves_by entry ≡ [] → (account : Bytes)
        → archive (step trade provider (half trade provider front) entry) account ≡ archive (half trade provider front) account }
{}

/// A mailbox and an archive hold together what was ever placed with their account, each item as often as it was placed.
pub fn boxes_hold_what_was_placed()
    ensures together { (test : Posted → Bool) (now : Half) (account : Bytes) → times_held test now account ≡ times test (ever_placed now account) }
    ensures mailboxes { (now : Half) (account : Bytes) (posted : Posted) → Contains (mailbox now account) posted
        → Contains now.items posted × (account ≡ posted.account) }
    ensures archives { (now : Half) (account : Bytes) (posted : Posted) → Contains (archive now account) posted
        → Contains now.items posted × (account ≡ posted.account) }
{}

/// The version of a journal: 2 where an entry of it makes it so, a Start of that version or an upgrade, and otherwise
/// 1.
pub fn a_journal_has_a_version()
    ensures two { (trade : Trade) (provider : ℕ) (journal : List Entry)
        → ((half trade provider journal).version ≡ 2) ↔ IsOfVersionTwo journal }
    ensures one_or_two { (trade : Trade) (journals : Journals) → Fit trade journals → (provider : ℕ) → provider < trade.providers
        → ((ledger trade journals provider).version ≡ 1) ⊎ ((ledger trade journals provider).version ≡ 2) }
{}
