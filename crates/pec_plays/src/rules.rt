ghost use Rattle.std.specs.Prelude.{◌≡◌, ℕ, ◌<◌, ◌≤◌, Bool, List, [], ◌∷◌, Contains, IsTrue, length, Some};
ghost use Rattle.pec_types.specs.Bytes.{Bytes, Path};
ghost use Rattle.pec_types.specs.declared.messages.TheConstants.{MESSAGES};
ghost use Rattle.pec_types.specs.declared.moments.TheConstants.{END_OF_TIME};
ghost use Rattle.pec_records.specs.Entry.{most_addresses};
ghost use Rattle.pec_records.specs.declared.entries.Entry.{Entry};
ghost use Rattle.pec_records.specs.declared.entries.Entry.TheVariants as entries;
ghost use Rattle.pec_ledger.specs.Ledger.{Fit, Journals, Meets};
ghost use Rattle.pec_ledger.specs.Network.{IsGenuine};
ghost use Rattle.pec_ledger.specs.Own.{Own};
ghost use Rattle.pec_ledger.specs.Pairs.{Pair};
ghost use Rattle.pec_ledger.specs.Steps.{half, moment_of};
ghost use Rattle.pec_ledger.specs.Trade.{Trade};
ghost use Rattle.pec_ledger.specs.TradeLaws.{IsTrade};
ghost use Rattle.pec_plays.specs.Commands.{entry_by, screened_cause};
ghost use Rattle.pec_plays.specs.Decisions.{Looks, decide, undecided};
ghost use Rattle.pec_plays.specs.Reception.{arrive};
ghost use Rattle.pec_plays.specs.Steps.{journal_after};

use pec_ledger::arrivals_are_true;

/// What a provider appends on a frame, on the decision of an undecided pair, on a submission and on a clock call meets
/// its own condition, at the moment of the call (in seconds): whatever stands in the frame, and whatever other journals
/// hold.
pub fn what_a_provider_does_is_its_own()
    ensures arrivals { (trade : Trade) → IsTrade trade → (provider now : ℕ) (journal : List Entry) (frame : Bytes) (entry : Entry)
        → (arrive trade provider now journal frame).entry ≡ Some entry
        → Own trade provider (half trade provider journal) entry × (moment_of entry ≡ now) }
    ensures decisions { (trade : Trade) (provider now : ℕ) (looks : Looks) (journal : List Entry) (pair : Pair) → Contains (undecided trade provider journal) pair
        → (entry : Entry) → (decide trade provider now looks journal pair).entry ≡ Some entry
        → Own trade provider (half trade provider journal) entry × (moment_of entry ≡ now) }
    ensures submissions { (trade : Trade) → IsTrade trade → (provider now : ℕ) (journal : List Entry) (sender : Bytes) (path : Path) (message : Bytes) (found : Bool)
        → IsTrue (trade.is_account provider sender) → length (half trade provider journal).messages < MESSAGES
        → 0 < length path → length path ≤ most_addresses
        → Own trade provider (half trade provider journal) (entry_by (screened_cause found (trade.cause provider sender path message)) now sender path message)
        × (moment_of (entry_by (screened_cause found (trade.cause provider sender path message)) now sender path message) ≡ now) }
    ensures clock_calls { (trade : Trade) (provider now : ℕ) (journal : List Entry)
        → Own trade provider (half trade provider journal) (entries.Ticked now) × (moment_of (entries.Ticked now) ≡ now) }
{}

/// The same entries meet all conditions of the ledger, in any journals that are Fit, where the moment isn't before the
/// provider's greatest and is one that a clock tells, and the frame is genuine: they may follow.
pub fn what_a_provider_does_may_follow()
    ensures arrivals { (trade : Trade) → IsTrade trade → (journals : Journals) → Fit trade journals
        → (provider now : ℕ) (journal : List Entry) → (half trade provider journal).last ≤ now → now < END_OF_TIME
        → (frame : Bytes) → IsGenuine trade journals frame
        → (entry : Entry) → (arrive trade provider now journal frame).entry ≡ Some entry
        → Meets trade journals provider (half trade provider journal) entry }
    ensures decisions { (trade : Trade) → IsTrade trade → (journals : Journals) → Fit trade journals
        → (provider now : ℕ) (journal : List Entry) → (half trade provider journal).last ≤ now → now < END_OF_TIME
        → (looks : Looks) (pair : Pair) → Contains (undecided trade provider journal) pair
        → (entry : Entry) → (decide trade provider now looks journal pair).entry ≡ Some entry
        → Meets trade journals provider (half trade provider journal) entry }
    ensures submissions { (trade : Trade) → IsTrade trade → (journals : Journals)
        → (provider now : ℕ) (journal : List Entry) → (half trade provider journal).last ≤ now → now < END_OF_TIME
        → (sender : Bytes) (path : Path) (message : Bytes) (found : Bool)
        → IsTrue (trade.is_account provider sender) → length (half trade provider journal).messages < MESSAGES
        → 0 < length path → length path ≤ most_addresses
        → Meets trade journals provider (half trade provider journal) (entry_by (screened_cause found (trade.cause provider sender path message)) now sender path message) }
    ensures clock_calls { (trade : Trade) (journals : Journals)
        → (provider now : ℕ) (journal : List Entry) → (half trade provider journal).last ≤ now → now < END_OF_TIME
        → Meets trade journals provider (half trade provider journal) (entries.Ticked now) }
{
    arrivals_are_true();
}

/// When the first undecided pair is decided, the others are the undecided pairs, in their order.
pub fn the_next_pairs_are_left()
    ensures { (trade : Trade) (provider now : ℕ) (looks : Looks) (journal : List Entry) (pair : Pair) (pairs : List Pair) → undecided trade provider journal ≡ pair ∷ pairs
        → undecided trade provider (journal_after journal (decide trade provider now looks journal pair)) ≡ pairs }
{}
