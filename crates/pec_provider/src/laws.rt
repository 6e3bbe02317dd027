ghost use Rattle.std.specs.Prelude.{◌≡◌, ℕ, List, Option, Some, false, is_some};
ghost use Rattle.pec_types.specs.Bytes.{Bytes};
ghost use Rattle.pec_types.specs.Message.{Id};
ghost use Rattle.pec_types.specs.declared.letters.Letter.{Letter};
ghost use Rattle.pec_types.specs.declared.messages.Facts.{Facts};
ghost use Rattle.pec_records.specs.declared.entries.Entry.{Entry};
ghost use Rattle.pec_ledger.specs.Ledger.{Fit, Journals};
ghost use Rattle.pec_ledger.specs.Lookups.{taken_of};
ghost use Rattle.pec_ledger.specs.Network.{GoesOn as GoesOnInLedger};
ghost use Rattle.pec_ledger.specs.Steps.{half};
ghost use Rattle.pec_ledger.specs.Trade.{Trade};
ghost use Rattle.pec_ledger.specs.TradeLaws.{IsTrade};
ghost use Rattle.pec_chronicle.specs.Carrying.{GoesOn};
ghost use Rattle.pec_stock.specs.Stock.{IsOwn};
ghost use Rattle.pec_provider.specs.Following.{MayFollow};
ghost use Rattle.pec_provider.specs.Reading.{EnvelopeIsChanged, HasEnvelope, ItemIsChanged, LetterIsChanged, VaultItemIsChanged};
ghost use Rattle.pec_provider.specs.Telling.{facts_taken};

use pec_ledger::{
    a_taken_message_has_its_envelope, boxes_hold_what_was_placed, rows_have_their_texts,
    texts_are_seen,
};

/// A list of entries that goes on from a provider's, each by what may follow, goes on in the sense of the ledger.
pub fn what_follows_goes_on()
    ensures { (trade : Trade) (journals : Journals) (me : ℕ) (old : List Entry) (interrupted : Option Entry)
        (list : List Entry)
        → GoesOn (MayFollow trade journals me) old interrupted list
        → GoesOnInLedger trade journals me old interrupted list }
{}

/// The entry of which a letter is to be composed is what the letter is composed of, in the ledger of journals that are
/// Fit, so is that of the envelope by which a pair is decided; and in a provider's own entries, each a step of those before
/// it, so is that of an item of a mailbox or of an archive. So over a disk that tells what it holds, and on which what is kept stands, `Changed` never comes.
pub fn nothing_has_changed()
    ensures letters { (trade : Trade) → IsTrade trade → (journals : Journals) → Fit trade journals
        → (me to room : ℕ) (owed : List Letter) (number : ℕ)
        → LetterIsChanged trade me (journals me) to room owed number → ⊥ }
    ensures envelopes { (trade : Trade) → IsTrade trade → (journals : Journals) → Fit trade journals
        → (me number : ℕ) → EnvelopeIsChanged trade me (journals me) number → ⊥ }
    ensures items { (trade : Trade) (me : ℕ) (journal : List Entry) → IsOwn trade me journal
        → (account : Bytes) (place number : ℕ)
        → ItemIsChanged trade me journal account place number → ⊥ }
    ensures vaults { (trade : Trade) (me : ℕ) (journal : List Entry) → IsOwn trade me journal
        → (account : Bytes) (place number : ℕ)
        → VaultItemIsChanged trade me journal account place number → ⊥ }
{
    boxes_hold_what_was_placed();
    rows_have_their_texts();
    texts_are_seen();
    a_taken_message_has_its_envelope();
}

/// Where the journal tells the facts of the original of a message that was taken, the entry by which it was taken holds an
/// envelope of it, and where it wasn't taken nothing is asked of any entry. So over a disk that tells what it holds, and on
/// which what is kept stands, no facts are told of an entry that isn't what a charge is composed of.
pub fn facts_are_told_of_an_envelope()
    ensures told { (trade : Trade) (me : ℕ) (journal : List Entry) (id : Id) (facts : Facts)
        → facts_taken trade me journal id ≡ Some facts → HasEnvelope trade me journal id }
    ensures untaken { (trade : Trade) (me : ℕ) (journal : List Entry) (id : Id)
        → is_some (taken_of (half trade me journal) id) ≡ false → HasEnvelope trade me journal id }
{
    a_taken_message_has_its_envelope();
}
