ghost use Rattle.std.specs.Prelude.{◌≡◌, ◌↔◌, ℕ, List, ◌++◌, Contains, IsSome, Some, None};
ghost use Rattle.pec_types.specs.Bytes.{Bytes};
ghost use Rattle.pec_types.specs.Message.{Id};
ghost use Rattle.pec_types.specs.declared.letters.Letter.{Letter as SomeLetter};
ghost use Rattle.pec_types.specs.declared.letters.Letter.TheVariants as letters;
ghost use Rattle.pec_records.specs.declared.entries.Entry.{Entry};
ghost use Rattle.pec_ledger.specs.Along.{GoesOnAs};
ghost use Rattle.pec_ledger.specs.Half.{Known, Taken};
ghost use Rattle.pec_ledger.specs.Ledger.{Fit, Journals, ledger};
ghost use Rattle.pec_ledger.specs.Lookups.{decided_of, known_of, taken_of};
ghost use Rattle.pec_ledger.specs.Tables.{IsOwedEnvelope, IsOwedOutcome};
ghost use Rattle.pec_plays.specs.Composed.{IsComposed, IsFrameOf};
ghost use Rattle.pec_plays.specs.Frames.{composed, due_frames, frame_of, original_taken};
ghost use Rattle.pec_ledger.specs.Network.{AreGenuine, IsNext, Site, Sound};
ghost use Rattle.pec_ledger.specs.Own.{IsTakenPair};
ghost use Rattle.pec_ledger.specs.Pairs.{Pair, pair_of};
ghost use Rattle.pec_ledger.specs.Steps.{half};
ghost use Rattle.pec_ledger.specs.Trade.{Framed, Trade};
ghost use Rattle.pec_ledger.specs.TradeLaws.{IsTrade};
ghost use Rattle.pec_plays.specs.Commands.{Command, Luck, played};
ghost use Rattle.pec_plays.specs.Decisions.{Looks, undecided};
ghost use Rattle.pec_plays.specs.Scripts.{AllUnforged, IsUnforged, KeptAlong, LinksAreShort, script, ShortAlong, SoundAlong};
ghost use Rattle.pec_plays.specs.Steps.{Step};
ghost use Rattle.pec_plays.specs.Turns.{Cut, Whole, cut_turn, entries_of, owed_of, plan};

use pec_ledger::{
    any_images, arrivals_are_true, licences_stand, rows_have_their_texts, soundness,
    texts_are_seen, the_guarantees,
};

/// Whatever devices do, each command keeps a state Sound where its moment is one that a clock tells (in seconds, below
/// END_OF_TIME) and no forged frame is injected, or put for what a disk gave back in place of what it took; and so does
/// each script: its state is Sound before each command and at the end. So all that follows from journals that are Fit
/// holds there.
pub fn a_network_stays_sound()
    ensures commands { (trade : Trade) → IsTrade trade → (luck : Luck) (sites : List Site) (command : Command)
        → Sound trade sites → IsUnforged trade luck sites command → Sound trade (played trade luck sites command).after }
    // what it appends may follow in the ledger as the command begins, and what waits behind it is genuine
    ensures goes_on { (trade : Trade) → IsTrade trade → (luck : Luck) (sites : List Site) (command : Command)
        → Sound trade sites → IsUnforged trade luck sites command → IsNext trade sites (played trade luck sites command).after }
    ensures scripts { (trade : Trade) → IsTrade trade → (lucks : List Luck) (sites : List Site) (commands : List Command)
        → Sound trade sites → AllUnforged trade lucks sites commands → SoundAlong trade lucks sites commands }
    ensures ends { (trade : Trade) → IsTrade trade → (lucks : List Luck) (sites : List Site) (commands : List Command)
        → Sound trade sites → AllUnforged trade lucks sites commands → Sound trade (script trade lucks sites commands).after }
    // what users get, at each book that is shown
    ensures guarantees { (trade : Trade) → IsTrade trade → (lucks : List Luck) (sites : List Site) (commands : List Command)
        → Sound trade sites → AllUnforged trade lucks sites commands → KeptAlong trade lucks sites commands }
    // no link ever holds more than 64 frames
    ensures links { (trade : Trade) → IsTrade trade → (lucks : List Luck) (sites : List Site) (commands : List Command)
        → Sound trade sites → AllUnforged trade lucks sites commands → LinksAreShort sites
        → ShortAlong trade lucks sites commands }
{
    any_images();
    soundness();
    licences_stand();
    arrivals_are_true();
    rows_have_their_texts();
    texts_are_seen();
    the_guarantees();
}

/// A turn that was cut is a front of the whole one: what it told and what it appended come first there.
pub fn a_cut_turn_is_a_front()
    ensures events { (trade : Trade) (provider : ℕ) (rooms : ℕ → ℕ) (site : Site) (steps : List Step) (cut : Cut)
        → GoesOnAs (cut_turn trade provider rooms site steps cut).events (cut_turn trade provider rooms site steps Whole).events }
    ensures journals { (trade : Trade) (provider : ℕ) (rooms : ℕ → ℕ) (site : Site) (steps : List Step) (cut : Cut)
        → GoesOnAs (cut_turn trade provider rooms site steps cut).site.journal
        (cut_turn trade provider rooms site steps Whole).site.journal }
{}

/// A provider has to decide exactly the pairs that it took and on which nothing is decided.
pub fn undecided_pairs()
    ensures { (trade : Trade) (provider : ℕ) (journal : List Entry) (pair : Pair)
        → Contains (undecided trade provider journal) pair
        ↔ (IsTakenPair trade provider (half trade provider journal) pair
        × (decided_of (half trade provider journal) pair ≡ None)) }
{}

/// In journals that are Fit a provider composes every envelope and every outcome that it owes, the charge of each
/// message that it took, the acknowledgement of each outcome that it knows, and so every answer that it owes in a turn:
/// none is left out for want of its text.
pub fn due_letters_are_composed()
    ensures envelopes { (trade : Trade) → IsTrade trade → (journals : Journals) → Fit trade journals
        → (provider to : ℕ) (letter : SomeLetter) → IsOwedEnvelope trade provider (ledger trade journals provider) to letter
        → IsSome (composed trade provider (journals provider) letter) }
    ensures outcomes { (trade : Trade) → IsTrade trade → (journals : Journals) → Fit trade journals
        → (provider to : ℕ) (letter : SomeLetter) → IsOwedOutcome trade provider (ledger trade journals provider) to letter
        → IsSome (composed trade provider (journals provider) letter) }
    ensures charges { (trade : Trade) → IsTrade trade → (journals : Journals) → Fit trade journals
        → (provider : ℕ) (id : Id) (row : Taken) → taken_of (ledger trade journals provider) id ≡ Some row
        → IsSome (composed trade provider (journals provider) (letters.Charge id provider)) }
    ensures acks { (trade : Trade) → IsTrade trade → (journals : Journals) → Fit trade journals
        → (provider : ℕ) (id : Id) (recipient : Bytes) (row : Known) → known_of (ledger trade journals provider) (pair_of id recipient) ≡ Some row
        → IsSome (composed trade provider (journals provider) (letters.Ack id recipient)) }
    ensures answers { (trade : Trade) → IsTrade trade → (journals : Journals) → Fit trade journals
        → (provider now : ℕ) (looks : Looks) (journal : List Entry) (frames : List Bytes)
        → GoesOnAs (journal ++ entries_of (plan trade provider now looks journal frames)) (journals provider)
        → (letter : SomeLetter) → Contains (owed_of (plan trade provider now looks journal frames)) letter
        → IsSome (composed trade provider (journals provider) letter) }
    // and the frames of what is composed are genuine
    ensures frames { (trade : Trade) → IsTrade trade → (journals : Journals) → Fit trade journals
        → (provider to room : ℕ) (owed : List SomeLetter) → AreGenuine trade journals (due_frames trade provider (journals provider) to room owed) }
{
    rows_have_their_texts();
    texts_are_seen();
}

/// In journals that are Fit what a provider composes of a letter is the letter's one text, in the provider's own name and
/// along the path on which it goes; and this stands in the frame of the letter.
pub fn composed_letters_are_licensed()
    ensures composed { (trade : Trade) → IsTrade trade → (journals : Journals) → Fit trade journals
        → (provider : ℕ) (letter : SomeLetter) (framed : Framed) → composed trade provider (journals provider) letter ≡ Some framed
        → IsComposed trade journals provider letter framed }
    ensures framed { (trade : Trade) → IsTrade trade → (journals : Journals) → Fit trade journals
        → (provider : ℕ) (letter : SomeLetter) (frame : Bytes) → frame_of trade provider (journals provider) letter ≡ Some frame
        → IsFrameOf trade journals provider letter frame }
{
    rows_have_their_texts();
    texts_are_seen();
}

/// In journals that are Fit a provider sees the original in the envelope of each message that it took, so no pair is
/// decided without one.
pub fn taken_messages_have_originals()
    ensures { (trade : Trade) → IsTrade trade → (journals : Journals) → Fit trade journals → (provider : ℕ) (id : Id) (row : Taken)
        → taken_of (ledger trade journals provider) id ≡ Some row → IsSome (original_taken trade provider (journals provider) id row) }
{
    rows_have_their_texts();
    texts_are_seen();
}
