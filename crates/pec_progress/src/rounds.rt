ghost use Rattle.std.specs.Prelude.{◌≡◌, ℕ, ◌<◌, List, [], ◌∷◌, length, slice_index_or, Contains};
ghost use Rattle.pec_types.specs.declared.letters.Letter.TheVariants as letters;
ghost use Rattle.pec_ledger.specs.Due.{owed_letters};
ghost use Rattle.pec_ledger.specs.Guarantees.{HasReceipt};
ghost use Rattle.pec_ledger.specs.Ledger.{ledger};
ghost use Rattle.pec_ledger.specs.Network.{frames_between, journals_of, Site, site_at, Sound};
ghost use Rattle.pec_ledger.specs.Pairs.{Pair};
ghost use Rattle.pec_ledger.specs.Trade.{Trade};
ghost use Rattle.pec_ledger.specs.TradeLaws.{IsTrade, LettersCanBePut};
ghost use Rattle.pec_plays.specs.Commands.{Command, Luck, played, Round};
ghost use Rattle.pec_plays.specs.Possible.{HaveRoom, IsQuiet, MayMeet};
ghost use Rattle.pec_plays.specs.Rounds.{rooms_of};
ghost use Rattle.pec_plays.specs.Turns.{Cut, turned, Whole};
ghost use Rattle.pec_progress.specs.Progress.{after_round, AllCarry, AllGoWell, AllOweLittle, behind, FewAreUnsettled, FollowInTime, GoesWell, HasOutcome, IsSettled, NoneIsEverTooLong, NothingWaits, RoundAt, StandsReady, WasAccepted, whole_steps};

use pec_ledger::{
    licensed_letters_can_be_composed, providers_agree, rows_have_their_texts, rows_stand,
    texts_are_seen, the_due_letters, the_guarantees,
};
use pec_plays::{
    a_command_appends, a_frame_is_received_by_its_row, a_network_stays_sound, a_round_is_its_turns,
    a_turn_puts_what_is_due, composed_letters_are_licensed, due_letters_are_composed,
    the_next_pairs_are_left, undecided_pairs, what_a_provider_does_is_its_own,
};

/// Rounds without faults bring each pair of an accepted message its outcome: where three rounds go well, and in the first
/// two of them the links carry what is owed, the outcome is known, and its receipt is in the sender's mailbox or
/// archive, once. Behind a fourth such round the recipient's provider knows that it has arrived. Links that are empty at
/// first carry what is owed as long as little is, little is owed where few pairs are unsettled as the rounds begin, and
/// no frame is ever too long where the letters of all messages that are sent can be put.
pub fn rounds_bring_outcomes()
    ensures known { (trade : Trade) → IsTrade trade → (sites : List Site) → Sound trade sites → (first second third : RoundAt)
        → AllGoWell trade (first ∷ second ∷ third ∷ []) sites → AllCarry trade (first ∷ second ∷ []) sites
        → (pair : Pair) → WasAccepted trade sites pair
        → HasOutcome trade (behind trade (first ∷ second ∷ third ∷ []) sites) pair }
    ensures receipts { (trade : Trade) → IsTrade trade → (sites : List Site) → Sound trade sites → (first second third : RoundAt)
        → AllGoWell trade (first ∷ second ∷ third ∷ []) sites → AllCarry trade (first ∷ second ∷ []) sites
        → (pair : Pair) → WasAccepted trade sites pair
        → HasReceipt trade (journals_of (behind trade (first ∷ second ∷ third ∷ []) sites)) pair }
    ensures settled { (trade : Trade) → IsTrade trade → (sites : List Site) → Sound trade sites → (first second third fourth : RoundAt)
        → AllGoWell trade (first ∷ second ∷ third ∷ fourth ∷ []) sites → AllCarry trade (first ∷ second ∷ third ∷ []) sites
        → (pair : Pair) → WasAccepted trade sites pair
        → IsSettled trade (behind trade (first ∷ second ∷ third ∷ fourth ∷ []) sites) pair }
    // behind a fifth one, since nothing is left to do, no frame waits
    ensures empty { (trade : Trade) → IsTrade trade → (sites : List Site) → Sound trade sites → (first second third fourth fifth : RoundAt)
        → AllGoWell trade (first ∷ second ∷ third ∷ fourth ∷ fifth ∷ []) sites → AllCarry trade (first ∷ second ∷ third ∷ fourth ∷ fifth ∷ []) sites
        → NothingWaits (behind trade (first ∷ second ∷ third ∷ fourth ∷ fifth ∷ []) sites) }
    // behind a round that goes well just the frames wait that were put in it
    ensures put { (trade : Trade) → IsTrade trade → (sites : List Site) → Sound trade sites → (now : ℕ) (cuts : ℕ → Cut) → GoesWell trade now cuts sites
        → (from to : ℕ) → from < length sites → to < length sites
        → frames_between (after_round trade now cuts sites) from to
        ≡ slice_index_or (turned trade from now (rooms_of sites from) (cuts from) (site_at sites from)).out to [] }
    // over any number of rounds that go well
    ensures carried { (trade : Trade) → IsTrade trade → (sites : List Site) → Sound trade sites → NothingWaits sites
        → (rounds : List RoundAt) → AllGoWell trade rounds sites → AllOweLittle trade rounds sites → AllCarry trade rounds sites }
    ensures few { (trade : Trade) → IsTrade trade → (sites : List Site) → Sound trade sites → FewAreUnsettled trade sites
        → (rounds : List RoundAt) → AllGoWell trade rounds sites → NoneIsEverTooLong trade rounds sites → AllOweLittle trade rounds sites }
    ensures framed { (trade : Trade) → IsTrade trade → (sites : List Site) → Sound trade sites → LettersCanBePut trade
        → (rounds : List RoundAt) → AllGoWell trade rounds sites → NoneIsEverTooLong trade rounds sites }
{
    a_frame_is_received_by_its_row();
    a_network_stays_sound();
    a_round_is_its_turns();
    a_turn_puts_what_is_due();
    composed_letters_are_licensed();
    due_letters_are_composed();
    licensed_letters_can_be_composed();
    providers_agree();
    rows_have_their_texts();
    rows_stand();
    texts_are_seen();
    the_due_letters();
    the_guarantees();
    the_next_pairs_are_left();
    undecided_pairs();
}

/// Rounds go well where each provider is up as they begin, their moments are in order, none before the greatest of a
/// journal, and each turn is done whole.
pub fn rounds_in_time_go_well()
    ensures { (trade : Trade) → IsTrade trade → (sites : List Site) (moment : ℕ) → StandsReady trade moment sites
        → (rounds : List RoundAt) → FollowInTime trade moment rounds → AllGoWell trade rounds sites }
{
    a_round_is_its_turns();
    what_a_provider_does_is_its_own();
}

/// A turn without a fault is done whole where the journal has room for its entries.
pub fn quiet_rounds_are_whole()
    ensures { (trade : Trade) (sites : List Site) (luck : Luck) (now : ℕ) → IsQuiet luck → MayMeet trade luck sites (Round now)
        → StandsReady trade now sites → ((provider : ℕ) → provider < length sites → HaveRoom (whole_steps trade now sites provider))
        → (provider : ℕ) → provider < length sites → luck.cuts provider ≡ Whole }
{}

/// All together, by what is true of a network before the first round: no frame waits, each provider is up, at most 16
/// pairs between each two providers are unsettled, and the letters of messages that are sent can be put. Then behind
/// three rounds without faults each pair has its outcome, and its receipt is there; behind four it is settled; and
/// behind five no frame waits.
pub fn a_network_comes_to_rest()
    ensures outcomes { (trade : Trade) → IsTrade trade → (sites : List Site) → Sound trade sites → NothingWaits sites → FewAreUnsettled trade sites
        → LettersCanBePut trade → (moment : ℕ) → StandsReady trade moment sites → (first second third : RoundAt) → FollowInTime trade moment (first ∷ second ∷ third ∷ [])
        → (pair : Pair) → WasAccepted trade sites pair
        → HasOutcome trade (behind trade (first ∷ second ∷ third ∷ []) sites) pair
        × HasReceipt trade (journals_of (behind trade (first ∷ second ∷ third ∷ []) sites)) pair }
    ensures rest { (trade : Trade) → IsTrade trade → (sites : List Site) → Sound trade sites → NothingWaits sites → FewAreUnsettled trade sites
        → LettersCanBePut trade → (moment : ℕ) → StandsReady trade moment sites → (first second third fourth : RoundAt) → FollowInTime trade moment (first ∷ second ∷ third ∷ fourth ∷ [])
        → (pair : Pair) → WasAccepted trade sites pair
        → IsSettled trade (behind trade (first ∷ second ∷ third ∷ fourth ∷ []) sites) pair }
    ensures empty { (trade : Trade) → IsTrade trade → (sites : List Site) → Sound trade sites → NothingWaits sites → FewAreUnsettled trade sites
        → LettersCanBePut trade → (moment : ℕ) → StandsReady trade moment sites → (first second third fourth fifth : RoundAt)
        → FollowInTime trade moment (first ∷ second ∷ third ∷ fourth ∷ fifth ∷ [])
        → NothingWaits (behind trade (first ∷ second ∷ third ∷ fourth ∷ fifth ∷ []) sites) }
{
    rounds_bring_outcomes();
    rounds_in_time_go_well();
}

/// Whatever devices do in a command, a known outcome stays known, and a settled pair settled.
pub fn outcomes_stay()
    ensures known { (trade : Trade) (sites : List Site) (luck : Luck) (command : Command) (pair : Pair) → HasOutcome trade sites pair
        → HasOutcome trade (played trade luck sites command).after pair }
    ensures settled { (trade : Trade) (sites : List Site) (luck : Luck) (command : Command) (pair : Pair) → IsSettled trade sites pair
        → IsSettled trade (played trade luck sites command).after pair }
{
    rows_stand();
    a_command_appends();
}

/// Of a pair whose outcome is known, and known to be, no letter is owed but as an answer: neither its outcome nor the
/// envelope of its message for its recipient's provider.
pub fn settled_pairs_are_owed_nothing()
    ensures outcomes { (trade : Trade) (sites : List Site) (pair : Pair) (is : IsSettled trade sites pair) (to : ℕ)
        → Contains (owed_letters trade is.home (ledger trade (journals_of sites) is.home) to []) (letters.Outcome pair.id pair.recipient) → ⊥ }
    ensures envelopes { (trade : Trade) (sites : List Site) (pair : Pair) (is : IsSettled trade sites pair) → WasAccepted trade sites pair
        → Contains (owed_letters trade pair.id.provider (ledger trade (journals_of sites) pair.id.provider) is.home []) (letters.Envelope pair.id is.home) → ⊥ }
{
    the_due_letters();
}
