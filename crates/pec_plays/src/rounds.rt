ghost use Rattle.std.specs.Prelude.{◌≡◌, ℕ, ◌<◌, ◌≤◌, List, [], ◌++◌, length, slice_get, slice_index_or, Some};
ghost use Rattle.pec_ledger.specs.Network.{frames_between, interrupted_at, is_up, journal_at, Site, site_at};
ghost use Rattle.pec_ledger.specs.Trade.{Trade};
ghost use Rattle.pec_plays.specs.Rounds.{rooms_of, rounded, turns_of};
ghost use Rattle.pec_plays.specs.Turns.{Cut, turned};

/// A round is the turns of all providers, each from the state as the round began, so that no turn sees a frame that was
/// put in the same round. Behind it a provider stands as its turn left it, and on each link wait the frames that its
/// turn left there and then those that the other provider's turn put.
pub fn a_round_is_its_turns()
    ensures turns { (trade : Trade) (now : ℕ) (cuts : ℕ → Cut) (sites : List Site) (provider : ℕ) → provider < length sites
        → slice_get (turns_of trade now cuts sites) provider
        ≡ Some (turned trade provider now (rooms_of sites provider) (cuts provider) (site_at sites provider)) }
    ensures count { (trade : Trade) (now : ℕ) (cuts : ℕ → Cut) (sites : List Site)
        → length (rounded trade now cuts sites).sites ≡ length sites }
    ensures journals { (trade : Trade) (now : ℕ) (cuts : ℕ → Cut) (sites : List Site) (provider : ℕ) → provider < length sites
        → journal_at (rounded trade now cuts sites).sites provider
        ≡ (turned trade provider now (rooms_of sites provider) (cuts provider) (site_at sites provider)).site.journal }
    ensures up { (trade : Trade) (now : ℕ) (cuts : ℕ → Cut) (sites : List Site) (provider : ℕ) → provider < length sites
        → is_up (rounded trade now cuts sites).sites provider
        ≡ (turned trade provider now (rooms_of sites provider) (cuts provider) (site_at sites provider)).site.up }
    ensures interrupted { (trade : Trade) (now : ℕ) (cuts : ℕ → Cut) (sites : List Site) (provider : ℕ) → provider < length sites
        → interrupted_at (rounded trade now cuts sites).sites provider
        ≡ (turned trade provider now (rooms_of sites provider) (cuts provider) (site_at sites provider)).site.interrupted }
    ensures frames { (trade : Trade) (now : ℕ) (cuts : ℕ → Cut) (sites : List Site) (from to : ℕ) → from < length sites → to < length sites
        → frames_between (rounded trade now cuts sites).sites from to
        ≡ slice_index_or (turned trade to now (rooms_of sites to) (cuts to) (site_at sites to)).site.waiting from []
        ++ slice_index_or (turned trade from now (rooms_of sites from) (cuts from) (site_at sites from)).out to [] }
    // from where no provider is nothing is put
    ensures nobody { (trade : Trade) (now : ℕ) (cuts : ℕ → Cut) (sites : List Site) (from to : ℕ) → length sites ≤ from → to < length sites
        → frames_between (rounded trade now cuts sites).sites from to
        ≡ slice_index_or (turned trade to now (rooms_of sites to) (cuts to) (site_at sites to)).site.waiting from [] }
{}
