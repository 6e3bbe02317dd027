ghost use Rattle.std.specs.Prelude.{◌≡◌, ℕ, ◌<◌, List, [], length, slice_index_or};
ghost use Rattle.pec_types.specs.Bytes.{Bytes};
ghost use Rattle.pec_records.specs.declared.entries.Entry.{Entry};
ghost use Rattle.pec_ledger.specs.Ledger.{Fit, Journals};
ghost use Rattle.pec_ledger.specs.Network.{at_start, Continues, FollowsState, Happens, IsNext, journals_in, Site, Sound};
ghost use Rattle.pec_ledger.specs.Trade.{Trade};

/// Whatever crashes leave of the providers' disks fits together: of a state that is Sound, take for each provider any
/// journal that follows, by itself; these journals are Fit.
pub fn any_images()
    ensures journals { (trade : Trade) (state : List Site) → Sound trade state
        → (images : Journals) → ((provider : ℕ) → FollowsState trade state provider (images provider)) → Fit trade images }
    // the same for a list of journals, one for each provider
    ensures lists { (trade : Trade) (state : List Site) → Sound trade state
        → (images : List (List Entry)) → length images ≡ trade.providers
        → ((provider : ℕ) → provider < trade.providers → FollowsState trade state provider (slice_index_or images provider []))
        → Fit trade (journals_in images) }
{}

/// The state at the start is Sound, and so is each next one. What may happen to a provider in a command, crash and
/// restart too, is what it owes for that.
pub fn soundness()
    ensures start { (trade : Trade) (screens : ℕ → List (List Bytes)) → Sound trade (at_start trade screens) }
    ensures next { (trade : Trade) (old new : List Site) → Sound trade old → IsNext trade old new → Sound trade new }
    ensures each { (trade : Trade) (old new : List Site) (provider : ℕ) → Happens trade old new provider → Continues trade old new provider }
{}
