ghost use Rattle.std.specs.Prelude.{◌≡◌, ◌↔◌, ◌⊎◌, ℕ, ◌+◌, ◌<◌, ◌≤◌, List, [], ◌∷◌, ◌++◌, length, take, drop, Contains, slice_index_or, Option, Some, None};
ghost use Rattle.pec_types.specs.Bytes.{Bytes};
ghost use Rattle.pec_types.specs.declared.letters.Letter.{Letter};
ghost use Rattle.pec_types.specs.declared.turns.ProviderFault.{ProviderFault};
ghost use Rattle.pec_records.specs.declared.entries.Entry.{Entry};
ghost use Rattle.pec_ledger.specs.Due.{due_letters};
ghost use Rattle.pec_ledger.specs.Half.{Half};
ghost use Rattle.pec_ledger.specs.Network.{Site};
ghost use Rattle.pec_ledger.specs.Pairs.{Pair};
ghost use Rattle.pec_ledger.specs.Trade.{Trade};
ghost use Rattle.pec_screen.specs.Verdicts.{Patterns};
ghost use Rattle.pec_plays.specs.Decisions.{Looks, decide, kept_looks, undecided};
ghost use Rattle.pec_plays.specs.Frames.{due_frames, IsDueFrame};
ghost use Rattle.pec_plays.specs.Possible.{IsOfKept, MayCut, TellsCut, as_told, cut_by};
ghost use Rattle.pec_plays.specs.Reception.{arrive};
ghost use Rattle.pec_plays.specs.Steps.{Step, journal_after};
ghost use Rattle.pec_plays.specs.Turns.{Cut, Whole, Other, cut_turn, entries_of, frames_in, looks_by, owed_of, plan, that_fit, without_first};

/// A plan goes step by step: the first waiting frame is received, and where none waits the first undecided pair is
/// decided; the rest is the plan of the journal behind that step.
pub fn a_plan_goes_step_by_step()
    ensures frames { (trade : Trade) (provider now : ℕ) (looks : Looks) (journal : List Entry) (frame : Bytes) (frames : List Bytes)
        → plan trade provider now looks journal (frame ∷ frames)
        ≡ arrive trade provider now journal frame
        ∷ plan trade provider now looks (journal_after journal (arrive trade provider now journal frame)) frames }
    ensures pairs { (trade : Trade) (provider now : ℕ) (looks : Looks) (journal : List Entry) (pair : Pair) (pairs : List Pair)
        → undecided trade provider journal ≡ pair ∷ pairs
        → plan trade provider now looks journal []
        ≡ decide trade provider now looks journal pair
        ∷ plan trade provider now looks (journal_after journal (decide trade provider now looks journal pair)) [] }
    ensures ends { (trade : Trade) (provider now : ℕ) (looks : Looks) (journal : List Entry)
        → undecided trade provider journal ≡ [] → plan trade provider now looks journal [] ≡ [] }
{}

/// Waiting frames are taken in their order, link by link: those that are left when some were taken are the later ones,
/// and it makes no difference in how many goes they were.
pub fn frames_are_taken_in_order()
    ensures left { (number : ℕ) (links : List (List Bytes)) → frames_in (without_first number links) ≡ drop number (frames_in links) }
    ensures more { (number further : ℕ) (links : List (List Bytes))
        → without_first further (without_first number links) ≡ without_first (number + further) links }
{}

/// A turn that is done whole puts for each provider the frames of the letters that are due, in the journal behind it,
/// at most as many as the link had room for; one that ended early puts none. Where a disk gave back other bytes than it
/// took, it puts other frames, and as few.
pub fn a_turn_puts_what_is_due()
    ensures whole { (trade : Trade) (provider : ℕ) (rooms : ℕ → ℕ) (site : Site) (steps : List Step) (to : ℕ) → to < trade.providers
        → slice_index_or (cut_turn trade provider rooms site steps Whole).out to []
        ≡ due_frames trade provider (site.journal ++ entries_of steps) to (rooms to) (owed_of steps) }
    ensures early { (trade : Trade) (provider : ℕ) (rooms : ℕ → ℕ) (site : Site) (steps : List Step) (cut : Cut) (fault : ProviderFault)
        → (cut_turn trade provider rooms site steps cut).ended ≡ Some fault → (cut_turn trade provider rooms site steps cut).out ≡ [] }
    ensures other { (trade : Trade) (provider : ℕ) (rooms : ℕ → ℕ) (site : Site) (steps : List Step) (out : List (List Bytes)) (to : ℕ)
        → slice_index_or (cut_turn trade provider rooms site steps (Other out)).out to [] ≡ take (rooms to) (slice_index_or out to []) }
    // frames for which there is room are put as they are, and no more letters are due than there is room for
    ensures fit { (rooms : ℕ → ℕ) (out : List (List Bytes)) → ((to : ℕ) → length (slice_index_or out to []) ≤ rooms to) → that_fit rooms 0 out ≡ out }
    ensures few { (trade : Trade) (provider : ℕ) (half : Half) (to room : ℕ) (owed : List Letter)
        → length (due_letters trade provider half to room owed) ≤ room }
    // a due frame is that of a due letter
    ensures frames { (trade : Trade) (provider : ℕ) (journal : List Entry) (to room : ℕ) (owed : List Letter) (frame : Bytes)
        → Contains (due_frames trade provider journal to room owed) frame ↔ IsDueFrame trade provider journal to room owed frame }
{}

/// A cut that may be is told by how the turn ended and of how many steps it told, but for that of a turn that put other
/// frames than those that were due, which ended well, and for what screens looked at; and a failed read before a
/// decision is told as the append that failed there.
pub fn a_cut_is_told()
    ensures cuts { (trade : Trade) (provider : ℕ) (rooms : ℕ → ℕ) (site : Site) (steps : List Step) (cut : Cut) → MayCut trade provider steps cut
        → TellsCut (cut_turn trade provider rooms site steps cut).ended (length (cut_turn trade provider rooms site steps cut).events) cut }
    // what is told is no cut with other bytes, and each cut is told so, or the turn ended well
    ensures kept { (ended : Option ProviderFault) (told : ℕ) → IsOfKept (cut_by ended told) }
    ensures other { (ended : Option ProviderFault) (told : ℕ) (cut : Cut) → TellsCut ended told cut → (as_told cut ≡ cut_by ended told) ⊎ (ended ≡ None) }
    // where what was kept was read, what is found as pairs are decided is what screens find in what was taken
    ensures looks { (trade : Trade) (provider : ℕ) (screens : List Patterns) (cut : Cut) → IsOfKept cut
        → looks_by trade provider screens cut ≡ kept_looks trade provider screens }
{}
