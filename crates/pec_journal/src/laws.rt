ghost use Rattle.std.specs.Prelude.{◌≡◌, ◌⊎◌, ℕ, ◌+◌, ◌<◌, List, [], ◌∷◌, ◌++◌, length};
ghost use Rattle.std.specs.List.{slice_index_or};
ghost use Rattle.pec_types.specs.declared.places.Place.{Place};
ghost use Rattle.pec_journal.specs.JournalFile.{IsFile, IsBroken, StandsAt, front, framing, places_of};

/// Bytes are the file of one list at most. Those that are broken at a place are the file of none, and broken at no
/// other place.
pub fn a_file_has_one_list()
    ensures list { (one other : List (List ℕ)) (bytes : List ℕ) → IsFile one bytes → IsFile other bytes → one ≡ other }
    ensures broken { (bytes : List ℕ) (place : ℕ) (entries : List (List ℕ)) → IsBroken bytes place → IsFile entries bytes → ⊥ }
    ensures place { (bytes : List ℕ) (one other : ℕ) → IsBroken bytes one → IsBroken bytes other → one ≡ other }
{}

/// The places of entries are those at which they stand, in order. They stay where they are when one more is appended,
/// and its place comes behind theirs.
pub fn entries_stand_at_their_places()
    ensures stands { (entries : List (List ℕ)) (k : ℕ) (place : Place) (entry : List ℕ) → k < length entries →
        StandsAt (slice_index_or (places_of entries) k place) (slice_index_or entries k entry) entries }
    ensures stays { (entries more : List (List ℕ)) (place : Place) (entry : List ℕ) → StandsAt place entry entries →
        StandsAt place entry (entries ++ more) }
    ensures more { (entries : List (List ℕ)) (entry : List ℕ) → places_of (entries ++ entry ∷ []) ≡
        places_of entries ++ record { at = length (front entries) + framing; length = length entry } ∷ [] }
{}
