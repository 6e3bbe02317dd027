ghost use Rattle.std.specs.Prelude.{◌≡◌, ℕ, List, [], ◌∷◌, ◌++◌};
ghost use Rattle.std.specs.List.{filter_map};
ghost use Rattle.std.specs.Option.{option_to_list};
ghost use Rattle.pec_types.specs.declared.letters.Letter.{Letter};
ghost use Rattle.pec_records.specs.declared.entries.Entry.{Entry};
ghost use Rattle.pec_ledger.specs.Due.{due_letters};
ghost use Rattle.pec_ledger.specs.Trade.{Trade};
ghost use Rattle.pec_plays.specs.Frames.{due_frames, frame_of};
ghost use Rattle.pec_shelf.specs.Seen.{Seen};
ghost use Rattle.pec_outgoing.specs.Desk.{IsHalfOf};

/// The frames of the due letters, one after the other, where there is one, are the frames that are due.
pub fn due_letters_have_the_due_frames()
    ensures due { (trade : Trade) (journal : List Entry) (shelf : Seen) (to room : ℕ) (owed : List Letter)
        → IsHalfOf trade journal shelf
        → filter_map (frame_of trade shelf.me journal) (due_letters trade shelf.me shelf.half to room owed)
        ≡ due_frames trade shelf.me journal to room owed }
    // One letter more has its frame behind those of the letters before.
    ensures more { (trade : Trade) (me : ℕ) (journal : List Entry) (done : List Letter) (letter : Letter)
        → filter_map (frame_of trade me journal) (done ++ letter ∷ [])
        ≡ filter_map (frame_of trade me journal) done ++ option_to_list (frame_of trade me journal letter) }
{}
