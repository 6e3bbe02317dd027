ghost use Rattle.std.specs.Prelude.{◌≡◌, ℕ, ◌+◌, ◌≤◌, ◌↔◌, List, [], ◌∷◌, ◌++◌, length};
ghost use Rattle.std.specs.List.{concat};
ghost use Rattle.pec_types.specs.Bytes.{Bytes, carriage_return, line_feed};
ghost use Rattle.pec_input.specs.Lines.{HasNoEnd, content_of, raw_lines};
ghost use Rattle.pec_input.specs.Parts.{AreParts, Parts, parts_of};

/// The lines of a text are the text, cut behind each line feed. This project's profile.
pub fn lines_are_the_text()
    ensures whole { (text : Bytes) → concat (raw_lines text) ≡ text }
    ensures ended { (said more : Bytes) → HasNoEnd said
        → raw_lines (said ++ line_feed ∷ more) ≡ (said ++ line_feed ∷ []) ∷ raw_lines more }
    ensures last { (b : ℕ) (said : Bytes) → HasNoEnd (b ∷ said) → raw_lines (b ∷ said) ≡ (b ∷ said) ∷ [] }
    // What a line says is the line without its end, which takes two bytes at most.
    ensures content { (line : Bytes) → (length (content_of line) ≤ length line)
        × (length line ≤ length (content_of line) + 2) }
{}

/// An input has its parts in one way: the directory is all before the first line that says `%%`, and the script all
/// behind it. This project's profile.
pub fn an_input_is_parted_in_one_way()
    ensures { (text : Bytes) (parts : Parts) → AreParts text parts ↔ (parts ≡ parts_of (raw_lines text)) }
{}
