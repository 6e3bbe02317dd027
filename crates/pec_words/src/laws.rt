ghost use Rattle.std.specs.Prelude.{◌≡◌, ℕ, ◌≤◌, ◌^◌, ◌↔◌, List, [], Some};
ghost use Rattle.std.specs.List.{slice_split};
ghost use Rattle.pec_types.specs.Bytes.{Bytes, Path};
ghost use Rattle.pec_words.specs.Cuts.{IsCut, is_at};
ghost use Rattle.pec_words.specs.Numbers.{IsNumber, number_below};
ghost use Rattle.pec_words.specs.Paths.{ArePath, IsPath, path_of, path_with};

use pec_types::an_address_is_told_exactly;

/// A text is cut into these parts exactly where these are what `slice_split` gives, and so in one way.
pub fn a_text_is_cut_in_one_way()
    ensures { (separator : ℕ) (text : Bytes) (parts : List Bytes) → IsCut separator text parts ↔ (slice_split (is_at separator) text ≡ parts) }
{}

/// A number is read from a text exactly where the text is that number as it is printed, and the number is below the
/// bound.
pub fn a_number_has_one_spelling()
    ensures { (bound : ℕ) (text : Bytes) (number : ℕ) → bound ≤ 2 ^ 64 → (number_below bound text ≡ Some number) ↔ IsNumber bound text number }
{}

/// A path is read from parts, and from a text, exactly where its addresses are these parts, or stand in the text.
pub fn a_path_has_one_reading()
    ensures parts { (parts : List Bytes) (path : Path) → (path_with [] parts ≡ Some path) ↔ ArePath parts path }
    ensures text { (text : Bytes) (path : Path) → (path_of text ≡ Some path) ↔ IsPath text path }
{
    an_address_is_told_exactly();
}
