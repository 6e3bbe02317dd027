ghost use Rattle.std.specs.Prelude.{◌≡◌, ℕ, ◌*◌, ◌+◌, ◌/◌, ◌≤◌, Ok, Some, length};
ghost use Rattle.pec_types.specs.Bytes.{Bytes};
ghost use Rattle.pec_input.specs.Directory.{directory_in};
ghost use Rattle.pec_input.specs.Lines.{raw_lines};
ghost use Rattle.pec_input.specs.Parts.{parts_of};
ghost use Rattle.pec_input.specs.declared.opening.TheConstants.{LONGEST_DIRECTORY};
ghost use Rattle.pec_load.specs.Accounts.{load_directory, load_providers};
ghost use Rattle.pec_load.specs.Generated.{commands_of, generated};
ghost use Rattle.pec_load.specs.Heard.{AreHeard, load_input, parted_by_mark};

use crate::generating::MOST_MESSAGES;
use pec_input::lines_are_the_text;
use pec_script::a_line_has_one_reading;
use pec_types::an_address_is_told_exactly;
use pec_words::{a_path_has_one_reading, a_text_is_cut_in_one_way};

/// What a load plays is parted into its directory and its script, and the directory says its providers.
pub fn a_load_has_its_directory()
    ensures parted { (script : Bytes) → parts_of (raw_lines (parted_by_mark load_directory script))
        ≡ record { directory = load_directory; script = Some (raw_lines script) } }
    ensures short { length load_directory ≤ LONGEST_DIRECTORY }
    ensures said { directory_in load_directory ≡ Ok load_providers }
{}

/// Each line of the script of a load says its command.
pub fn a_load_has_its_commands()
    ensures heard { (count : ℕ) → count ≤ MOST_MESSAGES → AreHeard (raw_lines (generated count)) (commands_of count) }
    // There is a line for each message, and five for each batch, of which one more may have begun.
    ensures few { (count : ℕ) → length (commands_of count) ≤ 6 * count }
{
    lines_are_the_text();
    an_address_is_told_exactly();
    a_path_has_one_reading();
    a_text_is_cut_in_one_way();
    a_line_has_one_reading();
}
