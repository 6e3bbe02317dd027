ghost use Rattle.std.specs.Prelude.{◌≡◌, ℕ, ◌<◌, ◌≤◌, true, false, List, Option, length};
ghost use Rattle.pec_types.specs.Bytes.{Bytes};
ghost use Rattle.pec_directory.specs.Directory.{Provider};
ghost use Rattle.pec_script.specs.Lines.{IsCommand, IsLineFault};
ghost use Rattle.pec_script.specs.declared.commands.Command.{Command as Written};
ghost use Rattle.pec_script.specs.declared.faults.LineFault.{LineFault};
ghost use Rattle.pec_input.specs.Lines.{content_of};
ghost use Rattle.pec_runs.specs.ScriptLines.{PassedOver, Says, SaysNone, TooLong, TooMany, command_in, is_passed_over, longest_line, most_lines, said_by};
ghost use Rattle.pec_screen.specs.Verdicts.{Patterns};

use pec_script::a_line_has_one_reading;

/// A line of a script, by its number from 1 and what it says: past the greatest number it is too many; longer than a
/// line may be it is too long; an empty one or a remark is passed over; and any other says a command or has a fault.
pub fn a_line_is_one_thing()
    ensures too_many { (spare : Option Patterns) (providers : List Provider) (number : ℕ) (line : Bytes) → most_lines < number
        → said_by spare providers number line ≡ TooMany }
    ensures too_long { (spare : Option Patterns) (providers : List Provider) (number : ℕ) (line : Bytes) → number ≤ most_lines
        → longest_line < length (content_of line) → said_by spare providers number line ≡ TooLong }
    ensures passed_over { (spare : Option Patterns) (providers : List Provider) (number : ℕ) (line : Bytes) → number ≤ most_lines
        → length (content_of line) ≤ longest_line → is_passed_over (content_of line) ≡ true
        → said_by spare providers number line ≡ PassedOver }
    ensures says { (spare : Option Patterns) (providers : List Provider) (number : ℕ) (line : Bytes) (command : Written) → number ≤ most_lines
        → length (content_of line) ≤ longest_line → is_passed_over (content_of line) ≡ false
        → IsCommand providers (content_of line) command → said_by spare providers number line ≡ Says (command_in spare command) }
    ensures says_none { (spare : Option Patterns) (providers : List Provider) (number : ℕ) (line : Bytes) (fault : LineFault)
        → number ≤ most_lines
        → length (content_of line) ≤ longest_line → is_passed_over (content_of line) ≡ false
        → IsLineFault providers (content_of line) fault → said_by spare providers number line ≡ SaysNone fault }
{
    a_line_has_one_reading();
}
