ghost use Rattle.std.specs.Prelude.{◌≡◌, List, Ok, true};
ghost use Rattle.pec_directory.specs.Directory.{Provider};
ghost use Rattle.pec_directory.specs.Lawful.{IsLawful};
ghost use Rattle.pec_ldif.specs.Directories.{directory_in_ldif};
ghost use Rattle.pec_ldif.specs.FirstLine.{is_ldif};
ghost use Rattle.pec_ldif.specs.Writing.{ldif_text};

use pec_directory::a_table_is_told_exactly;
use pec_types::{an_address_has_its_bytes_alone, an_address_is_told_exactly};

/// The law of the round trip: the text of a lawful directory is LDIF by its first line, and is read as that directory,
/// so with its canonical text.
pub fn what_is_written_is_read()
    ensures first { (providers : List Provider) → is_ldif (ldif_text providers) ≡ true }
    ensures read { (providers : List Provider) → IsLawful providers
        → directory_in_ldif (ldif_text providers) ≡ Ok providers }
{
    an_address_has_its_bytes_alone();
    an_address_is_told_exactly();
    a_table_is_told_exactly();
}
