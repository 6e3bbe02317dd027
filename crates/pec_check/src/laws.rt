ghost use Rattle.std.specs.Prelude.{List};
ghost use Rattle.pec_types.specs.Answers.{TellsExactly};
ghost use Rattle.pec_types.specs.Bytes.{Bytes};
ghost use Rattle.pec_directory.specs.Directory.{Provider};
ghost use Rattle.pec_check.specs.Genuine.{IsGenuine, IsRefused};
ghost use Rattle.pec_check.specs.GenuineReading.{report_of};

use pec_letter_parts::a_text_is_one_letter;
use pec_seal::Sealer;

/// The law of saved messages: each is one genuine letter or has one fault, never both, and `report_of` gives it.
pub fn a_text_is_one_report<S: Sealer>()
    ensures { (sealer : S) (providers : List Provider) (text : Bytes)
        → TellsExactly (IsGenuine (S.seals sealer) providers text) (IsRefused (S.seals sealer) providers text)
        (report_of (S.seals sealer) providers text) }
{
    a_text_is_one_letter::<S>();
}
