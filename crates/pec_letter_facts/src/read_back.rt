ghost use Rattle.std.specs.Prelude.{◌≡◌, ◌≤◌, ◌<◌, ◌++◌, ℕ, List, Option, Some, length, map, slice_get, codes, true};
ghost use Rattle.std.specs.Option.{IfSome};
ghost use Rattle.pec_types.specs.Address.{IsLowerAddress};
ghost use Rattle.pec_types.specs.Bytes.{Bytes};
ghost use Rattle.pec_types.specs.Message.{Id};
ghost use Rattle.pec_types.specs.Text.{AllPrintable};
ghost use Rattle.pec_types.specs.Words.{wish_word};
ghost use Rattle.pec_types.specs.declared.messages.Facts.{Facts as FactsShown};
ghost use Rattle.pec_types.specs.declared.messages.Recipient.{Recipient as RecipientShown};
ghost use Rattle.pec_types.specs.declared.messages.Wish.{Wish as WishShown};
ghost use Rattle.pec_types.specs.declared.messages.TheConstants.{MESSAGES};
ghost use Rattle.pec_heads.specs.BoundedFacts.{AreBounded, IsShortText};
ghost use Rattle.pec_heads.specs.FactsOfHeads.{first_value};
ghost use Rattle.pec_heads.specs.Heads.{NamedValue};
ghost use Rattle.pec_heads.specs.WrittenHeads.{AllStand, shown};
ghost use Rattle.pec_cert.specs.Certificate.{CanBeWritten, IsCert};
ghost use Rattle.pec_cert.specs.HeaderDate.{header_date_of};
ghost use Rattle.pec_cert.specs.Stamp.{Instant};
ghost use Rattle.pec_cert.specs.declared.certificates.CertData.{CertData as CertShown};
ghost use Rattle.pec_directory.specs.Directory.{Provider, first_domain, home_of};
ghost use Rattle.pec_directory.specs.Fields.{service_at};
ghost use Rattle.pec_directory.specs.Lawful.{IsLawful};
ghost use Rattle.pec_seal.specs.Seals.{Seals};
ghost use Rattle.pec_letter_parts.specs.Contents.{Contents as ContentsShown, parts_of};
ghost use Rattle.pec_letter_parts.specs.Headings.{Heading as HeadingShown, angled, heading_fields};
ghost use Rattle.pec_letter_parts.specs.Letters.{Letter as LetterShown, IsLetter};
ghost use Rattle.pec_letter_parts.specs.Sealing.{IsLetterText};
ghost use Rattle.pec_letter_facts.specs.Certifying.{ArePrintable, CanBeReported, certificate_of, name_of, typed, with_subject};
ghost use Rattle.pec_letter_facts.specs.declared.certifying.Report.{Report as ReportShown};
ghost use Rattle.pec_letter_facts.specs.Questions.{are_typed, id_named, is_dated, is_from_home, is_sealed_by_issuer, is_wish_marked};
ghost use Rattle.pec_letter_facts.specs.ReadBack.{CanBeHeaded, IsFound, IsReadAs, IsReadBack, IsShortLine, IsSubject, IsWholeLine};

use pec_bodies::{a_composed_type_has_its_boundary, what_is_composed_is_read_again};
use pec_cert::{a_header_date_has_one_stamp, a_printed_stamp_is_one_line};
use pec_directory::{a_first_domain_is_one_providers, a_text_names_one_message};
use pec_heads::{
    a_folded_list_is_read_as_its_addresses, a_line_is_read_as_its_value,
    blanks_are_cut_at_both_ends, what_is_written_is_read,
};
use pec_types::printable_is_said_of_each_byte;

/// The law of names: the name of a message of a provider of a lawful directory is printable and has at most 248 bytes,
/// and the address that the provider writes from is one.
pub fn a_name_is_one_short_line()
    ensures printable { (providers : List Provider) (id : Id) → IsLawful providers → id.provider < length providers
        → AllPrintable (name_of providers id) }
    ensures short { (providers : List Provider) (id : Id) → IsLawful providers → id.provider < length providers
        → length (name_of providers id) ≤ 248 }
    ensures service { (providers : List Provider) (provider : ℕ) → IsLawful providers → provider < length providers
        → IsLowerAddress (service_at (first_domain providers provider)) }
{
    a_first_domain_is_one_providers();
    printable_is_said_of_each_byte();
}

/// The law of what is certified: in a lawful directory the certificate of a message with printable facts and a
/// recipient can be written; the facts of a head are such facts, and the name of a provider can stand in a certificate.
pub fn what_is_certified_can_be_written()
    ensures written { (providers : List Provider) (issuer : Bytes) (id : Id) (stamp : Instant) (facts : FactsShown) (report : ReportShown)
        → IsLawful providers → id.provider < length providers → AllPrintable issuer
        → ArePrintable facts → 0 < length facts.recipients → CanBeReported report
        → CanBeWritten (certificate_of providers issuer id stamp facts report) }
    ensures facts { (facts : FactsShown) → AreBounded facts → ArePrintable facts }
    ensures issuer { (providers : List Provider) (number : ℕ) (provider : Provider) → IsLawful providers
        → slice_get providers number ≡ Some provider → AllPrintable provider.name }
{
    a_name_is_one_short_line();
    printable_is_said_of_each_byte();
}

/// The law of values: these, of which the heads of letters are made, are printable and short enough to stand in one
/// line, and what has no blank at its ends is read as it is written.
pub fn a_value_is_one_line()
    ensures angled { (name : Bytes) → AllPrintable name → length name ≤ 900 → IsShortLine (angled name) }
    ensures text { (text : Bytes) → IsShortText text → IsWholeLine text }
    ensures subject { (prefix : Bytes) (subject : Option Bytes) → AllPrintable prefix → length prefix ≤ 70
        → IfSome subject IsSubject → IsShortLine (with_subject prefix subject) }
    ensures address { (address : Bytes) → IsLowerAddress address → AllPrintable address × (length address ≤ 254) }
    ensures joined { (front back : Bytes) → AllPrintable front → AllPrintable back → AllPrintable (front ++ back) }
{
    blanks_are_cut_at_both_ends();
    printable_is_said_of_each_byte();
}

/// The law of composed letters: a text with a heading that may stand is read, and what is found in it is what it was
/// composed of; and where its contents have a certificate, it is a letter.
pub fn a_composed_letter_is_read_back()
    ensures read { (seals : Seals) (provider : ℕ) (heading : HeadingShown) (contents : ContentsShown) (text : Bytes)
        → CanBeHeaded heading → IsLetterText seals provider heading (parts_of contents) text
        → IsReadAs seals provider heading contents text }
    ensures letter { (seals : Seals) (provider : ℕ) (heading : HeadingShown) (contents : ContentsShown) (cert : CertShown)
        (certificate text : Bytes)
        → CanBeHeaded heading → contents.certificate ≡ Some certificate → IsCert cert certificate
        → IsLetterText seals provider heading (parts_of contents) text
        → (letter : LetterShown) × (IsLetter seals text letter × IsReadBack provider heading contents.message cert letter) }
    // The same of a head without parts behind it.
    ensures heading { (heading : HeadingShown) → CanBeHeaded heading
        → AllStand (heading_fields heading) × IsFound heading (map shown (heading_fields heading)) }
{
    a_line_is_read_as_its_value();
    a_folded_list_is_read_as_its_addresses();
    a_header_date_has_one_stamp();
    a_printed_stamp_is_one_line();
    a_composed_type_has_its_boundary();
    blanks_are_cut_at_both_ends();
    what_is_written_is_read();
    what_is_composed_is_read_again();
}

/// The law of questions: what a letter says that was composed of a certificate and of a head passes each question that
/// readers ask.
pub fn what_is_composed_passes()
    ensures id { (providers : List Provider) (id : Id) (field : Bytes) (letter : LetterShown) → IsLawful providers
        → id.provider < length providers → id.number < MESSAGES → letter.cert.id ≡ name_of providers id
        → first_value field letter.head ≡ Some (angled (name_of providers id))
        → id_named providers field letter ≡ Some id }
    ensures issuer { (providers : List Provider) (issuer : Provider) (letter : LetterShown)
        → slice_get providers letter.sealer ≡ Some issuer → letter.cert.provider ≡ issuer.name
        → is_sealed_by_issuer providers letter ≡ true }
    ensures home { (providers : List Provider) (id : Id) (letter : LetterShown)
        → home_of providers letter.cert.sender ≡ Some id.provider → is_from_home providers id letter ≡ true }
    ensures typed { (providers : List Provider) (recipients : List RecipientShown) (letter : LetterShown)
        → letter.cert.recipients ≡ map (typed providers) recipients → are_typed providers letter ≡ true }
    ensures wish { (wish : WishShown) (head : List NamedValue)
        → first_value (codes "X-TipoRicevuta") head ≡ Some (wish_word wish) → is_wish_marked wish head ≡ true }
    ensures dated { (letter : LetterShown)
        → first_value (codes "Date") letter.head ≡ Some (header_date_of letter.cert.stamp) → is_dated letter ≡ true }
{
    a_text_names_one_message();
}
