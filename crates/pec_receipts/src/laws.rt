ghost use Rattle.std.specs.Prelude.{◌≡◌, ◌<◌, ◌^◌, List, Err, Ok, Some, length};
ghost use Rattle.pec_types.specs.Bytes.{Bytes};
ghost use Rattle.pec_types.specs.declared.disputes.LetterFault.{LetterFault as FaultShown};
ghost use Rattle.pec_types.specs.declared.disputes.LetterFault.TheVariants as faults;
ghost use Rattle.pec_types.specs.declared.messages.TheConstants.{MESSAGES};
ghost use Rattle.pec_types.specs.declared.moments.TheConstants.{END_OF_TIME};
ghost use Rattle.pec_types.specs.declared.receipts.Kind.TheVariants as kinds;
ghost use Rattle.pec_directory.specs.Directory.{Kept, Provider, providers_of};
ghost use Rattle.pec_directory.specs.Lawful.{IsLawful};
ghost use Rattle.pec_letter_parts.specs.Letters.{Headed as HeadedShown, IsHeaded, IsLetter, Letter as LetterShown};
ghost use Rattle.pec_letter_parts.specs.LettersReading.{letter_of};
ghost use Rattle.pec_letter_parts.specs.declared.headings.Marking.TheVariants as markings;
ghost use Rattle.pec_letter_facts.specs.Certifying.{ArePrintable};
ghost use Rattle.pec_letter_facts.specs.Questions.{marking_of};
ghost use Rattle.pec_receipts.specs.Kinds.{Said, row_of};
ghost use Rattle.pec_receipts.specs.Receipts.{CanBeGiven, IsReceipt};
ghost use Rattle.pec_receipts.specs.Seen.{seen_again};
ghost use Rattle.pec_receipts.specs.SeenReading.{view};
ghost use Rattle.pec_receipts.specs.declared.receipts.Receipt.{Receipt as ReceiptShown};

use pec_cert::{a_header_date_has_one_stamp, a_rule_has_one_clock};
use pec_directory::a_text_names_one_message;
use pec_heads::{
    a_folded_list_is_read_as_its_addresses, blanks_are_cut_at_both_ends, what_is_written_is_read,
};
use pec_letter_facts::{
    a_composed_letter_is_read_back, a_name_is_one_short_line, a_value_is_one_line,
    what_is_composed_passes,
};
use pec_letter_parts::{a_head_has_one_letter, a_text_is_one_letter};
use pec_seal::Sealer;
use pec_types::{
    an_address_is_told_exactly, each_cause_is_one_of_all, printable_is_said_of_each_byte,
};

/// The law of views: what is seen of a receipt or a notice is what it was composed of, whatever its kind. So a text of
/// one kind is seen as no other, and as no other's.
pub fn what_is_certified_is_seen<S: Sealer>()
    ensures { (sealer : S) (kept : List Kept) (receipt : ReceiptShown) (said : Said) (original text : Bytes)
        → IsLawful (providers_of kept) → CanBeGiven (providers_of kept) receipt → ArePrintable receipt.facts
        → receipt.id.number < MESSAGES → receipt.moment < END_OF_TIME → length receipt.facts.recipients < 2 ^ 64
        → (row_of receipt.kind).said ≡ Some said
        → IsReceipt (S.seals sealer) kept receipt original text
        → view (S.seals sealer) (providers_of kept) text ≡ Ok (seen_again receipt) }
{
    a_text_is_one_letter::<S>();
    a_head_has_one_letter();
    a_composed_letter_is_read_back();
    a_name_is_one_short_line();
    a_value_is_one_line();
    a_rule_has_one_clock();
    what_is_composed_passes();
    each_cause_is_one_of_all();
    printable_is_said_of_each_byte();
}

/// The law of views for acknowledgements: what is seen of one is what it was composed of.
pub fn an_acknowledgement_is_seen<S: Sealer>()
    ensures { (sealer : S) (kept : List Kept) (receipt : ReceiptShown) (original text : Bytes)
        → IsLawful (providers_of kept) → CanBeGiven (providers_of kept) receipt → ArePrintable receipt.facts
        → receipt.id.number < MESSAGES → receipt.moment < END_OF_TIME → length receipt.facts.recipients < 2 ^ 64
        → receipt.kind ≡ kinds.Ack
        → IsReceipt (S.seals sealer) kept receipt original text
        → view (S.seals sealer) (providers_of kept) text ≡ Ok (seen_again receipt) }
{
    a_text_is_one_letter::<S>();
    a_composed_letter_is_read_back();
    a_name_is_one_short_line();
    a_value_is_one_line();
    a_rule_has_one_clock();
    a_header_date_has_one_stamp();
    a_text_names_one_message();
    a_folded_list_is_read_as_its_addresses();
    blanks_are_cut_at_both_ends();
    what_is_written_is_read();
    an_address_is_told_exactly();
    printable_is_said_of_each_byte();
}

/// The law of views for every kind: what is seen of what a provider may give is what it was composed of.
pub fn what_is_given_is_seen<S: Sealer>()
    ensures { (sealer : S) (kept : List Kept) (receipt : ReceiptShown) (original text : Bytes)
        → IsLawful (providers_of kept) → CanBeGiven (providers_of kept) receipt → ArePrintable receipt.facts
        → receipt.id.number < MESSAGES → receipt.moment < END_OF_TIME → length receipt.facts.recipients < 2 ^ 64
        → IsReceipt (S.seals sealer) kept receipt original text
        → view (S.seals sealer) (providers_of kept) text ≡ Ok (seen_again receipt) }
{
    what_is_certified_is_seen::<S>();
    an_acknowledgement_is_seen::<S>();
}

/// The law of other letters: a letter whose head says that it is an envelope's is seen as no receipt, whatever it
/// certifies; and where no letter is read behind such a head, as with an anomaly, the fault is the letter's.
pub fn an_envelope_is_no_receipt<S: Sealer>()
    ensures letter { (sealer : S) (providers : List Provider) (text : Bytes) (letter : LetterShown) (word : Bytes)
        → IsLetter (S.seals sealer) text letter → marking_of letter.head ≡ Some (markings.Transport, word)
        → view (S.seals sealer) providers text ≡ Err faults.NotThis }
    ensures unread { (sealer : S) (providers : List Provider) (text : Bytes) (read : HeadedShown) (word : Bytes) (fault : FaultShown)
        → IsHeaded (S.seals sealer) text read → marking_of read.head ≡ Some (markings.Transport, word)
        → letter_of (S.seals sealer) text ≡ Err fault
        → view (S.seals sealer) providers text ≡ Err fault }
{
    a_text_is_one_letter::<S>();
    a_head_has_one_letter();
}
