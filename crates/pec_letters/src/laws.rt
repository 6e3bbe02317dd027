ghost use Rattle.std.specs.Prelude.{◌≡◌, ◌↔◌, ◌<◌, ◌^◌, ℕ, List, Some, Ok, Err, IsSome, slice_get};
ghost use Rattle.pec_types.specs.Answers.{TellsExactly};
ghost use Rattle.pec_types.specs.Bytes.{Bytes};
ghost use Rattle.pec_types.specs.Message.{Id};
ghost use Rattle.pec_types.specs.declared.disputes.LetterFault.TheVariants as faults;
ghost use Rattle.pec_types.specs.declared.messages.Facts.{Facts as FactsShown};
ghost use Rattle.pec_types.specs.declared.messages.TheConstants.{MESSAGES};
ghost use Rattle.pec_types.specs.declared.moments.TheConstants.{END_OF_TIME};
ghost use Rattle.pec_heads.specs.BoundedFacts.{addresses_of};
ghost use Rattle.pec_bodies.specs.Composing.{bytes_of};
ghost use Rattle.pec_cert.specs.Zone.{stamp_of};
ghost use Rattle.pec_directory.specs.Directory.{Kept, Provider, first_of, providers_of};
ghost use Rattle.pec_directory.specs.Lawful.{IsLawful};
ghost use Rattle.pec_letter_parts.specs.Letters.{Headed as HeadedShown, IsHeaded, IsLetter, Letter as LetterShown};
ghost use Rattle.pec_letter_parts.specs.Contents.{parts_of};
ghost use Rattle.pec_letter_parts.specs.Sealing.{IsLetterText};
ghost use Rattle.pec_letter_parts.specs.LettersReading.{letter_of};
ghost use Rattle.pec_letter_parts.specs.declared.headings.Marking.TheVariants as markings;
ghost use Rattle.pec_letter_facts.specs.Questions.{marking_of};
ghost use Rattle.pec_letter_facts.specs.ReadBack.{IsReadAs};
ghost use Rattle.pec_seal.specs.Seals.{Seals};
ghost use Rattle.pec_letters.specs.Anomalies.{IsAnomaly, anomaly_contents, anomaly_heading, anomaly_text, anomaly_word};
ghost use Rattle.pec_letters.specs.Envelopes.{IsEnvelope, envelope_parts, envelope_text};
ghost use Rattle.pec_letters.specs.Fitting.{Fits, HasFacts, IsSentFrom};
ghost use Rattle.pec_letters.specs.Seen.{IsSeen, IsUnseen, Seen, named_in};
ghost use Rattle.pec_letters.specs.SeenReading.{view};

use pec_bodies::parts_have_one_composed_body;
use pec_cert::{a_certificate_has_one_text, a_rule_has_one_clock};
use pec_heads::{
    a_head_has_one_account, a_list_has_one_reading, a_text_has_one_reading, facts_are_bounded,
    joined_addresses_are_a_list,
};
use pec_letter_facts::{
    a_composed_letter_is_read_back, a_name_is_one_short_line, a_value_is_one_line,
    what_is_certified_can_be_written, what_is_composed_passes,
};
use pec_letter_parts::{a_letter_has_one_text, a_text_is_one_letter};
use pec_seal::Sealer;
use pec_types::printable_is_said_of_each_byte;

/// The law of views: each text is seen as one envelope or has one fault, never both, and `view` gives it.
pub fn a_text_is_one_envelope<S: Sealer>()
    ensures told { (sealer : S) (providers : List Provider) (text : Bytes)
        → TellsExactly (IsSeen (S.seals sealer) providers text) (IsUnseen (S.seals sealer) providers text) (view (S.seals sealer) providers text) }
    // What is seen is of a message of the directory's providers, and the fields `To` and `Cc` name its recipients.
    ensures names { (sealer : S) (providers : List Provider) (text : Bytes) (seen : Seen)
        → view (S.seals sealer) providers text ≡ Ok seen
        → (letter : LetterShown) × (IsLetter (S.seals sealer) text letter × (named_in letter.head ≡ Some (addresses_of seen.facts.recipients))) }
{
    a_text_is_one_letter::<S>();
}

/// The law of envelopes as texts: a message is one envelope at most, the one that `envelope_text` gives, so that no two
/// texts are an envelope of one message; and where its parts have less than 2^64 bytes together, it is one.
pub fn a_message_has_one_envelope()
    ensures only { (seals : Seals) (kept : List Kept) (id : Id) (moment : ℕ) (facts : FactsShown) (original text : Bytes)
        → IsEnvelope seals kept id moment facts original text → envelope_text seals kept id moment facts original ≡ Some text }
    ensures text { (seals : Seals) (kept : List Kept) (id : Id) (moment : ℕ) (facts : FactsShown) (original text : Bytes)
        → IsLawful (providers_of kept) → HasFacts original facts → IsSentFrom (providers_of kept) id facts → moment < END_OF_TIME
        → envelope_text seals kept id moment facts original ≡ Some text → IsEnvelope seals kept id moment facts original text }
    ensures there { (seals : Seals) (kept : List Kept) (id : Id) (moment : ℕ) (facts : FactsShown) (original : Bytes) (issuer : Kept)
        → slice_get kept id.provider ≡ Some issuer → IsSome (seals.name_of id.provider)
        → bytes_of (envelope_parts (providers_of kept) id moment facts original issuer) < 2 ^ 64
        → (text : Bytes) × (envelope_text seals kept id moment facts original ≡ Some text) }
{
    a_certificate_has_one_text();
    a_letter_has_one_text();
    a_rule_has_one_clock();
    facts_are_bounded();
    what_is_certified_can_be_written();
    parts_have_one_composed_body();
}

/// The law of envelopes that are seen: the view of the envelope of a message that its sender's provider sends is what
/// it was composed of.
pub fn what_is_composed_is_seen<S: Sealer>()
    ensures { (sealer : S) (kept : List Kept) (id : Id) (moment : ℕ) (facts : FactsShown) (original text : Bytes)
        → IsLawful (providers_of kept) → HasFacts original facts → IsSentFrom (providers_of kept) id facts
        → id.number < MESSAGES → moment < END_OF_TIME
        → IsEnvelope (S.seals sealer) kept id moment facts original text
        → view (S.seals sealer) (providers_of kept) text ≡ Ok (record { id = id; moment = moment; facts = facts; original = original }) }
{
    a_text_has_one_reading();
    a_head_has_one_account();
    a_list_has_one_reading();
    joined_addresses_are_a_list();
    facts_are_bounded();
    a_rule_has_one_clock();
    a_name_is_one_short_line();
    a_value_is_one_line();
    a_composed_letter_is_read_back();
    what_is_composed_passes();
    a_text_is_one_letter::<S>();
}

/// The law of anomalies as texts: a message is one anomaly of a provider, a number and a moment at most, the one that
/// `anomaly_text` gives.
pub fn a_message_has_one_anomaly()
    ensures { (seals : Seals) (kept : List Kept) (provider number moment : ℕ) (message text : Bytes)
        → (anomaly_text seals kept provider number moment message ≡ Some text) ↔ IsAnomaly seals kept provider number moment message text }
{
    a_letter_has_one_text();
}

/// The law of anomalies that are read: an anomaly has a head that says what it is, and is no letter, since it certifies
/// nothing; so it is seen as no envelope.
pub fn an_anomaly_is_no_letter<S: Sealer>()
    ensures head { (sealer : S) (kept : List Kept) (provider number moment : ℕ) (message text : Bytes)
        → IsLawful (providers_of kept) → number < 2 ^ 64 → moment < END_OF_TIME
        → IsAnomaly (S.seals sealer) kept provider number moment message text
        → (read : HeadedShown) × (IsHeaded (S.seals sealer) text read × (marking_of read.head ≡ Some (markings.Transport, anomaly_word))) }
    ensures letter { (sealer : S) (kept : List Kept) (provider number moment : ℕ) (message text : Bytes)
        → IsLawful (providers_of kept) → number < 2 ^ 64 → moment < END_OF_TIME
        → IsAnomaly (S.seals sealer) kept provider number moment message text
        → letter_of (S.seals sealer) text ≡ Err faults.Cert }
    ensures unseen { (sealer : S) (kept : List Kept) (providers : List Provider) (provider number moment : ℕ) (message text : Bytes)
        → IsLawful (providers_of kept) → number < 2 ^ 64 → moment < END_OF_TIME
        → IsAnomaly (S.seals sealer) kept provider number moment message text
        → view (S.seals sealer) providers text ≡ Err faults.Cert }
{
    an_anomaly_is_read();
    a_text_is_one_letter::<S>();
}

/// What is read of an anomaly.
fn an_anomaly_is_read()
    ensures { (seals : Seals) (kept : List Kept) (provider number moment : ℕ) (message text : Bytes) (issuer : Kept)
        → IsLawful (providers_of kept) → number < 2 ^ 64 → moment < END_OF_TIME
        → slice_get kept provider ≡ Some issuer
        → IsLetterText seals provider (anomaly_heading (first_of issuer.provider.domains) number (stamp_of issuer.zone moment) message)
        (parts_of (anomaly_contents (stamp_of issuer.zone moment) message)) text
        → IsReadAs seals provider (anomaly_heading (first_of issuer.provider.domains) number (stamp_of issuer.zone moment) message)
        (anomaly_contents (stamp_of issuer.zone moment) message) text }
{
    facts_are_bounded();
    a_rule_has_one_clock();
    a_name_is_one_short_line();
    a_value_is_one_line();
    printable_is_said_of_each_byte();
    a_composed_letter_is_read_back();
}
