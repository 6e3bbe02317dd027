ghost use Rattle.std.specs.Prelude.{◌≡◌, ◌↔◌, ◌<◌, ◌≤◌, ◌^◌, ℕ, List, [], None, Some, length, false, true, Ok};
ghost use Rattle.std.specs.List.{AllByRecursion};
ghost use Rattle.pec_types.specs.Address.{IsLowerAddress};
ghost use Rattle.pec_types.specs.Bytes.{Bytes, Path};
ghost use Rattle.pec_types.specs.Message.{Id};
ghost use Rattle.pec_types.specs.declared.messages.Cause.{Cause as SomeCause};
ghost use Rattle.pec_types.specs.declared.messages.Facts.{Facts as SomeFacts};
ghost use Rattle.pec_types.specs.declared.messages.TheConstants.{MESSAGES};
ghost use Rattle.pec_types.specs.declared.moments.TheConstants.{END_OF_TIME};
ghost use Rattle.pec_types.specs.declared.receipts.Kind.TheVariants as kinds;
ghost use Rattle.pec_directory.specs.Directory.{Kept, Provider, home_of, is_account_of, providers_of};
ghost use Rattle.pec_directory.specs.Lawful.{IsLawful};
ghost use Rattle.pec_frames.specs.Frames.{HasFrame, frame_text};
ghost use Rattle.pec_letters.specs.Anomalies.{anomaly_text};
ghost use Rattle.pec_letters.specs.Envelopes.{IsEnvelope, envelope_text};
ghost use Rattle.pec_letters.specs.Fitting.{Fits};
ghost use Rattle.pec_letters.specs.Seen.{Seen};
ghost use Rattle.pec_letters.specs.SeenReading.{view};
ghost use Rattle.pec_receipts.specs.Receipts.{CanBeGiven, IsReceipt, receipt_text};
ghost use Rattle.pec_receipts.specs.declared.receipts.Receipt.{Receipt as Given};
ghost use Rattle.pec_points.specs.Admission.{IsAccepted, IsCause};
ghost use Rattle.pec_points.specs.Case.{case_at};
ghost use Rattle.pec_seal.specs.Seals.{Seals};
ghost use Rattle.pec_records.specs.Entry.{most_addresses};
ghost use Rattle.pec_ledger.specs.Lookups.{addresses_of};
ghost use Rattle.pec_ledger.specs.OfDirectory.{IsOf, facts_in, recipients_named};
ghost use Rattle.pec_ledger.specs.Trade.{Receipt as Stated, SeenEnvelope, SeenReceipt};
ghost use Rattle.pec_ledger.specs.TradeLaws.{CanBeComposed, IsSent, IsTrade, LettersCanBePut};
ghost use Rattle.pec_trade.specs.Giving.{can_be_given};
ghost use Rattle.pec_trade.specs.Texts.{given, refusal};
ghost use Rattle.pec_trade.specs.TradeOf.{trade_of};

use pec_bodies::parts_have_one_composed_body;
use pec_brief::a_message_has_one_brief_form;
use pec_cert::{a_certificate_has_one_text, a_rule_has_one_clock};
use pec_directory::a_text_names_one_message;
use pec_frames::{a_frame_is_read_as_it_was_made, a_text_is_one_frame};
use pec_heads::{
    a_head_has_one_account, a_line_is_read_as_its_value, a_list_has_one_reading,
    a_text_has_one_reading, facts_are_bounded, lines_are_the_text,
};
use pec_letter_facts::{
    a_composed_letter_is_read_back, a_name_is_one_short_line, a_value_is_one_line,
    what_is_certified_can_be_written,
};
use pec_letter_parts::{a_letter_has_one_text, a_text_is_one_letter};
use pec_letters::{
    a_message_has_one_anomaly, a_message_has_one_envelope, a_text_is_one_envelope,
    an_anomaly_is_no_letter, what_is_composed_is_seen,
};
use pec_points::a_message_has_one_answer;
use pec_receipts::{an_envelope_is_no_receipt, what_is_given_is_seen};
use pec_seal::{Sealer, sealing_and_opening};
use pec_types::{
    an_address_is_told_exactly, each_cause_is_one_of_all, printable_is_said_of_each_byte,
};

/// The world of a lawful directory, and of a sealer with the names of its providers, is a trade: it meets all that
/// the ledger asks of the directory, of heads, admission, frames, letters and receipts.
pub fn the_texts_are_a_trade<S: Sealer>()
    ensures trade { (sealer : S) (kept : List Kept)
        → IsLawful (providers_of kept) → Fits (S.seals sealer) (providers_of kept)
        → IsTrade (trade_of kept (S.seals sealer)) }
    // A message that was sent has its envelope, whatever the sizes of its parts, and that is the trade's text.
    ensures envelopes { (sealer : S) (kept : List Kept)
        → IsLawful (providers_of kept) → Fits (S.seals sealer) (providers_of kept)
        → (id : Id) (moment : ℕ) (original : Bytes) (sent : IsSent (trade_of kept (S.seals sealer)) id original)
        → moment < END_OF_TIME
        → (text : Bytes) × (envelope_text (S.seals sealer) kept id moment sent.facts original ≡ Some text)
        × IsEnvelope (S.seals sealer) kept id moment sent.facts original text
        × ((trade_of kept (S.seals sealer)).envelope_text id moment original ≡ text) }
    // So has a receipt that can be composed, and a provider may give it.
    ensures receipts { (sealer : S) (kept : List Kept)
        → IsLawful (providers_of kept) → Fits (S.seals sealer) (providers_of kept)
        → (receipt : Stated) (original : Bytes) (can : CanBeComposed (trade_of kept (S.seals sealer)) receipt original)
        → (text : Bytes) × (receipt_text (S.seals sealer) kept (given receipt can.sent.facts) original ≡ Some text)
        × CanBeGiven (providers_of kept) (given receipt can.sent.facts)
        × IsReceipt (S.seals sealer) kept (given receipt can.sent.facts) original text
        × ((trade_of kept (S.seals sealer)).receipt_text receipt original ≡ text) }
    // A message that isn't accepted has its notice, which is seen as what it is.
    ensures notices { (sealer : S) (kept : List Kept)
        → IsLawful (providers_of kept) → Fits (S.seals sealer) (providers_of kept)
        → (id : Id) (moment : ℕ) (account : Bytes) (cause : SomeCause) (path : Path) (message : Bytes)
        → id.provider < length kept → id.number < MESSAGES
        → is_account_of (providers_of kept) id.provider account ≡ true
        → 0 < length path → length path ≤ most_addresses → AllByRecursion IsLowerAddress path → moment < END_OF_TIME
        → (text : Bytes)
        × (receipt_text (S.seals sealer) kept (refusal id moment account cause path message) message ≡ Some text)
        × CanBeGiven (providers_of kept) (refusal id moment account cause path message)
        × ((trade_of kept (S.seals sealer)).refusal_text id moment account cause path message ≡ text)
        × ((trade_of kept (S.seals sealer)).view text ≡ Some (SeenReceipt (record {
          kind = kinds.NonAcceptance cause;
          id = id;
          by = id.provider;
          moment = moment;
          recipient = None;
        }))) }
    // So has an anomaly of a message of at most 64 MiB, which is more than a frame has.
    ensures anomalies { (sealer : S) (kept : List Kept)
        → IsLawful (providers_of kept) → Fits (S.seals sealer) (providers_of kept)
        → (provider entry moment : ℕ) (message : Bytes)
        → provider < length kept → entry < 2 ^ 64 → length message ≤ 67_108_864
        → (text : Bytes) × (anomaly_text (S.seals sealer) kept provider entry moment message ≡ Some text)
        × ((trade_of kept (S.seals sealer)).anomaly_text provider entry moment message ≡ text) }
    // Envelopes and receipts are short enough for a frame: a message has at most 30 MiB, and a brief form of it 40.
    ensures put { (sealer : S) (kept : List Kept)
        → IsLawful (providers_of kept) → Fits (S.seals sealer) (providers_of kept)
        → LettersCanBePut (trade_of kept (S.seals sealer)) }
    // Whatever is seen as an envelope, also one that nobody composed, names the recipients of its original where it
    // names anybody.
    ensures names { (sealer : S) (kept : List Kept)
        → IsLawful (providers_of kept) → Fits (S.seals sealer) (providers_of kept)
        → (text : Bytes) (id : Id) (moment : ℕ) (original : Bytes)
        → (trade_of kept (S.seals sealer)).view text ≡ Some (SeenEnvelope id moment original)
        → 0 < length (recipients_named text)
        → (facts : SomeFacts) × ((facts_in original ≡ Some facts) × (recipients_named text ≡ addresses_of facts)) }
{
    an_address_is_told_exactly();
    printable_is_said_of_each_byte();
    a_text_has_one_reading();
    a_list_has_one_reading();
    a_head_has_one_account();
    facts_are_bounded();
    lines_are_the_text();
    a_line_is_read_as_its_value();
    parts_have_one_composed_body();
    a_certificate_has_one_text();
    a_rule_has_one_clock();
    a_message_has_one_brief_form();
    sealing_and_opening::<S>();
    a_text_is_one_frame();
    a_frame_is_read_as_it_was_made();
    a_text_names_one_message();
    a_letter_has_one_text();
    a_text_is_one_letter::<S>();
    a_name_is_one_short_line();
    a_value_is_one_line();
    what_is_certified_can_be_written();
    a_composed_letter_is_read_back();
    a_text_is_one_envelope::<S>();
    a_message_has_one_envelope();
    what_is_composed_is_seen::<S>();
    a_message_has_one_anomaly();
    an_anomaly_is_no_letter::<S>();
    what_is_given_is_seen::<S>();
    an_envelope_is_no_receipt::<S>();
    a_message_has_one_answer();
    each_cause_is_one_of_all();
}

/// The facts of what is seen as an envelope are those of its original's head.
pub fn an_envelope_is_seen_with_its_facts<S: Sealer>()
    ensures { (sealer : S) (providers : List Provider) (text : Bytes) (seen : Seen)
        → view (S.seals sealer) providers text ≡ Ok seen → facts_in seen.original ≡ Some seen.facts }
{
    a_text_is_one_envelope::<S>();
}

/// What a trade of a directory says is what the parts say, of which it is made: for whoever computes its fields.
pub fn a_trade_says_what_its_parts_say()
    // Of providers, addresses and heads it says what the directory and the heads say.
    ensures directory { (kept : List Kept) (seals : Seals) → IsOf kept (trade_of kept seals) }
    // A cause is that of the first row of the admission table that applies, where no screen finds a rule, and there is
    // none exactly where the message is then accepted.
    ensures refused { (kept : List Kept) (seals : Seals) (provider : ℕ) (account : Bytes)
        (path : Path) (message : Bytes) (cause : SomeCause)
        → ((trade_of kept seals).cause provider account path message ≡ Some cause)
        ↔ IsCause (case_at (providers_of kept) provider account path message false) cause }
    ensures accepted { (kept : List Kept) (seals : Seals) (provider : ℕ) (account : Bytes)
        (path : Path) (message : Bytes)
        → ((trade_of kept seals).cause provider account path message ≡ None)
        ↔ ((facts : SomeFacts) × IsAccepted (case_at (providers_of kept) provider account path message false) facts) }
    // A frame is made exactly where it can be.
    ensures frames { (kept : List Kept) (seals : Seals) (path : Path) (message frame : Bytes)
        → ((trade_of kept seals).framed path message ≡ Some frame)
        ↔ (HasFrame path message × (frame ≡ frame_text path message)) }
    // An envelope that is composed is the trade's; where none can be composed the trade has none.
    ensures envelope { (kept : List Kept) (seals : Seals) (id : Id) (moment : ℕ)
        (facts : SomeFacts) (original text : Bytes)
        → facts_in original ≡ Some facts → home_of (providers_of kept) facts.sender ≡ Some id.provider
        → envelope_text seals kept id moment facts original ≡ Some text
        → (trade_of kept seals).envelope_text id moment original ≡ text }
    ensures no_envelope { (kept : List Kept) (seals : Seals) (id : Id) (moment : ℕ) (original : Bytes)
        → ((facts : SomeFacts) → facts_in original ≡ Some facts
        → home_of (providers_of kept) facts.sender ≡ Some id.provider → ⊥)
        → (trade_of kept seals).envelope_text id moment original ≡ [] }
    // So with receipts, which can be composed where they may be given, as a test says.
    ensures given { (providers : List Provider) (receipt : Given)
        → (can_be_given providers receipt ≡ true) ↔ CanBeGiven providers receipt }
    ensures receipt { (kept : List Kept) (seals : Seals) (receipt : Stated)
        (facts : SomeFacts) (original text : Bytes)
        → facts_in original ≡ Some facts → CanBeGiven (providers_of kept) (given receipt facts)
        → receipt_text seals kept (given receipt facts) original ≡ Some text
        → (trade_of kept seals).receipt_text receipt original ≡ text }
    ensures no_receipt { (kept : List Kept) (seals : Seals) (receipt : Stated) (original : Bytes)
        → ((facts : SomeFacts) → facts_in original ≡ Some facts
        → CanBeGiven (providers_of kept) (given receipt facts) → ⊥)
        → (trade_of kept seals).receipt_text receipt original ≡ [] }
    // So with notices of non-acceptance, along a path in lower case.
    ensures refusal { (kept : List Kept) (seals : Seals) (id : Id) (moment : ℕ) (account : Bytes)
        (cause : SomeCause) (path : Path) (message text : Bytes)
        → AllByRecursion IsLowerAddress path
        → CanBeGiven (providers_of kept) (refusal id moment account cause path message)
        → receipt_text seals kept (refusal id moment account cause path message) message ≡ Some text
        → (trade_of kept seals).refusal_text id moment account cause path message ≡ text }
    ensures no_refusal { (kept : List Kept) (seals : Seals) (id : Id) (moment : ℕ) (account : Bytes)
        (cause : SomeCause) (path : Path) (message : Bytes)
        → (AllByRecursion IsLowerAddress path
        → CanBeGiven (providers_of kept) (refusal id moment account cause path message) → ⊥)
        → (trade_of kept seals).refusal_text id moment account cause path message ≡ [] }
    // So with anomalies, which any provider of the directory can compose.
    ensures anomaly { (kept : List Kept) (seals : Seals) (provider entry moment : ℕ) (message text : Bytes)
        → entry < 2 ^ 64 → anomaly_text seals kept provider entry moment message ≡ Some text
        → (trade_of kept seals).anomaly_text provider entry moment message ≡ text }
    ensures no_anomaly { (kept : List Kept) (seals : Seals) (provider entry moment : ℕ) (message : Bytes)
        → (entry < 2 ^ 64 → provider < length kept → ⊥)
        → (trade_of kept seals).anomaly_text provider entry moment message ≡ [] }
    // No text that is composed is empty.
    ensures some_envelope { (seals : Seals) (kept : List Kept) (id : Id) (moment : ℕ)
        (facts : SomeFacts) (original text : Bytes)
        → envelope_text seals kept id moment facts original ≡ Some text → 0 < length text }
    ensures some_receipt { (seals : Seals) (kept : List Kept) (receipt : Given) (original text : Bytes)
        → receipt_text seals kept receipt original ≡ Some text → 0 < length text }
    ensures some_anomaly { (seals : Seals) (kept : List Kept) (provider entry moment : ℕ) (message text : Bytes)
        → anomaly_text seals kept provider entry moment message ≡ Some text → 0 < length text }
{
    an_address_is_told_exactly();
    a_letter_has_one_text();
    a_message_has_one_anomaly();
    a_message_has_one_answer();
}
