ghost use Rattle.std.specs.Prelude.{◌≡◌, ℕ, ◌<◌, ◌^◌, List, ◌++◌, length};
ghost use Rattle.std.specs.List.{AllByRecursion};
ghost use Rattle.pec_directory.specs.Directory.{Provider};
ghost use Rattle.pec_directory.specs.Lawful.{IsLawful};
ghost use Rattle.pec_types.specs.Answers.{TellsExactly};
ghost use Rattle.pec_types.specs.Bytes.{Bytes};
ghost use Rattle.pec_types.specs.Message.{Id};
ghost use Rattle.pec_types.specs.declared.mailboxes.ItemLine.{ItemLine};
ghost use Rattle.pec_types.specs.declared.mailboxes.Mark.{Mark};
ghost use Rattle.pec_types.specs.declared.messages.BookLine.{BookLine};
ghost use Rattle.pec_types.specs.declared.turns.Event.{Event};
ghost use Rattle.pec_types.specs.declared.turns.ProviderFault.{ProviderFault};
ghost use Rattle.pec_types.specs.declared.turns.Submitted.{Submitted};
ghost use Rattle.pec_script.specs.declared.faults.LineFault.{LineFault};
ghost use Rattle.pec_script.specs.Lines.{IsCommand, IsLineFault};
ghost use Rattle.pec_script.specs.LinesReading.{command_of};
ghost use Rattle.pec_script.specs.Pages.{text_after};
ghost use Rattle.pec_script.specs.Printed.{AreAlike, AreSameEvents, IsBookLine, IsEvent, IsItemLine, IsLineRefusal, IsMark, IsNamed, IsRefusal, IsSubmitted};
ghost use Rattle.pec_script.specs.Rows.{AreRows};
ghost use Rattle.pec_script.specs.Texts.{Row, book_text, event_words, fault_text, id_of, items_text, marks_text, refused_text, submitted_text, text_of, vault_text};

use pec_directory::{a_first_domain_is_one_providers, a_text_names_one_message};
use pec_types::{an_address_is_told_exactly, each_cause_is_one_of_all, lower_addresses_pass};
use pec_words::{a_number_has_one_spelling, a_path_has_one_reading, a_text_is_cut_in_one_way};

/// A line has one reading: it is told to say a command exactly where it says that one, and to have a fault exactly
/// where it has that one.
pub fn a_line_has_one_reading()
    ensures { (providers : List Provider) (line : Bytes) → TellsExactly (IsCommand providers line) (IsLineFault providers line) (command_of providers line) }
{
    an_address_is_told_exactly();
    a_number_has_one_spelling();
    a_path_has_one_reading();
    a_text_is_cut_in_one_way();
}

/// Lines that are put behind a text, word by word, are the text of these lines behind it.
pub fn lines_are_put_in_their_order()
    ensures { (text : Bytes) (rows : List Row) → text_after text rows ≡ text ++ text_of rows }
{}

/// A text of lines is made of one list of lines, each of one list of words, where no word has a space or a line feed.
pub fn a_text_has_one_list_of_lines()
    ensures { (rows others : List Row) → AreRows rows → AreRows others → text_of rows ≡ text_of others → rows ≡ others }
{
    a_text_is_cut_in_one_way();
}

/// In lines no name belongs to two messages: it has the first domain of the message's own provider, which no other has
/// first.
pub fn a_name_has_one_message()
    ensures { (providers : List Provider) (id other : Id) → IsLawful providers → IsNamed providers id → IsNamed providers other
        → id_of providers id ≡ id_of providers other → id ≡ other }
{
    lower_addresses_pass();
    a_first_domain_is_one_providers();
    a_text_names_one_message();
}

/// No text belongs to two books.
pub fn a_text_has_one_book()
    ensures { (providers : List Provider) (lines others : List BookLine) → IsLawful providers
        → AllByRecursion (IsBookLine providers) lines → AllByRecursion (IsBookLine providers) others
        → length lines < 2 ^ 64 → length others < 2 ^ 64
        → book_text providers lines ≡ book_text providers others → lines ≡ others }
{
    lower_addresses_pass();
    a_first_domain_is_one_providers();
    a_text_names_one_message();
    a_text_is_cut_in_one_way();
}

/// No text belongs to two mailboxes that differ in more than the causes that aren't printed.
pub fn a_text_has_one_mailbox()
    ensures { (providers : List Provider) (lines others : List ItemLine) → IsLawful providers
        → AllByRecursion (IsItemLine providers) lines → AllByRecursion (IsItemLine providers) others
        → length lines < 2 ^ 64 → length others < 2 ^ 64
        → items_text providers lines ≡ items_text providers others → AreAlike lines others }
{
    lower_addresses_pass();
    a_first_domain_is_one_providers();
    a_text_names_one_message();
    a_text_is_cut_in_one_way();
}

/// No text belongs to two archives that differ in more than the causes that aren't printed.
pub fn a_text_has_one_archive()
    ensures { (providers : List Provider) (lines others : List ItemLine) → IsLawful providers
        → AllByRecursion (IsItemLine providers) lines → AllByRecursion (IsItemLine providers) others
        → length lines < 2 ^ 64 → length others < 2 ^ 64
        → vault_text providers lines ≡ vault_text providers others → AreAlike lines others }
{
    lower_addresses_pass();
    a_first_domain_is_one_providers();
    a_text_names_one_message();
    a_text_is_cut_in_one_way();
}

/// No text belongs to two answers on a submission.
pub fn a_text_has_one_submission()
    ensures { (providers : List Provider) (told other : Submitted) → IsLawful providers
        → IsSubmitted providers told → IsSubmitted providers other
        → submitted_text providers told ≡ submitted_text providers other → told ≡ other }
{
    lower_addresses_pass();
    a_first_domain_is_one_providers();
    a_text_names_one_message();
    a_text_is_cut_in_one_way();
    each_cause_is_one_of_all();
}

/// No text belongs to two refusals of a provider.
pub fn a_text_has_one_refusal()
    ensures { (fault other : ProviderFault) → IsRefusal fault → IsRefusal other → fault_text fault ≡ fault_text other → fault ≡ other }
{
    a_text_is_cut_in_one_way();
}

/// No words belong to two events of a turn that differ in more than what isn't printed.
pub fn words_have_one_event()
    ensures { (providers : List Provider) (event other : Event) → IsLawful providers
        → IsEvent providers event → IsEvent providers other
        → event_words providers event ≡ event_words providers other → AreSameEvents providers event other }
{
    lower_addresses_pass();
    a_first_domain_is_one_providers();
    a_text_names_one_message();
}

/// No text belongs to the marks of two clock calls.
pub fn a_text_has_one_clock_call()
    ensures { (providers : List Provider) (marks others : List Mark) → IsLawful providers
        → AllByRecursion (IsMark providers) marks → AllByRecursion (IsMark providers) others
        → marks_text providers marks ≡ marks_text providers others → marks ≡ others }
{
    lower_addresses_pass();
    a_first_domain_is_one_providers();
    a_text_names_one_message();
    a_text_is_cut_in_one_way();
}

/// No text belongs to two refused lines.
pub fn a_text_has_one_refused_line()
    ensures { (line also : ℕ) (fault other : LineFault) → line < 2 ^ 64 → also < 2 ^ 64
        → IsLineRefusal fault → IsLineRefusal other
        → refused_text line fault ≡ refused_text also other → (line ≡ also) × (fault ≡ other) }
{
    a_text_is_cut_in_one_way();
}
