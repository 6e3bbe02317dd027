ghost use Rattle.std.specs.Prelude.{◌≡◌, ℕ, ◌+◌, List, [], ◌++◌, length, map};
ghost use Rattle.std.specs.List.{All};
ghost use Rattle.pec_types.specs.Bytes.{Bytes};
ghost use Rattle.pec_journal.specs.JournalFile.{front};
ghost use Rattle.pec_records.specs.declared.entries.Entry.{Entry};
ghost use Rattle.pec_records.specs.Entry.{CanBeWritten, entry_text};
ghost use Rattle.pec_ledger.specs.Half.{start_of_entries};
ghost use Rattle.pec_ledger.specs.Steps.{size_of};
ghost use Rattle.pec_chronicle.specs.Carrying.{with_entry};
ghost use Rattle.pec_chronicle.specs.Chronicle.{IsJournalOf};

use pec_journal::a_file_has_one_list;
use pec_records::one_entry;

/// Where the journal of entries ends: with none behind its header, and with each more that entry's size behind.
pub fn a_journal_ends_behind_its_entries()
    ensures none { length (front []) ≡ start_of_entries }
    ensures more { (entries : List Entry) (entry : Entry) → length (front (map entry_text (with_entry entries entry))) ≡
        length (front (map entry_text entries)) + size_of entry }
{}

/// Bytes are the journal of one list of entries at most.
pub fn a_disk_holds_one_list()
    ensures { (one other : List Entry) (bytes : List ℕ) → IsJournalOf one bytes → IsJournalOf other bytes →
        one ≡ other }
{
    one_entry();
    a_file_has_one_list();
}

/// Where the texts of entries begin with those of others, the entries begin with the others.
pub fn texts_are_of_one_list()
    ensures { (list read : List Entry) (more : List Bytes) → map entry_text list ≡ map entry_text read ++ more →
        All CanBeWritten list → All CanBeWritten read →
        (rest : List Entry) × (list ≡ read ++ rest) × (more ≡ map entry_text rest) }
{
    one_entry();
}
