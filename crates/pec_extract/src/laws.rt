ghost use Rattle.std.specs.Prelude.{◌≡◌, ℕ, ◌+◌, ◌∷◌, List, codes};
ghost use Rattle.std.specs.List.{AllByRecursion};
ghost use Rattle.pec_directory.specs.Directory.{Provider};
ghost use Rattle.pec_records.specs.declared.entries.Entry.{Entry};
ghost use Rattle.pec_ledger.specs.Ledger.{Fit};
ghost use Rattle.pec_ledger.specs.Network.{journals_in};
ghost use Rattle.pec_ledger.specs.Trade.{Trade};
ghost use Rattle.pec_ledger.specs.TradeLaws.{IsTrade};
ghost use Rattle.pec_chronicle.specs.Carrying.{CarriesOn, NothingMay};
ghost use Rattle.pec_chronicle.specs.Chronicle.{ChronicleState};
ghost use Rattle.pec_extract.specs.Logs.{IsChangedIn, all_totals, log_records, log_text};
ghost use Rattle.pec_extract.specs.Records.{HasFields, Record, header, record_text, records_in, records_text};

use pec_outside::Disk;
use pec_provider::nothing_has_changed;

/// The law of extracts that are read: where the header was written and then records of one field or more, the usual
/// reader of CSV finds these records and no others. The header is one line.
pub fn an_extract_is_read_back()
    ensures read { (rows : List Record) → AllByRecursion HasFields rows
        → records_in (records_text (header ∷ rows)) ≡ header ∷ rows }
    ensures line { record_text header ≡ codes "provider,entry,moment,event,id,sender,recipients,subject,detail\n" }
{}

/// The law of the extract of all logs: the usual reader of CSV finds its records in its text, and no others; and each pair
/// that was accepted is known as delivered, as refused, or as neither.
pub fn a_log_is_read_back()
    ensures read { (trade : Trade) (providers : List Provider) (from upto : ℕ) (journals : List (List Entry))
        → records_in (log_text trade providers from upto journals) ≡ log_records trade providers from upto journals }
    ensures totals { (trade : Trade) (from upto : ℕ) (journals : List (List Entry))
        → (all_totals trade from upto journals).accepted ≡ (all_totals trade from upto journals).delivered
        + (all_totals trade from upto journals).refused + (all_totals trade from upto journals).pending }
{
    an_extract_is_read_back();
}

/// In journals that are Fit each message that was taken has its envelope. So over disks that tell what they hold, and on
/// which what is kept stands, `Changed` never comes.
pub fn no_log_has_changed()
    ensures { (trade : Trade) → IsTrade trade → (journals : List (List Entry)) → Fit trade (journals_in journals)
        → (number : ℕ) → IsChangedIn trade journals number → ⊥ }
{
    nothing_has_changed();
}

/// What isn't touched carries on.
pub(crate) fn what_rests_carries_on<D: Disk>()
    ensures { D.tells → (state : ChronicleState D) → CarriesOn D.sight NothingMay state state }
{}
